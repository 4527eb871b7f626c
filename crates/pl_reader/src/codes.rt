//! Double-quoted texts: lists of their characters' codes.
ghost use Rattle.std.specs.Prelude.{◌≡◌, ◌≤◌, ◌<◌, ◌+◌, ◌*◌, ◌-◌, ◌++◌, ◌∷◌, [], ℕ, List, length, IfOk, Option};
ghost use Rattle.std.specs.Str.{chars, continuation_len, lead_bits};
ghost use Rattle.text_model.specs.Grammar.{Parse, Item, operand, list_to, empty_list};
ghost use Rattle.text_model.specs.Reading.{code_list};
ghost use Rattle.pl_ops.specs.Tables.{Operators};
ghost use Rattle.pl_reader.specs.CodeTexts.{code_cells};
ghost use Rattle.pl_reader.specs.Standing.{AreNames, Steps};
ghost use Rattle.pl_reader.specs.Stands.{behind};
ghost use Rattle.pl_reader.specs.declared.machine.Entry.{Entry};
ghost use Rattle.pl_reader.specs.declared.machine.Context.{Context};

use crate::machine::{GrammarNames, LastTerm, Stepped, one_more, push_dots};
use pl_atoms::NoMemory;
use pl_terms::Cell;

/// A character of which so many bytes are still to come, and the bits of those that have come.
#[derive(Debug, Clone, Copy)]
pub struct Partial {
    pub missing: u8,
    pub bits: u32,
    ghost few: { missing ≤ 3 },
    ghost whole: { bits < 5000000 },
    ghost lacks_one: { 0 < missing → bits < 74000 },
    ghost lacks_two: { 1 < missing → bits < 1152 },
    ghost lacks_three: { 2 < missing → bits < 16 },
}

/// A character by its first byte.
fn begun(byte: u8) -> Partial
    ensures missing { result.missing ≡ continuation_len byte }
    ensures bits { result.bits ≡ lead_bits byte }
{
    if byte < 128 {
        Partial {
            missing: 0,
            bits: u32::from(byte),
        }
    } else if byte < 224 {
        Partial {
            missing: 1,
            bits: u32::from(byte.saturating_sub(192)),
        }
    } else if byte < 240 {
        Partial {
            missing: 2,
            bits: u32::from(byte - 224),
        }
    } else {
        Partial {
            missing: 3,
            bits: u32::from(byte - 240),
        }
    }
}

/// One byte more of a character.
fn continued(partial: Partial, byte: u8) -> Partial
    requires { 0 < partial.missing }
    ensures missing { result.missing + 1 ≡ partial.missing }
    ensures bits { result.bits ≡ partial.bits * 64 + (byte - 128) }
{
    Partial {
        missing: partial.missing - 1,
        bits: partial.bits * 64 + u32::from(byte.saturating_sub(128)),
    }
}

fn push_code(out: &mut Vec<Cell>, code: u32) -> Result<(), NoMemory>
    ensures { IfOk result (λ _. out.new.items ≡ out.old.items ++ code_cells (code ∷ [])) }
{
    out.push(Cell::Int(i64::from(code)))?;
    Ok(())
}

/// Puts the codes of a text's characters last, and counts them.
fn push_codes(text: &[u8], out: &mut Vec<Cell>) -> Result<usize, NoMemory>
    ensures codes { IfOk result (λ _. out.new.items ≡ out.old.items ++ code_cells (chars text.now)) }
    ensures count { IfOk result (λ n. n ≡ length (chars text.now)) }
{
    let Some((first, rest)) = text.split_first() else {
        return Ok(0);
    };
    let mut partial = begun(*first);
    let mut count = 0usize;
    for byte in rest {
        if partial.missing == 0 {
            push_code(out, partial.bits)?;
            count = one_more(count)?;
            partial = begun(*byte);
        } else {
            partial = continued(partial, *byte);
        }
    }
    if partial.missing == 0 {
        push_code(out, partial.bits)?;
        count = one_more(count)?;
    }
    Ok(count)
}

/// Puts the list of a text's codes last, each compound behind its arguments.
fn push_code_list(text: &[u8], names: GrammarNames, out: &mut Vec<Cell>) -> Result<(), NoMemory>
    ensures { IfOk result (λ _. (num : List ℕ → ℕ) (look : Operators) → AreNames num names →
        out.new.items ≡ out.old.items ++ behind num (list_to (code_list look (chars text.now)) empty_list)) }
{
    let count = push_codes(text, out)?;
    out.push(Cell::Name(names.nil))?;
    push_dots(out, names.dot, count)?;
    Ok(())
}

/// A text of codes, wherever it stands.
pub fn take_codes(
    text: &[u8],
    last: Stepped,
    names: GrammarNames,
    out: &mut Vec<Cell>,
) -> Result<Stepped, NoMemory>
    ensures { IfOk result (λ r. (num : List ℕ → ℕ) (look : Operators) (onward : List Item → Option Parse) (stack : List Entry) (contexts : List Context) →
        AreNames num names →
        Steps num onward last stack contexts out.old.items →
        Steps num (λ is. onward (operand (list_to (code_list look (chars text.now)) empty_list) ∷ is)) r stack contexts out.new.items) }
{
    match last {
        Stepped::ToOperand => {
            push_code_list(text, names, out)?;
            Ok(Stepped::ToOperator(LastTerm {
                priority: 0,
                weight: 0,
            }))
        }
        Stepped::Fails => Ok(Stepped::Fails),
        Stepped::ToOperator(_) => Ok(Stepped::Fails),
    }
}
