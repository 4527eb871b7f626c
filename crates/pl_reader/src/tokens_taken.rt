//! One token after another.
ghost use Rattle.std.specs.Prelude.{◌≡◌, ℕ, suc, ◌<◌, List, ◌∷◌, Option, OnOk, IfOk, false};
ghost use Rattle.text_model.specs.Tokens.{Token as ModelToken};
ghost use Rattle.text_model.specs.Grammar.{Parse};
ghost use Rattle.text_model.specs.Reading.{peek, peek_second, move};
ghost use Rattle.pl_ops.specs.Tables.{Operators, operator};
ghost use Rattle.pl_atoms.specs.Names.{IsFront};
ghost use Rattle.pl_tokens.specs.Views.{kind_view, token_view};
ghost use Rattle.pl_reader.specs.Runs.{IsSmall};
ghost use Rattle.pl_reader.specs.Standing.{AreNames};
ghost use Rattle.pl_reader.specs.Moves.{MoveIs, TokenIs, SymbolIs, IsNoCodeText, kind_text, place_of};
ghost use Rattle.pl_reader.specs.Numbering.{IsPaired, met, met_after, lexeme_at, numbered_from};
ghost use Rattle.pl_reader.specs.Reads.{Goes, Follows, Agrees, IsKnown};
ghost use Rattle.pl_reader.specs.declared.machine.Stepped.TheVariants.{Fails};
ghost use Rattle.pl_reader.specs.declared.machine.Entry.{Entry};
ghost use Rattle.pl_reader.specs.declared.machine.Context.{Context};
ghost use Rattle.pl_reader.specs.declared.classes.Symbol.TheVariants.{CodeText};

use crate::classes::{ItemMove, Symbol, operand_move, operator_move};
use crate::codes::take_codes;
use crate::machine::{Context, Entry, GrammarNames, Stepped, take_item};
use crate::variables::Variables;
use pl_atoms::{Names, NoMemory};
use pl_ops::OpTable;
use pl_terms::Cell;
use pl_tokens::{Token, TokenKind};

/// How many tokens more the last item takes, whether a term is to come after it, and where it led.
#[derive(Debug, Clone, Copy)]
pub struct ReadState {
    pub more: u8,
    pub to_operand: bool,
    pub last: Stepped,
}

/// There is no term.
fn failed() -> ReadState
    ensures { result ≡ record { more = 0; to_operand = false; last = Fails } }
{
    ReadState {
        more: 0,
        to_operand: false,
        last: Stepped::Fails,
    }
}

/// The text of a token, where it has one.
fn text_of(token: &Token) -> &[u8]
    ensures { result.now ≡ kind_text token.now.kind }
{
    match &token.kind {
        TokenKind::Name(text) => text.as_slice(),
        TokenKind::Quoted(text) => text.as_slice(),
        TokenKind::Var(text) => text.as_slice(),
        TokenKind::Codes(text) => text.as_slice(),
        _ => &[],
    }
}

/// What a token is, with its name put into the table and its variable numbered.
fn symbol_of(
    token: &Token,
    names: &mut Names,
    variables: &mut Variables,
) -> Result<Symbol, NoMemory>
    requires { IsPaired variables.old }
    ensures symbol { IfOk result (λ r. (num : List ℕ → ℕ) → Agrees num names.new → SymbolIs num r (kind_text token.now.kind) (lexeme_at (met variables.old) (kind_view token.now.kind))) }
    ensures met { OnOk result (met variables.new ≡ met_after (met variables.old) (kind_view token.now.kind)) }
    ensures paired { OnOk result (IsPaired variables.new) }
    ensures known { OnOk result (IsKnown names.new (kind_view token.now.kind)) }
    ensures front { IsFront names.old names.new }
{
    match &token.kind {
        TokenKind::Name(text) => {
            let id = names.intern(text.as_slice())?;
            Ok(Symbol::Word(id))
        }
        TokenKind::Quoted(text) => {
            let id = names.intern(text.as_slice())?;
            Ok(Symbol::QuotedWord(id))
        }
        TokenKind::Var(text) => {
            let number = variables.number(text.as_slice())?;
            Ok(Symbol::Variable(number))
        }
        TokenKind::Int(n) => Ok(Symbol::Number(*n)),
        TokenKind::Codes(_) => Ok(Symbol::CodeText),
        TokenKind::Punct(c) => Ok(Symbol::Mark(*c)),
        TokenKind::End => Ok(Symbol::Stop),
    }
}

/// The item of a token, by its place.
fn move_of(
    symbol: Symbol,
    text: &[u8],
    to_operand: bool,
    next: &Token,
    after_next: &Token,
    table: &OpTable,
    names: GrammarNames,
) -> Option<ItemMove>
    requires single { IsNoCodeText symbol }
    requires small { IsSmall next.now.kind }
    ensures { (num : List ℕ → ℕ) (s t u : ModelToken ℕ) →
        AreNames num names → SymbolIs num symbol text.now s.lexeme → TokenIs next.now t → TokenIs after_next.now u →
        MoveIs num result (move (operator table.now) (place_of to_operand) s t u) }
{
    if to_operand {
        operand_move(symbol, text, next, after_next, table, names)
    } else {
        operator_move(symbol, text, table)
    }
}

/// A text of codes.
fn take_text(
    text: &[u8],
    state: ReadState,
    names: GrammarNames,
    out: &mut Vec<Cell>,
) -> Result<ReadState, NoMemory>
    requires { state.more ≡ 0 }
    ensures { IfOk result (λ r. (num : List ℕ → ℕ) (look : Operators) (t following : ModelToken ℕ) (ts : List (ModelToken ℕ)) (whole : Option Parse) (stack : List Entry) (contexts : List Context) →
        AreNames num names →
        SymbolIs num CodeText text.now t.lexeme →
        Goes num look following whole state (t ∷ ts) stack contexts out.old.items →
        Goes num look following whole r ts stack contexts out.new.items) }
{
    if state.to_operand {
        let last = take_codes(text, state.last, names, out)?;
        Ok(ReadState {
            more: 0,
            to_operand: false,
            last,
        })
    } else {
        Ok(failed())
    }
}

/// The next token that the last item hasn't taken, as a symbol with its text.
fn take_symbol(
    symbol: Symbol,
    text: &[u8],
    next: &Token,
    after_next: &Token,
    state: ReadState,
    table: &OpTable,
    names: GrammarNames,
    contexts: &mut Vec<Context>,
    waiting: &mut Vec<Entry>,
    out: &mut Vec<Cell>,
) -> Result<ReadState, NoMemory>
    requires ready { state.more ≡ 0 }
    requires small { IsSmall next.now.kind }
    ensures { IfOk result (λ r. (num : List ℕ → ℕ) (t following : ModelToken ℕ) (ts : List (ModelToken ℕ)) (whole : Option Parse) →
        AreNames num names →
        SymbolIs num symbol text.now t.lexeme →
        TokenIs next.now (peek (operator table.now) ts following) →
        TokenIs after_next.now (peek_second (operator table.now) ts following) →
        Goes num (operator table.now) following whole state (t ∷ ts) waiting.old.items contexts.old.items out.old.items →
        Goes num (operator table.now) following whole r ts waiting.new.items contexts.new.items out.new.items) }
{
    if let Symbol::CodeText = symbol {
        let taken = take_text(text, state, names, out)?;
        return Ok(taken);
    }
    match move_of(
        symbol,
        text,
        state.to_operand,
        next,
        after_next,
        table,
        names,
    ) {
        None => Ok(failed()),
        Some(moved) => {
            let last = take_item(moved.item, state.last, names, contexts, waiting, out)?;
            Ok(ReadState {
                more: moved.more,
                to_operand: moved.to_operand,
                last,
            })
        }
    }
}

/// One token more that the last item takes.
fn pass(state: ReadState) -> ReadState
    requires { 0 < state.more }
    ensures more { state.more ≡ suc result.more }
    ensures to_operand { result.to_operand ≡ state.to_operand }
    ensures last { result.last ≡ state.last }
{
    ReadState {
        more: state.more - 1,
        to_operand: state.to_operand,
        last: state.last,
    }
}

/// The next token.
pub fn take_token(
    token: &Token,
    next: &Token,
    after_next: &Token,
    state: ReadState,
    table: &OpTable,
    grammar: GrammarNames,
    names: &mut Names,
    variables: &mut Variables,
    contexts: &mut Vec<Context>,
    waiting: &mut Vec<Entry>,
    out: &mut Vec<Cell>,
) -> Result<ReadState, NoMemory>
    requires paired { IsPaired variables.old }
    requires small { IsSmall next.now.kind }
    ensures goes { IfOk result (λ r. (num : List ℕ → ℕ) (following : ModelToken ℕ) (ts : List (ModelToken (List ℕ))) (whole : Option Parse) →
        Agrees num names.new →
        AreNames num grammar →
        Follows (operator table.now) next.now after_next.now ts following →
        Goes num (operator table.now) following whole state (numbered_from (met variables.old) (token_view token.now ∷ ts)).tokens waiting.old.items contexts.old.items out.old.items →
        Goes num (operator table.now) following whole r (numbered_from (met variables.new) ts).tokens waiting.new.items contexts.new.items out.new.items) }
    ensures met { OnOk result (met variables.new ≡ met_after (met variables.old) (kind_view token.now.kind)) }
    ensures paired { OnOk result (IsPaired variables.new) }
    ensures known { OnOk result (IsKnown names.new (kind_view token.now.kind)) }
    ensures front { IsFront names.old names.new }
{
    let symbol = symbol_of(token, names, variables)?;
    if state.more > 0 {
        return Ok(pass(state));
    }
    let text = text_of(token);
    let taken = take_symbol(
        symbol, text, next, after_next, state, table, grammar, contexts, waiting, out,
    )?;
    Ok(taken)
}
