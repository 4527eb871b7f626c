ghost use Rattle.std.specs.Prelude.{◌≡◌, ◌+◌, ◌*◌, ◌≤◌, ◌<◌, ◌∷◌, ◌++◌, [], ℕ, List, Option, IfOk, IfNone, IfSome, Some, None, IsTrue, ◌↔◌, codes, take, length, ◌-◌, slice_index_or};
ghost use Rattle.text_model.specs.Grammar.{Parse, Item, right_weight, left_weight};
ghost use Rattle.pl_ops.specs.declared.op.Op.{Op as Operator};
ghost use Rattle.pl_reader.specs.declared.machine.Entry.TheVariants.{Mark};
ghost use Rattle.pl_reader.specs.declared.machine.Stepped.TheVariants.{Fails, ToOperand};
ghost use Rattle.std.specs.Prelude.{if◌then◌else◌};
ghost use Rattle.pl_reader.specs.Machine.{opening};
ghost use Rattle.pl_reader.specs.Machine.{Frame, Context as Opened, Open, run, parsed, after_comma, after_bar};
ghost use Rattle.pl_reader.specs.Stands.{id, output};
ghost use Rattle.pl_reader.specs.Standing.{StandsAfter, StandsBefore, StandsOpen, ClosesWithin, ClosesAll, ClosesLeft, Makes, Joins, EndsTerm, EndsWhole, innermost, contexts_of, CommaDoes, BarDoes, GoesOn, entry_of, context_of, ends_bracket, bracket_of, greatest_inside, dots, bracketed, AreNames, Brackets, ClosesBracket, after_bracket, open_out, ItemIs, Steps, Finishes};

use pl_atoms::{NameId, NoMemory};
use pl_ops::{Kind, Op};
use pl_terms::Cell;
use std::alloc::Global;

/// An operator that waits for its last operand, or the mark of an open bracket.
#[derive(Debug, Clone, Copy)]
pub enum Entry {
    Waits(Op, NameId, u8),
    Mark,
}

/// An open bracket, with the number of terms in it that are done.
#[derive(Debug, Clone, Copy)]
pub enum Context {
    Round,
    Curly,
    Call(NameId, usize),
    List(usize),
    Tail(usize),
}

/// How strongly the last term binds.
#[derive(Debug, Clone, Copy)]
pub struct LastTerm {
    pub priority: u16,
    pub weight: u32,
}

fn right_weight(op: Op) -> u32
    ensures { result ≡ right_weight op }
{
    let right_y = match op.kind {
        Kind::Xfy => 1,
        Kind::Fy => 1,
        _ => 0,
    };
    2 * u32::from(op.priority) + right_y
}

fn left_weight(op: Op) -> u32
    ensures { result ≡ left_weight op }
{
    let left_y = match op.kind {
        Kind::Yfx => 1,
        Kind::Yf => 1,
        _ => 0,
    };
    2 * u32::from(op.priority) + left_y
}

fn is_below(priority: u16, weight: u32) -> bool
    ensures { IsTrue result ↔ (2 * priority < weight) }
{
    2 * u32::from(priority) < weight
}

/// Closes the operators that are within a left operand of an operator of that priority, up to the last mark; None where one has
/// too wide an operand.
fn close(
    limit: u16,
    waiting: &mut Vec<Entry>,
    out: &mut Vec<Cell>,
    top: LastTerm,
) -> Result<Option<LastTerm>, NoMemory>
    ensures { IfOk result (λ r. (num : List ℕ → ℕ) (cs : List Opened) (fs : List Frame) (e : Parse) →
        StandsAfter num cs fs e waiting.old.items out.old.items top →
        ClosesWithin num limit cs fs e r waiting.new.items out.new.items) }
{
    let mut priority = top.priority;
    let mut weight = top.weight;
    'closing: while let Some(last) = waiting.last() {
        let last = *last;
        let (op, name, arity) = match last {
            Entry::Waits(op, name, arity) => (op, name, arity),
            Entry::Mark => break,
        };
        let op_weight = right_weight(op);
        if is_below(limit, op_weight) {
            break;
        }
        if !is_below(priority, op_weight) {
            return Ok(None);
        }
        waiting.pop();
        out.push(Cell::Comp(name, arity))?;
        priority = op.priority;
        weight = op_weight;
    }
    Ok(Some(LastTerm { priority, weight }))
}

/// Closes all operators up to the last mark; None where one has too wide an operand.
fn close_all(
    waiting: &mut Vec<Entry>,
    out: &mut Vec<Cell>,
    top: LastTerm,
) -> Result<Option<LastTerm>, NoMemory>
    ensures { IfOk result (λ r. (num : List ℕ → ℕ) (cs : List Opened) (fs : List Frame) (e : Parse) →
        StandsAfter num cs fs e waiting.old.items out.old.items top →
        ClosesAll num cs fs e r waiting.new.items out.new.items) }
{
    let mut priority = top.priority;
    let mut weight = top.weight;
    'closing: while let Some(last) = waiting.last() {
        let last = *last;
        let (op, name, arity) = match last {
            Entry::Waits(op, name, arity) => (op, name, arity),
            Entry::Mark => break,
        };
        let op_weight = right_weight(op);
        if !is_below(priority, op_weight) {
            return Ok(None);
        }
        waiting.pop();
        out.push(Cell::Comp(name, arity))?;
        priority = op.priority;
        weight = op_weight;
    }
    Ok(Some(LastTerm { priority, weight }))
}

/// Closes what an operator with a left operand closes; None where that operand is too wide.
fn close_left(
    op: Op,
    waiting: &mut Vec<Entry>,
    out: &mut Vec<Cell>,
    top: LastTerm,
) -> Result<Option<LastTerm>, NoMemory>
    ensures { IfOk result (λ r. (num : List ℕ → ℕ) (cs : List Opened) (fs : List Frame) (e : Parse) →
        StandsAfter num cs fs e waiting.old.items out.old.items top →
        ClosesLeft num op cs fs e r waiting.new.items out.new.items) }
{
    let closed = close(op.priority, waiting, out, top)?;
    match closed {
        None => Ok(None),
        Some(last) => {
            if last.weight < left_weight(op) {
                Ok(Some(last))
            } else {
                Ok(None)
            }
        }
    }
}

/// An operator between two operands; false where its left operand is too wide.
fn join(
    op: Op,
    name: NameId,
    waiting: &mut Vec<Entry>,
    out: &mut Vec<Cell>,
    top: LastTerm,
) -> Result<bool, NoMemory>
    ensures { IfOk result (λ r. (num : List ℕ → ℕ) (cs : List Opened) (fs : List Frame) (e : Parse) (frame : Parse → Frame) →
        Makes num op name frame →
        StandsAfter num cs fs e waiting.old.items out.old.items top →
        Joins num op frame cs fs e r waiting.new.items out.new.items) }
{
    let closed = close_left(op, waiting, out, top)?;
    match closed {
        None => Ok(false),
        Some(_) => {
            waiting.push(Entry::Waits(op, name, 2))?;
            Ok(true)
        }
    }
}

/// A postfix operator; None where its operand is too wide.
fn postfix(
    op: Op,
    name: NameId,
    waiting: &mut Vec<Entry>,
    out: &mut Vec<Cell>,
    top: LastTerm,
) -> Result<Option<LastTerm>, NoMemory>
    ensures { IfOk result (λ r. (num : List ℕ → ℕ) (cs : List Opened) (fs : List Frame) (e : Parse) (s : List ℕ) →
        name ≡ id num s →
        StandsAfter num cs fs e waiting.old.items out.old.items top →
        EndsTerm num op s cs fs e r waiting.new.items out.new.items) }
{
    let closed = close_left(op, waiting, out, top)?;
    match closed {
        None => Ok(None),
        Some(_) => {
            out.push(Cell::Comp(name, 1))?;
            Ok(Some(LastTerm {
                priority: op.priority,
                weight: right_weight(op),
            }))
        }
    }
}

/// Ends a whole term of at most that priority; false where it is none.
fn end_term(
    max: u16,
    waiting: &mut Vec<Entry>,
    out: &mut Vec<Cell>,
    top: LastTerm,
) -> Result<bool, NoMemory>
    ensures { IfOk result (λ r. (num : List ℕ → ℕ) (cs : List Opened) (fs : List Frame) (e : Parse) →
        StandsAfter num cs fs e waiting.old.items out.old.items top →
        EndsWhole num max cs fs e r waiting.new.items out.new.items) }
{
    let closed = close_all(waiting, out, top)?;
    match closed {
        None => Ok(false),
        Some(last) => Ok(last.priority <= max),
    }
}

/// What a comma does in a bracket.
#[derive(Debug, Clone, Copy)]
pub enum CommaKind {
    Joining,
    Argument(Context),
    Misplaced,
}

fn innermost(contexts: &[Context]) -> Option<Context>
    ensures { (num : List ℕ → ℕ) (cs : List Opened) → contexts.now ≡ contexts_of num cs → result ≡ innermost num cs }
{
    if contexts.len() == 0 {
        None
    } else {
        Some(contexts[contexts.len() - 1])
    }
}

/// One more, out of memory where the count is at its end.
pub(crate) fn one_more(n: usize) -> Result<usize, NoMemory>
    ensures { IfOk result (λ m. m ≡ n + 1) }
{
    match n.checked_add(1) {
        Some(m) => Ok(m),
        None => Err(NoMemory),
    }
}

fn comma_kind(context: Option<Context>) -> Result<CommaKind, NoMemory>
    ensures { IfOk result (λ k. (num : List ℕ → ℕ) (cs : List Opened) → context ≡ innermost num cs → CommaDoes num cs k) }
{
    let Some(inner) = context else {
        return Ok(CommaKind::Joining);
    };
    match inner {
        Context::Round => Ok(CommaKind::Joining),
        Context::Curly => Ok(CommaKind::Joining),
        Context::Call(name, n) => Ok(CommaKind::Argument(Context::Call(name, one_more(n)?))),
        Context::List(n) => Ok(CommaKind::Argument(Context::List(one_more(n)?))),
        Context::Tail(_) => Ok(CommaKind::Misplaced),
    }
}

fn bar_kind(context: Option<Context>) -> Option<Context>
    ensures { (num : List ℕ → ℕ) (cs : List Opened) → context ≡ innermost num cs → BarDoes num cs result }
{
    let Some(inner) = context else {
        return None;
    };
    match inner {
        Context::List(n) => Some(Context::Tail(n)),
        _ => None,
    }
}

/// Puts another bracket in place of the innermost.
fn replace_innermost(contexts: &mut Vec<Context>, context: Context) -> Result<(), NoMemory>
    ensures { IfOk result (λ _. contexts.new.items ≡ take (length contexts.old.items - 1) contexts.old.items ++ context ∷ []) }
{
    contexts.pop();
    contexts.push(context)?;
    Ok(())
}

/// A comma after a whole term; false where none may stand.
fn comma(
    comma_name: NameId,
    contexts: &mut Vec<Context>,
    waiting: &mut Vec<Entry>,
    out: &mut Vec<Cell>,
    top: LastTerm,
) -> Result<bool, NoMemory>
    ensures { IfOk result (λ r. (num : List ℕ → ℕ) (cs : List Opened) (fs : List Frame) (e : Parse) →
        comma_name ≡ id num (codes ",") →
        contexts.old.items ≡ contexts_of num cs →
        StandsAfter num cs fs e waiting.old.items out.old.items top →
        GoesOn num (after_comma cs fs e) r waiting.new.items contexts.new.items out.new.items) }
{
    let inner = innermost(contexts.as_slice());
    let kind = comma_kind(inner)?;
    match kind {
        CommaKind::Joining => {
            let op = Op {
                priority: 1000,
                kind: Kind::Xfy,
            };
            let joined = join(op, comma_name, waiting, out, top)?;
            Ok(joined)
        }
        CommaKind::Argument(context) => {
            let ended = end_term(999, waiting, out, top)?;
            if ended {
                replace_innermost(contexts, context)?;
                Ok(true)
            } else {
                Ok(false)
            }
        }
        CommaKind::Misplaced => Ok(false),
    }
}

/// A bar after a whole term; false where none may stand.
fn bar(
    contexts: &mut Vec<Context>,
    waiting: &mut Vec<Entry>,
    out: &mut Vec<Cell>,
    top: LastTerm,
) -> Result<bool, NoMemory>
    ensures { IfOk result (λ r. (num : List ℕ → ℕ) (cs : List Opened) (fs : List Frame) (e : Parse) →
        contexts.old.items ≡ contexts_of num cs →
        StandsAfter num cs fs e waiting.old.items out.old.items top →
        GoesOn num (after_bar cs fs e) r waiting.new.items contexts.new.items out.new.items) }
{
    let inner = innermost(contexts.as_slice());
    match bar_kind(inner) {
        Some(context) => {
            let ended = end_term(999, waiting, out, top)?;
            if ended {
                replace_innermost(contexts, context)?;
                Ok(true)
            } else {
                Ok(false)
            }
        }
        None => Ok(false),
    }
}

/// The names that the grammar itself gives to terms.
#[derive(Debug, Clone, Copy)]
pub struct GrammarNames {
    pub comma: NameId,
    pub nil: NameId,
    pub curly: NameId,
    pub dot: NameId,
}

/// The brackets of a pair.
#[derive(Debug, Clone, Copy)]
pub enum BracketKind {
    RoundPair,
    CurlyPair,
    SquarePair,
}

/// Whether a closing bracket ends the open one.
fn ends_bracket(bracket: BracketKind, context: Context) -> bool
    ensures { (num : List ℕ → ℕ) (o : Open) → context ≡ context_of num o → result ≡ ends_bracket (bracket_of bracket) o }
{
    match context {
        Context::Round => matches!(bracket, BracketKind::RoundPair),
        Context::Curly => matches!(bracket, BracketKind::CurlyPair),
        Context::Call(_, _) => matches!(bracket, BracketKind::RoundPair),
        Context::List(_) => matches!(bracket, BracketKind::SquarePair),
        Context::Tail(_) => matches!(bracket, BracketKind::SquarePair),
    }
}

fn greatest_inside(context: Context) -> u16
    ensures { (num : List ℕ → ℕ) (o : Open) → context ≡ context_of num o → result ≡ greatest_inside o }
{
    match context {
        Context::Round => 1200,
        Context::Curly => 1200,
        _ => 999,
    }
}

pub(crate) fn push_dots(out: &mut Vec<Cell>, dot: NameId, n: usize) -> Result<(), NoMemory>
    ensures { IfOk result (λ _. out.new.items ≡ out.old.items ++ dots dot n) }
{
    for _ in 0..n {
        out.push(Cell::Comp(dot, 2))?;
    }
    Ok(())
}

/// Puts behind the last term in brackets what they make of it; false where a compound has too many arguments.
fn finish_bracket(
    context: Context,
    names: GrammarNames,
    out: &mut Vec<Cell>,
) -> Result<bool, NoMemory>
    ensures { IfOk result (λ r. (num : List ℕ → ℕ) (o : Open) (q : Parse) (b : List Cell) →
        AreNames num names → context ≡ context_of num o →
        out.old.items ≡ b ++ (open_out num o ++ output num q) →
        Brackets num o q b r out.new.items) }
{
    match context {
        Context::Round => Ok(true),
        Context::Curly => {
            out.push(Cell::Comp(names.curly, 1))?;
            Ok(true)
        }
        Context::Call(name, n) => {
            if n < 255 {
                out.push(Cell::Comp(name, n as u8 + 1))?;
                Ok(true)
            } else {
                Ok(false)
            }
        }
        Context::List(n) => {
            out.push(Cell::Name(names.nil))?;
            push_dots(out, names.dot, n)?;
            out.push(Cell::Comp(names.dot, 2))?;
            Ok(true)
        }
        Context::Tail(n) => {
            push_dots(out, names.dot, n)?;
            out.push(Cell::Comp(names.dot, 2))?;
            Ok(true)
        }
    }
}

/// A closing bracket after a term; false where it may not stand there.
fn close_bracket(
    bracket: BracketKind,
    names: GrammarNames,
    contexts: &mut Vec<Context>,
    waiting: &mut Vec<Entry>,
    out: &mut Vec<Cell>,
    top: LastTerm,
) -> Result<bool, NoMemory>
    ensures { IfOk result (λ r. (num : List ℕ → ℕ) (cs : List Opened) (fs : List Frame) (e : Parse) →
        AreNames num names →
        contexts.old.items ≡ contexts_of num cs →
        StandsAfter num cs fs e waiting.old.items out.old.items top →
        ClosesBracket num (after_bracket (bracket_of bracket) cs fs e) r waiting.new.items contexts.new.items out.new.items) }
{
    let Some(context) = innermost(contexts.as_slice()) else {
        return Ok(false);
    };
    if !ends_bracket(bracket, context) {
        return Ok(false);
    }
    let ended = end_term(greatest_inside(context), waiting, out, top)?;
    if !ended {
        return Ok(false);
    }
    let fits = finish_bracket(context, names, out)?;
    if !fits {
        return Ok(false);
    }
    waiting.pop();
    contexts.pop();
    Ok(true)
}

/// One item of a run, as the parser takes it.
#[derive(Debug, Clone, Copy)]
pub enum ParseItem {
    Operand(Cell),
    Before(Op, NameId),
    Between(Op, NameId),
    After(Op, NameId),
    Comma,
    Bar,
    Calls(NameId),
    Opens(BracketKind),
    Closes(BracketKind),
}

/// Where an item leads.
#[derive(Debug, Clone, Copy)]
pub enum Stepped {
    Fails,
    ToOperand,
    ToOperator(LastTerm),
}

/// Opens a bracket.
fn open(
    context: Context,
    contexts: &mut Vec<Context>,
    waiting: &mut Vec<Entry>,
) -> Result<(), NoMemory>
    ensures stack { IfOk result (λ _. waiting.new.items ≡ waiting.old.items ++ Mark ∷ []) }
    ensures contexts { IfOk result (λ _. contexts.new.items ≡ contexts.old.items ++ context ∷ []) }
{
    waiting.push(Entry::Mark)?;
    contexts.push(context)?;
    Ok(())
}

fn opening(bracket: BracketKind) -> Context
    ensures { (num : List ℕ → ℕ) → result ≡ context_of num (opening (bracket_of bracket)) }
{
    match bracket {
        BracketKind::RoundPair => Context::Round,
        BracketKind::CurlyPair => Context::Curly,
        BracketKind::SquarePair => Context::List(0),
    }
}

/// An item where a term is to come.
fn take_operand(
    item: ParseItem,
    contexts: &mut Vec<Context>,
    waiting: &mut Vec<Entry>,
    out: &mut Vec<Cell>,
) -> Result<Stepped, NoMemory>
    ensures { IfOk result (λ r. (num : List ℕ → ℕ) (cs : List Opened) (fs : List Frame) (i : Item) →
        ItemIs num item i →
        StandsOpen num cs fs waiting.old.items contexts.old.items out.old.items →
        Steps num (λ is. run cs fs None (i ∷ is)) r waiting.new.items contexts.new.items out.new.items) }
{
    match item {
        ParseItem::Operand(cell) => {
            out.push(cell)?;
            Ok(Stepped::ToOperator(LastTerm {
                priority: 0,
                weight: 0,
            }))
        }
        ParseItem::Before(op, name) => {
            waiting.push(Entry::Waits(op, name, 1))?;
            Ok(Stepped::ToOperand)
        }
        ParseItem::Calls(name) => {
            open(Context::Call(name, 0), contexts, waiting)?;
            Ok(Stepped::ToOperand)
        }
        ParseItem::Opens(bracket) => {
            open(opening(bracket), contexts, waiting)?;
            Ok(Stepped::ToOperand)
        }
        ParseItem::Between(_, _) => Ok(Stepped::Fails),
        ParseItem::After(_, _) => Ok(Stepped::Fails),
        ParseItem::Comma => Ok(Stepped::Fails),
        ParseItem::Bar => Ok(Stepped::Fails),
        ParseItem::Closes(_) => Ok(Stepped::Fails),
    }
}

fn to_operand(went_on: bool) -> Stepped
    ensures { result ≡ (if went_on then ToOperand else Fails) }
{
    if went_on {
        Stepped::ToOperand
    } else {
        Stepped::Fails
    }
}

/// An item after a term.
fn take_operator(
    item: ParseItem,
    names: GrammarNames,
    contexts: &mut Vec<Context>,
    waiting: &mut Vec<Entry>,
    out: &mut Vec<Cell>,
    top: LastTerm,
) -> Result<Stepped, NoMemory>
    ensures { IfOk result (λ r. (num : List ℕ → ℕ) (cs : List Opened) (fs : List Frame) (e : Parse) (i : Item) →
        AreNames num names →
        ItemIs num item i →
        contexts.old.items ≡ contexts_of num cs →
        StandsAfter num cs fs e waiting.old.items out.old.items top →
        Steps num (λ is. run cs fs (Some e) (i ∷ is)) r waiting.new.items contexts.new.items out.new.items) }
{
    match item {
        ParseItem::Between(op, name) => {
            let went_on = join(op, name, waiting, out, top)?;
            Ok(to_operand(went_on))
        }
        ParseItem::After(op, name) => {
            let ended = postfix(op, name, waiting, out, top)?;
            match ended {
                None => Ok(Stepped::Fails),
                Some(last) => Ok(Stepped::ToOperator(last)),
            }
        }
        ParseItem::Comma => {
            let went_on = comma(names.comma, contexts, waiting, out, top)?;
            Ok(to_operand(went_on))
        }
        ParseItem::Bar => {
            let went_on = bar(contexts, waiting, out, top)?;
            Ok(to_operand(went_on))
        }
        ParseItem::Closes(bracket) => {
            let closed = close_bracket(bracket, names, contexts, waiting, out, top)?;
            if closed {
                Ok(Stepped::ToOperator(LastTerm {
                    priority: 0,
                    weight: 0,
                }))
            } else {
                Ok(Stepped::Fails)
            }
        }
        ParseItem::Operand(_) => Ok(Stepped::Fails),
        ParseItem::Before(_, _) => Ok(Stepped::Fails),
        ParseItem::Calls(_) => Ok(Stepped::Fails),
        ParseItem::Opens(_) => Ok(Stepped::Fails),
    }
}

/// The next item, wherever it stands.
pub(crate) fn take_item(
    item: ParseItem,
    last: Stepped,
    names: GrammarNames,
    contexts: &mut Vec<Context>,
    waiting: &mut Vec<Entry>,
    out: &mut Vec<Cell>,
) -> Result<Stepped, NoMemory>
    ensures { IfOk result (λ r. (num : List ℕ → ℕ) (onward : List Item → Option Parse) (i : Item) →
        AreNames num names →
        ItemIs num item i →
        Steps num onward last waiting.old.items contexts.old.items out.old.items →
        Steps num (λ is. onward (i ∷ is)) r waiting.new.items contexts.new.items out.new.items) }
{
    match last {
        Stepped::Fails => Ok(Stepped::Fails),
        Stepped::ToOperand => {
            let stepped = take_operand(item, contexts, waiting, out)?;
            Ok(stepped)
        }
        Stepped::ToOperator(top) => {
            let stepped = take_operator(item, names, contexts, waiting, out, top)?;
            Ok(stepped)
        }
    }
}

/// The end of the items.
pub(crate) fn take_end(
    last: Stepped,
    contexts: &[Context],
    waiting: &mut Vec<Entry>,
    out: &mut Vec<Cell>,
) -> Result<bool, NoMemory>
    ensures { IfOk result (λ r. (num : List ℕ → ℕ) (onward : List Item → Option Parse) →
        Steps num onward last waiting.old.items contexts.now out.old.items →
        Finishes num onward r out.new.items) }
{
    match last {
        Stepped::Fails => Ok(false),
        Stepped::ToOperand => Ok(false),
        Stepped::ToOperator(top) => {
            if contexts.len() > 0 {
                Ok(false)
            } else {
                let ended = end_term(1200, waiting, out, top)?;
                Ok(ended)
            }
        }
    }
}
