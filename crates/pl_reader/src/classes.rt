//! Which token is an operand, an operator or a bracket (ISO/IEC 13211-1, 6.3).
ghost use Rattle.std.specs.Prelude.{◌≡◌, ℕ, ◌≤◌, ◌^◌, List, ◌||◌, ◌&&◌, codes, true, false, is_some, Option, Some, None, MatchOption, if◌then◌else◌};
ghost use Rattle.text_model.specs.Tokens.{Lexeme, Token as ModelToken, name as word, integer, punctuation};
ghost use Rattle.text_model.specs.Reading.{is_special, is_call, is_closer, is_punct, prefix_of, infix_of, postfix_of, name_move, minus_move, negative, operator_named, operator_move, bracket_move, operand_move};
ghost use Rattle.pl_ops.specs.Tables.{Operators, operator, same_text};
ghost use Rattle.pl_reader.specs.Runs.{IsSmall};
ghost use Rattle.pl_reader.specs.Stands.{id};
ghost use Rattle.pl_reader.specs.Standing.{bracket_of, AreNames};
ghost use Rattle.pl_reader.specs.Moves.{MoveIs, TokenIs, SymbolIs, IsNoCodeText};
ghost use Rattle.pl_reader.specs.declared.machine.ParseItem.TheVariants.{Operand, After};
ghost use Rattle.pl_terms.specs.declared.cell.Cell.TheVariants.{Int, Name};

use crate::machine::{BracketKind, GrammarNames, ParseItem};
use pl_atoms::NameId;
use pl_ops::{Op, OpTable};
use pl_terms::Cell;
use pl_tokens::{Token, TokenKind};

/// An item, how many tokens more it takes, and whether a term is to come after it.
#[derive(Debug, Clone, Copy)]
pub struct ItemMove {
    pub item: ParseItem,
    pub more: u8,
    pub to_operand: bool,
}

/// What a token is, with numbers for names and variables.
#[derive(Debug, Clone, Copy)]
pub enum Symbol {
    Word(NameId),
    QuotedWord(NameId),
    Variable(usize),
    Number(u64),
    CodeText,
    Mark(u8),
    Stop,
}

/// Whether no operator has this name.
fn is_special(name: &[u8]) -> bool
    ensures { result ≡ is_special name.now }
{
    name == b",".as_slice()
        || name == b"[]".as_slice()
        || name == b"{}".as_slice()
        || name == b"|".as_slice()
}

fn prefix_of(name: &[u8], table: &OpTable) -> Option<Op>
    ensures { result ≡ prefix_of (operator table.now) name.now }
{
    if is_special(name) {
        None
    } else {
        table.prefix(name)
    }
}

fn infix_of(name: &[u8], table: &OpTable) -> Option<Op>
    ensures { result ≡ infix_of (operator table.now) name.now }
{
    if is_special(name) {
        None
    } else {
        table.infix(name)
    }
}

fn postfix_of(name: &[u8], table: &OpTable) -> Option<Op>
    ensures { result ≡ postfix_of (operator table.now) name.now }
{
    if is_special(name) {
        None
    } else {
        table.postfix(name)
    }
}

/// Whether the name is an infix or a postfix operator.
fn is_operator_after(name: &[u8], table: &OpTable) -> bool
    ensures { result ≡ (is_some (infix_of (operator table.now) name.now) || is_some (postfix_of (operator table.now) name.now)) }
{
    infix_of(name, table).is_some() || postfix_of(name, table).is_some()
}

fn is_punct(c: u8, token: &Token) -> bool
    ensures { (t : ModelToken ℕ) → TokenIs token.now t → result ≡ is_punct c t }
{
    match &token.kind {
        TokenKind::Punct(d) => *d == c,
        _ => false,
    }
}

/// Whether a name directly before the token is a function's.
fn is_call(token: &Token) -> bool
    ensures { (t : ModelToken ℕ) → TokenIs token.now t → result ≡ is_call t }
{
    token.direct && is_punct(b'(', token)
}

/// A closing bracket, a comma, a bar or the end.
fn is_closer(token: &Token) -> bool
    ensures { (t : ModelToken ℕ) → TokenIs token.now t → result ≡ is_closer t }
{
    match &token.kind {
        TokenKind::Punct(d) => is_closing_mark(*d),
        TokenKind::End => true,
        _ => false,
    }
}

fn is_closing_mark(c: u8) -> bool
    ensures { (t : ModelToken ℕ) → punctuation c ≡ t.lexeme → result ≡ is_closer t }
{
    c == b')' || c == b']' || c == b'}' || c == b',' || c == b'|'
}

/// A term of one cell.
fn leaf_move(cell: Cell) -> Option<ItemMove>
    ensures { result ≡ Some (record { item = Operand cell; more = 0; to_operand = false }) }
{
    Some(ItemMove {
        item: ParseItem::Operand(cell),
        more: 0,
        to_operand: false,
    })
}

/// An item before a term.
fn opening_move(item: ParseItem, more: u8) -> Option<ItemMove>
    ensures { result ≡ Some (record { item = item; more = more; to_operand = true }) }
{
    Some(ItemMove {
        item,
        more,
        to_operand: true,
    })
}

/// A name where a term is to come.
fn name_move(name: NameId, text: &[u8], next: &Token, table: &OpTable) -> Option<ItemMove>
    ensures { (num : List ℕ → ℕ) (t : ModelToken ℕ) →
        name ≡ id num text.now → TokenIs next.now t →
        MoveIs num result (name_move (operator table.now) text.now t) }
{
    if is_call(next) {
        return opening_move(ParseItem::Calls(name), 1);
    }
    if is_closer(next) {
        return leaf_move(Cell::Name(name));
    }
    match prefix_of(text, table) {
        Some(op) => opening_move(ParseItem::Before(op, name), 0),
        None => unless_operator(name, text, table),
    }
}

/// The atom of a name, where it is no infix or postfix operator.
fn unless_operator(name: NameId, text: &[u8], table: &OpTable) -> Option<ItemMove>
    ensures { result ≡ (if is_some (infix_of (operator table.now) text.now) || is_some (postfix_of (operator table.now) text.now) then None else Some (record { item = Operand (Name name); more = 0; to_operand = false })) }
{
    if is_operator_after(text, table) {
        None
    } else {
        leaf_move(Cell::Name(name))
    }
}

/// A number below zero, by its size.
fn negative(n: u64) -> i64
    requires { n ≤ 2 ^ 63 }
    ensures { (look : Operators) → result ≡ negative look n }
{
    if n == 0 { 0 } else { -1 - (n - 1) as i64 }
}

/// The negative of a number, where a minus sign stands directly before it.
fn minus_number(signed: bool, n: u64) -> Option<ItemMove>
    requires { n ≤ 2 ^ 63 }
    ensures { (look : Operators) → result ≡ (if signed then Some (record { item = Operand (Int (negative look n)); more = 1; to_operand = false }) else None) }
{
    if signed {
        Some(ItemMove {
            item: ParseItem::Operand(Cell::Int(negative(n))),
            more: 1,
            to_operand: false,
        })
    } else {
        None
    }
}

/// Whether the text is a minus sign that stands directly before the next token.
fn is_minus_before(text: &[u8], direct: bool) -> bool
    ensures { result ≡ (same_text text.now (codes "-") && direct) }
{
    direct && text == b"-".as_slice()
}

/// A minus sign directly before a number.
fn minus_move(text: &[u8], next: &Token) -> Option<ItemMove>
    requires { IsSmall next.now.kind }
    ensures { (num : List ℕ → ℕ) (look : Operators) (t : ModelToken ℕ) → TokenIs next.now t → MoveIs num result (minus_move look text.now t) }
{
    match &next.kind {
        TokenKind::Int(n) => minus_number(is_minus_before(text, next.direct), *n),
        _ => None,
    }
}

/// A name without quotes where a term is to come.
fn word_move(name: NameId, text: &[u8], next: &Token, table: &OpTable) -> Option<ItemMove>
    requires { IsSmall next.now.kind }
    ensures { (num : List ℕ → ℕ) (t u : ModelToken ℕ) →
        name ≡ id num text.now → TokenIs next.now t →
        MoveIs num result (operand_move (operator table.now) (word text.now) t u) }
{
    match minus_move(text, next) {
        Some(number) => Some(number),
        None => name_move(name, text, next, table),
    }
}

/// A number of a term, where it is below 2^63.
fn number_operand(n: u64) -> Option<ItemMove>
    ensures { (num : List ℕ → ℕ) (look : Operators) (t u : ModelToken ℕ) → MoveIs num result (operand_move look (integer n) t u) }
{
    if n < 9_223_372_036_854_775_808 {
        leaf_move(Cell::Int(n as i64))
    } else {
        None
    }
}

/// A pair of brackets with nothing between, or an opening one.
fn bracket_move(
    bracket: BracketKind,
    close: u8,
    name: NameId,
    next: &Token,
    after_next: &Token,
) -> Option<ItemMove>
    ensures { (num : List ℕ → ℕ) (look : Operators) (s : List ℕ) (t u : ModelToken ℕ) →
        name ≡ id num s → TokenIs next.now t → TokenIs after_next.now u →
        MoveIs num result (bracket_move look (bracket_of bracket) close s t u) }
{
    if is_punct(close, next) {
        if is_call(after_next) {
            opening_move(ParseItem::Calls(name), 2)
        } else {
            Some(ItemMove {
                item: ParseItem::Operand(Cell::Name(name)),
                more: 1,
                to_operand: false,
            })
        }
    } else {
        opening_move(ParseItem::Opens(bracket), 0)
    }
}

/// A mark where a term is to come.
fn open_move(c: u8, names: GrammarNames, next: &Token, after_next: &Token) -> Option<ItemMove>
    ensures { (num : List ℕ → ℕ) (look : Operators) (t u : ModelToken ℕ) →
        AreNames num names → TokenIs next.now t → TokenIs after_next.now u →
        MoveIs num result (operand_move look (punctuation c) t u) }
{
    match c {
        b'(' => opening_move(ParseItem::Opens(BracketKind::RoundPair), 0),
        b'[' => bracket_move(BracketKind::SquarePair, b']', names.nil, next, after_next),
        b'{' => bracket_move(BracketKind::CurlyPair, b'}', names.curly, next, after_next),
        _ => None,
    }
}

/// A token where a term is to come. The text is the token's; a token that is a text of codes is none of these.
pub fn operand_move(
    symbol: Symbol,
    text: &[u8],
    next: &Token,
    after_next: &Token,
    table: &OpTable,
    names: GrammarNames,
) -> Option<ItemMove>
    requires single { IsNoCodeText symbol }
    requires small { IsSmall next.now.kind }
    ensures { (num : List ℕ → ℕ) (l : Lexeme ℕ) (t u : ModelToken ℕ) →
        AreNames num names → SymbolIs num symbol text.now l → TokenIs next.now t → TokenIs after_next.now u →
        MoveIs num result (operand_move (operator table.now) l t u) }
{
    match symbol {
        Symbol::Word(name) => word_move(name, text, next, table),
        Symbol::QuotedWord(name) => name_move(name, text, next, table),
        Symbol::Variable(n) => leaf_move(Cell::Var(n)),
        Symbol::Number(n) => number_operand(n),
        Symbol::Mark(c) => open_move(c, names, next, after_next),
        Symbol::CodeText => None,
        Symbol::Stop => None,
    }
}

/// A name after a term.
fn operator_named(name: NameId, text: &[u8], table: &OpTable) -> Option<ItemMove>
    ensures { (num : List ℕ → ℕ) →
        name ≡ id num text.now →
        MoveIs num result (operator_named (operator table.now) text.now) }
{
    match infix_of(text, table) {
        Some(op) => opening_move(ParseItem::Between(op, name), 0),
        None => postfix_move(name, text, table),
    }
}

fn postfix_move(name: NameId, text: &[u8], table: &OpTable) -> Option<ItemMove>
    ensures { MatchOption (postfix_of (operator table.now) text.now) (result ≡ None) (λ op. result ≡ Some (record { item = After op name; more = 0; to_operand = false })) }
{
    match postfix_of(text, table) {
        Some(op) => Some(ItemMove {
            item: ParseItem::After(op, name),
            more: 0,
            to_operand: false,
        }),
        None => None,
    }
}

fn mark_move(c: u8) -> Option<ItemMove>
    ensures { (num : List ℕ → ℕ) (look : Operators) → MoveIs num result (operator_move look (punctuation c)) }
{
    let (item, to_operand) = match c {
        b',' => (ParseItem::Comma, true),
        b'|' => (ParseItem::Bar, true),
        b')' => (ParseItem::Closes(BracketKind::RoundPair), false),
        b']' => (ParseItem::Closes(BracketKind::SquarePair), false),
        b'}' => (ParseItem::Closes(BracketKind::CurlyPair), false),
        _ => return None,
    };
    Some(ItemMove {
        item,
        more: 0,
        to_operand,
    })
}

/// A token after a term. The text is the token's.
pub fn operator_move(symbol: Symbol, text: &[u8], table: &OpTable) -> Option<ItemMove>
    ensures { (num : List ℕ → ℕ) (l : Lexeme ℕ) →
        SymbolIs num symbol text.now l →
        MoveIs num result (operator_move (operator table.now) l) }
{
    match symbol {
        Symbol::Word(name) => operator_named(name, text, table),
        Symbol::QuotedWord(name) => operator_named(name, text, table),
        Symbol::Mark(c) => mark_move(c),
        _ => None,
    }
}
