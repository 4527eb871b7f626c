//! Pieces of a written term, and the spaces between them.
ghost use Rattle.std.specs.Prelude.{◌≡◌, ◌++◌, [], ◌∷◌, IfOk, OnOk, OnErr, codes, decimal};
ghost use Rattle.pl_terms.specs.Order.{text_of as text_of_name};
ghost use Rattle.text_model.specs.Tokens.{head_of as head_of_bytes};
ghost use Rattle.text_model.specs.Writing.{plain_piece, int_text, signed, is_letters as is_letters_of, is_sign as is_sign_of, is_before as is_before_of, last_of as last_of_bytes};
ghost use Rattle.pl_writer.specs.Edges.{Begins, edge_of as edge_of_piece, meets as meets_of, gap_by, gapped, named_piece, quoted_text, piece_of};

use crate::name::{are_letters, is_alnum, is_digit, is_symbol, needs_quotes, push_quoted};
use itoa::Buffer;
use pl_atoms::{Bytes, NameId, Names, NoMemory};
use text_model::{Quote, Role};

/// A piece of a written term.
#[derive(Debug, Clone, Copy)]
pub enum Part {
    /// A punctuation character.
    Mark(u8),
    /// A name that is no operator of its term.
    Name(NameId),
    /// The operator of its term.
    Sign(NameId, Role),
    Variable(usize),
    Integer(i64),
}

/// What spaces depend on, of the piece that was written last.
#[derive(Debug, Clone, Copy)]
pub struct Edge {
    pub started: bool,
    /// Its last byte, or 256 where there is none.
    pub last: u16,
    /// An operator of letters.
    pub letters: bool,
    /// A prefix operator.
    pub before: bool,
    /// A minus sign alone.
    pub minus: bool,
}

fn head_of(text: &[u8]) -> u16
    ensures { result ≡ head_of_bytes text.now }
{
    match text.first() {
        Some(b) => u16::from(*b),
        None => 256,
    }
}

/// The last byte, or the one before where there is none.
fn last_of(before: u16, text: &[u8]) -> u16
    ensures { result ≡ last_of_bytes before text.now }
{
    if text.is_empty() {
        before
    } else {
        u16::from(text[text.len() - 1])
    }
}

fn is_sign(role: Role) -> bool
    ensures { result ≡ is_sign_of role }
{
    match role {
        Role::Ordinary => false,
        _ => true,
    }
}

fn is_before(role: Role) -> bool
    ensures { result ≡ is_before_of role }
{
    match role {
        Role::SignBefore => true,
        Role::Ordinary => false,
        Role::SignBetween => false,
        Role::SignAfter => false,
    }
}

fn is_letters(text: &[u8], role: Role) -> bool
    ensures { result ≡ is_letters_of (record { text = text.now; role = role }) }
{
    is_sign(role) && are_letters(text)
}

fn edge_of(text: &[u8], role: Role) -> Edge
    ensures { result ≡ edge_of_piece (record { text = text.now; role = role }) }
{
    Edge {
        started: true,
        last: last_of(256, text),
        letters: is_letters(text, role),
        before: is_before(role),
        minus: text == b"-".as_slice(),
    }
}

/// Whether a space has to stand between the pieces, where the second begins with this byte.
fn meets(edge: Edge, first: u16, bracket: bool, letters: bool) -> bool
    ensures { result ≡ meets_of edge first bracket letters }
{
    (is_alnum(edge.last) && is_alnum(first))
        || ((is_symbol(edge.last) && is_symbol(first))
            || ((edge.letters || letters)
                || ((edge.before && bracket)
                    || ((edge.before && (edge.minus && is_digit(first)))
                        || (edge.last == 39 && first == 39)))))
}

/// Puts the space before a piece, where one has to stand.
fn push_gap(
    out: &mut Bytes,
    edge: Edge,
    first: u16,
    bracket: bool,
    letters: bool,
) -> Result<(), NoMemory>
    ensures ok { OnOk result (out.new ≡ out.old ++ gap_by edge first bracket letters) }
    ensures err { OnErr result (out.new ≡ out.old) }
{
    if edge.started && meets(edge, first, bracket, letters) {
        out.push(b' ')
    } else {
        Ok(())
    }
}

/// Puts a piece of these bytes.
fn emit_bytes(out: &mut Bytes, edge: Edge, text: &[u8], role: Role) -> Result<Edge, NoMemory>
    ensures edge { IfOk result (λ e. e ≡ edge_of_piece (record { text = text.now; role = role })) }
    ensures bytes { OnOk result (out.new ≡ out.old ++ gapped edge (record { text = text.now; role = role })) }
    ensures err { OnErr result (Begins out.old out.new) }
{
    let bracket = text == b"(".as_slice();
    push_gap(out, edge, head_of(text), bracket, is_letters(text, role))?;
    out.extend_from_slice(text)?;
    Ok(edge_of(text, role))
}

/// Puts a name in quotes.
fn emit_quoted(out: &mut Bytes, edge: Edge, text: &[u8], role: Role) -> Result<Edge, NoMemory>
    ensures edge { IfOk result (λ e. e ≡ edge_of_piece (record { text = quoted_text text.now; role = role })) }
    ensures bytes { OnOk result (out.new ≡ out.old ++ gapped edge (record { text = quoted_text text.now; role = role })) }
    ensures err { OnErr result (Begins out.old out.new) }
{
    push_gap(out, edge, 39, false, false)?;
    push_quoted(out, text)?;
    Ok(Edge {
        started: true,
        last: 39,
        letters: false,
        before: is_before(role),
        minus: false,
    })
}

fn emit_name(
    out: &mut Bytes,
    edge: Edge,
    text: &[u8],
    role: Role,
    quote: Quote,
) -> Result<Edge, NoMemory>
    ensures edge { IfOk result (λ e. e ≡ edge_of_piece (named_piece quote role text.now)) }
    ensures bytes { OnOk result (out.new ≡ out.old ++ gapped edge (named_piece quote role text.now)) }
    ensures err { OnErr result (Begins out.old out.new) }
{
    if needs_quotes(text, quote) {
        emit_quoted(out, edge, text, role)
    } else {
        emit_bytes(out, edge, text, role)
    }
}

/// Puts the operator of a term: a comma is punctuation.
fn emit_sign(
    out: &mut Bytes,
    edge: Edge,
    text: &[u8],
    role: Role,
    quote: Quote,
) -> Result<Edge, NoMemory>
    ensures edge { IfOk result (λ e. e ≡ edge_of_piece (signed quote role text.now)) }
    ensures bytes { OnOk result (out.new ≡ out.old ++ gapped edge (signed quote role text.now)) }
    ensures err { OnErr result (Begins out.old out.new) }
{
    if text == b",".as_slice() {
        emit_bytes(out, edge, text, Role::Ordinary)
    } else {
        emit_name(out, edge, text, role, quote)
    }
}

fn emit_variable(out: &mut Bytes, edge: Edge, number: usize) -> Result<Edge, NoMemory>
    ensures edge { IfOk result (λ e. e ≡ edge_of_piece (plain_piece (codes "_G" ++ decimal number))) }
    ensures bytes { OnOk result (out.new ≡ out.old ++ gapped edge (plain_piece (codes "_G" ++ decimal number))) }
    ensures err { OnErr result (Begins out.old out.new) }
{
    let mut buffer = Buffer::new();
    let digits = buffer.format(number).as_bytes();
    push_gap(out, edge, 95, false, false)?;
    out.extend_from_slice(b"_G")?;
    out.extend_from_slice(digits)?;
    Ok(Edge {
        started: true,
        last: last_of(71, digits),
        letters: false,
        before: false,
        minus: false,
    })
}

fn emit_integer(out: &mut Bytes, edge: Edge, number: i64) -> Result<Edge, NoMemory>
    ensures edge { IfOk result (λ e. e ≡ edge_of_piece (plain_piece (int_text number))) }
    ensures bytes { OnOk result (out.new ≡ out.old ++ gapped edge (plain_piece (int_text number))) }
    ensures err { OnErr result (Begins out.old out.new) }
{
    let mut buffer = Buffer::new();
    emit_bytes(out, edge, buffer.format(number).as_bytes(), Role::Ordinary)
}

/// The text of a name, or none where the table has no such name.
pub(crate) fn text_of(names: &Names, id: NameId) -> &[u8]
    ensures { result.now ≡ text_of_name names.now id.0 }
{
    if id.0 < names.len() {
        names.text(id)
    } else {
        &[]
    }
}

/// Puts a piece, after a space where one has to stand, and gives what the next space depends on.
pub(crate) fn emit(
    out: &mut Bytes,
    edge: Edge,
    part: Part,
    names: &Names,
    quote: Quote,
) -> Result<Edge, NoMemory>
    ensures edge { IfOk result (λ e. e ≡ edge_of_piece (piece_of names.now quote part)) }
    ensures bytes { OnOk result (out.new ≡ out.old ++ gapped edge (piece_of names.now quote part)) }
    ensures err { OnErr result (Begins out.old out.new) }
{
    match part {
        Part::Mark(mark) => emit_bytes(out, edge, [mark].as_slice(), Role::Ordinary),
        Part::Name(name) => emit_name(out, edge, text_of(names, name), Role::Ordinary, quote),
        Part::Sign(name, role) => emit_sign(out, edge, text_of(names, name), role, quote),
        Part::Variable(number) => emit_variable(out, edge, number),
        Part::Integer(number) => emit_integer(out, edge, number),
    }
}
