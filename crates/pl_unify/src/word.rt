//! Places of a store, and what stands at them.
ghost use Rattle.std.specs.Prelude.{◌≡◌};

use pl_atoms::NameId;

/// A place in a store.
#[derive(Clone, Copy, Debug, Default, PartialEq, Eq)]
pub struct Ref(pub usize);

/// What stands at the root of a term.
#[derive(Clone, Copy, Debug, PartialEq)]
pub enum View {
    /// An unbound variable by its number.
    Var(usize),
    /// An integer.
    Int(i64),
    /// An atom.
    Name(NameId),
    /// A compound's name and its number of arguments.
    Comp(NameId, u8),
}

/// What stands at a place, or what a variable is bound to.
#[derive(Clone, Copy, Debug)]
pub enum Word {
    /// A variable by its number.
    Var(usize),
    /// An integer.
    Int(i64),
    /// An atom.
    Name(NameId),
    /// A compound's number of arguments, at least 1, its name, and the place of its first argument.
    Comp(u8, NameId, usize),
}

const _: () = prove!(size_of::<Word>() == 24);

/// The word of an integer.
pub fn int_word(value: i64) -> Word
    ensures { result ≡ Word.Int value }
{
    Word::Int(value)
}

/// What is seen of an integer.
pub(crate) fn int_view(value: i64) -> View
    ensures { result ≡ View.Int value }
{
    View::Int(value)
}
