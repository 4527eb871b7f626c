//! Output of characters (ISO/IEC 13211-1, 8.12).
ghost use Rattle.std.specs.Prelude.{◌≡◌, [], ◌∷◌, ◌++◌, IfOk, OnOk, OnErr};
ghost use Rattle.pl_unify.specs.State.{State, tree_at, IsRef};
ghost use Rattle.builtin_model.specs.Naming.{by_numbers};
ghost use Rattle.builtin_model.specs.Deeds.{yes, put_deed, is_character};
ghost use Rattle.builtin_model.specs.Output.{put_text};
ghost use Rattle.pl_builtin_ends.specs.Meets.{Meets};
ghost use Rattle.pl_builtins.specs.Views.{put_done, name_bytes};

use builtin_model::Expected;
use pl_atoms::{Bytes, Names, NoMemory};
use pl_builtin_ends::{Done, Raised, text_of};
use pl_unify::{Ref, Store, View};

/// Writes a newline: `nl` (ISO/IEC 13211-1, 8.12.1).
pub fn new_line(text: &mut Bytes) -> Result<Done, NoMemory>
    ensures done { IfOk result (λ done. (s : State) → Meets s s yes done) }
    ensures bytes { OnOk result (text.new ≡ text.old ++ 10 ∷ []) }
    ensures memory { OnErr result (text.new ≡ text.old) }
{
    text.push(b'\n')?;
    Ok(Done::Yes)
}

/// Writes a character: `put_char` (ISO/IEC 13211-1, 8.12.3).
pub fn put_char(store: &Store, names: &Names, at: Ref, text: &mut Bytes) -> Result<Done, NoMemory>
    requires place { IsRef store.now.state at }
    ensures done { IfOk result (λ done. Meets store.now.state store.now.state (put_deed (by_numbers names.now) (tree_at store.now.state at)) done) }
    ensures bytes { OnOk result (text.new ≡ text.old ++ put_text (by_numbers names.now) (tree_at store.now.state at)) }
    ensures memory { OnErr result (text.new ≡ text.old) }
{
    match store.view(at) {
        View::Var(_) => Ok(Done::Raise(Raised::Instantiation)),
        View::Name(name) => put_name(text_of(names, name), at, text),
        _ => Ok(Done::Raise(Raised::Type(Expected::Character, at))),
    }
}

// Writes a name that is one character.
fn put_name(name: &[u8], at: Ref, text: &mut Bytes) -> Result<Done, NoMemory>
    ensures done { IfOk result (λ done. done ≡ put_done name.now at) }
    ensures bytes { OnOk result (text.new ≡ text.old ++ name_bytes name.now) }
    ensures memory { OnErr result (text.new ≡ text.old) }
{
    if is_character(name) {
        text.extend_from_slice(name)?;
        Ok(Done::Yes)
    } else {
        Ok(Done::Raise(Raised::Type(Expected::Character, at)))
    }
}

// Whether the name is one character: one byte of it does not continue a character.
fn is_character(name: &[u8]) -> bool
    ensures { result ≡ is_character name.now }
{
    name.iter().filter(|byte| **byte / 64 != 2).count() == 1
}
