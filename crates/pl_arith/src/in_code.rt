//! The values of terms of a clause's code.
ghost use Rattle.std.specs.Prelude.{◌≡◌, ◌+◌, ◌<◌, length, IfSome, Ok};
ghost use Rattle.pl_terms.specs.Trees.{int};
ghost use Rattle.pl_unify.specs.State.{tree_of_var};
ghost use Rattle.pl_unify.specs.Code.{code_tree_in};
ghost use Rattle.value_model.specs.Value.{value};

use crate::functor::{over_one, over_two};
use pl_atoms::Names;
use pl_unify::{Code, Store, View, Word};

// So many compounds that stand one in the other are looked into.
const DEPTH: u8 = 8;

/// The value of the term that the code has at a place, with the variables numbered from `base` on (ISO/IEC 13211-1, 9.1), as
/// `evaluate` gives it for that term. The term is not built. `names` are the names of the code's and the store's terms.
///
/// None: the term has no value, or it is nested deeply, or a variable in it is bound to a compound. Then the caller builds the term
/// and calls `evaluate`, which also says why there is no value.
pub fn value_in_code(
    store: &Store,
    names: &Names,
    code: &Code,
    p: usize,
    base: usize,
) -> Option<i64>
    requires place { p < length code.now.words }
    ensures { IfSome result (λ z. value names.now (code_tree_in store.now.state base code.now.words p) ≡ Ok z) }
{
    value_within(store, names, code, p, base, DEPTH)
}

// The value of the term that the code has at a place, where no more than `depth` compounds of it stand one in the other.
fn value_within(
    store: &Store,
    names: &Names,
    code: &Code,
    p: usize,
    base: usize,
    depth: u8,
) -> Option<i64>
    requires place { p < length code.now.words }
    ensures { IfSome result (λ z. value names.now (code_tree_in store.now.state base code.now.words p) ≡ Ok z) }
{
    // The number of the code's places fits, and with it the number of the next one.
    let _places = code.len();
    match code.view(p) {
        View::Int(z) => Some(z),
        View::Var(n) => integer_of(store, n, base),
        View::Comp(name, 1) => {
            let depth = depth.checked_sub(1)?;
            let first = code.arguments(p);
            let x = value_within(store, names, code, first, base, depth)?;
            over_one(names, name, x).ok()
        }
        View::Comp(name, 2) => {
            let depth = depth.checked_sub(1)?;
            let first = code.arguments(p);
            let x = value_within(store, names, code, first, base, depth)?;
            let y = value_within(store, names, code, first + 1, base, depth)?;
            over_two(names, name, x, y).ok()
        }
        _ => None,
    }
}

// The integer that a variable is bound to, where it is bound to one: the variable `n` of the code, with the number `n + base` in
// the store.
fn integer_of(store: &Store, n: usize, base: usize) -> Option<i64>
    ensures { IfSome result (λ z. tree_of_var store.now.state (n + base) ≡ int z) }
{
    let number = n.checked_add(base)?;
    if number >= store.next_var() {
        return None;
    }
    match store.resolve(Word::Var(number)) {
        Word::Int(z) => Some(z),
        _ => None,
    }
}
