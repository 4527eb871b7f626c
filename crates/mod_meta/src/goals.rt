//! Goals of metapredicates.
ghost use Rattle.std.specs.Prelude.{◌≡◌, ◌≤◌, ℕ, false, length, map, IfOk, IsTrue};
ghost use Rattle.pl_terms.specs.Trees.{atom};
ghost use Rattle.pl_unify.specs.Making.{AreRefs};
ghost use Rattle.pl_unify.specs.Prefix.{listed};
ghost use Rattle.pl_unify.specs.Shape.{arity, argument as argument_of};
ghost use Rattle.pl_unify.specs.State.{IsRef, Grows, tree_at};
ghost use Rattle.builtin_model.specs.Naming.{Naming};
ghost use Rattle.goal_model.specs.Environments.{is_qualified as is_qualified_in, in_context, qualified};
ghost use Rattle.mod_meta.specs.Qualified.{IsColon, qualified_goal, lacks_module as lacks_module_in, arguments_of, is_name as is_name_at};

use crate::modes::Modes;
use pl_atoms::{NameId, NoMemory};
use pl_unify::{Ref, Store, View};
use std::alloc::Global;

/// The goal of a metapredicate as the metapredicate gets it (ISO/IEC 13211-2, 6.3): each metaargument A becomes `context:A`,
/// unless it is M:T with M an atom. `goal` has the arguments that `modes` tells of, `context` is the module that it is called in,
/// and `colon` the name `:`. Where no argument changes, the goal's own place is answered and nothing is made.
pub fn qualify(
    alloc: Global,
    store: &mut Store,
    goal: Ref,
    modes: &Modes,
    context: NameId,
    colon: NameId,
) -> Result<Ref, NoMemory>
    requires place { IsRef store.old.state goal }
    requires modes { length modes.now ≡ arity (tree_at store.old.state goal) }
    ensures grows { Grows store.old.state store.new.state }
    ensures next { store.new.state.next ≡ store.old.state.next }
    ensures place { IfOk result (λ at. IsRef store.new.state at) }
    ensures tree { IfOk result (λ at. (n : Naming ℕ) → IsColon n colon.0 → tree_at store.new.state at ≡ qualified_goal n modes.now context.0 (tree_at store.old.state goal)) }
{
    match store.view(goal) {
        View::Comp(name, count) => {
            if has_all_modules(store, goal, count, modes, colon) {
                return Ok(goal);
            }
            let args = arguments(alloc, store, goal, count, modes, context, colon)?;
            store.compound(name, &args)
        }
        _ => Ok(goal),
    }
}

// Whether no argument of a goal changes.
fn has_all_modules(store: &Store, goal: Ref, count: u8, modes: &Modes, colon: NameId) -> bool
    requires place { IsRef store.now.state goal }
    requires count { count ≡ arity (tree_at store.now.state goal) }
    requires modes { length modes.now ≡ count }
    ensures some { result ≡ false → 1 ≤ count }
    ensures same { IsTrue result → (n : Naming ℕ) (m : ℕ) → IsColon n colon.0 → qualified_goal n modes.now m (tree_at store.now.state goal) ≡ tree_at store.now.state goal }
{
    'arguments: for k in 0..count {
        let arg = store.arg(goal, k);
        if lacks_module(store, arg, modes.is_meta(k), colon) {
            return false;
        }
    }
    true
}

// The places of the arguments that a metapredicate gets.
fn arguments(
    alloc: Global,
    store: &mut Store,
    goal: Ref,
    count: u8,
    modes: &Modes,
    context: NameId,
    colon: NameId,
) -> Result<Vec<Ref>, NoMemory>
    requires place { IsRef store.old.state goal }
    requires count { count ≡ arity (tree_at store.old.state goal) }
    requires modes { length modes.now ≡ count }
    ensures grows { Grows store.old.state store.new.state }
    ensures next { store.new.state.next ≡ store.old.state.next }
    ensures count { IfOk result (λ args. length args.items ≡ count) }
    ensures places { IfOk result (λ args. AreRefs store.new.state args.items) }
    ensures trees { IfOk result (λ args. (n : Naming ℕ) → IsColon n colon.0 → map (tree_at store.new.state) args.items ≡ listed (qualified n modes.now context.0 (arguments_of (tree_at store.old.state goal)))) }
{
    let context = store.place_of_name(context)?;
    let mut args = Vec::new(alloc);
    'arguments: for k in 0..count {
        let arg = store.arg(goal, k);
        let passed = argument(store, arg, modes.is_meta(k), context, colon)?;
        args.push(passed)?;
    }
    Ok(args)
}

// The place of an argument that a metapredicate gets.
fn argument(
    store: &mut Store,
    arg: Ref,
    meta: bool,
    context: Ref,
    colon: NameId,
) -> Result<Ref, NoMemory>
    requires { IsRef store.old.state arg × IsRef store.old.state context }
    ensures grows { Grows store.old.state store.new.state }
    ensures next { store.new.state.next ≡ store.old.state.next }
    ensures place { IfOk result (λ at. IsRef store.new.state at) }
    ensures tree { IfOk result (λ at. (n : Naming ℕ) (m : ℕ) → IsColon n colon.0 → tree_at store.old.state context ≡ atom m → tree_at store.new.state at ≡ in_context n m meta (tree_at store.old.state arg)) }
{
    if lacks_module(store, arg, meta, colon) {
        store.compound(colon, &[context, arg])
    } else {
        Ok(arg)
    }
}

// Whether an argument is a metaargument that says no module.
fn lacks_module(store: &Store, arg: Ref, meta: bool, colon: NameId) -> bool
    requires { IsRef store.now.state arg }
    ensures { (n : Naming ℕ) → IsColon n colon.0 → result ≡ lacks_module_in n meta (tree_at store.now.state arg) }
{
    meta && !is_qualified(store, arg, colon)
}

// Whether a term is M:T with M an atom.
fn is_qualified(store: &Store, term: Ref, colon: NameId) -> bool
    requires { IsRef store.now.state term }
    ensures { (n : Naming ℕ) → IsColon n colon.0 → result ≡ is_qualified_in n (tree_at store.now.state term) }
{
    match store.view(term) {
        View::Comp(name, 2) => name == colon && is_name(store.view(store.arg(term, 0))),
        _ => false,
    }
}

fn is_name(view: View) -> bool
    ensures { result ≡ is_name_at view }
{
    matches!(view, View::Name(_))
}
