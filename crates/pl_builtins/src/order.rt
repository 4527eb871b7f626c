//! The standard order of terms of a store (ISO/IEC 13211-1, 7.2 and 8.4).
ghost use Rattle.std.specs.Prelude.{◌≡◌, ◌++◌, ◌∷◌, [], reverse, IfOk, OnOk};
ghost use Rattle.pl_terms.specs.CellOrder.{name_cmp};
ghost use Rattle.pl_unify.specs.Shape.{arity};
ghost use Rattle.pl_unify.specs.State.{tree_at, IsRef};
ghost use Rattle.builtin_model.specs.Naming.{by_numbers};
ghost use Rattle.builtin_model.specs.Deeds.{order, order_holds, whether};
ghost use Rattle.pl_builtin_ends.specs.Meets.{Meets};
ghost use Rattle.pl_builtins.specs.Ordered.{root_cmp, PairsOk, Compared, view_arity, ArgumentsOn};

use builtin_model::OrderTest;
use pl_atoms::{NameId, Names, NoMemory};
use pl_builtin_ends::{Done, text_of, whether};
use pl_unify::{Ref, Store, View};
use std::alloc::Global;
use std::cmp::Ordering;

/// Tests how two terms stand to each other (ISO/IEC 13211-1, 8.4.1).
pub fn test_order(
    alloc: Global,
    store: &Store,
    names: &Names,
    test: OrderTest,
    left: Ref,
    right: Ref,
) -> Result<Done, NoMemory>
    requires left { IsRef store.now.state left }
    requires right { IsRef store.now.state right }
    ensures { IfOk result (λ done. Meets store.now.state store.now.state (whether (order_holds test (order (by_numbers names.now) (tree_at store.now.state left) (tree_at store.now.state right)))) done) }
{
    let found = standard_order(alloc, store, names, left, right)?;
    Ok(whether(order_holds(test, found)))
}

fn order_holds(test: OrderTest, found: Ordering) -> bool
    ensures { result ≡ order_holds test found }
{
    match test {
        OrderTest::Same => found.is_eq(),
        OrderTest::NotSame => found.is_ne(),
        OrderTest::Less => found.is_lt(),
        OrderTest::AtMost => found.is_le(),
        OrderTest::Greater => found.is_gt(),
        OrderTest::AtLeast => found.is_ge(),
    }
}

/// The standard order of two terms, whose names have their texts in `names`.
pub fn standard_order(
    alloc: Global,
    store: &Store,
    names: &Names,
    left: Ref,
    right: Ref,
) -> Result<Ordering, NoMemory>
    requires left { IsRef store.now.state left }
    requires right { IsRef store.now.state right }
    ensures { IfOk result (λ found. found ≡ order (by_numbers names.now) (tree_at store.now.state left) (tree_at store.now.state right)) }
{
    let mut work = Vec::new(alloc);
    // The roots first: only arguments take memory.
    match compare_next(store, names, left, right, &mut work)? {
        Ordering::Less => return Ok(Ordering::Less),
        Ordering::Greater => return Ok(Ordering::Greater),
        Ordering::Equal => {}
    }
    while let Some((p, q)) = work.pop() {
        match compare_next(store, names, p, q, &mut work)? {
            Ordering::Less => return Ok(Ordering::Less),
            Ordering::Greater => return Ok(Ordering::Greater),
            Ordering::Equal => {}
        }
    }
    Ok(Ordering::Equal)
}

// Compares two terms at their roots, and puts the pairs of their arguments on where these are equal.
fn compare_next(
    store: &Store,
    names: &Names,
    left: Ref,
    right: Ref,
    work: &mut Vec<(Ref, Ref)>,
) -> Result<Ordering, NoMemory>
    requires { PairsOk store.now.state ((left, right) ∷ reverse work.old.items) }
    ensures { IfOk result (λ found. Compared store.now.state names.now ((left, right) ∷ reverse work.old.items) (reverse work.new.items) found) }
{
    let root = store.view(left);
    let found = compare_roots(names, root, store.view(right));
    if found.is_eq() {
        let arity = arity_of(root);
        push_arguments(store, left, right, arity, work)?;
    }
    Ok(found)
}

fn arity_of(view: View) -> u8
    ensures { result ≡ view_arity view }
{
    match view {
        View::Comp(_, arity) => arity,
        _ => 0,
    }
}

fn compare_roots(names: &Names, left: View, right: View) -> Ordering
    ensures { result ≡ root_cmp names.now left right }
{
    match left {
        View::Var(left) => match right {
            View::Var(right) => left.cmp(&right),
            _ => Ordering::Less,
        },
        View::Int(left) => match right {
            View::Var(_) => Ordering::Greater,
            View::Int(right) => left.cmp(&right),
            _ => Ordering::Less,
        },
        View::Name(left) => match right {
            View::Name(right) => compare_names(names, left, right),
            View::Comp(_, _) => Ordering::Less,
            _ => Ordering::Greater,
        },
        View::Comp(left, left_arity) => match right {
            View::Comp(right, right_arity) => match left_arity.cmp(&right_arity) {
                Ordering::Less => Ordering::Less,
                Ordering::Equal => compare_names(names, left, right),
                Ordering::Greater => Ordering::Greater,
            },
            _ => Ordering::Greater,
        },
    }
}

fn compare_names(names: &Names, left: NameId, right: NameId) -> Ordering
    ensures { result ≡ name_cmp names.now left.0 right.0 }
{
    text_of(names, left).cmp(text_of(names, right))
}

// Puts the pairs of arguments on, so that the first is the next one.
fn push_arguments(
    store: &Store,
    left: Ref,
    right: Ref,
    count: u8,
    work: &mut Vec<(Ref, Ref)>,
) -> Result<(), NoMemory>
    requires places { IsRef store.now.state left × IsRef store.now.state right }
    requires left { count ≡ arity (tree_at store.now.state left) }
    requires right { count ≡ arity (tree_at store.now.state right) }
    ensures { OnOk result (ArgumentsOn store.now.state left right 0 (reverse work.old.items) (reverse work.new.items)) }
{
    let mut rest = count;
    while rest > 0 {
        rest -= 1;
        push_pair(work, store.arg(left, rest), store.arg(right, rest))?;
    }
    Ok(())
}

fn push_pair(work: &mut Vec<(Ref, Ref)>, left: Ref, right: Ref) -> Result<(), NoMemory>
    ensures { OnOk result (work.new.items ≡ work.old.items ++ (left, right) ∷ []) }
{
    match work.push((left, right)) {
        Ok(()) => Ok(()),
        Err(_) => Err(NoMemory),
    }
}
