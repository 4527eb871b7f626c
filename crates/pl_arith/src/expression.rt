//! The value of a term of a store.
ghost use Rattle.std.specs.Prelude.{◌≡◌, ◌≢◌, ◌<◌, length, OnOk, IfErr, [], ◌∷◌, ◌++◌, reverse, Ok, Err};
ghost use Rattle.pl_unify.specs.State.{tree_at, IsRef};
ghost use Rattle.value_model.specs.Value.{value};
ghost use Rattle.pl_arith.specs.Tasks.{TasksOk, LeavesOne, Stepped, run, done_one, done_two};

use crate::at_once::value_at_once;
use crate::evaluable::find_operation;
use crate::name::text_of;
use crate::number::{apply_one, apply_two};
use pl_atoms::Names;
use pl_unify::{Ref, Store, View};
use smallvec::SmallVec;
use std::alloc::Global;
use value_model::{Binary, EvalFault, Operation, Unary};

// What is still to be done: a term to be evaluated, or an operation on the last numbers.
#[derive(Clone, Copy, Debug)]
enum Task {
    Tree(Ref),
    One(Unary),
    Two(Binary),
}

// Fills places of a list that have no task yet.
impl Default for Task {
    fn default() -> Task {
        Task::Tree(Ref::default())
    }
}

// So many tasks and numbers take no memory of their own.
const INLINE: usize = 16;

type Tasks = SmallVec<Task, INLINE>;

type Numbers = SmallVec<i64, INLINE>;

/// The value of the term of a place, or why it has none: the first error, where the functor of a compound comes before its
/// arguments, these from the left, and then the operation (ISO/IEC 13211-1, 9.1).
///
/// `names` are the names of the store's terms. A number that it doesn't have stands for the empty text.
pub fn evaluate(alloc: Global, store: &Store, names: &Names, at: Ref) -> Result<i64, EvalFault>
    requires place { IsRef store.now.state at }
    ensures { result ≢ Err EvalFault.NoMemory → result ≡ value names.now (tree_at store.now.state at) }
{
    match value_at_once(store, names, at) {
        Some(value) => value,
        None => evaluate_parts(alloc, store, names, at),
    }
}

// The value of the term of a place, by tasks for all its parts.
fn evaluate_parts(alloc: Global, store: &Store, names: &Names, at: Ref) -> Result<i64, EvalFault>
    requires place { IsRef store.now.state at }
    ensures { result ≢ Err EvalFault.NoMemory → result ≡ value names.now (tree_at store.now.state at) }
{
    let mut work = SmallVec::new(alloc);
    let mut numbers = SmallVec::new(alloc);
    push(&mut work, Task::Tree(at))?;
    while let Some(task) = work.pop() {
        step(store, names, task, &mut work, &mut numbers)?;
    }
    match numbers.pop() {
        Some(z) => Ok(z),
        None => unreachable!(),
    }
}

// Does one task.
fn step(
    store: &Store,
    names: &Names,
    task: Task,
    work: &mut Tasks,
    numbers: &mut Numbers,
) -> Result<(), EvalFault>
    requires tasks { TasksOk store.now.state (task ∷ reverse work.old.items) }
    requires enough { LeavesOne (task ∷ reverse work.old.items) (length (reverse numbers.old.items)) }
    ensures ok { OnOk result (Stepped store.now.state names.now (task ∷ reverse work.old.items) (reverse numbers.old.items) (reverse work.new.items) (reverse numbers.new.items)) }
    ensures err { IfErr result (λ e. e ≢ EvalFault.NoMemory → run store.now.state names.now (task ∷ reverse work.old.items) (reverse numbers.old.items) ≡ Err e) }
{
    match task {
        Task::Tree(at) => open(store, names, at, work, numbers),
        Task::One(op) => finish_one(op, numbers),
        Task::Two(op) => finish_two(op, numbers),
    }
}

// Makes a term its number, or its operation behind its arguments.
fn open(
    store: &Store,
    names: &Names,
    at: Ref,
    work: &mut Tasks,
    numbers: &mut Numbers,
) -> Result<(), EvalFault>
    requires { TasksOk store.now.state (Task.Tree at ∷ reverse work.old.items) }
    ensures ok { OnOk result (Stepped store.now.state names.now (Task.Tree at ∷ reverse work.old.items) (reverse numbers.old.items) (reverse work.new.items) (reverse numbers.new.items)) }
    ensures err { IfErr result (λ e. e ≢ EvalFault.NoMemory → value names.now (tree_at store.now.state at) ≡ Err e) }
{
    match store.view(at) {
        View::Var(_) => Err(EvalFault::Instantiation),
        View::Int(z) => push(numbers, z),
        View::Name(name) => Err(EvalFault::NotEvaluable(name, 0)),
        View::Comp(name, arity) => match find_operation(text_of(names, name), arity) {
            None => Err(EvalFault::NotEvaluable(name, arity)),
            Some(operation) => match operation {
                Operation::One(op) => {
                    push(work, Task::One(op))?;
                    push(work, Task::Tree(store.arg(at, 0)))?;
                    Ok(())
                }
                Operation::Two(op) => {
                    let left = store.arg(at, 0);
                    let right = store.arg(at, 1);
                    push(work, Task::Two(op))?;
                    push(work, Task::Tree(right))?;
                    push(work, Task::Tree(left))?;
                    Ok(())
                }
            },
        },
    }
}

// Puts an operation's result in place of the last number.
fn finish_one(op: Unary, numbers: &mut Numbers) -> Result<(), EvalFault>
    requires { 0 < length numbers.old.items }
    ensures ok { OnOk result (done_one op (reverse numbers.old.items) ≡ Ok (reverse numbers.new.items)) }
    ensures err { IfErr result (λ e. e ≢ EvalFault.NoMemory → done_one op (reverse numbers.old.items) ≡ Err e) }
{
    let Some(x) = numbers.pop() else {
        unreachable!();
    };
    let z = apply_one(op, x)?;
    push(numbers, z)
}

// Puts an operation's result in place of the last two numbers.
fn finish_two(op: Binary, numbers: &mut Numbers) -> Result<(), EvalFault>
    requires { 1 < length numbers.old.items }
    ensures ok { OnOk result (done_two op (reverse numbers.old.items) ≡ Ok (reverse numbers.new.items)) }
    ensures err { IfErr result (λ e. e ≢ EvalFault.NoMemory → done_two op (reverse numbers.old.items) ≡ Err e) }
{
    let Some(y) = numbers.pop() else {
        unreachable!();
    };
    let Some(x) = numbers.pop() else {
        unreachable!();
    };
    match apply_two(op, x, y) {
        Ok(z) => {
            push(numbers, z)?;
            Ok(())
        }
        Err(e) => Err(e),
    }
}

// Puts a value last.
fn push<T: Default + Drop>(list: &mut SmallVec<T, INLINE>, value: T) -> Result<(), EvalFault>
    ensures ok { OnOk result (list.new.items ≡ list.old.items ++ value ∷ []) }
    ensures err { IfErr result (λ e. e ≡ EvalFault.NoMemory) }
{
    match list.push(value) {
        Ok(()) => Ok(()),
        Err(_) => Err(EvalFault::NoMemory),
    }
}
