//! A goal against the head of a clause.
ghost use Rattle.std.specs.Prelude.{◌≡◌, ℕ, ◌+◌, ◌-◌, ◌<◌, ◌≤◌, ◌∷◌, [], length, true, false, None, IfOk};
ghost use Rattle.unifier_model.specs.Substitution.{raise};
ghost use Rattle.unifier_model.specs.Mgu.{mgu};
ghost use Rattle.pl_unify.specs.State.{IsRef, Extends, tree_at};
ghost use Rattle.pl_unify.specs.Shape.{root, arity, argument};
ghost use Rattle.pl_unify.specs.Code.{code_tree, last_tree};
ghost use Rattle.clause_code.specs.Heads.{IsNamed, Took};

use pl_atoms::NoMemory;
use pl_unify::{Code, Ref, Store};

/// Tries a clause for a goal: unifies the goal with the clause's head, whose variables get the store's next numbers
/// (ISO/IEC 13211-1, 7.7.10). The head is the last place of its code. Where it is not `Ok(true)`, bindings, places and
/// variables may have been added: the caller goes back to a mark.
pub fn try_head(store: &mut Store, goal: Ref, head: &Code) -> Result<bool, NoMemory>
    requires place { IsRef store.old.state goal }
    requires code { 0 < length head.now.words }
    requires same { root (tree_at store.old.state goal) ≡ root (last_tree head.now.words) }
    requires named { IsNamed (root (tree_at store.old.state goal)) }
    ensures extends { Extends store.old.state store.new.state }
    ensures yes { IfOk result (λ yes. yes ≡ true → Took store.old.state store.new.state (tree_at store.old.state goal) (last_tree head.now.words) head.now.vars) }
    ensures no { IfOk result (λ yes. yes ≡ false → mgu ((tree_at store.old.state goal, raise store.old.state.next (last_tree head.now.words)) ∷ []) ≡ None) }
{
    let base = store.next_var();
    let first = first_argument(head);
    if !store.head_of(goal, head, first, base)? {
        return Ok(false);
    }
    store.make_below(base + head.vars())?;
    Ok(true)
}

// The place of the head's first argument, or 0 where it has none.
fn first_argument(head: &Code) -> usize
    requires { 0 < length head.now.words }
    ensures places { result + arity (last_tree head.now.words) ≤ length head.now.words }
    ensures trees { (i : ℕ) → i < arity (last_tree head.now.words) → code_tree head.now.words (result + i) ≡ argument (last_tree head.now.words) i }
{
    let last = head.len() - 1;
    if head.arity(last) > 0 {
        head.arguments(last)
    } else {
        0
    }
}
