//! The type tests (ISO/IEC 13211-1, 8.3).
ghost use Rattle.std.specs.Prelude.{◌≡◌};
ghost use Rattle.pl_unify.specs.State.{tree_at, IsRef};
ghost use Rattle.builtin_model.specs.Deeds.{passes, whether};
ghost use Rattle.pl_builtin_ends.specs.Meets.{Meets};
ghost use Rattle.pl_builtins.specs.Views.{passes_view};

use builtin_model::TypeTest;
use pl_builtin_ends::{Done, whether};
use pl_unify::{Ref, Store, View};

/// Tests the type of a term.
pub fn test_type(store: &Store, test: TypeTest, at: Ref) -> Done
    requires { IsRef store.now.state at }
    ensures { Meets store.now.state store.now.state (whether (passes test (tree_at store.now.state at))) result }
{
    whether(passes(test, store.view(at)))
}

fn passes(test: TypeTest, view: View) -> bool
    ensures { result ≡ passes_view test view }
{
    match view {
        View::Var(_) => test == TypeTest::Var,
        View::Int(_) => match test {
            TypeTest::Nonvar | TypeTest::Integer | TypeTest::Number | TypeTest::Atomic => true,
            _ => false,
        },
        View::Name(_) => match test {
            TypeTest::Nonvar | TypeTest::Atom | TypeTest::Atomic | TypeTest::Callable => true,
            _ => false,
        },
        View::Comp(_, _) => match test {
            TypeTest::Nonvar | TypeTest::Compound | TypeTest::Callable => true,
            _ => false,
        },
    }
}
