//! The rows of the table of built-in procedures.
ghost use Rattle.std.specs.Prelude.{◌≡◌};
ghost use Rattle.builtin_model.specs.Rows.{row_of};

use builtin_model::{OrderTest, Relation, Row, TypeTest};
use text_model::Quote;

// By the numbers of the built-in procedures. The control constructs are none.
static ROWS: [Option<Row>; 62] = [
    None,
    None,
    None,
    None,
    None,
    Some(Row::Value(Relation::Less)),
    Some(Row::Unify),
    Some(Row::Univ),
    Some(Row::Value(Relation::Equal)),
    Some(Row::Value(Relation::AtMost)),
    Some(Row::Order(OrderTest::Same)),
    Some(Row::Value(Relation::NotEqual)),
    Some(Row::Value(Relation::Greater)),
    Some(Row::Value(Relation::AtLeast)),
    None,
    Some(Row::Order(OrderTest::Less)),
    Some(Row::Order(OrderTest::AtMost)),
    Some(Row::Order(OrderTest::Greater)),
    Some(Row::Order(OrderTest::AtLeast)),
    None,
    Some(Row::NotUnifiable),
    Some(Row::Order(OrderTest::NotSame)),
    Some(Row::Arg),
    Some(Row::Type(TypeTest::Atom)),
    Some(Row::Type(TypeTest::Atomic)),
    None,
    None,
    None,
    None,
    None,
    None,
    None,
    None,
    Some(Row::Type(TypeTest::Callable)),
    Some(Row::CallingContext),
    None,
    Some(Row::Compare),
    Some(Row::Type(TypeTest::Compound)),
    Some(Row::CopyTerm),
    Some(Row::Fail),
    Some(Row::Fail),
    None,
    Some(Row::Type(TypeTest::Float)),
    Some(Row::Functor),
    Some(Row::Ground),
    Some(Row::Halt),
    Some(Row::HaltWith),
    Some(Row::Type(TypeTest::Integer)),
    Some(Row::Is),
    Some(Row::NewLine),
    Some(Row::Type(TypeTest::Nonvar)),
    Some(Row::Type(TypeTest::Number)),
    None,
    Some(Row::PutChar),
    None,
    Some(Row::TermVariables),
    None,
    Some(Row::True),
    Some(Row::Unify),
    Some(Row::Type(TypeTest::Var)),
    Some(Row::Write(Quote::Plain)),
    Some(Row::Write(Quote::Quoted)),
];

/// The row of a built-in procedure's number in the table of built-in procedures. None exactly where that is a control construct,
/// or no number of the table.
pub fn row_of(number: usize) -> Option<Row>
    ensures { result ≡ row_of number }
{
    if number < ROWS.len() {
        ROWS[number]
    } else {
        None
    }
}
