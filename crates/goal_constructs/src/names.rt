//! The numbers of the names that goals and the errors of goals are made of.
ghost use Rattle.std.specs.Prelude.{◌≡◌, map, length, IfOk};
ghost use Rattle.pl_atoms.specs.Names.{IsFront};
ghost use Rattle.goal_constructs.specs.Numbers.{goal_texts, numbers_in, AreIn};

use crate::list::push;
use goal_code::ControlNames;
use pl_atoms::{CaseRow, NameId, Names, NoMemory};
use pl_builtin_ends::intern;
use std::alloc::Global;

/// The numbers of the names that goals and the errors of goals are made of.
#[derive(Clone, Copy, Debug)]
pub struct GoalNames {
    /// `,`, `;`, `->`, `!` and `true`.
    pub control: ControlNames,
    /// `call`.
    pub call: NameId,
    /// `:`, between a module and a goal.
    pub colon: NameId,
    /// `[]`.
    pub nil: NameId,
    /// `.`, an item in front of the rest of a list.
    pub dot: NameId,
    /// `/`, between a name and a number of arguments.
    pub slash: NameId,
    /// `error`.
    pub error: NameId,
    /// `instantiation_error`.
    pub instantiation_error: NameId,
    /// `type_error`.
    pub type_error: NameId,
    /// `existence_error`.
    pub existence_error: NameId,
    /// `representation_error`.
    pub representation_error: NameId,
    /// `max_arity`.
    pub max_arity: NameId,
    /// `callable`.
    pub callable_word: NameId,
    /// `list`.
    pub list_word: NameId,
    /// `atom`.
    pub atom_word: NameId,
    /// `module`.
    pub module_word: NameId,
    /// `procedure`.
    pub procedure_word: NameId,
    /// `user`.
    pub user_word: NameId,
    /// `system`.
    pub system_word: NameId,
}

// Their texts.
const TEXTS: [&[u8]; 23] = [
    b",",
    b";",
    b"->",
    b"!",
    b"true",
    b"call",
    b":",
    b"[]",
    b".",
    b"/",
    b"error",
    b"instantiation_error",
    b"type_error",
    b"existence_error",
    b"representation_error",
    b"max_arity",
    b"callable",
    b"list",
    b"atom",
    b"module",
    b"procedure",
    b"user",
    b"system",
];

fn goal_texts() -> &'static [&'static [u8]]
    ensures { map (λ t. t.now) result.now ≡ goal_texts }
{
    &TEXTS
}

impl GoalNames {
    /// The numbers of these names, which are put into the table where they are new. NoMemory: some of them may have been put in.
    pub(crate) fn of(alloc: Global, names: &mut Names) -> Result<GoalNames, NoMemory>
        ensures numbers { IfOk result (λ g. AreIn names.new goal_texts (numbers_in g)) }
        ensures front { IsFront names.old names.new }
    {
        let ids = number_texts(alloc, names, goal_texts())?;
        Ok(GoalNames::from_ids(ids.as_slice()))
    }

    // The names with these numbers, in their order.
    fn from_ids(ids: &[NameId]) -> GoalNames
        requires { length ids.now ≡ 23 }
        ensures { numbers_in result ≡ ids.now }
    {
        GoalNames {
            control: ControlNames {
                conjunction: ids[0],
                disjunction: ids[1],
                implication: ids[2],
                cut: ids[3],
                truth: ids[4],
            },
            call: ids[5],
            colon: ids[6],
            nil: ids[7],
            dot: ids[8],
            slash: ids[9],
            error: ids[10],
            instantiation_error: ids[11],
            type_error: ids[12],
            existence_error: ids[13],
            representation_error: ids[14],
            max_arity: ids[15],
            callable_word: ids[16],
            list_word: ids[17],
            atom_word: ids[18],
            module_word: ids[19],
            procedure_word: ids[20],
            user_word: ids[21],
            system_word: ids[22],
        }
    }
}

// The numbers of texts, which are put into the table where they are new.
fn number_texts(
    alloc: Global,
    names: &mut Names,
    texts: &[&'static [u8]],
) -> Result<Vec<NameId>, NoMemory>
    ensures numbers { IfOk result (λ ids. AreIn names.new (map (λ t. t.now) texts.now) ids.items) }
    ensures front { IsFront names.old names.new }
{
    let mut ids = Vec::new(alloc);
    for text in texts {
        let id = intern(names, *text)?;
        push(&mut ids, id)?;
    }
    Ok(ids)
}

/// The numbers of the names of cases, which are put into the table where they are new.
pub(crate) fn number_cases(
    alloc: Global,
    names: &mut Names,
    cases: &[CaseRow],
) -> Result<Vec<NameId>, NoMemory>
    ensures numbers { IfOk result (λ ids. AreIn names.new (map (λ c. c.name.now) cases.now) ids.items) }
    ensures front { IsFront names.old names.new }
{
    let mut ids = Vec::new(alloc);
    for case in cases {
        let id = intern(names, case.name)?;
        push(&mut ids, id)?;
    }
    Ok(ids)
}
