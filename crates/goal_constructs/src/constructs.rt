//! The numbers of names that running goals needs, and the look-up of built-in procedures by the number of a name.
ghost use Rattle.std.specs.Prelude.{◌≡◌, ◌<◌, ◌∷◌, ℕ, List, [], map, length, drop, Some, IfOk, OnOk, if◌then◌else◌};
ghost use Rattle.pl_atoms.specs.Names.{IsFront, AreDistinct};
ghost use Rattle.pl_atoms.specs.CaseTable.{cases_of};
ghost use Rattle.builtin_model.specs.Naming.{Naming, by_numbers};
ghost use Rattle.unit_model.specs.Builtins.{builtins};
ghost use Rattle.goal_code.specs.Denotation.{AreControlNames};
ghost use Rattle.goal_constructs.specs.Numbers.{entry_place};
ghost use Rattle.goal_constructs.specs.Constructs.{same_key, row_key, place_found, AreConstructs};

use crate::names::{GoalNames, number_cases};
use goal_code::ControlNames;
use indexmap::IndexMap;
use pl_atoms::{CaseRow, NameId, Names, NoMemory};
use std::alloc::Global;
use unit_model::builtins;

// The number of a name, and a number of arguments.
#[derive(Clone, Copy, Debug, PartialEq, Eq, Hash)]
struct RowKey {
    name: usize,
    arity: u32,
}

// The places of built-in procedures in their table.
#[derive(Drop)]
struct Rows {
    places: IndexMap<RowKey, usize>,
}

impl Rows {
    fn new(alloc: Global) -> Rows
        ensures { result.places.entries ≡ [] }
    {
        Rows {
            places: IndexMap::new(alloc),
        }
    }

    fn get(&self, name: NameId, arity: u8) -> Option<usize>
        ensures { result ≡ place_found self.now.places.entries name.0 arity }
    {
        let key = RowKey {
            name: name.0,
            arity: u32::from(arity),
        };
        match self.places.get(&key) {
            Some(place) => Some(*place),
            None => None,
        }
    }

    fn put(&mut self, key: RowKey, place: usize) -> Result<(), NoMemory>
        ensures { OnOk result ((f k : ℕ) → place_found self.new.places.entries f k ≡ (if same_key key (row_key f k) then Some place else place_found self.old.places.entries f k)) }
    {
        self.places.insert(key, place)?;
        Ok(())
    }

    // The places of cases whose names have these numbers.
    fn of(alloc: Global, ids: &[NameId], cases: &[CaseRow]) -> Result<Rows, NoMemory>
        requires { length ids.now ≡ length cases.now }
        ensures { IfOk result (λ rows. (f k : ℕ) → place_found rows.places.entries f k ≡ entry_place ids.now (cases_of cases.now) f k 0) }
    {
        let mut rows = Rows::new(alloc);
        let mut left = ids.len();
        while left > 0 {
            left -= 1;
            let key = RowKey {
                name: ids[left].0,
                arity: cases[left].arity,
            };
            rows.put(key, left)?;
        }
        Ok(rows)
    }
}

/// The numbers of the names that running goals needs, and the look-up of built-in procedures by the number of a name.
#[derive(Drop)]
pub struct Constructs {
    names: GoalNames,
    rows: Rows,
}

impl Constructs {
    /// The numbers in a table of names, into which names are put that it does not have. They hold as long as the table only grows.
    /// NoMemory: some of the names may have been put in.
    pub fn of(alloc: Global, names: &mut Names) -> Result<Constructs, NoMemory>
        ensures constructs { IfOk result (λ c. AreConstructs (by_numbers names.new) c) }
        ensures lasting { IfOk result (λ c. (table : List (List ℕ)) → AreDistinct table → IsFront names.new table → AreConstructs (by_numbers table) c) }
        ensures front { IsFront names.old names.new }
    {
        let goal_names = GoalNames::of(alloc, names)?;
        let cases = builtins();
        let ids = number_cases(alloc, names, cases)?;
        let rows = Rows::of(alloc, ids.as_slice(), cases)?;
        let _count = names.len();
        Ok(Constructs {
            names: goal_names,
            rows,
        })
    }

    /// The numbers of the names.
    pub fn names(&self) -> GoalNames
        ensures { result ≡ self.now.names }
    {
        self.names
    }

    /// The numbers of the names of the control constructs that the body of a clause is compiled by.
    pub fn control(&self) -> ControlNames
        ensures names { result ≡ self.now.names.control }
        ensures control { (n : Naming ℕ) → AreConstructs n self.now → AreControlNames n result }
    {
        self.names.control
    }

    // The place in the table of built-in procedures of the one with this name and number of arguments.
    pub(crate) fn place(&self, name: NameId, arity: u8) -> Option<usize>
        ensures { result ≡ place_found self.now.rows.places.entries name.0 arity }
    {
        self.rows.get(name, arity)
    }
}
