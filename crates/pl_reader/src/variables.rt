//! Numbers of variables, in order of first occurrence.
ghost use Rattle.std.specs.Prelude.{◌≡◌, [], map, IfOk, OnOk};
ghost use Rattle.text_model.specs.Reading.{is_anonymous};
ghost use Rattle.pl_reader.specs.Numbering.{Met, IsPaired, met, met_with, number_at};

use crate::machine::one_more;
use pl_atoms::{Bytes, NameId, Names, NoMemory};
use pl_terms::{VarName, VarNames};
use std::alloc::Global;

/// The named variables that were met, each with its number, and the first number that is free.
#[derive(Drop)]
pub struct Variables {
    pub texts: Names,
    pub numbers: Vec<usize>,
    pub next: usize,
}

/// No variables.
pub fn no_variables(alloc: Global) -> Variables
    ensures none { met result ≡ record { names = []; next = 0 } }
    ensures paired { IsPaired result }
{
    Variables {
        texts: Names::new(alloc),
        numbers: Vec::new(alloc),
        next: 0,
    }
}

/// Whether a variable of this name is a new one each time.
fn is_anonymous(name: &[u8]) -> bool
    ensures { result ≡ is_anonymous name.now }
{
    name == b"_".as_slice()
}

impl Variables {
    ghost use Rattle.std.specs.Prelude.{suc};
    ghost use Rattle.std.specs.Prelude.{length};

    /// The number of the variable of this name, a new one where it wasn't met or has no name.
    pub fn number(&mut self, name: &[u8]) -> Result<usize, NoMemory>
        requires { IsPaired self.old }
        ensures number { IfOk result (λ n. n ≡ number_at (met self.old) name.now) }
        ensures met { OnOk result (met self.new ≡ met_with (met self.old) name.now) }
        ensures paired { OnOk result (IsPaired self.new) }
    {
        if is_anonymous(name) {
            return self.new_number();
        }
        match self.texts.find(name) {
            Some(id) => Ok(self.numbers[id.0]),
            None => {
                let number = self.new_number()?;
                self.texts.intern(name)?;
                self.numbers.push(number)?;
                Ok(number)
            }
        }
    }

    /// A number that no variable has.
    fn new_number(&mut self) -> Result<usize, NoMemory>
        ensures number { IfOk result (λ n. n ≡ self.old.next) }
        ensures next { OnOk result (self.new ≡ record self.old { next = suc self.old.next }) }
    {
        let number = self.next;
        self.next = one_more(number)?;
        Ok(number)
    }

    /// The names of the variables, with their numbers.
    pub fn into_names(self, alloc: Global) -> Result<VarNames, NoMemory>
        requires { IsPaired self }
        ensures { IfOk result (λ names. map (λ v. (v.name, v.number)) names ≡ (met self).names) }
    {
        let mut names = VarNames::new(alloc);
        for (at, number) in self.numbers.iter().enumerate() {
            let name = Bytes::from_slice(alloc, self.texts.text(NameId(at)))?;
            names.push(VarName {
                name,
                number: *number,
            })?;
        }
        Ok(names)
    }
}
