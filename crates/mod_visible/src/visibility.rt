//! What is visible in modules, and what they give.
ghost use Rattle.std.specs.Prelude.{◌≡◌, ◌<◌, ℕ, List, length, map, slice_get, Some, Option, IfOk, IfSome, IfNone};
ghost use Rattle.std.specs.Option.{option_map};
ghost use Rattle.unit_model.specs.Facts.{Facts};
ghost use Rattle.unit_model.specs.Directives.{Text};
ghost use Rattle.unit_model.specs.Encoding.{text_at};
ghost use Rattle.unit_format.specs.Views.{unit_facts};
ghost use Rattle.link_model.specs.Places.{places_of};
ghost use Rattle.link_model.specs.Giving.{gives_some};
ghost use Rattle.link_model.specs.Seeing.{Visible};
ghost use Rattle.mod_visible.specs.Finding.{indicator, Finds, clash_place, clash_places, AreRows};
ghost use Rattle.mod_visible.specs.Causing.{sort_view};
ghost use Rattle.mod_visible.specs.declared.keys.Key.{Key};
ghost use Rattle.mod_visible.specs.Looking.{IsKeyIn, IsKeyFor, IsFirstFor};
ghost use Rattle.mod_visible.specs.Visibility.{IsVisibility};

use crate::cause::{Cause, Sort};
use crate::causes::causes_of;
use crate::clash::{Clash, clashes_of};
use crate::existing::existing;
use crate::flat::flattened;
use crate::keys::{Key, Procedure};
use crate::leasts::{Leasts, leasts_of};
use crate::rows::{exists, rows_of};
use crate::texts::is_builtin;
use pl_atoms::{NameId, Names, NoMemory};
use search_model::VisibleRows;
use std::alloc::Global;
use unit_format::Unit;

/// What is visible in the modules of units, and what they give (ISO/IEC 13211-2, 6.1).
#[derive(Drop)]
pub struct Visibility {
    pub names: Names,
    modules: Names,
    system: NameId,
    causes: Vec<Cause>,
    firsts: Leasts,
    clashes: Vec<Clash>,
}

impl Visibility {
    /// The visibility of these units, whose numbers are their places. Time and memory are in proportion to their entries and the
    /// causes of visibility and giving, but for a sort of the clashes. Its one error is want of memory.
    pub fn of(alloc: Global, units: &[Unit]) -> Result<Visibility, NoMemory>
        ensures { IfOk result (λ v. IsVisibility (map unit_facts units.now) v) }
    {
        let modules = existing(alloc, units)?;
        let mut flat = flattened(alloc, units)?;
        let system = flat.names.intern(b"system")?;
        let causes = causes_of(alloc, flat.entries.as_slice())?;
        let none = Leasts::new(alloc);
        let firsts = leasts_of(alloc, causes.as_slice(), &none)?;
        let clashes = clashes_of(alloc, &flat.names, causes.as_slice(), &firsts)?;
        Ok(Visibility {
            names: flat.names,
            modules,
            system,
            causes,
            firsts,
            clashes,
        })
    }

    /// The module that defines the procedure of this name and number of arguments that is visible in a module: `system` for a
    /// built-in one, and else the definer that a cause at the first place brings. None exactly where none is visible.
    pub fn lookup(&self, home: &[u8], name: &[u8], arity: u8) -> Option<NameId>
        ensures found { (units : List (Facts Text)) → IsVisibility units self.now → IfSome result (λ d. (d.0 < length self.now.names) × Finds units home.now (indicator name.now arity) (text_at self.now.names d.0) × Visible units home.now (indicator name.now arity) (text_at self.now.names d.0)) }
        ensures none { (units : List (Facts Text)) → IsVisibility units self.now → IfNone result ((d : Text) → Visible units home.now (indicator name.now arity) d → ⊥) }
    {
        if !exists(&self.modules, home) {
            return None;
        }
        if is_builtin(name, arity) {
            return Some(self.system);
        }
        match self.first(Sort::Seeing, home, name, arity) {
            Some(cause) => Some(cause.definer),
            None => None,
        }
    }

    /// Whether a module gives the procedure of this name and number of arguments, of some definer.
    pub fn gives(&self, home: &[u8], name: &[u8], arity: u8) -> bool
        ensures { (units : List (Facts Text)) → IsVisibility units self.now → result ≡ gives_some (places_of 0 units) home.now (indicator name.now arity) }
    {
        self.first(Sort::Giving, home, name, arity).is_some()
    }

    /// The place of a clash of definers, by its number from 0 in the order of units, then bytes. None exactly where there are no
    /// more than `k`.
    pub fn clash(&self, k: usize) -> Option<Clash>
        ensures { (units : List (Facts Text)) → IsVisibility units self.now → option_map clash_place result ≡ slice_get (clash_places units) k }
    {
        match self.clashes.get(k) {
            Some(clash) => Some(*clash),
            None => None,
        }
    }

    /// What is visible in the modules, but for built-in procedures, in the order of module, name, number of arguments and definer,
    /// each once. Its one error is want of memory.
    pub fn rows(&self, alloc: Global) -> Result<VisibleRows, NoMemory>
        ensures { IfOk result (λ rows. (units : List (Facts Text)) → IsVisibility units self.now → AreRows self.now.names units rows) }
    {
        rows_of(alloc, &self.names, &self.modules, self.causes.as_slice())
    }

    /// The table of all names of the units.
    pub fn names(&self) -> &Names
        ensures { result.now ≡ self.now.names }
    {
        &self.names
    }

    // The cause at the first place for a procedure of a module.
    fn first(&self, sort: Sort, home: &[u8], name: &[u8], arity: u8) -> Option<Cause>
        ensures { (units : List (Facts Text)) → IsVisibility units self.now → IsFirstFor units self.now.names (sort_view sort) home.now (indicator name.now arity) result }
    {
        match self.key(sort, home, name, arity) {
            Some(key) => self.firsts.get(key),
            None => None,
        }
    }

    // What a procedure of a module is looked up by, where the table has their names.
    fn key(&self, sort: Sort, home: &[u8], name: &[u8], arity: u8) -> Option<Key>
        ensures some { IfSome result (IsKeyFor self.now.names sort home.now name.now arity) }
        ensures none { IfNone result ((k : Key) → IsKeyFor self.now.names sort home.now name.now arity k → ⊥) }
    {
        match self.names.find(home) {
            Some(home) => self.key_in(sort, home, name, arity),
            None => None,
        }
    }

    fn key_in(&self, sort: Sort, home: NameId, name: &[u8], arity: u8) -> Option<Key>
        ensures some { IfSome result (IsKeyIn self.now.names sort home.0 name.now arity) }
        ensures none { IfNone result ((n : ℕ) → slice_get self.now.names n ≡ Some name.now → ⊥) }
    {
        match self.names.find(name) {
            Some(name) => Some(Key::with(
                sort,
                Procedure {
                    module: home.0,
                    name: name.0,
                    arity,
                },
            )),
            None => None,
        }
    }
}
