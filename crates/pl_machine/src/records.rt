//! The records of a machine, from outside.
ghost use Rattle.std.specs.Prelude.{◌≡◌, ◌<◌, ◌∷◌, ◌++◌, [], ℕ, length, reverse, true, false, Some, OnOk, slice_get, vec_len, vec_capacity};
ghost use Rattle.goal_state.specs.declared.choice.Choice.{Choice as Entry};
ghost use Rattle.goal_state.specs.Denotation.{answers_of};
ghost use Rattle.goal_state.specs.Steps.{kept};
ghost use Rattle.goal_state.specs.Well.{IsCompiled, IsWell, IsWellWith};
ghost use Rattle.pl_machine.specs.Inside.{IsInside, WentBack, Unnested};
ghost use Rattle.pl_machine.specs.Machine.{IsMachine};
ghost use Rattle.pl_machine.specs.Running.{Outcomes, Remains};

use crate::machine::Machine;
use goal_state::Choice;
use pl_atoms::NoMemory;
use pl_store::Tables;

impl Machine {
    /// The record at a place, the oldest first.
    pub fn choice(&self, i: usize) -> Choice
        requires { i < length self.now.path.choices.items }
        ensures { slice_get self.now.path.choices.items i ≡ Some result }
    {
        self.path.choices[i]
    }

    /// The program without its names.
    pub fn tables(&self) -> &Tables
        ensures { result.now ≡ self.now.compiled.tables }
    {
        &self.compiled.tables
    }

    /// Makes room for one more record.
    ///
    /// The only error is want of memory: all is as before.
    pub fn reserve_choice(&mut self) -> Result<(), NoMemory>
        ensures room { OnOk result (vec_len self.new.path.choices < vec_capacity self.new.path.choices) }
        ensures choices { self.new.path.choices.items ≡ self.old.path.choices.items }
        ensures others { self.new ≡ record self.old { path = record self.old.path { choices = self.new.path.choices } } }
        ensures machine { IsMachine self.old → IsMachine self.new }
        ensures inside { (node : ℕ) → IsInside self.old node → IsInside self.new node }
        ensures remains { (r : Outcomes) → Remains self.old r → Remains self.new r }
    {
        self.path.reserve_choice()
    }

    /// Opens a record, for which there is room, and which is in order above the others.
    pub fn open(&mut self, choice: Choice)
        requires room { vec_len self.old.path.choices < vec_capacity self.old.path.choices }
        requires inside { IsWellWith self.old.compiled self.old.path (choice ∷ reverse self.old.path.choices.items) self.old.path.depth }
        ensures choices { self.new.path.choices.items ≡ self.old.path.choices.items ++ choice ∷ [] }
        ensures others { self.new ≡ record self.old { path = record self.old.path { choices = self.new.path.choices } } }
        ensures well { IsWell self.new.compiled self.new.path }
        ensures inside { (node : ℕ) → IsInside self.old node → IsWellWith self.old.compiled self.old.path (choice ∷ reverse self.old.path.choices.items) node → IsInside self.new node }
    {
        self.path.open(choice);
    }

    /// Takes the last record off, and goes back to its node: to the state of its mark, and to the frames that there were. Whether there
    /// was one: without, all is as before.
    pub fn back(&mut self) -> bool
        requires compiled { IsCompiled self.old.compiled }
        requires well { IsWell self.old.compiled self.old.path }
        ensures none { result ≡ false → (self.old.path.choices.items ≡ []) × (self.new ≡ self.old) }
        ensures back { result ≡ true → (c : Entry) × WentBack self.old self.new c × IsInside self.new c.depth }
    {
        if self.choices() == 0 {
            return false;
        }
        let _depth = self.depth();
        let Some(choice) = self.path.pop() else {
            unreachable!();
        };
        self.path.go_back(choice);
        self.path.leave(choice);
        self.path.depth = choice.depth + 1;
        true
    }

    // How deep the machine stands, which a usize counts.
    fn depth(&self) -> usize
        ensures { result ≡ self.now.path.depth }
    {
        self.path.depth
    }

    /// Removes the records of a depth and above, none of which is of a nested search.
    pub fn cut(&mut self, depth: usize)
        requires { Unnested depth (reverse self.old.path.choices.items) }
        ensures choices { reverse self.new.path.choices.items ≡ kept depth (reverse self.old.path.choices.items) }
        ensures gathered { answers_of self.new.path ≡ answers_of self.old.path }
        ensures others { self.new ≡ record self.old { path = record self.old.path { choices = self.new.path.choices; gathered = self.new.path.gathered } } }
        ensures machine { IsMachine self.old → IsMachine self.new }
        ensures inside { (node : ℕ) → IsInside self.old node → IsInside self.new node }
    {
        self.path.cut(depth);
    }
}
