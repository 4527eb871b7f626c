//! Where a run stands.
ghost use Rattle.std.specs.Prelude.{◌≡◌, ◌∷◌, ◌++◌, ◌<◌, ◌≤◌, [], length, reverse, take, map, Some, MatchOption, IfOk, OnOk, IfSome, vec_len, vec_capacity};
ghost use Rattle.pl_unify.specs.State.{state_at, IsMark};
ghost use Rattle.goal_state.specs.Frames.{place_get};
ghost use Rattle.goal_state.specs.Denotation.{first, outer_of, outer_answers, answers_of, state_of, setting_in};
ghost use Rattle.goal_state.specs.Well.{floor_of};
ghost use Rattle.goal_state.specs.Steps.{Put, Opened, kept, template_kept, answers_kept, place_in};

use crate::choice::{Choice, ChoiceKind};
use crate::list::{make_room, put};
use crate::{Frame, Frames, Part, Setting};
use pl_atoms::NoMemory;
use pl_terms::Term;
use pl_unify::{Mark, Ref, Store};

/// Where a run stands: its terms, the frames of what is still to be run, which begins in the frame `f` at the place `pc`, the depth
/// of the next node, and the records of nodes with an untried alternative, the innermost last.
#[derive(Drop)]
pub struct Path {
    pub store: Store,
    pub frames: Frames,
    pub choices: Vec<Choice>,
    /// The answers of the nested searches around, a list for each record of one.
    pub gathered: Vec<Vec<Term>>,
    /// The term that the innermost nested search collects. Without one, the answer is the goal's variables.
    pub template: Option<Ref>,
    /// How many variables the run's goal has.
    pub width: usize,
    pub f: usize,
    pub pc: usize,
    pub depth: usize,
}

impl Path {
    // The place of the newest record's frame, 0 where there is no record.
    fn floor(&self) -> usize
        ensures { result ≡ floor_of (reverse self.now.choices.items) }
    {
        match self.choices.last() {
            Some(choice) => choice.rest,
            None => 0,
        }
    }

    /// Puts a frame above its parent and the newest record's frame, and gives its place. NoMemory: frames above these are dropped.
    pub fn put(&mut self, frame: Frame) -> Result<usize, NoMemory>
        requires parent { frame.parent ≤ length self.old.frames }
        requires floor { floor_of (reverse self.old.choices.items) ≤ length self.old.frames }
        ensures put { IfOk result (λ at. Put self.old self.new frame at) }
        ensures others { self.new ≡ record self.old { frames = self.new.frames } }
    {
        let floor = self.floor();
        let keep = if floor < frame.parent {
            frame.parent
        } else {
            floor
        };
        self.put_above(keep, frame)
    }

    // Puts a frame above the first `keep`.
    fn put_above(&mut self, keep: usize, frame: Frame) -> Result<usize, NoMemory>
        requires parent { frame.parent ≤ keep }
        requires floor { floor_of (reverse self.old.choices.items) ≤ keep }
        requires within { keep ≤ length self.old.frames }
        ensures put { IfOk result (λ at. Put self.old self.new frame at) }
        ensures others { self.new ≡ record self.old { frames = self.new.frames } }
    {
        self.frames.put(keep, frame)
    }

    /// Makes room for one record. NoMemory: all is as before.
    pub fn reserve_choice(&mut self) -> Result<(), NoMemory>
        ensures room { OnOk result (vec_len self.new.choices < vec_capacity self.new.choices) }
        ensures choices { self.new.choices.items ≡ self.old.choices.items }
        ensures others { self.new ≡ record self.old { choices = self.new.choices } }
    {
        make_room(&mut self.choices)
    }

    /// Opens a record, for which there is room.
    pub fn open(&mut self, choice: Choice)
        requires room { vec_len self.old.choices < vec_capacity self.old.choices }
        ensures choices { self.new.choices.items ≡ self.old.choices.items ++ choice ∷ [] }
        ensures others { self.new ≡ record self.old { choices = self.new.choices } }
    {
        put(&mut self.choices, choice);
    }

    /// Opens a record with a frame of its own, which goes on at a place of the frame `parent` and has the record's setting.
    pub fn open_record(
        &mut self,
        kind: ChoiceKind,
        mark: Mark,
        parent: usize,
        ppc: usize,
        setting: Setting,
        depth: usize,
    ) -> Result<(), NoMemory>
        requires parent { parent ≤ length self.old.frames }
        requires floor { floor_of (reverse self.old.choices.items) ≤ length self.old.frames }
        ensures { OnOk result (Opened self.old self.new kind mark parent ppc setting depth) }
    {
        let rest = self.put(Frame {
            parent,
            ppc,
            part: Part::Link,
            setting,
        })?;
        self.reserve_choice()?;
        self.open(Choice {
            kind,
            mark,
            rest,
            depth,
        });
        Ok(())
    }

    /// Takes the newest record off. What its nested search has given stays.
    pub fn pop(&mut self) -> Option<Choice>
        ensures some { IfSome result (λ c. reverse self.old.choices.items ≡ c ∷ reverse self.new.choices.items) }
        ensures none { MatchOption result (self.old.choices.items ≡ []) (λ _. Unit {0}) }
        ensures others { self.new ≡ record self.old { choices = self.new.choices } }
    {
        self.choices.pop()
    }

    /// Leaves the nested search of a record that was taken off, and gives its answers, where the record is of one.
    pub fn leave(&mut self, choice: Choice) -> Option<Vec<Term>>
        ensures template { self.new.template ≡ outer_of choice.kind self.old.template }
        ensures gathered { answers_of self.new ≡ outer_answers choice.kind (answers_of self.old) }
        ensures answers { IfSome result (λ g. g.items ≡ first (answers_of self.old)) }
        ensures others { self.new ≡ record self.old { template = self.new.template; gathered = self.new.gathered } }
    {
        match choice.kind {
            ChoiceKind::Collect { outer, .. } => {
                self.template = outer;
                self.gathered.pop()
            }
            _ => None,
        }
    }

    /// Removes the records of this depth and above (ISO/IEC 13211-1, 7.8.4).
    pub fn cut(&mut self, depth: usize)
        ensures choices { reverse self.new.choices.items ≡ kept depth (reverse self.old.choices.items) }
        ensures template { self.new.template ≡ template_kept depth (reverse self.old.choices.items) self.old.template }
        ensures gathered { answers_of self.new ≡ answers_kept depth (reverse self.old.choices.items) (answers_of self.old) }
        ensures others { self.new ≡ record self.old { choices = self.new.choices; template = self.new.template; gathered = self.new.gathered } }
    {
        while let Some(last) = self.choices.last() {
            if last.depth < depth {
                break;
            }
            let choice = *last;
            self.choices.pop();
            self.leave(choice);
        }
    }

    /// Goes back to the state of a record's mark, and to the frames that there were.
    pub fn go_back(&mut self, choice: Choice)
        requires { IsMark choice.mark (state_of self.old) }
        ensures state { state_of self.new ≡ state_at choice.mark (state_of self.old) }
        ensures frames { self.new.frames ≡ take choice.rest self.old.frames }
        ensures others { self.new ≡ record self.old { store = self.new.store; frames = self.new.frames } }
    {
        self.store.undo(&choice.mark);
        self.frames.truncate(choice.rest);
    }

    /// What follows the goal of a record's node: a frame, and the place in it.
    pub fn rest_of(&self, choice: Choice) -> (usize, usize)
        ensures { result ≡ place_in (place_get (reverse self.now.frames) choice.rest) }
    {
        match self.frames.get(choice.rest) {
            Some(frame) => (frame.parent, frame.ppc),
            None => (0, 0),
        }
    }

    /// The setting of a record.
    pub fn setting_of(&self, choice: Choice) -> Setting
        requires { 0 < choice.rest × choice.rest ≤ length self.now.frames }
        ensures { result ≡ setting_in (place_get (reverse self.now.frames) choice.rest) }
    {
        match self.frames.get(choice.rest) {
            Some(frame) => frame.setting,
            None => unreachable!(),
        }
    }
}
