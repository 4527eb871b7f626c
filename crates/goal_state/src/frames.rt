//! Frames.
ghost use Rattle.std.specs.Prelude.{◌≡◌, ℕ, ◌<◌, ◌≤◌, [], List, Some, length, reverse, slice_get, take, ◌++◌, ◌∷◌, IfOk, OnOk, OnErr};
ghost use Rattle.std.specs.Prelude.{IsTrue};
ghost use Rattle.pl_unify.specs.State.{State};
ghost use Rattle.goal_code.specs.BodyCode.{BodyCode};
ghost use Rattle.goal_state.specs.Frames.{place_get, place_after, is_over, items_of, IsLinked, IsPut};

use pl_atoms::{NameId, NoMemory};
use pl_unify::Ref;
use std::alloc::Global;
use std::marker::Model;

/// Where a clause's body or a goal runs (ISO/IEC 13211-2, 6.1).
#[derive(Clone, Copy, Debug)]
pub struct Setting {
    /// The clause by its number.
    pub clause: usize,
    /// What the numbers of the clause's variables are raised by.
    pub base: usize,
    /// The lookup module.
    pub lookup: NameId,
    /// The calling context.
    pub context: NameId,
    /// The caller, which is the calling context of the clause's own call.
    pub caller: NameId,
    /// The depth to which a cut cuts, or that of the catch that is left.
    pub depth: usize,
}

/// What a frame runs. A part that is no body stands at place 1, and is done at place 0.
#[derive(Clone, Copy, Debug)]
pub enum Part {
    /// The body of the setting's clause. Places are those of its instructions.
    Body,
    /// The goal at a place of the store.
    Goal(Ref),
    /// The cut to the setting's depth (ISO/IEC 13211-1, 7.8.4).
    Cut,
    /// The exit of the catch of the setting's depth (ISO/IEC 13211-1, 7.8.9).
    Exit,
    /// Failure.
    Fail,
    /// Nothing: what goes on after the frame does.
    Link,
}

/// A part that is being run, and what goes on after it: that of the frame `parent` from the place `ppc` on.
#[derive(Clone, Copy, Debug)]
pub struct Frame {
    pub parent: usize,
    pub ppc: usize,
    pub part: Part,
    pub setting: Setting,
}

// Whether nothing of a part is left at a place.
fn has_ended(part: Part, pc: usize) -> bool
    ensures { result ≡ is_over part pc }
{
    matches!(part, Part::Link) || pc == 0
}

/// Frames, named by places that are counted from 1. Each has a parent at a lower place, and nothing goes on after place 0.
#[derive(Drop)]
pub struct Frames {
    list: Vec<Frame>,
}

impl Model for Frames {
    ghost use Rattle.std.specs.Prelude.{List};
    ghost use Rattle.goal_state.specs.Frames.{IsLinked};
    ghost use Rattle.goal_state.specs.declared.frames.Frame.{Frame as Entry};

    ghost Value = { List Entry };

    ghost view = { λ f. f.list.items };

    ghost invariant = { λ f. IsLinked f.list.items };
}

impl Frames {
    /// No frames.
    pub fn new(alloc: Global) -> Frames
        ensures { result ≡ [] }
    {
        Frames {
            list: Vec::new(alloc),
        }
    }

    /// How many frames there are.
    pub fn len(&self) -> usize
        ensures { result ≡ length self.now }
    {
        self.list.len()
    }

    fn at(&self, k: usize) -> Option<Frame>
        ensures { result ≡ slice_get self.now k }
    {
        self.list.get(k).copied()
    }

    /// The frame at a place, none at place 0.
    pub fn get(&self, place: usize) -> Option<Frame>
        ensures frame { result ≡ place_get (reverse self.now) place }
        ensures linked { IsLinked self.now }
    {
        let _ = &self.list;
        if place == 0 {
            return None;
        }
        self.at(place - 1)
    }

    /// A frame and a place from which as much goes on as from these: the parent's, where nothing is left of the frame's part.
    pub fn after(&self, f: usize, pc: usize) -> (usize, usize)
        ensures place { result ≡ place_after (place_get (reverse self.now) f) f pc }
        ensures items { (p : ℕ → BodyCode) (s : State) → items_of p s self.now result.0 result.1 ≡ items_of p s self.now f pc }
        ensures within { result.0 ≤ f }
    {
        if let Some(frame) = self.get(f) {
            if has_ended(frame.part, pc) {
                return (frame.parent, frame.ppc);
            }
        }
        (f, pc)
    }

    /// Drops the frames above the first `keep`.
    pub fn truncate(&mut self, keep: usize)
        ensures { self.new ≡ take keep self.old }
    {
        self.list.truncate(keep);
    }

    /// Puts a frame above the first `keep`, and drops those that stood there. Its place is given. NoMemory: they are dropped.
    pub fn put(&mut self, keep: usize, frame: Frame) -> Result<usize, NoMemory>
        requires above { frame.parent ≤ keep }
        requires within { keep ≤ length self.old }
        ensures put { IfOk result (λ at. IsPut self.old self.new keep frame at) }
        ensures err { OnErr result (self.new ≡ take keep self.old) }
    {
        put_above(&mut self.list, keep, frame)
    }
}

// Puts a frame above the first `keep`, and gives its place.
fn put_above(list: &mut Vec<Frame>, keep: usize, frame: Frame) -> Result<usize, NoMemory>
    requires { keep ≤ length list.old.items }
    ensures ok { OnOk result (list.new.items ≡ take keep list.old.items ++ frame ∷ []) }
    ensures place { IfOk result (λ at. at ≡ length list.new.items) }
    ensures err { OnErr result (list.new.items ≡ take keep list.old.items) }
{
    list.truncate(keep);
    match list.push(frame) {
        Ok(()) => Ok(list.len()),
        Err(_) => Err(NoMemory),
    }
}
