//! The lists that a store keeps for its calls.
ghost use Rattle.std.specs.Prelude.{◌≡◌, []};

use super::Store;
use super::head::Span;
use super::notes::Step;
use crate::list::take_list;
use crate::word::Word;

impl Store {
    // An empty list of words.
    pub(super) fn take_words(&mut self) -> Vec<Word>
        ensures empty { result.items ≡ [] }
        ensures state { self.new.state ≡ self.old.state }
    {
        take_list(&mut self.words, self.alloc)
    }

    // Keeps the list for the next call.
    pub(super) fn keep_words(&mut self, words: Vec<Word>)
        ensures { self.new.state ≡ self.old.state }
    {
        self.words = words;
    }

    // An empty list of equations of places.
    pub(super) fn take_equations(&mut self) -> Vec<(usize, usize)>
        ensures empty { result.items ≡ [] }
        ensures state { self.new.state ≡ self.old.state }
    {
        take_list(&mut self.equations, self.alloc)
    }

    // Keeps the list for the next call.
    pub(super) fn keep_equations(&mut self, equations: Vec<(usize, usize)>)
        ensures { self.new.state ≡ self.old.state }
    {
        self.equations = equations;
    }

    // An empty list of spans.
    pub(super) fn take_spans(&mut self) -> Vec<Span>
        ensures empty { result.items ≡ [] }
        ensures state { self.new.state ≡ self.old.state }
    {
        take_list(&mut self.spans, self.alloc)
    }

    // Keeps the list for the next call.
    pub(super) fn keep_spans(&mut self, spans: Vec<Span>)
        ensures { self.new.state ≡ self.old.state }
    {
        self.spans = spans;
    }

    // An empty list of steps of a walk.
    pub(super) fn take_steps(&mut self) -> Vec<Step>
        ensures empty { result.items ≡ [] }
        ensures state { self.new.state ≡ self.old.state }
    {
        take_list(&mut self.steps, self.alloc)
    }

    // Keeps the list for the next call.
    pub(super) fn keep_steps(&mut self, steps: Vec<Step>)
        ensures { self.new.state ≡ self.old.state }
    {
        self.steps = steps;
    }
}
