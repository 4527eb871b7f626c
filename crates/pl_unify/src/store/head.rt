//! Matching a clause's head against its code.
ghost use Rattle.std.specs.Prelude.{◌≡◌, ℕ, ◌+◌, ◌<◌, ◌≤◌, ◌^◌, ◌∷◌, ◌++◌, [], max, length, reverse, slice_index_or, None, MatchBool, IfOk, OnOk, OnErr};
ghost use Rattle.unifier_model.specs.Unifier.{Solved};
ghost use Rattle.pl_terms.specs.Trees.{var, int, atom};
ghost use Rattle.pl_unify.specs.Words.{IsFree, WordIn};
ghost use Rattle.pl_unify.specs.State.{Extends, Binds, tree_at, tree_of_var};
ghost use Rattle.pl_unify.specs.Steps.{OnlyBinds};
ghost use Rattle.pl_unify.specs.Code.{IsCode, IsCompound, no_code};
ghost use Rattle.pl_unify.specs.Match.{SolvedBy, Born, PairsIn, code_equation, code_equations};
ghost use Rattle.pl_unify.specs.Spans.{IsMet, pairs_of, all_pairs};
ghost use Rattle.pl_unify.specs.declared.store.head.Met.TheVariants as M;

use super::Store;
use crate::code::{Code, CodeWord};
use crate::list::{make_room, push, put};
use crate::word::{Ref, Word};
use pl_atoms::{NameId, NoMemory};

// Equations of places of a store with places of code: the first places, and how many there are.
#[derive(Clone, Copy)]
pub(super) struct Span {
    pub place: usize,
    pub code: usize,
    pub left: usize,
}

// What is left of an equation.
enum Met {
    // Nothing: its unifier was applied.
    Done,
    // No unifier exists.
    Clash,
    // The equations of the arguments.
    Parts(Span),
}

impl Store {
    // Solves the equations of a span.
    pub(super) fn match_span(
        &mut self,
        span: Span,
        code: &Code,
        base: usize,
    ) -> Result<bool, NoMemory>
        requires span { PairsIn (length self.old.state.cells) (length code.now.words) (pairs_of span) }
        requires base { base ≤ self.old.state.next }
        ensures extends { Extends self.old.state self.new.state }
        ensures next { self.new.state.next ≤ max self.old.state.next (code.now.vars + base) }
        ensures answer { IfOk result (λ yes. MatchBool yes (SolvedBy self.old.state self.new.state (code_equations self.old.state base code.now.words (pairs_of span)))
            (Solved (code_equations self.old.state base code.now.words (pairs_of span)) None)) }
    {
        let mut work = self.take_spans();
        let matched = self.match_spans(span, code, base, &mut work);
        self.keep_spans(work);
        matched
    }

    // As `match_span`, with a list for what is left of spans.
    fn match_spans(
        &mut self,
        span: Span,
        code: &Code,
        base: usize,
        work: &mut Vec<Span>,
    ) -> Result<bool, NoMemory>
        requires empty { work.old.items ≡ [] }
        requires span { PairsIn (length self.old.state.cells) (length code.now.words) (pairs_of span) }
        requires base { base ≤ self.old.state.next }
        ensures extends { Extends self.old.state self.new.state }
        ensures next { self.new.state.next ≤ max self.old.state.next (code.now.vars + base) }
        ensures answer { IfOk result (λ yes. MatchBool yes (SolvedBy self.old.state self.new.state (code_equations self.old.state base code.now.words (pairs_of span)))
            (Solved (code_equations self.old.state base code.now.words (pairs_of span)) None)) }
    {
        let _len = code.len();
        let mut now = span;
        'turns: loop {
            if now.left == 0 {
                let Some(next) = work.pop() else {
                    return Ok(true);
                };
                now = next;
                continue;
            }
            let _next = self.next_var();
            match self.match_place(now.place, code, now.code, base)? {
                Met::Done => now = rest_of(now),
                Met::Clash => return Ok(false),
                Met::Parts(parts) => {
                    keep_rest(work, rest_of(now))?;
                    now = parts;
                }
            }
        }
    }

    // Solves the equation of a place of the store and one of the code, up to the equations of arguments. The functions that
    // this calls take places and numbers, since a `Word` goes through memory.
    fn match_place(
        &mut self,
        place: usize,
        code: &Code,
        p: usize,
        base: usize,
    ) -> Result<Met, NoMemory>
        requires place { place < length self.old.state.cells }
        requires code { p < length code.now.words }
        requires base { base ≤ self.old.state.next }
        ensures extends { Extends self.old.state self.new.state }
        ensures next { self.new.state.next ≤ max self.old.state.next (code.now.vars + base) }
        ensures met { IfOk result (IsMet self.old.state self.new.state base code.now.words (tree_at self.old.state (record { 0 = place })) p) }
    {
        match code.word(p) {
            CodeWord::Var(n) => {
                let next = self.next_var();
                let number = n + base;
                if next <= number {
                    self.match_new_variable(place, number)?;
                    return Ok(Met::Done);
                }
                let yes = self.match_variable(place, number)?;
                Ok(met_by(yes))
            }
            CodeWord::Int(value) => {
                let yes = self.match_int(place, value)?;
                Ok(met_by(yes))
            }
            CodeWord::Name(name) => {
                let yes = self.match_name(place, name)?;
                Ok(met_by(yes))
            }
            CodeWord::Comp(arity, name, first, _) => {
                self.match_compound(place, arity, name, first, code, p, base)
            }
        }
    }

    // As `match_place`, where the code has this compound.
    fn match_compound(
        &mut self,
        place: usize,
        arity: u8,
        name: NameId,
        first: usize,
        code: &Code,
        p: usize,
        base: usize,
    ) -> Result<Met, NoMemory>
        requires place { place < length self.old.state.cells }
        requires layout { IsCode code.now.words code.now.vars }
        requires code { p < length code.now.words }
        requires compound { (from : ℕ) × (CodeWord.Comp arity name first from ≡ slice_index_or code.now.words p no_code) }
        requires base { base ≤ self.old.state.next }
        ensures extends { Extends self.old.state self.new.state }
        ensures next { self.new.state.next ≤ max self.old.state.next (code.now.vars + base) }
        ensures met { IfOk result (IsMet self.old.state self.new.state base code.now.words (tree_at self.old.state (record { 0 = place })) p) }
    {
        match self.word_at(Ref(place)) {
            Word::Comp(count, other, place) => {
                if name != other {
                    return Ok(Met::Clash);
                }
                if arity != count {
                    return Ok(Met::Clash);
                }
                Ok(Met::Parts(Span {
                    place,
                    code: first,
                    left: arity as usize,
                }))
            }
            Word::Var(n) => {
                let yes = self.bind_built(n, code, p, base)?;
                Ok(met_by(yes))
            }
            _ => Ok(Met::Clash),
        }
    }

    // Binds an unbound variable to a compound of the code, which is built, unless it occurs there.
    fn bind_built(&mut self, n: usize, code: &Code, p: usize, base: usize) -> Result<bool, NoMemory>
        requires number { n < self.old.state.next }
        requires free { IsFree n self.old.state.links }
        requires code { p < length code.now.words }
        requires compound { IsCompound (slice_index_or code.now.words p no_code) }
        requires base { base ≤ self.old.state.next }
        ensures extends { Extends self.old.state self.new.state }
        ensures next { self.new.state.next ≤ max self.old.state.next (code.now.vars + base) }
        ensures answer { IfOk result (λ yes. MatchBool yes (SolvedBy self.old.state self.new.state (code_equation self.old.state base code.now.words (var n) p))
            (Solved (code_equation self.old.state base code.now.words (var n) p) None)) }
    {
        let built = self.build_word(code, p, base)?;
        self.bind_word(n, built)
    }

    // Solves the equation of a place and a variable that is there.
    fn match_variable(&mut self, place: usize, n: usize) -> Result<bool, NoMemory>
        requires place { place < length self.old.state.cells }
        requires number { n < self.old.state.next }
        ensures only { OnlyBinds self.old.state self.new.state }
        ensures answer { IfOk result (λ yes. MatchBool yes
            (SolvedBy self.old.state self.new.state ((tree_at self.old.state (record { 0 = place }), tree_of_var self.old.state n) ∷ []))
            (Solved ((tree_at self.old.state (record { 0 = place }), tree_of_var self.old.state n) ∷ []) None)) }
    {
        self.solve_words(self.cell(place), Word::Var(n))
    }

    // Solves the equation of a place and an integer.
    fn match_int(&mut self, place: usize, value: i64) -> Result<bool, NoMemory>
        requires { place < length self.old.state.cells }
        ensures only { OnlyBinds self.old.state self.new.state }
        ensures answer { IfOk result (λ yes. MatchBool yes
            (SolvedBy self.old.state self.new.state ((tree_at self.old.state (record { 0 = place }), int value) ∷ []))
            (Solved ((tree_at self.old.state (record { 0 = place }), int value) ∷ []) None)) }
    {
        match self.word_at(Ref(place)) {
            Word::Int(other) => { if other == value { Ok(true) } else { Ok(false) } }
            Word::Var(n) => {
                self.bind_int(n, value)?;
                Ok(true)
            }
            _ => Ok(false),
        }
    }

    // Solves the equation of a place and an atom.
    fn match_name(&mut self, place: usize, name: NameId) -> Result<bool, NoMemory>
        requires { place < length self.old.state.cells }
        ensures only { OnlyBinds self.old.state self.new.state }
        ensures answer { IfOk result (λ yes. MatchBool yes
            (SolvedBy self.old.state self.new.state ((tree_at self.old.state (record { 0 = place }), atom name.0) ∷ []))
            (Solved ((tree_at self.old.state (record { 0 = place }), atom name.0) ∷ []) None)) }
    {
        match self.word_at(Ref(place)) {
            Word::Name(other) => { if other == name { Ok(true) } else { Ok(false) } }
            Word::Var(n) => {
                self.bind_name(n, name)?;
                Ok(true)
            }
            _ => Ok(false),
        }
    }

    // Binds an unbound variable to an integer, which it cannot occur in.
    fn bind_int(&mut self, n: usize, value: i64) -> Result<(), NoMemory>
        requires number { n < self.old.state.next }
        requires free { IsFree n self.old.state.links }
        ensures binds { OnOk result (Binds self.old.state self.new.state n (int value)) }
        ensures err { OnErr result (self.new.state ≡ self.old.state) }
    {
        self.reserve_binding()?;
        self.attach(n, Word::Int(value));
        Ok(())
    }

    // Binds an unbound variable to an atom, which it cannot occur in.
    fn bind_name(&mut self, n: usize, name: NameId) -> Result<(), NoMemory>
        requires number { n < self.old.state.next }
        requires free { IsFree n self.old.state.links }
        ensures binds { OnOk result (Binds self.old.state self.new.state n (atom name.0)) }
        ensures err { OnErr result (self.new.state ≡ self.old.state) }
    {
        self.reserve_binding()?;
        self.attach(n, Word::Name(name));
        Ok(())
    }

    // Solves the equation of a place and a variable that is not there yet, which takes the place's word.
    fn match_new_variable(&mut self, place: usize, n: usize) -> Result<(), NoMemory>
        requires place { place < length self.old.state.cells }
        requires number { self.old.state.next ≤ n }
        ensures extends { Extends self.old.state self.new.state }
        ensures next { self.new.state.next ≤ n + 1 }
        ensures solved { OnOk result (SolvedBy self.old.state self.new.state ((tree_at self.old.state (record { 0 = place }), var n) ∷ [])) }
    {
        self.make_below(n)?;
        let word = self.word_at(Ref(place));
        self.add_bound(word)
    }

    // Makes the next variable, bound to a word from before it.
    fn add_bound(&mut self, word: Word) -> Result<(), NoMemory>
        requires within { WordIn (length self.old.state.cells) self.old.state.next word }
        requires ahead { (m : ℕ) → word ≡ Word.Var m → IsFree m self.old.state.links }
        ensures ok { OnOk result (Born self.old.state self.new.state word) }
        ensures err { OnErr result (self.new.state ≡ self.old.state) }
    {
        let n = self.vars.len();
        make_room(&mut self.vars, 1)?;
        make_room(&mut self.trail, 1)?;
        put(&mut self.vars, word);
        put(&mut self.trail, n);
        Ok(())
    }
}

// What is left of an equation that was solved, or has no unifier.
fn met_by(yes: bool) -> Met
    ensures { MatchBool yes (result ≡ M.Done) (result ≡ M.Clash) }
{
    if yes { Met::Done } else { Met::Clash }
}

// A span without its first equation.
fn rest_of(span: Span) -> Span
    requires some { 0 < span.left }
    requires place { span.place < 2 ^ 63 }
    requires code { span.code < 2 ^ 63 }
    ensures { pairs_of span ≡ (span.place, span.code) ∷ pairs_of result }
{
    Span {
        place: span.place + 1,
        code: span.code + 1,
        left: span.left - 1,
    }
}

// Puts what is left of a span last.
fn keep_rest(work: &mut Vec<Span>, rest: Span) -> Result<(), NoMemory>
    ensures pairs { OnOk result (all_pairs (reverse work.new.items) ≡ pairs_of rest ++ all_pairs (reverse work.old.items)) }
    ensures one { OnOk result (length work.new.items ≤ length work.old.items + 1) }
{
    if rest.left > 0 {
        push(work, rest)?;
    }
    Ok(())
}
