//! The clauses of each procedure, and those that fit a first argument.
ghost use Rattle.std.specs.Prelude.{◌≡◌, ◌+◌, ◌<◌, ◌≤◌, ◌∷◌, ◌++◌, [], ◌||◌, length, slice_index_or, slice_get, find, position, is_some, nat_le, Some, IfSome, vec_len, vec_capacity, IfOk, OnOk, OnErr};
ghost use Rattle.pl_store.specs.Places.{next_place, earlier};
ghost use Rattle.std.specs.List.{IsDistinct, list_any};
ghost use Rattle.std.specs.List.Sorted.{IsNonDecreasing};
ghost use Rattle.pl_store.specs.Tags.{is_owned, is_candidate, same_class, same_tag, head_class, no_tag, or_else, with_tag, with_list, lists, linked};

use crate::list::{make_room, push, put};
use indexmap::IndexSet;
use pl_atoms::NoMemory;
use pl_terms::{Cell, Term};
use std::alloc::Global;
use std::marker::Model;

/// What the first argument of a clause's head is.
#[derive(Clone, Copy, Debug, PartialEq, Eq, Hash)]
pub enum Class {
    /// A variable, or there are no arguments.
    Open,
    /// An integer.
    Int(i64),
    /// An atom, by the number of its name.
    Name(usize),
    /// A compound, by the number of its name, and its number of arguments.
    Comp(usize, u8),
}

/// A procedure's number, and a class of its clauses.
#[derive(Clone, Copy, Debug, PartialEq, Eq, Hash)]
pub struct Tag {
    pub owner: usize,
    pub class: Class,
}

// What is known of a clause.
#[derive(Clone, Copy, Debug)]
struct Entry {
    tag: Tag,
    // The next clause of the procedure.
    next: Option<usize>,
    // The number of the clauses with its tag.
    group: usize,
}

// What is known of a procedure.
#[derive(Clone, Copy, Debug)]
struct Ends {
    first: Option<usize>,
    last: Option<usize>,
    count: usize,
}

// The clauses of a procedure with at most so many are looked at one by one.
const FEW: usize = 8;

/// An index of clauses. Contracts see how many procedures there are, and the tags of the clauses.
#[derive(Drop)]
pub struct Index {
    entries: Vec<Entry>,
    ends: Vec<Ends>,
    tags: IndexSet<Tag>,
    // The places of the clauses with each tag.
    groups: Vec<Vec<usize>>,
    alloc: Global,
}

impl Model for Index {
    ghost use Rattle.std.specs.Prelude.{length};
    ghost use Rattle.pl_store.specs.Tags.{Indexed, IsIndex, tags_of, lists};

    ghost Value = { Indexed };

    ghost view = { λ x. record { owners = length x.ends.items; tags = tags_of x.entries.items } };

    ghost invariant = { λ x. IsIndex x.entries.items x.ends.items x.tags.keys (lists x.groups.items) };
}

impl Index {
    /// No procedures.
    pub fn new(alloc: Global) -> Index
        ensures { (result.owners ≡ 0) × (result.tags ≡ []) }
    {
        Index {
            entries: Vec::new(alloc),
            ends: Vec::new(alloc),
            tags: IndexSet::new(alloc),
            groups: Vec::new(alloc),
            alloc,
        }
    }

    /// One more procedure, without clauses.
    pub fn add_owner(&mut self) -> Result<(), NoMemory>
        ensures ok { OnOk result (self.new ≡ record self.old { owners = self.old.owners + 1 }) }
        ensures err { OnErr result (self.new ≡ self.old) }
    {
        push(
            &mut self.ends,
            Ends {
                first: None,
                last: None,
                count: 0,
            },
        )?;
        Ok(())
    }

    /// One more clause, the last one. NoMemory: all is as before.
    pub fn add(&mut self, tag: Tag) -> Result<(), NoMemory>
        requires { tag.owner < self.old.owners }
        ensures ok { OnOk result (self.new ≡ record self.old { tags = self.old.tags ++ tag ∷ [] }) }
        ensures err { OnErr result (self.new ≡ self.old) }
    {
        let group = group_of(&mut self.tags, &mut self.groups, self.alloc, tag)?;
        make_room(&mut self.entries)?;
        let place = self.entries.len();
        push(&mut self.groups[group], place)?;
        let ends = self.ends[tag.owner];
        enter(
            &mut self.entries,
            ends.last,
            Entry {
                tag,
                next: None,
                group,
            },
        );
        self.ends[tag.owner] = with_last(ends, place);
        Ok(())
    }

    /// The first clause of a procedure.
    pub fn first(&self, owner: usize) -> Option<usize>
        requires { owner < self.now.owners }
        ensures { result ≡ next_place (is_owned owner) 0 self.now.tags }
    {
        self.ends[owner].first
    }

    /// The next clause of a clause's procedure.
    pub fn next(&self, place: usize) -> Option<usize>
        requires { place < length self.now.tags }
        ensures { result ≡ next_place (is_owned (slice_index_or self.now.tags place no_tag).owner) (place + 1) self.now.tags }
    {
        self.entries[place].next
    }

    /// The first clause of a procedure whose first argument is of this class or open.
    pub fn first_fit(&self, owner: usize, class: Class) -> Option<usize>
        requires { owner < self.now.owners }
        ensures { result ≡ next_place (is_candidate owner class) 0 self.now.tags }
    {
        let ends = self.ends[owner];
        if ends.count <= FEW {
            return self.scan(owner, class, 0, ends.first);
        }
        self.look_up(owner, class, 0)
    }

    /// The next clause of a clause's procedure whose first argument is of this class or open.
    pub fn next_fit(&self, place: usize, class: Class) -> Option<usize>
        requires { place < length self.now.tags }
        ensures { result ≡ next_place (is_candidate (slice_index_or self.now.tags place no_tag).owner class) (place + 1) self.now.tags }
    {
        let entry = self.entries[place];
        let owner = entry.tag.owner;
        if self.ends[owner].count <= FEW {
            return self.scan(owner, class, place + 1, entry.next);
        }
        self.look_up(owner, class, place + 1)
    }

    // The first fitting clause of a procedure from one of its clauses on, which is its first one from `from` on.
    fn scan(&self, owner: usize, class: Class, from: usize, start: Option<usize>) -> Option<usize>
        requires { start ≡ next_place (is_owned owner) from self.now.tags }
        ensures { result ≡ next_place (is_candidate owner class) from self.now.tags }
    {
        let mut at = start;
        while let Some(place) = at {
            let entry = self.entries[place];
            if is_fit(class, entry.tag.class) {
                return at;
            }
            at = entry.next;
        }
        None
    }

    // The first fitting clause of a procedure from `from` on.
    fn look_up(&self, owner: usize, class: Class, from: usize) -> Option<usize>
        ensures { result ≡ next_place (is_candidate owner class) from self.now.tags }
    {
        let own = self.tagged(Tag { owner, class }, from);
        let open = self.tagged(
            Tag {
                owner,
                class: Class::Open,
            },
            from,
        );
        earlier(own, open)
    }

    // The first clause with this tag from `from` on.
    fn tagged(&self, tag: Tag, from: usize) -> Option<usize>
        ensures { result ≡ next_place (same_tag tag) from self.now.tags }
    {
        let group = group_number(&self.tags, tag)?;
        first_from(self.groups[group].as_slice(), from)
    }
}

// The first of some places that ascend, from `from` on.
fn first_from(places: &[usize], from: usize) -> Option<usize>
    requires { IsNonDecreasing places.now }
    ensures { result ≡ find (nat_le from) places.now }
{
    let at = places.partition_point(|place| *place < from);
    if at < places.len() {
        Some(places[at])
    } else {
        None
    }
}

// The number of the clauses with a tag, where there were some.
fn group_number(tags: &IndexSet<Tag>, tag: Tag) -> Option<usize>
    ensures place { result ≡ position (same_tag tag) tags.now.keys }
    ensures found { is_some result ≡ list_any (same_tag tag) tags.now.keys }
{
    tags.get_index_of(&tag)
}

// The number of the clauses with a tag, which are none if the tag is new. NoMemory: all is as before.
fn group_of(
    tags: &mut IndexSet<Tag>,
    groups: &mut Vec<Vec<usize>>,
    alloc: Global,
    tag: Tag,
) -> Result<usize, NoMemory>
    ensures tags { OnOk result (tags.new.keys ≡ with_tag tags.old.keys tag) }
    ensures groups { OnOk result (lists groups.new.items ≡ with_list tags.old.keys tag (lists groups.old.items)) }
    ensures group { IfOk result (λ group. slice_get tags.new.keys group ≡ Some tag) }
    ensures distinct { OnOk result (IsDistinct same_tag tags.new.keys) }
    ensures err { OnErr result (tags.new.keys ≡ tags.old.keys × lists groups.new.items ≡ lists groups.old.items) }
{
    make_room(groups)?;
    let (group, is_new) = tags.insert_full(tag)?;
    if is_new {
        put(groups, Vec::new(alloc));
    }
    Ok(group)
}

// Puts a clause last, and has the last clause of its procedure, where there is one, lead to it.
fn enter(entries: &mut Vec<Entry>, last: Option<usize>, entry: Entry)
    requires last { IfSome last (λ l. l < length entries.old.items) }
    requires room { vec_len entries.old < vec_capacity entries.old }
    ensures { entries.new.items ≡ linked entries.old.items last (length entries.old.items) ++ entry ∷ [] }
{
    let place = entries.len();
    if let Some(last) = last {
        entries[last].next = Some(place);
    }
    put(entries, entry);
}

// With a clause at this place, the last one.
fn with_last(ends: Ends, place: usize) -> Ends
    ensures first { result.first ≡ or_else ends.first place }
    ensures last { result.last ≡ Some place }
{
    Ends {
        first: ends.first.or(Some(place)),
        last: Some(place),
        count: ends.count.saturating_add(1),
    }
}

// Whether a class is this one or open.
fn is_fit(class: Class, of: Class) -> bool
    ensures { result ≡ (same_class class of || same_class Class.Open of) }
{
    of == class || of == Class::Open
}

// The lesser of two places, where there are any.
fn earlier(one: Option<usize>, other: Option<usize>) -> Option<usize>
    ensures { result ≡ earlier one other }
{
    match (one, other) {
        (Some(i), Some(j)) => Some(i.min(j)),
        (Some(i), None) => Some(i),
        (None, place) => place,
    }
}

/// What the first argument of a head is.
pub fn class_of(head: &Term) -> Class
    ensures { result ≡ head_class head.now }
{
    let cells = head.cells();
    if cells.len() < 2 {
        return Class::Open;
    }
    // The second cell of a compound is that of its first argument.
    match cells[1] {
        Cell::Var(_) => Class::Open,
        Cell::Int(value) => Class::Int(value),
        Cell::Name(name) => Class::Name(name.0),
        Cell::Comp(name, arity) => Class::Comp(name.0, arity),
    }
}
