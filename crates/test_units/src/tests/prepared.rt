//! Texts, and the bytes of their units or their first faults.
use prep_texts::{Known, PrepFault, prepare};
use std::alloc::Global;
use std::test::Fail;
use unit_format::encode;

// The unit of the empty text.
const EMPTY: &[u8; 38] =
    b"PLMU\x01\x00\x00\x00\x01\x00\x00\x00\x04user\x00\x00\x00\x00\x00\x00\x00\x01\x02\x00\x00\x00\x00\x00\x00\x00\x00\x00\x00\x00\x00";

// The unit of `a.`.
const FACT: &[u8; 70] =
    b"PLMU\x01\x00\x00\x00\x03\x00\x00\x00\x04user\x00\x00\x00\x01a\x00\x00\x00\x04true\x00\x00\x00\x00\x00\x00\x00\x01\x02\x00\x00\x00\x00\x00\x00\x00\x00\x00\x00\x00\x01\x08\x00\x00\x00\x00\x00\x00\x00\x00\x02\x00\x00\x00\x01\x02\x00\x00\x00\x02";

// Texts that know nothing, and the numbers and bytes of their first faults.
const FAULTS: [(&[u8], (u8, usize)); 25] = [
    (b"a. \xff", (1, 3)),
    (b"a. 'b", (2, 3)),
    (b"a :- \xc3\xa9.", (2, 5)),
    (b"a(9223372036854775808).", (3, 2)),
    (b"a. 1.5", (4, 3)),
    (b"a b.", (5, 0)),
    (b"a. b", (6, 3)),
    (b":- module(m).\n", (7, 14)),
    (b":- end_body(m).", (7, 0)),
    (b":- module(m). :- module(n).", (7, 14)),
    (b":- module(m). :- end_module(n).", (7, 14)),
    (b":- module(m). :- end_body(m).", (7, 14)),
    (b":- initialization(a).", (8, 0)),
    (b":- import(m/1).", (9, 0)),
    (b":- body(X).", (9, 0)),
    (b":- export(a/0).", (10, 0)),
    (b":- import(m).", (11, 0)),
    (b":- body(m).", (11, 0)),
    (b":- op(1201, xfx, ===>).", (12, 0)),
    (b"1 :- a.", (13, 0)),
    (b"a :- 1.", (13, 0)),
    (b"call(X) :- X.", (14, 0)),
    (b"a --> b.", (14, 0)),
    (b":- module(user).", (15, 0)),
    (b":- module(m). a.", (16, 14)),
];

const OPERATORS: &[u8; 111] =
    b":- module(o). :- op(700, xfx, ===>). :- export(r/1). :- end_module(o). :- body(o). r(a ===> b). :- end_body(o).";

const USER: &[u8; 43] = b":- import(o). s(X) :- r(X), X = (a ===> b).";

const LISTS: &[u8; 109] =
    b":- module(lists). :- export([append/3, maplist/3]). :- metapredicate(maplist(:, *, *)). :- end_module(lists).";

// The first fault of a text, as its number and byte; (0, 0) where there is none.
fn fault_of(alloc: Global, text: &[u8], known: &Known) -> (u8, usize) {
    if text.len() > 67108864 {
        return (255, 0);
    }
    match prepare(alloc, text, known) {
        Ok(_) => (0, 0),
        Err(PrepFault::Fault { number, byte }) => (number, byte),
        Err(PrepFault::NoMemory) => (255, 0),
    }
}

#[test]
fn faults_stand_at_their_bytes(rt: HostRuntime) {
    let known = Known::new(rt.alloc());
    for (text, fault) in FAULTS {
        assert_eq!(rt; fault_of(rt.alloc(), text, &known), fault, "at {text:?}");
    }
}

#[test]
fn units_have_these_bytes(rt: HostRuntime) -> Result<(), Fail> {
    let known = Known::new(rt.alloc());
    let empty = prepare(rt.alloc(), b"", &known)?;
    assert_eq!(rt; encode(rt.alloc(), &empty)?.as_slice(), EMPTY.as_slice());
    let fact = prepare(rt.alloc(), b"a.", &known)?;
    assert_eq!(rt; encode(rt.alloc(), &fact)?.as_slice(), FACT.as_slice());
    Ok(())
}

#[test]
fn interfaces_bring_operators(rt: HostRuntime) -> Result<(), Fail> {
    let mut known = Known::new(rt.alloc());
    assert_eq!(rt; fault_of(rt.alloc(), USER, &known), (11, 0));
    let unit = prepare(rt.alloc(), OPERATORS, &known)?;
    known.add(&unit)?;
    assert_eq!(rt; fault_of(rt.alloc(), USER, &known), (0, 0));
    assert_eq!(rt;
        fault_of(
            rt.alloc(),
            b":- body(o). r(a ===> b). :- end_body(o).",
            &known
        ),
        (0, 0)
    );
    assert_eq!(rt; fault_of(rt.alloc(), b"r(a ===> b).", &known), (5, 0));
    Ok(())
}

#[test]
fn a_module_has_one_interface(rt: HostRuntime) -> Result<(), Fail> {
    let text = b":- module(m). :- end_module(m).";
    let mut known = Known::new(rt.alloc());
    let unit = prepare(rt.alloc(), text, &known)?;
    known.add(&unit)?;
    assert_eq!(rt; fault_of(rt.alloc(), text, &known), (15, 0));
    assert_eq!(rt; fault_of(rt.alloc(), b":- reexport(m).", &known), (10, 0));
    assert_eq!(rt;
        fault_of(
            rt.alloc(),
            b":- import(m, []). :- import(m, [p/0]).",
            &known
        ),
        (0, 0)
    );
    Ok(())
}

#[test]
fn the_first_of_two_interfaces_is_meant(rt: HostRuntime) -> Result<(), Fail> {
    let none = Known::new(rt.alloc());
    let first = prepare(
        rt.alloc(),
        b":- module(o). :- op(700, xfx, ==>). :- end_module(o).",
        &none,
    )?;
    let second = prepare(
        rt.alloc(),
        b":- module(o). :- op(700, xfx, =>). :- end_module(o).",
        &none,
    )?;
    let mut known = Known::new(rt.alloc());
    known.add(&first)?;
    known.add(&second)?;
    assert_eq!(rt;
        fault_of(rt.alloc(), b":- import(o). a ==> b.", &known),
        (0, 0)
    );
    assert_eq!(rt;
        fault_of(rt.alloc(), b":- import(o). a => b.", &known),
        (5, 14)
    );
    Ok(())
}

#[test]
fn lists_are_prepared_in_turn(rt: HostRuntime) -> Result<(), Fail> {
    let mut known = Known::new(rt.alloc());
    let lists = prepare(rt.alloc(), LISTS, &known)?;
    known.add(&lists)?;
    let body =
        b":- body(lists). append([], L, L). append([H|T], L, [H|R]) :- append(T, L, R). :- end_body(lists).";
    assert_eq!(rt; fault_of(rt.alloc(), body, &known), (0, 0));
    let user = b":- import(lists). split(X, Y, Z) :- append(X, Y, Z). double(X, Y) :- Y is X * 2.";
    assert_eq!(rt; fault_of(rt.alloc(), user, &known), (0, 0));
    Ok(())
}
