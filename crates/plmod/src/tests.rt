//! Whole commands over files in memory: what is printed, and the status.
use crate::status::Status;
use crate::top::{plmod, plmod_quiet};
use crate::words::Words;
use pl_atoms::{Name, NoMemory};
use pl_machine::Machine;
use plm_io::{CallList, MemShelf, MemSink, QuietShelf, QuietSink};
use std::alloc::Global;
use std::test::Fail;

/// The words of a run over the file `t`.
fn run_words(alloc: Global, budget: &str, goal: &str) -> Result<Words, NoMemory> {
    let mut words = Words::new(alloc);
    for word in ["all", budget, goal, "t"] {
        words.push(Name::of(alloc, word)?)?;
    }
    Ok(words)
}

/// A shelf with the file `t`, where it has a text.
fn shelf_with(alloc: Global, text: Option<&str>) -> Result<MemShelf, NoMemory> {
    let mut shelf = MemShelf::new(alloc, CallList::new(alloc));
    if let Some(text) = text {
        let bytes = text.as_bytes();
        if bytes.len() > 1000 {
            return Err(NoMemory);
        }
        shelf.add(&Name::of(alloc, "t")?, bytes)?;
    }
    Ok(shelf)
}

/// What a command answers. The machine of its run is let go.
fn status_of(alloc: Global, words: &Words, shelf: &mut MemShelf, out: &mut MemSink) -> Status {
    let mut last = None;
    plmod(alloc, words, shelf, out, &mut last)
}

/// One run over the file `t`.
fn answer(
    alloc: Global,
    text: Option<&str>,
    budget: &str,
    goal: &str,
    fails: CallList,
) -> Result<(MemSink, Status), NoMemory> {
    let words = run_words(alloc, budget, goal)?;
    let mut shelf = shelf_with(alloc, text)?;
    let mut out = MemSink::new(alloc, fails);
    let status = status_of(alloc, &words, &mut shelf, &mut out);
    Ok((out, status))
}

const USAGE: &str =
    "usage: plmod prepare OUT TEXT KNOWN.. , link UNIT.. , run BUDGET GOAL UNIT.. , all BUDGET GOAL TEXT.. , show UNIT.. , grow N BUDGET\n";

#[test]
fn runs_simple_texts(rt: HostRuntime) -> Result<(), Fail> {
    let twice = "a :- b, c. b. b. c.";
    let rows = [
        ("a :- b. b.", "100", "a.", "true ;\nno more\n", Status::Done),
        ("p.", "0", "p.", "budget spent\n", Status::Spent),
        ("p.", "1", "p.", "true ;\nno more\n", Status::Done),
        (twice, "3", "a.", "true ;\nbudget spent\n", Status::Spent),
        (twice, "4", "a.", "true ;\ntrue ;\nno more\n", Status::Done),
        ("", "9", "throw(a).", "uncaught: a\n", Status::Uncaught),
        (
            "p.",
            "9",
            "p q.",
            "fault P5 in goal at byte 0\n",
            Status::GoalFault,
        ),
        (
            "p q.",
            "9",
            "p.",
            "fault P5 in t at byte 0\n",
            Status::PrepFault,
        ),
        ("p.", "x", "p.", USAGE, Status::Usage),
        ("p.", "18446744073709551616", "p.", USAGE, Status::Usage),
        ("p :- p.", "1000", "p.", "budget spent\n", Status::Spent),
    ];
    for (text, budget, goal, printed, status) in rows {
        let fails = CallList::new(rt.alloc());
        match answer(rt.alloc(), Some(text), budget, goal, fails) {
            Ok((out, ended)) => {
                assert_eq!(rt; out.bytes(), printed.as_bytes(), "{text} {budget} {goal}");
                assert_eq!(rt; ended, status, "{text} {budget} {goal}");
            }
            Err(_) => assert!(rt; false),
        }
    }
    Ok(())
}

#[test]
fn a_failed_write_is_told(rt: HostRuntime) -> Result<(), Fail> {
    let mut fails = CallList::new(rt.alloc());
    assert!(rt; fails.push(0).is_ok());
    match answer(rt.alloc(), Some("a :- b. b."), "100", "a.", fails) {
        Ok((out, ended)) => {
            assert!(rt; out.bytes().is_empty());
            assert_eq!(rt; ended, Status::WriteFault);
        }
        Err(_) => assert!(rt; false),
    }
    Ok(())
}

#[test]
fn a_failed_write_of_the_end_is_told(rt: HostRuntime) -> Result<(), Fail> {
    let mut fails = CallList::new(rt.alloc());
    assert!(rt; fails.push(1).is_ok());
    match answer(rt.alloc(), Some("a :- b. b."), "100", "a.", fails) {
        Ok((out, ended)) => {
            assert_eq!(rt; out.bytes(), b"true ;\n".as_slice());
            assert_eq!(rt; ended, Status::WriteFault);
        }
        Err(_) => assert!(rt; false),
    }
    Ok(())
}

#[test]
fn an_absent_file_is_told(rt: HostRuntime) -> Result<(), Fail> {
    match answer(rt.alloc(), None, "100", "a.", CallList::new(rt.alloc())) {
        Ok((out, ended)) => {
            assert!(rt; out.bytes().is_empty());
            assert_eq!(rt; ended, Status::ReadFault);
        }
        Err(_) => assert!(rt; false),
    }
    Ok(())
}

#[test]
fn quiet_ones_serve(rt: HostRuntime) -> Result<(), Fail> {
    let Ok(words) = run_words(rt.alloc(), "9", "a.") else {
        assert!(rt; false, "memory is ample");
        return Ok(());
    };
    let mut shelf = QuietShelf::new(rt.alloc());
    let mut out = QuietSink::new(rt.alloc());
    let status = plmod_quiet(rt.alloc(), &words, &mut shelf, &mut out);
    assert_eq!(rt; status, Status::Uncaught);
    Ok(())
}

/// A preparation: the file `x`, the file `k` where there is one, the words, what is printed, and the status.
type Preparation = (
    &'static [u8],
    Option<&'static [u8]>,
    &'static [&'static str],
    &'static str,
    Status,
);

const PREPARATIONS: [Preparation; 9] = [
    (
        b"a.",
        None,
        &["prepare", "u", "x"],
        "prepared 1 sections 1 clauses\n",
        Status::Done,
    ),
    (
        b":- module(m).\n",
        None,
        &["prepare", "u", "x"],
        "fault P7 in x at byte 14\n",
        Status::PrepFault,
    ),
    (
        b"a. \xff",
        None,
        &["prepare", "u", "x"],
        "fault P1 in x at byte 3\n",
        Status::PrepFault,
    ),
    (
        b"a b.",
        None,
        &["prepare", "u", "x"],
        "fault P5 in x at byte 0\n",
        Status::PrepFault,
    ),
    (
        b":- import(m).",
        None,
        &["prepare", "u", "x"],
        "fault P11 in x at byte 0\n",
        Status::PrepFault,
    ),
    (
        b":- op(1201, xfx, ===>).",
        None,
        &["prepare", "u", "x"],
        "fault P12 in x at byte 0\n",
        Status::PrepFault,
    ),
    (
        b"call(X) :- X.",
        None,
        &["prepare", "u", "x"],
        "fault P14 in x at byte 0\n",
        Status::PrepFault,
    ),
    (
        b"a.",
        Some(b"a."),
        &["prepare", "u", "x", "k"],
        "not a unit: k\n",
        Status::NotUnit,
    ),
    (b"a.", None, &["prepare", "u"], USAGE, Status::Usage),
];

/// What these words give over the files `x` and `k`.
fn prepared(
    alloc: Global,
    text: &[u8],
    known: Option<&[u8]>,
    given: &[&str],
    fails: CallList,
) -> Result<(MemShelf, MemSink, Status), NoMemory> {
    let mut words = Words::new(alloc);
    for word in given {
        words.push(Name::of(alloc, word)?)?;
    }
    let mut shelf = MemShelf::new(alloc, fails);
    add_short(alloc, &mut shelf, "x", text)?;
    if let Some(bytes) = known {
        add_short(alloc, &mut shelf, "k", bytes)?;
    }
    let mut out = MemSink::new(alloc, CallList::new(alloc));
    let status = status_of(alloc, &words, &mut shelf, &mut out);
    Ok((shelf, out, status))
}

/// Puts a short file on the shelf.
fn add_short(
    alloc: Global,
    shelf: &mut MemShelf,
    name: &str,
    bytes: &[u8],
) -> Result<(), NoMemory> {
    if bytes.len() > 1000 {
        return Err(NoMemory);
    }
    shelf.add(&Name::of(alloc, name)?, bytes)
}

#[test]
fn prepares_texts(rt: HostRuntime) -> Result<(), Fail> {
    for (text, known, words, printed, status) in PREPARATIONS {
        match prepared(rt.alloc(), text, known, words, CallList::new(rt.alloc())) {
            Ok((_shelf, out, ended)) => {
                assert_eq!(rt; out.bytes(), printed.as_bytes(), "{printed}");
                assert_eq!(rt; ended, status, "{printed}");
            }
            Err(_) => assert!(rt; false),
        }
    }
    Ok(())
}

#[test]
fn puts_the_unit(rt: HostRuntime) -> Result<(), Fail> {
    let unit: &[u8] = b"PLMU\x01\0\0\0\x03\0\0\0\x04user\0\0\0\x01a\0\0\0\x04true\0\0\0\0\0\0\0\x01\
        \x02\0\0\0\0\0\0\0\0\0\0\0\x01\x08\0\0\0\0\0\0\0\0\x02\0\0\0\x01\x02\0\0\0\x02";
    let words = ["prepare", "u", "x"];
    match prepared(rt.alloc(), b"a.", None, &words, CallList::new(rt.alloc())) {
        Ok((shelf, _out, _status)) => {
            let Ok(name) = Name::of(rt.alloc(), "u") else {
                assert!(rt; false, "memory is ample");
                return Ok(());
            };
            assert_eq!(rt; shelf.get(&name), Some(unit));
        }
        Err(_) => assert!(rt; false),
    }
    Ok(())
}

#[test]
fn a_failed_put_of_a_unit_is_told(rt: HostRuntime) -> Result<(), Fail> {
    let mut fails = CallList::new(rt.alloc());
    assert!(rt; fails.push(1).is_ok());
    match prepared(rt.alloc(), b"a.", None, &["prepare", "u", "x"], fails) {
        Ok((_shelf, out, ended)) => {
            assert!(rt; out.bytes().is_empty());
            assert_eq!(rt; ended, Status::WriteFault);
        }
        Err(_) => assert!(rt; false),
    }
    Ok(())
}

/// A unit, the file of its text, and the text.
type Source = (&'static str, &'static str, &'static str);

/// A linking: what is prepared, each where those before it are known, the command, what is printed, and the status.
type Linking = (&'static [Source], &'static str, &'static str, Status);

const INTERFACE: &str =
    ":- module(m). :- export(p/0). :- end_module(m). :- body(m). p. q. :- end_body(m).";

const LINKINGS: [Linking; 9] = [
    (
        &[("u", "t", "a. a. b(1).")],
        "show",
        "user:a/0 from user\nuser:b/1 from user\n",
        Status::Done,
    ),
    (
        &[("u", "t", "a. a. b(1).")],
        "link",
        "linked 1 modules 2 procedures\n",
        Status::Done,
    ),
    (&[("u", "t", "")], "show", "", Status::Done),
    (
        &[("u", "t", INTERFACE), ("v", "x", ":- import(m).")],
        "show",
        "m:p/0 from m\nm:q/0 from m\nuser:p/0 from m\n",
        Status::Done,
    ),
    (
        &[("u", "t", INTERFACE), ("v", "x", ":- import(m).")],
        "link",
        "linked 2 modules 2 procedures\n",
        Status::Done,
    ),
    (
        &[("u", "t", INTERFACE), ("v", "x", ":- import(m, [q/0]).")],
        "link",
        "fault L6 in v at byte 0\n",
        Status::LinkFault,
    ),
    (
        &[("u", "t", INTERFACE), ("v", "x", ":- import(m). p.")],
        "show",
        "fault L7 in v at byte 14\n",
        Status::LinkFault,
    ),
    (
        &[("u", "t", "p."), ("v", "x", "p.")],
        "link",
        "fault L8 in v at byte 0\n",
        Status::LinkFault,
    ),
    (
        &[("u", "t", "p."), ("v", "x", "p q.")],
        "link",
        "",
        Status::ReadFault,
    ),
];

/// Prepares a text, where these are known.
fn prepare_source(
    alloc: Global,
    shelf: &mut MemShelf,
    source: Source,
    known: &[Source],
) -> Result<(), NoMemory> {
    let (unit, name, text) = source;
    add_short(alloc, shelf, name, text.as_bytes())?;
    let mut words = Words::new(alloc);
    for word in ["prepare", unit, name] {
        words.push(Name::of(alloc, word)?)?;
    }
    for (other, _, _) in known {
        words.push(Name::of(alloc, other)?)?;
    }
    let mut out = MemSink::new(alloc, CallList::new(alloc));
    let _status = status_of(alloc, &words, shelf, &mut out);
    Ok(())
}

/// What a command gives over the units of these texts.
fn linked(alloc: Global, sources: &[Source], command: &str) -> Result<(MemSink, Status), NoMemory> {
    let mut shelf = MemShelf::new(alloc, CallList::new(alloc));
    let mut words = Words::new(alloc);
    words.push(Name::of(alloc, command)?)?;
    for (number, source) in sources.iter().enumerate() {
        prepare_source(alloc, &mut shelf, *source, &sources[..number])?;
        words.push(Name::of(alloc, source.0)?)?;
    }
    let mut out = MemSink::new(alloc, CallList::new(alloc));
    let status = status_of(alloc, &words, &mut shelf, &mut out);
    Ok((out, status))
}

#[test]
fn links_units(rt: HostRuntime) -> Result<(), Fail> {
    for (sources, command, printed, status) in LINKINGS {
        match linked(rt.alloc(), sources, command) {
            Ok((out, ended)) => {
                assert_eq!(rt; out.bytes(), printed.as_bytes(), "{printed}");
                assert_eq!(rt; ended, status, "{printed}");
            }
            Err(_) => assert!(rt; false),
        }
    }
    Ok(())
}

/// What a call leaves of its run: the steps, the answers and the peak of records of its machine.
fn left(
    alloc: Global,
    shelf: &mut MemShelf,
    given: &[&str],
    last: &mut Option<Machine>,
) -> Result<Option<(u64, u64, usize)>, NoMemory> {
    let mut words = Words::new(alloc);
    for word in given {
        words.push(Name::of(alloc, word)?)?;
    }
    let mut out = MemSink::new(alloc, CallList::new(alloc));
    let _status = plmod(alloc, &words, shelf, &mut out, last);
    match last {
        Some(machine) => Ok(Some((machine.steps(), machine.answers(), machine.peak()))),
        None => Ok(None),
    }
}

/// Commands in turn over the text `t`, and what each leaves.
type Leaving = (&'static [&'static str], Option<(u64, u64, usize)>);

const LEAVINGS: [Leaving; 14] = [
    (&["all", "100", "a.", "t"], Some((4, 2, 1))),
    (&["prepare", "u", "t"], None),
    (&["run", "3", "a.", "u"], Some((3, 1, 1))),
    (&["link", "u"], None),
    (&["grow", "1", "100"], Some((2, 1, 0))),
    (&["run", "100", "a a.", "u"], None),
    (&["run", "100", "throw(b).", "u"], Some((1, 0, 0))),
    (&["run", "100", "a.", "t"], None),
    // clauses that don't fit the first argument leave no record
    (&["run", "100", "p(2).", "u"], Some((1, 2, 1))),
    (&["run", "100", "q(1).", "u"], Some((1, 1, 0))),
    (&["run", "100", "q(_).", "u"], Some((1, 2, 1))),
    // a catch has its recovery untried, but where its goal is none
    (&["run", "100", "catch(p(2), _, a).", "u"], Some((2, 2, 2))),
    (&["run", "100", "catch(1, _, a).", "u"], Some((5, 2, 1))),
    (&["run", "100", "catch(1, _, c).", "u"], Some((2, 1, 0))),
];

#[test]
fn leaves_the_machine_of_a_run(rt: HostRuntime) -> Result<(), Fail> {
    let Ok(mut shelf) = shelf_with(
        rt.alloc(),
        Some("a :- b, c. b. b. c. p(1). p(2). p(f(a)). p(_). q(1). q(2)."),
    ) else {
        assert!(rt; false, "memory is ample");
        return Ok(());
    };
    let mut last = None;
    for (words, machine) in LEAVINGS {
        match left(rt.alloc(), &mut shelf, words, &mut last) {
            Ok(left) => assert_eq!(rt; left, machine, "{words:?}"),
            Err(_) => assert!(rt; false),
        }
    }
    Ok(())
}
