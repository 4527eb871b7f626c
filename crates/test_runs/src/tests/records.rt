//! The frames and records of a path.
ghost use Rattle.std.specs.Prelude.{◌≡◌, []};

use goal_state::{Choice, ChoiceKind, Frame, Frames, Part, Path, Setting};
use pl_atoms::NameId;
use pl_unify::Store;
use std::alloc::Global;
use std::test::Fail;

const USER: NameId = NameId(0);

const OUTSIDE: Setting = Setting {
    clause: 0,
    base: 0,
    lookup: USER,
    context: USER,
    caller: USER,
    depth: 0,
};

const CUT: Frame = Frame {
    parent: 0,
    ppc: 0,
    part: Part::Cut,
    setting: OUTSIDE,
};

// A path that stands nowhere.
fn nowhere(alloc: Global) -> Path
    ensures choices { result.choices.items ≡ [] }
    ensures frames { result.frames ≡ [] }
{
    Path {
        store: Store::new(alloc),
        frames: Frames::new(alloc),
        choices: Vec::new(alloc),
        gathered: Vec::new(alloc),
        template: None,
        width: 0,
        f: 0,
        pc: 0,
        depth: 0,
    }
}

#[test]
fn a_frame_is_put(rt: HostRuntime) -> Result<(), Fail> {
    let mut path = nowhere(rt.alloc());
    assert_eq!(rt; path.put(CUT)?, 1);
    assert_eq!(rt; path.frames.len(), 1);
    Ok(())
}

#[test]
fn a_record_is_opened(rt: HostRuntime) -> Result<(), Fail> {
    let mut path = nowhere(rt.alloc());
    let mark = path.store.mark();
    path.reserve_choice()?;
    path.open(Choice {
        kind: ChoiceKind::Branch,
        mark,
        rest: 0,
        depth: 3,
    });
    let Some(choice) = path.pop() else {
        return Err(Fail::new("no record"));
    };
    assert_eq!(rt; choice.depth, 3);
    assert!(rt; path.pop().is_none());
    Ok(())
}

#[test]
fn a_record_is_cut_off(rt: HostRuntime) -> Result<(), Fail> {
    let mut path = nowhere(rt.alloc());
    let mark = path.store.mark();
    path.open_record(ChoiceKind::Branch, mark, 0, 0, OUTSIDE, 2)?;
    path.cut(3);
    assert_eq!(rt; path.choices.len(), 1);
    path.cut(2);
    assert_eq!(rt; path.choices.len(), 0);
    Ok(())
}

#[test]
fn frames_are_dropped(rt: HostRuntime) -> Result<(), Fail> {
    let mut path = nowhere(rt.alloc());
    let mark = path.store.mark();
    path.put(CUT)?;
    path.go_back(Choice {
        kind: ChoiceKind::Branch,
        mark,
        rest: 0,
        depth: 0,
    });
    assert_eq!(rt; path.frames.len(), 0);
    Ok(())
}
