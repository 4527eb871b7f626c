//! Frames that are put and dropped.
ghost use Rattle.std.specs.Prelude.{◌≡◌};

use goal_state::{Frame, Frames, Part, Setting};
use pl_atoms::{NameId, NoMemory};
use pl_unify::Ref;
use std::alloc::Global;
use std::test::Fail;

const SETTING: Setting = Setting {
    clause: 0,
    base: 0,
    lookup: NameId(0),
    context: NameId(0),
    caller: NameId(0),
    depth: 0,
};

// A frame of a part, and the place after it.
fn frame(part: Part, parent: usize, ppc: usize) -> Frame
    ensures { result.parent ≡ parent }
{
    Frame {
        parent,
        ppc,
        part,
        setting: SETTING,
    }
}

#[test]
fn a_frame_replaces_those_above(rt: HostRuntime) -> Result<(), Fail> {
    let mut frames = Frames::new(rt.alloc());
    let outer = frame(Part::Body, 0, 0);
    let first = frames.put(0, outer)?;
    assert!(rt; first == 1);
    let second = frames.put(1, frame(Part::Body, 1, 3))?;
    assert!(rt; second == 2);
    let third = frames.put(0, outer)?;
    assert!(rt; third == 1);
    assert!(rt; frames.get(2).is_none());
    assert!(rt; frames.after(0, 0) == (0, 0));
    frames.truncate(0);
    assert!(rt; frames.len() == 0);
    Ok(())
}

// A part, a place in it, and whether what comes after it goes on there.
const PLACES: [(Part, usize, bool); 9] = [
    (Part::Body, 0, true),
    (Part::Body, 4, false),
    (Part::Goal(Ref(7)), 0, true),
    (Part::Goal(Ref(7)), 1, false),
    (Part::Cut, 1, false),
    (Part::Exit, 0, true),
    (Part::Fail, 1, false),
    (Part::Link, 0, true),
    (Part::Link, 1, true),
];

// What goes on from a place in a part at place 2, whose parent goes on at its place 3.
fn place_after(alloc: Global, part: Part, pc: usize) -> Result<(usize, usize), NoMemory> {
    let mut frames = Frames::new(alloc);
    let _ = frames.put(0, frame(Part::Body, 0, 0))?;
    let top = frames.put(1, frame(part, 1, 3))?;
    Ok(frames.after(top, pc))
}

#[test]
fn the_parent_goes_on_after_a_part(rt: HostRuntime) -> Result<(), Fail> {
    for (part, pc, over) in PLACES {
        let next = place_after(rt.alloc(), part, pc)?;
        assert!(rt; next == if over { (1, 3) } else { (2, pc) });
    }
    Ok(())
}
