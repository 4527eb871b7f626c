//! The operators of one name.
ghost use Rattle.std.specs.Prelude.{◌≡◌, ◌≤◌, Some, if◌then◌else◌};
ghost use Rattle.pl_ops.specs.Tables.{Class, same_class, class_of, unless_zero};
ghost use Rattle.pl_ops.specs.Entries.{slot, AreSlots};

use crate::op::{Kind, Op};

/// The operators of one name: at most one of each class.
#[derive(Clone, Copy, Debug)]
pub struct Slots {
    pub as_prefix: Option<Op>,
    pub as_infix: Option<Op>,
    pub as_postfix: Option<Op>,
}

impl Slots {
    /// No operator of any class.
    pub const NONE: Slots = Slots {
        as_prefix: None,
        as_infix: None,
        as_postfix: None,
    };
}

/// The operators after this one is declared in its class: with priority 0 the class has none.
pub fn with_op(slots: Slots, op: Op) -> Slots
    requires priority { op.priority ≤ 1200 }
    requires before { AreSlots slots }
    ensures after { AreSlots result }
    ensures slots { (c : Class) → slot c result ≡ (if same_class (class_of op.kind) c then unless_zero (Some op) else slot c slots) }
{
    let declared = if op.priority == 0 { None } else { Some(op) };
    match op.kind {
        Kind::Fx | Kind::Fy => Slots {
            as_prefix: declared,
            ..slots
        },
        Kind::Xfx | Kind::Xfy | Kind::Yfx => Slots {
            as_infix: declared,
            ..slots
        },
        Kind::Xf | Kind::Yf => Slots {
            as_postfix: declared,
            ..slots
        },
    }
}
