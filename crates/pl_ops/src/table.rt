//! A table of operators.
ghost use Rattle.std.specs.Prelude.{◌≡◌, ◌≤◌, [], ◌∷◌, ◌++◌, IfSome, IfOk, OnOk, OnErr};
ghost use Rattle.pl_ops.specs.Tables.{Class, prefix_class, infix_class, postfix_class, class_of, operator};
ghost use Rattle.pl_ops.specs.Entries.{slot, IsOf, AreSlots};
ghost use Rattle.pl_ops.specs.Refusals.{refusal, declared, clashes, cause_of};

use crate::op::{Kind, Op};
use crate::refusal::{OpRefusal, refusal_of_name};
use crate::slots::{Slots, with_op};
use indexmap::IndexMap;
use pl_atoms::NoMemory;
use std::alloc::Global;
use std::marker::Model;

/// A table of operators: at most one of each class for a name. Contracts see a list of declarations, and speak of the operators
/// that these declare. A look-up takes constant time on average, and no memory.
#[derive(Drop)]
pub struct OpTable {
    by_name: IndexMap<Vec<u8>, Slots>,
}

impl Model for OpTable {
    ghost use Rattle.std.specs.Prelude.{List};
    ghost use Rattle.pl_ops.specs.Tables.{Declaration};

    ghost Value = { List Declaration };

    ghost use Rattle.pl_ops.specs.Entries.{declarations, AreEntries};

    ghost view = { λ t. declarations t.by_name.entries };

    ghost invariant = { λ t. AreEntries t.by_name.entries };
}

impl OpTable {
    /// No operators.
    pub fn new(alloc: Global) -> OpTable
        ensures { result ≡ [] }
    {
        OpTable {
            by_name: IndexMap::new(alloc),
        }
    }

    /// Declares an operator, in place of that of its class and name, or takes that away where the priority is 0
    /// (ISO/IEC 13211-1, 8.14.3). A refusal is the first cause of `OpRefusal` that applies, and leaves the table as it was.
    pub fn add(&mut self, priority: i64, kind: &[u8], name: &[u8]) -> Result<(), OpRefusal>
        ensures refusal { refusal (operator self.old) priority kind.now name.now ≡ cause_of result }
        ensures ok { OnOk result (operator self.new ≡ operator (self.old ++ declared priority kind.now name.now)) }
        ensures err { OnErr result (self.new ≡ self.old) }
    {
        let op = self.accepted(priority, kind, name)?;
        self.declare(op, name)?;
        Ok(())
    }

    /// The prefix operator of this name, if there is one.
    pub fn prefix(&self, name: &[u8]) -> Option<Op>
        ensures operator { result ≡ operator self.now prefix_class name.now }
        ensures is { IfSome result (IsOf prefix_class) }
    {
        self.slots(name).as_prefix
    }

    /// The infix operator of this name, if there is one.
    pub fn infix(&self, name: &[u8]) -> Option<Op>
        ensures operator { result ≡ operator self.now infix_class name.now }
        ensures is { IfSome result (IsOf infix_class) }
    {
        self.slots(name).as_infix
    }

    /// The postfix operator of this name, if there is one.
    pub fn postfix(&self, name: &[u8]) -> Option<Op>
        ensures operator { result ≡ operator self.now postfix_class name.now }
        ensures is { IfSome result (IsOf postfix_class) }
    {
        self.slots(name).as_postfix
    }

    // The operators of this name.
    fn slots(&self, name: &[u8]) -> Slots
        ensures operators { (c : Class) → slot c result ≡ operator self.now c name.now }
        ensures are { AreSlots result }
    {
        match self.by_name.get(name) {
            Some(slots) => *slots,
            None => Slots::NONE,
        }
    }

    // Declares an operator that nothing refuses.
    pub(crate) fn declare(&mut self, op: Op, name: &[u8]) -> Result<(), NoMemory>
        requires { op.priority ≤ 1200 }
        ensures ok { OnOk result (operator self.new ≡ operator (self.old ++ record { op = op; name = name.now } ∷ [])) }
        ensures err { OnErr result (self.new ≡ self.old) }
    {
        match self.by_name.get_index_of(name) {
            Some(place) => {
                self.by_name[place] = with_op(self.by_name[place], op);
                Ok(())
            }
            None if op.priority == 0 => Ok(()),
            None => {
                let key = Vec::from_slice(*self.by_name.allocator(), name)?;
                self.by_name.insert(key, with_op(Slots::NONE, op))?;
                Ok(())
            }
        }
    }

    // The operator that these declare, unless it is refused.
    fn accepted(&self, priority: i64, kind: &[u8], name: &[u8]) -> Result<Op, OpRefusal>
        ensures refusal { refusal (operator self.now) priority kind.now name.now ≡ cause_of result }
        ensures op { IfOk result (λ op. declared priority kind.now name.now ≡ record { op = op; name = name.now } ∷ []) }
        ensures at_most { IfOk result (λ op. op.priority ≤ 1200) }
    {
        if priority < 0 || priority > 1200 {
            return Err(OpRefusal::NotPriority);
        }
        let priority = priority as u16;
        let Some(kind) = Kind::of_word(kind) else {
            return Err(OpRefusal::NotKind);
        };
        if let Some(cause) = refusal_of_name(name) {
            return Err(cause);
        }
        if priority > 0 && self.clashes(kind, name) {
            return Err(OpRefusal::InfixPostfix);
        }
        Ok(Op { priority, kind })
    }

    // Whether this name is an infix operator, and would be postfix, or the other way round.
    fn clashes(&self, kind: Kind, name: &[u8]) -> bool
        ensures { result ≡ clashes (operator self.now) (class_of kind) name.now }
    {
        match kind {
            Kind::Fx | Kind::Fy => false,
            Kind::Xfx | Kind::Xfy | Kind::Yfx => self.postfix(name).is_some(),
            Kind::Xf | Kind::Yf => self.infix(name).is_some(),
        }
    }
}
