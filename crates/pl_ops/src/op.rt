//! Operators.
ghost use Rattle.std.specs.Prelude.{◌≡◌};
ghost use Rattle.pl_ops.specs.Refusals.{kind_of};

/// How an operator stands to its operands: `f` is the operator, an operand written `x` has a lower
/// priority than it, and one written `y` at most the same.
#[derive(Clone, Copy, Debug, PartialEq, Eq)]
pub enum Kind {
    Xfx,
    Xfy,
    Yfx,
    Fx,
    Fy,
    Xf,
    Yf,
}

/// An operator: its priority, from 1 to 1200, and its kind.
#[derive(Clone, Copy, Debug, PartialEq, Eq)]
pub struct Op {
    pub priority: u16,
    pub kind: Kind,
}

impl Kind {
    /// The kind that this word names, if it is one of the seven.
    pub fn of_word(word: &[u8]) -> Option<Kind>
        ensures { result ≡ kind_of word.now }
    {
        match word {
            b"xfx" => Some(Kind::Xfx),
            b"xfy" => Some(Kind::Xfy),
            b"yfx" => Some(Kind::Yfx),
            b"fx" => Some(Kind::Fx),
            b"fy" => Some(Kind::Fy),
            b"xf" => Some(Kind::Xf),
            b"yf" => Some(Kind::Yf),
            _ => None,
        }
    }
}
