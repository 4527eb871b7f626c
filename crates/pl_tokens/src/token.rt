//! Tokens and their faults.
ghost use Rattle.std.specs.Prelude.{◌≡◌};

use pl_atoms::{Bytes, Items, NoMemory};
use thiserror::Error;

/// What a token is (ISO/IEC 13211-1, 6.4).
#[derive(Debug, Drop)]
pub enum TokenKind {
    /// A name without quotes.
    Name(Bytes),
    /// A name in single quotes, with its escapes resolved.
    Quoted(Bytes),
    /// A variable.
    Var(Bytes),
    /// An integer, at most 2^63.
    Int(u64),
    /// A double-quoted list, as UTF-8.
    Codes(Bytes),
    /// A bracket, a comma or a bar.
    Punct(u8),
    /// The end of a term.
    End,
}

/// A token, the place of its first byte, and whether it follows the token before it directly.
#[derive(Debug, Drop)]
pub struct Token {
    pub kind: TokenKind,
    pub byte: usize,
    pub direct: bool,
}

/// The tokens up to and with an end.
pub type TokenRun = Items<Token>;

/// Why there is no token.
#[derive(Clone, Copy, Debug, Error)]
pub enum TokenFault {
    /// What is wrong, by its number, and where.
    #[error("fault P{number} at byte {byte}")]
    Fault { number: u8, byte: usize },
    /// A growth was refused.
    #[error("no memory")]
    NoMemory,
}

impl From<NoMemory> for TokenFault {
    ghost use Rattle.pl_tokens.specs.declared.token.TokenFault.TheVariants.{NoMemory as OutOfMemory};

    ghost from_gives = { λ _ e. e ≡ OutOfMemory };

    fn from(_e: NoMemory) -> TokenFault {
        TokenFault::NoMemory
    }
}
