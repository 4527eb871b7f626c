//! The tokens of a text.
#![tactic(auto)]

mod classes;
mod layout;
mod lexer;
mod numeral;
mod quoted;
mod token;
mod token_reader;

pub use token::{Token, TokenFault, TokenKind, TokenRun};
pub use token_reader::Tokens;
