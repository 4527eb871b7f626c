//! Tokens, terms, written terms and printed lines.
mod lines;
mod terms;
mod tokens;
mod written;
