//! Preparing texts: the facts of a text, or its first fault (ISO/IEC 13211-1, 7.4; ISO/IEC 13211-2, 6.2).
#![tactic(auto)]

mod copies;
mod directives;
mod draft;
mod fault;
mod interfaces;
mod known;
mod making;
mod modules;
mod needs;
mod operators;
mod preparing;
mod sections;
mod terms;

pub use fault::PrepFault;
pub use known::Known;
pub use preparing::prepare;
