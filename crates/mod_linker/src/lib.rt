//! Units become a linked program, or their first link fault (ISO/IEC 13211-2, 6.1 and 6.2).
#![tactic(auto)]

mod declared;
mod entering;
mod fault;
mod items;
mod key;
mod known;
mod laws;
mod linking;
mod modules;
mod naming;
mod seeing;
mod terms;

pub use fault::LinkFault;
pub use laws::says_same_further;
pub use linking::link;
