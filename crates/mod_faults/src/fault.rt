//! Link faults.

/// A link fault: its number, from 2 to 8, its unit, and the byte in it.
#[derive(Clone, Copy, Debug, PartialEq, Eq)]
pub struct Fault {
    pub number: u8,
    pub unit: usize,
    pub byte: usize,
}
