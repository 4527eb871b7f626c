//! How a call of the program ends.

/// The status of the process.
#[derive(Clone, Copy, Debug, PartialEq, Eq)]
pub enum Status {
    /// The command was done.
    Done = 0,
    /// The words are no command.
    Usage = 1,
    /// A text has a fault, or its unit would be too long.
    PrepFault = 2,
    /// A file that is to be a unit is none.
    NotUnit = 3,
    /// The units together have a link fault.
    LinkFault = 4,
    /// The goal is not one term.
    GoalFault = 5,
    /// The run ended with an error that nothing caught.
    Uncaught = 6,
    /// The run needed a step more than its budget.
    Spent = 7,
    /// A file could not be read.
    ReadFault = 8,
    /// A file or the output could not be written.
    WriteFault = 9,
    /// A growth was refused.
    NoMemory = 10,
}
