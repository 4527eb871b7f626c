//! From texts to a linked program, step by step.
mod bodies;
mod bytes;
mod faults;
mod goals;
mod linked;
mod modes;
mod prepared;
mod visible;
