//! Calls of a store, by what they do.
mod builtins;
mod places;
mod terms;
mod values;
