//! Parts of a run, each called once.
mod bodies;
mod codes;
mod facts;
mod frames;
mod goals;
mod heads;
mod linked;
mod qualified;
mod records;
mod runs;
mod texts;
