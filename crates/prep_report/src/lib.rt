//! The lines that a run prints. Each ends with a newline, and its numbers are decimal.
#![tactic(auto)]

mod answer;
mod counts;
mod end;
mod faults;
mod rows;

pub use answer::{AnswerList, Binding, answer_line};
pub use counts::{count_line, linked_line, prepared_line, usage_line};
pub use end::{End2, end_line};
pub use faults::{fault_line, not_unit_line};
pub use rows::show_rows;
