// The trial sheets and the table of a program that tries rules on them: a line for each sheet, letter and kind, bare or
// under both layers.
#![tactic(auto)]

mod answers;
mod draws;
mod flows;
mod jobs;
mod lines;

pub use answers::print_answers;
pub use lines::{Table, print_table};
