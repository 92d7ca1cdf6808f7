// What the programs do between their input and their output, as functions over bytes.

#![tactic(auto)]

mod asked;
pub mod failure;
pub mod input;
pub mod lines;
mod played;
pub mod range_line;
pub mod refusal;
pub mod report;
