// A program: its lines, the table of their blocks, and what the next line is refused for.

#![tactic(auto)]

mod rack;
pub mod refusal;
pub mod table;
