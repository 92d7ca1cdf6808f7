// The grammar of a line: its symbols, which rows of them are lines, and why a text is none.

#![tactic(auto)]

pub mod axes;
pub mod refusal;
pub mod symbol;
