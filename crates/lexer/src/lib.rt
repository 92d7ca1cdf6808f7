// The tokens of a line, as parts of its own text, and what their bytes spell.

#![tactic(auto)]

pub mod class;
pub mod digits;
pub mod keyword;
pub mod kind;
pub mod lexer;
pub mod token;
