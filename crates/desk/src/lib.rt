// The service desk: what the lines of a script ask for, the calls among them as a list, and the answers in words.

#![tactic(auto)]

pub mod answer;
pub mod desk;
pub mod entry;
pub mod script;
pub mod stretch;
mod text;
