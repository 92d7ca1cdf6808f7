// The commands of a session script, each read from its line.

#![tactic(auto)]

pub mod command;
pub mod domain_name;
mod names;
pub mod numbers;
pub mod word;
