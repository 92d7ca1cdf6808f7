// Domains that hold a set of numbers for each register, whatever kind of set that is.

#![tactic(auto)]

pub mod kinds;
pub mod laws;
pub mod sets;
pub mod state;
