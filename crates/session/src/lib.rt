// The session: a travel, a program and the allowed ranges, and the calls that a controller makes.

#![tactic(auto)]

pub mod progress;
pub mod ranges;
pub mod refusal;
pub mod session;
