// What callers may rely on, whatever they called before: each promise here follows from the law of lists of calls alone.

#![tactic(auto)]

pub mod certified;
pub mod exact;
pub mod runs;
pub mod sets;
pub mod wiped;
