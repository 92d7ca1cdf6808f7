// Plain runs: the value of an expression, one step, and dry runs.

#![tactic(auto)]

pub mod dry;
pub mod run;
pub mod value;
