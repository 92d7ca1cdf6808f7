// The vocabulary of O-word programs: what a stored line is made of, where a run may go, and what it comes to.

#![tactic(auto)]

pub mod axes;
pub mod block;
pub mod ending;
pub mod expression;
pub mod line;
pub mod opposite;
pub mod range;
pub mod register;
pub mod side;
