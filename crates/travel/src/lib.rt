// Travels: where a machine may be, as a set of positions and as the sides that bound it.

#![tactic(auto)]

pub mod beam;
pub mod bench;
mod either_travel;
pub mod gantry;
pub mod refusal;
pub mod side;
pub mod travel;
