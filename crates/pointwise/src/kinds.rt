// The kinds of such states.
use crate::state::Pointwise;
use congruences::congruence::Congruence;
use intervals::interval::Interval;

// For each register one interval of numbers.
pub type Intervals = Pointwise<Interval>;

// For each register one congruence class.
pub type Congruences = Pointwise<Congruence>;
