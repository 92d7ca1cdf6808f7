// Congruences: the numbers that leave one residue by one modulus, as sets of numbers.

#![tactic(auto)]

mod bounds;
mod commons;
mod conditions;
pub mod congruence;
mod hulls;
pub mod numbers;
mod ranges;
mod results;
mod settle;
