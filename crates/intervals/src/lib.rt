// Sets of numbers that are one interval.

#![tactic(auto)]

pub mod interval;
