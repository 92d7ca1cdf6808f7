// Certify: sweeps over a program until one is unchanged, and the verdict of that one.

#![tactic(auto)]

mod axes;
mod begin;
mod copied;
pub mod judge;
mod lines;
mod pass;
pub mod refusal;
mod store;
