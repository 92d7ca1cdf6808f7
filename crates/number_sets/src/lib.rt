// Sets of numbers for one register: what they answer, and the laws that domains are built on.

#![tactic(auto)]

pub mod sets;
