// Abstract domains: states that mean sets of environments, and the product of any two.

#![tactic(auto)]

pub mod domain;
pub mod laws;
pub mod product;
