// A domain for tests: lawful, and otherwise as unhelpful as the laws allow.

#![tactic(auto)]

pub mod fickle;
