// Examples of states of the domains, and of products of them.

#![tactic(auto)]

#[cfg(test)]
mod states;
