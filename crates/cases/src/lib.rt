// Worked examples: a table that is proved from the rules, and tests.

#![tactic(auto)]

ghost use Rattle.cases.specs.Table.{Table};

/// Exists for its contract: the table holds.
pub fn table()
    ensures { Table }
{}

#[cfg(test)]
mod inputs;
#[cfg(test)]
mod runs;
#[cfg(test)]
mod texts;
