// What the programs of the trials have in common: numbers in cells, and the state of the trials, which stands in the first
// of them.
#![tactic(auto)]

pub mod cells;
pub mod state;
