// The test of a formula on a run, in lent bytes: a row of truths for each entry. Relies on formula and meaning.
#![tactic(auto)]

pub mod cells;
pub mod fill;
pub mod places;
pub mod run;
pub mod states;
pub mod sweeps;
pub mod test;
