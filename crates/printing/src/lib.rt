// The bytes of each answer that a console prints, but for those that print themselves. Relies on formula and plant.
#![tactic(auto)]

pub mod formulas;
pub mod lines;
pub mod plants;
