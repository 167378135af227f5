// Rule plants: states are values of a few variables, and rules change them. Relies on refusal, plant and guarded.
#![tactic(auto)]

mod questions;
pub mod rule;
mod sections;
mod states;
mod words;
