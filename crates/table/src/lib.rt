// Table plants: every state and every arc is written down in words. Relies on refusal, meaning and plant.
#![tactic(auto)]

mod checks;
pub mod parts;
mod questions;
mod reading;
mod sections;
pub mod table;
