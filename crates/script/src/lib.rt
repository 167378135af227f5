// A script's lines: which call a line says. Relies on nothing.
#![tactic(auto)]

pub mod calls;
pub mod lines;
pub mod numerals;
pub mod pairs;
pub mod reader;
mod spacing;
