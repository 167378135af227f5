// Formulas: validated tables of entries, made from words. Relies on refusal.
#![tactic(auto)]

pub mod calls;
pub mod entry;
pub mod evaluate;
pub mod formula;
pub mod spans;
pub mod words;
