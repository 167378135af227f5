// Formulas from text. Relies on refusal, formula, grammar and draft.
#![tactic(auto)]

pub mod forms;
pub mod read;
pub mod reader;
pub mod signs;
