// Tables as they are read from text. Relies on formula and grammar.
#![tactic(auto)]

pub mod adding;
pub mod draft;
