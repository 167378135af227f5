// The book of a session: a record for each open state, in 256 places. Relies on refusal, meaning and plant.
#![tactic(auto)]

pub mod book;
pub mod edits;
mod lookups;
pub mod record;
