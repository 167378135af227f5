// The test of a run over the open states of a book: refusals first, then the answer. Relies on refusal, formula, meaning, rows, plant and book.
#![tactic(auto)]

pub mod arrays;
pub mod faults;
pub mod states;
pub mod test;
