// Sessions: states of a plant are opened and forgotten, and a walk goes along arcs. Relies on refusal, plant and book.
#![tactic(auto)]

pub mod calls;
pub mod run;
pub mod session;
pub mod showing;
pub mod testing;
pub mod turns;
