// What is read of a table plant's words. Relies on meaning.
use meaning::Arc;

// A state: its facts, as bits, and where its arcs stand among those of all states.
#[derive(Clone, Copy, Debug, PartialEq, Eq)]
pub struct State {
    pub facts: u32,
    pub from: u32,
    pub count: u32,
}

// The events are those below `events`, and state s is the one at place s.
#[derive(Drop)]
pub struct Parts {
    pub events: u8,
    // the most arcs that a state has
    pub width: u8,
    pub initial: Vec<u32>,
    pub states: Vec<State>,
    // the arcs of all states, state by state: a vector in each state took up to three times the memory
    pub arcs: Vec<Arc>,
}
