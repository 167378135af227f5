// One record of the book. Relies on meaning.
use meaning::Arc;

// What a plant says of a state that is open.
#[derive(Clone, Copy, Debug, PartialEq, Eq)]
pub struct Record {
    pub state: u32,
    pub facts: u32,
    // how many of the arcs are in use: a count beside an array, since a vector without heap cannot be repeated as a place is
    pub count: u8,
    pub arcs: [Arc; 16],
}
