// A run as it is lent, before it is looked at.

// The states and events of some places, and the place that the last one leads back to: parallel arrays, and their length
// where it leads nowhere, since that is how a caller lends a run.
#[derive(Clone, Copy)]
pub struct Arrays<'a> {
    pub states: &'a [u32],
    pub events: &'a [u8],
    pub back: usize,
}
