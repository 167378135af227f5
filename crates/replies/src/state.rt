// What the calls so far have left. Relies on formula and kinds.
use formula::formula::Formula;
use kinds::AnyPlant;

// The last formula and the last plant that were granted.
#[derive(Drop)]
pub struct Console {
    pub(crate) formula: Option<Formula>,
    pub(crate) plant: Option<AnyPlant>,
}
