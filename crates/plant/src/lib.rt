// Plants: finite labelled transition systems, asked state by state. Relies on refusal and meaning.
#![tactic(auto)]

ghost use Rattle.std.specs.Prelude.{◌≡◌, length};
ghost use Rattle.plant.specs.Model.{Model, Lawful, initial_at, arc_at};
ghost use Rattle.plant.specs.declared.Failure.TheVariants.{Refused as ByRule, OutOfMemory};

use meaning::Arc;
use refusal::Refusal;
use std::alloc::AllocError;

// What is answered for an arc past the end: no plant has an event 64.
pub const PAST_ARC: Arc = Arc {
    event: 64,
    target: 0,
};

// A plant: what it stands for is its model, and whoever implements the trait proves that the model is lawful.
// A question changes nothing and is never refused: state 0 and event 64 past the end, and no `Option`, is the rule of its calls.
pub trait Plant {
    // what the answers are about
    ghost model: { Self → Model };

    ghost lawful: { (p : Self) → Lawful (model p) };

    // How many events there are.
    fn events(&self) -> u8
        ensures { result ≡ (model self.now).events };

    // The number below which all its states lie.
    fn extent(&self) -> u64
        ensures { result ≡ (model self.now).extent };

    // The most arcs that a state has.
    fn width(&self) -> u8
        ensures { result ≡ (model self.now).width };

    fn initial_count(&self) -> u8
        ensures { result ≡ length (model self.now).system.initial };

    // The initial state at an index; state 0 past the end.
    fn initial(&self, index: usize) -> u32
        ensures { result ≡ initial_at (model self.now) index };

    // The facts of a state, as bits.
    fn facts(&self, state: u32) -> u32
        ensures { result ≡ (model self.now).system.facts state };

    fn arc_count(&self, state: u32) -> u8
        ensures { result ≡ length ((model self.now).system.arcs state) };

    // The arc of a state at an index; event 64 and target 0 past the end.
    fn arc(&self, state: u32, index: usize) -> Arc
        ensures { result ≡ arc_at (model self.now) state index };
}

// Why no plant was made.
#[derive(Clone, Copy, Debug, PartialEq, Eq)]
pub enum Failure {
    Refused(Refusal),
    // want of memory, which is no rule's refusal
    OutOfMemory,
}

// Both by hand: a derive writes no `from_gives`, by which clauses name the error that `?` makes.
impl From<Refusal> for Failure {
    ghost from_gives = { λ e r. r ≡ ByRule e };

    fn from(refusal: Refusal) -> Failure {
        Failure::Refused(refusal)
    }
}

impl From<AllocError> for Failure {
    ghost from_gives = { λ _ r. r ≡ OutOfMemory };

    fn from(_error: AllocError) -> Failure {
        Failure::OutOfMemory
    }
}
