// Where lent arrays are no run over open states. Relies on book and plant.
ghost use Rattle.std.specs.Prelude.{◌≡◌, ℕ, ◌<◌, ◌≤◌, Decides, MatchOption, MatchResult};
ghost use Rattle.refusal.specs.Rows.{Lowest};
ghost use Rattle.meaning.specs.Systems.{Initial};
ghost use Rattle.meaning.specs.Runs.{places};
ghost use Rattle.rows.specs.Cells.{run_of as lent_run};
ghost use Rattle.runs.specs.Tests.{event_of, Beyond, Shaped, Bad};
ghost use Rattle.runs.specs.Known.{opens, view, run_of};
ghost use Rattle.runs.specs.Faults.{Bears, GoesOn, Faulty};

use crate::arrays::Arrays;
use book::book::Book;
use formula::entry::Entry;
use meaning::Arc;
use plant::Plant;
use refusal::{Cause, Refusal};
use rows::run::Run;

// The lowest entry that names an event that is not below a number.
pub(crate) fn event_beyond(entries: &[Entry], events: u8) -> Option<usize>
    ensures { MatchOption result ((i : ℕ) → Beyond events entries.now i → ⊥) (λ i. Lowest (Beyond events entries.now) i) }
{
    entries
        .iter()
        .position(|entry| names_beyond(*entry, events))
}

fn names_beyond(entry: Entry, events: u8) -> bool
    ensures { Decides result (MatchOption (event_of entry) ⊥ (λ t. events ≤ t)) }
{
    match entry {
        Entry::Enabled(event) | Entry::Taken(event) => event >= events,
        _ => false,
    }
}

// The run that arrays write down, where they are as long as one may be.
pub(crate) fn shaped(arrays: Arrays<'_>) -> Option<Run<'_>>
    ensures { MatchOption result (Shaped (run_of arrays.entry) → ⊥) (λ r. Shaped (run_of arrays.entry) × (lent_run r ≡ run_of arrays.entry)) }
{
    if arrays.states.len() > 3145728 {
        return None;
    }
    Run::new(arrays.states, arrays.events, arrays.back)
}

// Whether an arc bears an event and leads to a state.
fn bears(arcs: &[Arc], event: u8, target: u32) -> bool
    ensures { Decides result (Bears arcs.now event target) }
{
    arcs.contains(&Arc { event, target })
}

// Whether a place goes on along one of the arcs, or ends where there are none.
fn goes_on(arcs: &[Arc], run: &Run, place: usize) -> bool
    requires { place < places (lent_run run.now) }
    ensures { Decides result (GoesOn arcs.now (lent_run run.now) place) }
{
    match run.next_place(place) {
        Some(next) => bears(arcs, run.events[place], run.states[next]),
        // 64 is how lent arrays write that no event is taken
        None => arcs.is_empty() && run.events[place] == 64,
    }
}

// What is known of a plant: what a book tells of it.
#[derive(Clone, Copy)]
pub(crate) struct Known<'a, P> {
    pub(crate) plant: &'a P,
    pub(crate) book: &'a Book,
}

impl<P: Plant> Known<'_, P> {
    // Whether a state is initial. By count and index: a plant lends no slice.
    fn is_initial(&self, state: u32) -> bool
        ensures { Decides result (Initial (P.Plant.model self.now.plant.now).system state) }
    {
        for i in 0..self.plant.initial_count() {
            if self.plant.initial(usize::from(i)) == state {
                return true;
            }
        }
        false
    }

    // The refusal of a place that is closed or wrong.
    fn place_stands(&self, run: &Run, place: usize) -> Result<(), Refusal>
        requires { place < places (lent_run run.now) }
        ensures { MatchResult result (λ _. Bad (opens self.now.book.now) (view self.now.book.now (P.Plant.model self.now.plant.now)) (lent_run run.now) place → ⊥) (λ e. Faulty (opens self.now.book.now) (view self.now.book.now (P.Plant.model self.now.plant.now)) (lent_run run.now) place e) }
    {
        let state = run.states[place];
        let at = self.book.find(state).ok_or(Cause::StateClosed.at(place))?;
        let begins = place > 0 || self.is_initial(state);
        if begins && goes_on(self.book.arcs_at(at), run, place) {
            Ok(())
        } else {
            Err(Cause::NotARun.at(place))
        }
    }

    // The refusal of the lowest place that is closed or wrong.
    pub(crate) fn run_stands(&self, run: &Run) -> Result<(), Refusal>
        ensures { MatchResult result (λ _. (i : ℕ) → Bad (opens self.now.book.now) (view self.now.book.now (P.Plant.model self.now.plant.now)) (lent_run run.now) i → ⊥) (λ e. (i : ℕ) × Lowest (Bad (opens self.now.book.now) (view self.now.book.now (P.Plant.model self.now.plant.now)) (lent_run run.now)) i × Faulty (opens self.now.book.now) (view self.now.book.now (P.Plant.model self.now.plant.now)) (lent_run run.now) i e) }
    {
        // by place, which a refusal names; `try_for_each` over the places would say the same in a closure
        for place in 0..run.states.len() {
            self.place_stands(run, place)?;
        }
        Ok(())
    }
}
