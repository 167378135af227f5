// Runs from lent arrays, and where their places lead. Relies on run.
ghost use Rattle.std.specs.Prelude.{◌≡◌, true, false, MatchOption};
ghost use Rattle.meaning.specs.Runs.{after};
ghost use Rattle.meaning.specs.Truth.{goes};
ghost use Rattle.rows.specs.Cells.{run_of, Written};

use crate::run::Run;

impl<'a> Run<'a> {
    // The run that is written in two arrays and a number, which is the number of places where the last one leads nowhere;
    // none where the arrays are empty or differ in length, or the number is larger.
    pub fn new(states: &'a [u32], events: &'a [u8], back: usize) -> Option<Run<'a>>
        ensures { MatchOption result (Written states.now events.now back → ⊥) (λ r. Written states.now events.now back × (run_of r ≡ record { states = states.now; events = events.now; back = back })) }
    {
        let m = states.len();
        if m < 1 || events.len() != m || back > m {
            return None;
        }
        Some(Run {
            states,
            events,
            back: (back < m).then_some(back),
        })
    }

    // The place that the arc at a place leads to; none where no arc is taken.
    pub fn next_place(&self, p: usize) -> Option<usize>
        ensures { MatchOption result (goes (run_of self.now) p ≡ false) (λ q. (goes (run_of self.now) p ≡ true) × (q ≡ after (run_of self.now) p)) }
    {
        if p < self.states.len() - 1 {
            Some(p + 1)
        } else {
            self.back
        }
    }
}
