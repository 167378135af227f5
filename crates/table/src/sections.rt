// A table plant's words, cut into their arrays. Relies on refusal.
ghost use Rattle.std.specs.Prelude.{◌≡◌, ℕ, ◌≤◌, length, MatchOption, MatchResult};
ghost use Rattle.refusal.specs.Rows.{First, Lowest};
ghost use Rattle.table.specs.Words.{initials, facts as facts_in, counts as counts_in, events as events_in, targets as targets_in};
ghost use Rattle.table.specs.Refused.{OffLimits, rows};
ghost use Rattle.table.specs.Measured.{Measured};

use refusal::{Cause, Refusal};

// The arrays are those that the words say, and the words are as many as they say.
#[derive(Clone, Copy)]
pub struct Sections<'a> {
    // all the words
    pub words: &'a [u32],
    pub initial: &'a [u32],
    pub facts: &'a [u32],
    pub counts: &'a [u32],
    // two slices side by side, as they stand in the lent words
    pub events: &'a [u32],
    pub targets: &'a [u32],
    ghost measured: { Measured words.now },
    ghost by_initial: { initial.now ≡ initials words.now },
    ghost by_facts: { facts.now ≡ facts_in words.now },
    ghost by_counts: { counts.now ≡ counts_in words.now },
    ghost by_events: { events.now ≡ events_in words.now },
    ghost by_targets: { targets.now ≡ targets_in words.now },
}

// The least and the most of S, E, I and A.
const LIMITS: [(u32, u32); 4] = [(1, 4096), (1, 64), (0, 16), (0, 65536)];

// The lowest of the first four words that is outside its limits.
fn off_limits(words: &[u32]) -> Option<usize>
    requires { 4 ≤ length words.now }
    ensures { MatchOption result ((i : ℕ) → OffLimits words.now i → ⊥) (λ i. Lowest (OffLimits words.now) i) }
{
    words
        .iter()
        .zip(LIMITS.iter())
        .position(|(word, (least, most))| *word < *least || *word > *most)
}

impl<'a> Sections<'a> {
    // The arrays, or the refusal of counts that are outside their limits or do not fit the words.
    pub(crate) fn cut(words: &'a [u32]) -> Result<Sections<'a>, Refusal>
        ensures { MatchResult result (λ t. t.words.now ≡ words.now) (λ e. First (rows words.now) e) }
    {
        let [states, _, initial, arcs, arrays @ ..] = words else {
            return Err(Cause::PlantLength.at(0));
        };
        if let Some(place) = off_limits(words) {
            return Err(Cause::PlantLimit.at(place));
        }
        let states = *states as usize;
        let arcs = *arcs as usize;
        let initial = *initial as usize;
        if arrays.len() != initial + 2 * states + 2 * arcs {
            return Err(Cause::PlantLength.at(0));
        }
        let (initial, rest) = arrays.split_at(initial);
        let (facts, rest) = rest.split_at(states);
        let (counts, rest) = rest.split_at(states);
        let (events, targets) = rest.split_at(arcs);
        Ok(Sections {
            words,
            initial,
            facts,
            counts,
            events,
            targets,
        })
    }
}
