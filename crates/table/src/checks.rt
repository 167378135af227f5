// The rules on what the arrays of a table plant hold. Relies on sections.
ghost use Rattle.std.specs.Prelude.{◌≡◌, ℕ, ◌+◌, ◌^◌, ◌<◌, ◌≤◌, true, false, length, Decides, sum, MatchOption, MatchResult, MatchBool, slice_index};
ghost use Rattle.refusal.specs.Rows.{First, Lowest};
ghost use Rattle.plant.specs.Model.{Distinct};
ghost use Rattle.table.specs.Words.{arc_count, counts as counts_of, paired};
ghost use Rattle.table.specs.Refused.{OutOfRange, Repeated, rows};
ghost use Rattle.table.specs.Measured.{Kept, FirstBeyond, Again, Searched};

use crate::sections::Sections;
use refusal::{Cause, Refusal};

// The lowest place whose word is not below the limit, where the first of the words stands at place `at`.
fn first_beyond(words: &[u32], at: usize, limit: u32) -> Option<usize>
    requires { at + length words.now < 2 ^ 64 }
    ensures { MatchOption result ((k : ℕ) → k < length words.now → slice_index words.now k < limit) (λ place. (k : ℕ) × (place ≡ at + k) × FirstBeyond words.now limit k) }
{
    words.iter().position(|word| *word >= limit).map(|k| at + k)
}

// Whether a place holds the same as one before it.
fn stands_before<F: Fn(usize, usize) -> bool>(place: usize, same: &F) -> bool
    requires { (j : ℕ) → j < place → F.pre same.now j place }
    ensures { MatchBool result ((j : ℕ) × (j < place) × F.post same.now j place true) ((j : ℕ) → j < place → F.post same.now j place false) }
{
    // left out, the closure's `requires` would be that `same` may be called at any places
    (0..place).any(
        |before|
            requires { F.pre same.now before place }
        { same(before, place) },
    )
}

// The lowest of some places that holds the same as one before it.
fn first_again<F: Fn(usize, usize) -> bool>(count: usize, same: F) -> Option<usize>
    requires { (j k : ℕ) → j < k → k < count → F.pre same j k }
    ensures { Searched (λ j k b. F.post same j k b) count result }
{
    (0..count).find(|place| stands_before(*place, &same))
}

// The lowest place of a state that stands before it too.
fn repeated_state(states: &[u32]) -> Option<usize>
    ensures { MatchOption result (Distinct states.now) (λ k. Lowest (Again states.now) k) }
{
    first_again(states.len(), |j, k| states[j] == states[k])
}

// The lowest place of an arc, given by its event and its target, that stands before it too.
fn repeated_arc(events: &[u32], targets: &[u32]) -> Option<usize>
    requires parallel { length targets.now ≡ length events.now }
    ensures { MatchOption result (Distinct (paired events.now targets.now)) (λ k. Lowest (Again (paired events.now targets.now)) k) }
{
    first_again(
        events.len(),
        |j, k| events[j] == events[k] && targets[j] == targets[k],
    )
}

// What some words add up to.
fn total(words: &[u32]) -> u64
    requires { length words.now ≤ 4096 }
    ensures { result ≡ sum words.now }
{
    words.iter().map(|word| u64::from(*word)).sum()
}

impl Sections<'_> {
    // The lowest place that is out of range.
    fn out_of_range(&self) -> Option<usize>
        ensures { MatchOption result ((i : ℕ) → OutOfRange self.now.words.now i → ⊥) (λ i. Lowest (OutOfRange self.now.words.now) i) }
    {
        let states = self.words[0];
        let at_counts = 4 + self.initial.len() + self.facts.len();
        let at_events = at_counts + self.counts.len();
        let at_targets = at_events + self.events.len();
        first_beyond(self.initial, 4, states)
            .or_else(|| first_beyond(self.counts, at_counts, 17))
            .or_else(|| first_beyond(self.events, at_events, self.words[1]))
            .or_else(|| first_beyond(self.targets, at_targets, states))
    }

    // Whether the arc counts add up to A.
    fn adds_up(&self) -> bool
        ensures { Decides result (sum (counts_of self.now.words.now) ≡ arc_count self.now.words.now) }
    {
        total(self.counts) == u64::from(self.words[3])
    }

    // The lowest place of an initial state, or of the event of an arc, that stands before it too.
    fn repeated(&self) -> Option<usize>
        requires { sum (counts_of self.now.words.now) ≡ arc_count self.now.words.now }
        ensures { MatchOption result ((i : ℕ) → Repeated self.now.words.now i → ⊥) (λ i. Lowest (Repeated self.now.words.now) i) }
    {
        if let Some(k) = repeated_state(self.initial) {
            return Some(4 + k);
        }
        let at_events = self.words.len() - 2 * self.events.len();
        let mut from = 0;
        // the sum runs along: of a closure that changes it a chain tells nothing
        for count in self.counts {
            let end = from + *count as usize;
            if let Some(k) = repeated_arc(&self.events[from..end], &self.targets[from..end]) {
                return Some(at_events + (from + k));
            }
            from = end;
        }
        None
    }
}

// The arrays of words that keep every rule, or the first rule that they break.
pub(crate) fn checked(words: &[u32]) -> Result<Sections<'_>, Refusal>
    ensures { MatchResult result (λ t. Kept words.now × (t.words.now ≡ words.now)) (λ e. First (rows words.now) e) }
{
    let table = Sections::cut(words)?;
    if let Some(place) = table.out_of_range() {
        return Err(Cause::PlantRange.at(place));
    }
    if !table.adds_up() {
        return Err(Cause::PlantRange.at(3));
    }
    if let Some(place) = table.repeated() {
        return Err(Cause::PlantRepeat.at(place));
    }
    Ok(table)
}
