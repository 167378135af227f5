// Reading a table plant from words. Relies on checks and table.
ghost use Rattle.std.specs.Prelude.{◌≡◌, ◌+◌, ◌<◌, IfOk, Err, MatchResult};
ghost use Rattle.refusal.specs.Rows.{First};
ghost use Rattle.refusal.specs.declared.Refusal.{Refusal as Given};
ghost use Rattle.plant.specs.Making.{Failed};
ghost use Rattle.plant.specs.declared.Failure.TheVariants.{Refused as ByRule};
ghost use Rattle.table.specs.Words.{largest, paired};
ghost use Rattle.table.specs.Refused.{rows};
ghost use Rattle.table.specs.Parts.{model_of};
ghost use Rattle.table.specs.Measured.{Kept};
ghost use Rattle.table.specs.Granted.{Granted, Read, Stated};
ghost use Rattle.std.specs.List.{All};

use crate::checks::checked;
use crate::parts::{Parts, State};
use crate::sections::Sections;
use crate::table::TablePlant;
use meaning::Arc;
use plant::Failure;
use std::alloc::{AllocError, Global};

// The largest of some words.
fn most(words: &[u32]) -> u32
    ensures { result ≡ largest words.now }
{
    words.iter().copied().max().unwrap_or(0)
}

// The arcs that two parallel arrays say.
fn arcs(heap: Global, events: &[u32], targets: &[u32]) -> Result<Vec<Arc>, AllocError>
    requires { All (λ event. event < 64) events.now }
    ensures { IfOk result (λ v. v.items ≡ paired events.now targets.now) }
{
    events
        .iter()
        .zip(targets)
        .map(|(event, target)| Arc {
            event: *event as u8,
            target: *target,
        })
        .collect(heap)
}

impl Sections<'_> {
    // The states that the words say.
    fn states(&self, heap: Global) -> Result<Vec<State>, AllocError>
        requires { Kept self.now.words.now }
        ensures { IfOk result (λ v. Stated self.now.words.now v.items) }
    {
        let mut states = Vec::with_capacity(heap, self.facts.len())?;
        let mut from = 0;
        for (facts, count) in self.facts.iter().zip(self.counts) {
            states.push(State {
                facts: *facts,
                from,
                count: *count,
            })?;
            from += *count;
        }
        Ok(states)
    }

    // The parts that the words say, owned.
    fn read(&self, heap: Global) -> Result<Parts, AllocError>
        requires { Kept self.now.words.now }
        ensures { IfOk result (λ p. Read self.now.words.now p) }
    {
        let initial = Vec::from_slice(heap, self.initial)?;
        let states = self.states(heap)?;
        let arcs = arcs(heap, self.events, self.targets)?;
        Ok(Parts {
            events: self.words[1] as u8,
            width: most(self.counts) as u8,
            initial,
            states,
            arcs,
        })
    }
}

impl TablePlant {
    // Which plant the words are: granted, it is what they mean and keeps the laws of plants; else the first rule that
    // they break, or want of memory where they break none. The words stay the caller's.
    pub fn from_words(heap: Global, words: &[u32]) -> Result<TablePlant, Failure>
        ensures answer { MatchResult result (λ p. Granted words.now (model_of p.parts)) (λ e. Failed (rows words.now) e) }
        ensures only { (e : Given) → First (rows words.now) e → result ≡ Err (ByRule e) }
    {
        let sections = checked(words)?;
        let parts = sections.read(heap)?;
        Ok(TablePlant { parts })
    }
}
