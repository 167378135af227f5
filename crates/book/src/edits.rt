// States opened and closed. Relies on book, lookups and refusal.
ghost use Rattle.std.specs.Prelude.{◌≡◌, ℕ, ◌<◌, ◌≤◌, [], length, IsSome, is_none, None as Nothing, MatchBool, MatchResult, position};
ghost use Rattle.book.specs.Records.{says, saying_of, Adds, Drops};
ghost use Rattle.book.specs.Books.{book_of, opened, WhyNot, Refuses};

use crate::book::Book;
use crate::record::Record;
use meaning::Arc;
use plant::Plant;
use refusal::{Cause, Refusal};
use std::array;

// Why a state was not added.
#[derive(Clone, Copy, Debug, PartialEq, Eq)]
pub enum NotAdded {
    // it is there already
    Present,
    // every place is taken
    Full,
}

impl From<NotAdded> for Refusal {
    ghost from_gives = { Refuses };

    fn from(why: NotAdded) -> Refusal {
        match why {
            NotAdded::Present => Cause::StateOpen.at(0),
            NotAdded::Full => Cause::BookFull.at(0),
        }
    }
}

impl Record {
    // What a plant says of a state.
    fn of<P: Plant>(plant: &P, state: u32) -> Record
        ensures state { result.state ≡ state }
        ensures few { result.count ≤ 16 }
        ensures said { saying_of result ≡ says (P.Plant.model plant.now).system state }
    {
        let count = plant.arc_count(state);
        let arcs = array::from_fn(|index| {
            if index < usize::from(count) {
                plant.arc(state, index)
            } else {
                Arc {
                    event: 0,
                    target: 0,
                }
            }
        });
        Record {
            state,
            facts: plant.facts(state),
            count,
            arcs,
        }
    }
}

impl Book {
    // A book with every place empty.
    pub fn new() -> Book
        ensures closed { (s : ℕ) → book_of result s ≡ Nothing }
        ensures none { opened result ≡ [] }
    {
        Book {
            records: [None; 256],
            hints: [0; 256],
        }
    }

    // A place that no state has.
    fn free(&self) -> Option<usize>
        ensures { result ≡ position is_none self.now.records }
    {
        self.records.iter().position(Option::is_none)
    }

    // Opens a state, with what the plant says of it. A refusal changes nothing.
    pub fn add<P: Plant>(&mut self, plant: &P, state: u32) -> Result<(), NotAdded>
        ensures { MatchResult result (λ _. (book_of self.old state ≡ Nothing) × (length (opened self.old) < 256) × Adds (book_of self.old) state (says (P.Plant.model plant.now).system state) (book_of self.new)) (λ e. WhyNot self.old state e × (self.new ≡ self.old)) }
    {
        if self.find(state).is_some() {
            return Err(NotAdded::Present);
        }
        let place = self.free().ok_or(NotAdded::Full)?;
        let record = Record::of(plant, state);
        let slot = &mut self.records[place];
        *slot = Some(record);
        self.hints[state as usize % 256] = place as u8;
        Ok(())
    }

    // Closes a state, and tells whether it was open. Its place is free again.
    pub fn remove(&mut self, state: u32) -> bool
        ensures { MatchBool result (IsSome (book_of self.old state) × Drops (book_of self.old) state (book_of self.new)) ((book_of self.old state ≡ Nothing) × (self.new ≡ self.old)) }
    {
        let Some(place) = self.find(state) else {
            return false;
        };
        let slot = &mut self.records[place];
        *slot = None;
        true
    }
}
