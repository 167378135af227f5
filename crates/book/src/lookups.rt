// What the book says. Relies on book.
ghost use Rattle.std.specs.Prelude.{◌≡◌, length, None as Nothing, MatchOption, position, slice_index_or};
ghost use Rattle.std.specs.Option.{option_copied, option_map};
ghost use Rattle.book.specs.Records.{names};
ghost use Rattle.book.specs.Books.{book_of, opened, placed, facts_of, arcs_in, PlaceOf};

use crate::book::Book;
use crate::record::Record;
use meaning::Arc;

// Whether a record stands at a place, and is of a state.
fn is_of(place: &Option<Record>, state: u32) -> bool
    ensures { result ≡ names place.now state }
{
    place.as_ref().is_some_and(|record| record.state == state)
}

impl Book {
    // The place of a state's record, by looking at every place.
    fn search(&self, state: u32) -> Option<usize>
        ensures { result ≡ position (λ r. names r state) self.now.records }
    {
        self.records.iter().position(|place| is_of(place, state))
    }

    // The place of a state's record, if the state is open. Which place a state has is free.
    pub fn find(&self, state: u32) -> Option<usize>
        ensures { MatchOption result (book_of self.now state ≡ Nothing) (λ i. PlaceOf self.now state i) }
    {
        let hint = usize::from(self.hints[state as usize % 256]);
        if is_of(&self.records[hint], state) {
            return Some(hint);
        }
        self.search(state)
    }

    // How many states are open.
    pub fn len(&self) -> usize
        ensures { result ≡ length (opened self.now) }
    {
        // a loop: the chain of a filter and a count took two and a half times as long
        let mut count = 0;
        for place in &self.records {
            if place.is_some() {
                count += 1;
            }
        }
        count
    }

    // The record at a place, if one stands there.
    fn at(&self, place: usize) -> Option<&Record>
        ensures { option_copied result ≡ slice_index_or self.now.records place Nothing }
    {
        self.records.get(place)?.as_ref()
    }

    // The facts that stand at a place; none where no record does.
    pub fn facts_at(&self, place: usize) -> Option<u32>
        ensures { result ≡ option_map facts_of (placed self.now place) }
    {
        self.at(place).map(|record| record.facts)
    }

    // The arcs that stand at a place; none where no record does.
    pub fn arcs_at(&self, place: usize) -> &[Arc]
        ensures { result.now ≡ arcs_in (placed self.now place) }
    {
        match self.at(place) {
            Some(record) => &record.arcs[..usize::from(record.count)],
            None => &[],
        }
    }
}
