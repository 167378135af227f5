// What the test of a run asks of a book. Relies on rows and book.
ghost use Rattle.std.specs.Prelude.{◌≡◌, []};
ghost use Rattle.runs.specs.Known.{told};

use book::book::Book;
use meaning::Arc;
use rows::states::States;

// The states that are open in a book.
#[derive(Clone, Copy)]
pub struct OpenStates<'a> {
    pub book: &'a Book,
}

impl States for OpenStates<'_> {
    ghost system = { λ b. told b.book.now [] };

    fn facts(&self, state: u32) -> u32 {
        let Some(place) = self.book.find(state) else {
            return 0;
        };
        self.book.facts_at(place).unwrap_or(0)
    }

    fn arcs(&self, state: u32) -> &[Arc] {
        match self.book.find(state) {
            Some(place) => self.book.arcs_at(place),
            None => &[],
        }
    }
}
