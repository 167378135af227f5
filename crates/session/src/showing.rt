// What a session shows of its book. Relies on session.
ghost use Rattle.std.specs.Prelude.{◌≡◌, List, is_some, Some as Just, IfSome};
ghost use Rattle.std.specs.Option.{option_map};
ghost use Rattle.book.specs.Books.{placed, facts_of, arcs_in};
ghost use Rattle.book.specs.Records.{says};
ghost use Rattle.session.specs.History.{Turn, is_open};
ghost use Rattle.session.specs.Sessions.{Lived};

use crate::session::Session;
use meaning::Arc;
use plant::Plant;

impl<P: Plant> Session<P> {
    // The place of a state's record in the book, by which its facts and arcs are read; a closed state has none.
    // Which place a state has is free. A place and no reference, so that the session can be asked further meanwhile.
    pub fn show(&self, state: u32) -> Option<usize>
        ensures opened { (h : List Turn) → Lived self.now h → is_some result ≡ is_open h state }
        ensures said { IfSome result (λ i. placed self.now.book i ≡ Just (says (P.Plant.model self.now.plant).system state)) }
    {
        self.book.find(state)
    }

    // The facts in the record at a place; none where there is no record.
    pub fn facts_at(&self, place: usize) -> Option<u32>
        ensures { result ≡ option_map facts_of (placed self.now.book place) }
    {
        self.book.facts_at(place)
    }

    // The arcs in the record at a place; none where there is no record.
    pub fn arcs_at(&self, place: usize) -> &[Arc]
        ensures { result.now ≡ arcs_in (placed self.now.book place) }
    {
        self.book.arcs_at(place)
    }
}
