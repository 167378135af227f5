// The calls of a session, one by one: what each promises carries any history to the next. Relies on session.
ghost use Rattle.std.specs.Prelude.{◌≡◌, []};
ghost use Rattle.session.specs.History.{open_state, forget as forgets, begin as begins, step as steps, leave as leaves};
ghost use Rattle.session.specs.Sessions.{Lived, Takes};
ghost use Rattle.session.specs.Told.{told_done, told_state};

use crate::session::Session;
use book::book::Book;
use plant::Plant;
use refusal::{Cause, Refusal};

impl<P: Plant> Session<P> {
    // A session with every state closed, and no walk.
    pub fn new(plant: P) -> Session<P>
        ensures plant { result.plant ≡ plant }
        ensures law { Lived result [] }
    {
        Session {
            plant,
            book: Book::new(),
            walk: None,
        }
    }

    // Opens a state: writes down what the plant says of it.
    pub fn open(&mut self, state: u32) -> Result<(), Refusal>
        ensures { Takes self.old (open_state state) (told_done result) self.new }
    {
        self.book.add(&self.plant, state)?;
        Ok(())
    }

    // Forgets an open state, unless a walk is under way.
    pub fn forget(&mut self, state: u32) -> Result<(), Refusal>
        ensures { Takes self.old (forgets state) (told_done result) self.new }
    {
        if self.walk.is_some() {
            return Err(Cause::WalkUnderWay.at(0));
        }
        if !self.book.remove(state) {
            return Err(Cause::StateClosed.at(0));
        }
        Ok(())
    }

    // Begins a walk at an initial state, which need not be open.
    pub fn begin(&mut self, index: usize) -> Result<u32, Refusal>
        ensures { Takes self.old (begins index) (told_state result) self.new }
    {
        if self.walk.is_some() {
            return Err(Cause::WalkUnderWay.at(0));
        }
        // a plant answers by count and index: there is no slice to get from
        if index >= usize::from(self.plant.initial_count()) {
            return Err(Cause::NoSuchIndex.at(0));
        }
        let state = self.plant.initial(index);
        self.walk = Some(state);
        Ok(state)
    }

    // Steps along an arc of the walk's state, which has to be open.
    pub fn step(&mut self, index: usize) -> Result<u32, Refusal>
        ensures { Takes self.old (steps index) (told_state result) self.new }
    {
        let state = self.walk.ok_or(Cause::NoWalk.at(0))?;
        let place = self.book.find(state).ok_or(Cause::StateClosed.at(0))?;
        let arcs = self.book.arcs_at(place);
        let target = arcs.get(index).ok_or(Cause::NoSuchIndex.at(0))?.target;
        self.walk = Some(target);
        Ok(target)
    }

    // Leaves the walk.
    pub fn leave(&mut self) -> Result<(), Refusal>
        ensures { Takes self.old leaves (told_done result) self.new }
    {
        self.walk.take().ok_or(Cause::NoWalk.at(0))?;
        Ok(())
    }
}
