// A list of calls, run on a session one after another. Relies on calls.
ghost use Rattle.std.specs.Prelude.{◌≡◌, List, length, IfOk, MatchResult};
ghost use Rattle.session.specs.History.{Turn};
ghost use Rattle.session.specs.Log.{asks, tells, logged};
ghost use Rattle.session.specs.Sessions.{Lived, Takes};

use crate::session::Session;
use crate::turns::{Answer, Call, Reply};
use plant::Plant;
use std::alloc::{AllocError, Global};

impl<P: Plant> Session<P> {
    // One call, whichever it is.
    pub fn answer(&mut self, call: Call) -> Answer
        ensures { Takes self.old (asks call) (tells result) self.new }
    {
        match call {
            Call::Open(state) => self.open(state).map(|()| Reply::Done),
            Call::Forget(state) => self.forget(state).map(|()| Reply::Done),
            Call::Begin(index) => self.begin(index).map(Reply::At),
            Call::Step(index) => self.step(index).map(Reply::At),
            Call::Leave => self.leave().map(|()| Reply::Done),
        }
    }

    // Runs the calls in their order, and tells what each was answered. Whatever history the session has lived, it has then
    // lived that and these calls with their answers; so each was answered right after all before it. For want of memory
    // nothing is run.
    pub fn run(&mut self, heap: Global, calls: &[Call]) -> Result<Vec<Answer>, AllocError>
        ensures plant { self.new.plant ≡ self.old.plant }
        ensures each { MatchResult result (λ answers. length answers.items ≡ length calls.now) (λ _. self.new ≡ self.old) }
        ensures law { IfOk result (λ answers. (h : List Turn) → Lived self.old h → Lived self.new (logged calls.now answers.items h)) }
    {
        let mut answers = Vec::with_capacity(heap, calls.len())?;
        // a loop, since of a closure that changes the session a chain would tell nothing
        for call in calls {
            let answer = self.answer(*call);
            answers.push_reserved(answer);
        }
        Ok(answers)
    }
}
