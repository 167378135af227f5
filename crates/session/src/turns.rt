// Calls and answers as values. Relies on refusal.
use refusal::Refusal;

// A call that changes a session, or could.
#[derive(Clone, Copy, Debug, PartialEq, Eq)]
pub enum Call {
    // a state
    Open(u32),
    Forget(u32),
    // an index among the initial states
    Begin(usize),
    // an index among the arcs of the walk's state
    Step(usize),
    Leave,
}

// What a call that is granted is answered.
#[derive(Clone, Copy, Debug, PartialEq, Eq)]
pub enum Reply {
    Done,
    // the state reached
    At(u32),
}

// What a call is answered.
pub type Answer = Result<Reply, Refusal>;
