// What formulas mean on runs of a system, and a test that decides it. Relies on formula.
#![tactic(auto)]

ghost use Rattle.std.specs.Prelude.{Some};
ghost use Rattle.meaning.specs.Claims.{Decided, Twelve};
ghost use Rattle.meaning.specs.Printed.{arc_line};

use std::fmt;

// An arc of a state: the event that it bears, and the state that it leads to.
#[derive(Clone, Copy, Debug, PartialEq, Eq)]
pub struct Arc {
    pub event: u8,
    pub target: u32,
}

// `EVENT TARGET`
impl fmt::Display for Arc {
    ghost output = { λ a. Some (arc_line a) };

    fn fmt<W: fmt::Write>(&self, f: &mut fmt::Formatter<W>) -> fmt::Result {
        let event = self.event;
        let target = self.target;
        write!(f, "{event} {target}")
    }
}

// The worked examples, as one fact about what formulas mean.
pub fn examples_stand() -> bool
    ensures { Twelve }
{
    true
}

// The test at a place of a run is right, for every formula, on loops and at deadlocks alike.
pub fn test_decides() -> bool
    ensures { Decided }
{
    true
}
