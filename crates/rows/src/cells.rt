// One place of a row, from the rows of an entry's parts.
ghost use Rattle.std.specs.Prelude.{◌≡◌, ◌<◌, length, ◌≢◌};
ghost use Rattle.meaning.specs.Runs.{places};
ghost use Rattle.meaning.specs.Truth.{bears};
ghost use Rattle.formula.specs.declared.entry.Entry.TheVariants.{Until as TheUntil};
ghost use Rattle.rows.specs.Rows.{on, Stand};
ghost use Rattle.rows.specs.Cells.{cell as cell_of, run_of};

use crate::run::Run;
use crate::states::States;
use formula::entry::Entry;
use formula::evaluate::bit;
use meaning::Arc;

// The bytes at which the rows of an entry's parts begin: of two parts, or of one as the last.
#[derive(Clone, Copy)]
pub struct Parts {
    pub first: usize,
    pub last: usize,
}

// Some arc bears the event. A `for`, as docs/DECISIONS.md has it among the language forms.
fn enabled(arcs: &[Arc], event: u8) -> bool
    ensures { result ≡ bears event arcs.now }
{
    for arc in arcs {
        if arc.event == event {
            return true;
        }
    }
    false
}

impl Run<'_> {
    // What an entry is at a place; a U is swept and not asked here.
    pub(crate) fn cell<S: States>(
        &self,
        states: &S,
        e: Entry,
        parts: Parts,
        cells: &[u8],
        p: usize,
    ) -> bool
        requires within { p < places (run_of self.now) }
        requires rows { Stand e parts.first parts.last (places (run_of self.now)) (length cells.now) }
        requires other { e ≢ TheUntil }
        ensures { result ≡ cell_of (S.States.system states.now) (run_of self.now) e (on cells.now parts.first) (on cells.now parts.last) p }
    {
        match e {
            Entry::True => true,
            Entry::Fact(q) => bit(states.facts(self.states[p]), usize::from(q)),
            Entry::Enabled(t) => enabled(states.arcs(self.states[p]), t),
            Entry::Taken(t) => self.next_place(p).is_some() && self.events[p] == t,
            Entry::Not => cells[parts.last + p] != 1,
            Entry::Or => cells[parts.first + p] == 1 || cells[parts.last + p] == 1,
            Entry::Next => self
                .next_place(p)
                .is_some_and(|q| cells[parts.last + q] == 1),
            Entry::Until => unreachable(),
        }
    }
}
