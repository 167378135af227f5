// The rows of a formula's entries, by recursion over the entries.
ghost use Rattle.std.specs.Prelude.{◌≡◌, ◌+◌, ◌-◌, ◌*◌, ◌<◌, ◌≤◌, length};
ghost use Rattle.formula.specs.Stack.{sub};
ghost use Rattle.formula.specs.Table.{size};
ghost use Rattle.formula.specs.View.{entries_of};
ghost use Rattle.meaning.specs.Runs.{places};
ghost use Rattle.meaning.specs.Truth.{truth};
ghost use Rattle.rows.specs.Cells.{cell as cell_of, run_of};
ghost use Rattle.rows.specs.Rows.{on, Row, SameBelow, Stand};

use crate::cells::Parts;
use crate::run::Run;
use crate::states::States;
use crate::sweeps::until_row;
use formula::entry::Entry;
use formula::formula::Formula;

impl Run<'_> {
    // The row of an entry from the rows of its parts.
    fn row<S: States>(&self, states: &S, e: Entry, parts: Parts, cells: &mut [u8], out: usize)
        requires rows { (Stand e parts.first parts.last (places (run_of self.now)) out) × (out + places (run_of self.now) ≤ length cells.old) }
        ensures row { Row cells.new out (places (run_of self.now)) (cell_of (S.States.system states.now) (run_of self.now) e (on cells.old parts.first) (on cells.old parts.last)) }
        ensures same { SameBelow cells.old cells.new out }
    {
        if let Entry::Until = e {
            until_row(cells, parts, out, self.states.len(), self.back);
            return;
        }
        // by place: each place looks at other rows of the same table, so a loop over this row's bytes would have to split it
        for p in 0..self.states.len() {
            let holds = self.cell(states, e, parts, cells, p);
            cells[out + p] = u8::from(holds);
        }
    }

    // The row of entry `at` at byte `out`, the rows of its parts before it.
    pub(crate) fn fill<S: States>(
        &self,
        states: &S,
        formula: &Formula,
        at: usize,
        cells: &mut [u8],
        out: usize,
    )
        requires within { at < length (entries_of formula.now) }
        requires below { size (sub (entries_of formula.now) at) * places (run_of self.now) ≤ out + places (run_of self.now) }
        requires room { out + places (run_of self.now) ≤ length cells.old }
        ensures row { Row cells.new out (places (run_of self.now)) (truth (S.States.system states.now) (run_of self.now) (sub (entries_of formula.now) at)) }
        ensures same { SameBelow cells.old cells.new (out + places (run_of self.now) - size (sub (entries_of formula.now) at) * places (run_of self.now)) }
    {
        let m = self.states.len();
        let e = formula.entries()[at];
        match e {
            Entry::True | Entry::Fact(_) | Entry::Enabled(_) | Entry::Taken(_) => {
                let parts = Parts {
                    first: out,
                    last: out,
                };
                self.row(states, e, parts, cells, out);
            }
            Entry::Not | Entry::Next => {
                let last = out - m;
                self.fill(states, formula, at - 1, cells, last);
                let parts = Parts { first: last, last };
                self.row(states, e, parts, cells, out);
            }
            Entry::Or | Entry::Until => {
                let Some(skip) = formula.span(at - 1) else {
                    unreachable()
                };
                let last = out - m;
                let first = last - skip * m;
                self.fill(states, formula, at - 1 - skip, cells, first);
                self.fill(states, formula, at - 1, cells, last);
                self.row(states, e, Parts { first, last }, cells, out);
            }
        }
    }
}
