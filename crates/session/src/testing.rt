// The test of a run over the open states. Relies on session and runs.
ghost use Rattle.std.specs.Prelude.{◌≡◌, ℕ, ◌<◌, List, length, IsTrue, ◌↔◌, MatchResult, slice_index};
ghost use Rattle.refusal.specs.Rows.{Clear, First};
ghost use Rattle.formula.specs.View.{entries_of, tree_of};
ghost use Rattle.meaning.specs.Runs.{Satisfies};
ghost use Rattle.runs.specs.Known.{run_of};
ghost use Rattle.runs.specs.Tests.{rows};
ghost use Rattle.session.specs.History.{Turn, is_open};
ghost use Rattle.session.specs.Sessions.{Lived};

use crate::session::Session;
use formula::formula::Formula;
use plant::Plant;
use refusal::Refusal;
use runs::arrays::Arrays;

impl<P: Plant> Session<P> {
    // Yes exactly when the run satisfies the formula in the plant. Granted, every byte that was lent is 0 afterwards;
    // refused, they are as they were.
    pub fn test(&self, formula: &Formula, run: Arrays, cells: &mut [u8]) -> Result<bool, Refusal>
        ensures law { (h : List Turn) → Lived self.now h →
            let M = P.Plant.model self.now.plant in
            let table = rows M.events (is_open h) M.system (entries_of formula.now) (run_of run.entry) (length cells.old) in
            MatchResult result (λ yes. Clear table × (IsTrue yes ↔ Satisfies M.system (run_of run.entry) (tree_of formula.now))) (λ e. First table e) }
        ensures cells { MatchResult result (λ _. (k : ℕ) → k < length cells.new → slice_index cells.new k ≡ 0) (λ _. cells.new ≡ cells.old) }
    {
        runs::test::test(&self.plant, &self.book, formula, run, cells)
    }
}
