// The test of a formula on a run.
ghost use Rattle.std.specs.Prelude.{◌≡◌, ℕ, ◌*◌, ◌<◌, ◌≤◌, length, Decides, MatchOption, slice_index};
ghost use Rattle.formula.specs.View.{entries_of, tree_of};
ghost use Rattle.meaning.specs.Runs.{places, Satisfies};
ghost use Rattle.rows.specs.Cells.{run_of};

use crate::run::Run;
use crate::states::States;
use formula::formula::Formula;

// Yes exactly when the run satisfies the formula; nothing where fewer bytes are lent than a row for each entry takes.
// Afterwards every byte that was lent is 0, or as it was.
pub fn test<S: States>(states: &S, run: &Run, formula: &Formula, cells: &mut [u8]) -> Option<bool>
    ensures answer { MatchOption result (length cells.old < length (entries_of formula.now) * places (run_of run.now)) (λ yes. (length (entries_of formula.now) * places (run_of run.now) ≤ length cells.old) × Decides yes (Satisfies (S.States.system states.now) (run_of run.now) (tree_of formula.now))) }
    ensures cells { MatchOption result (cells.new ≡ cells.old) (λ _. (k : ℕ) → k < length cells.new → slice_index cells.new k ≡ 0) }
{
    let m = run.states.len();
    let n = formula.len();
    let needed = n.checked_mul(m)?;
    if cells.len() < needed {
        return None;
    }
    let root = n - 1;
    run.fill(states, formula, root, cells, root * m);
    let yes = cells[root * m] == 1;
    cells.fill(0);
    Some(yes)
}
