// The test of a formula on a run over open states. Relies on faults and rows.
ghost use Rattle.std.specs.Prelude.{◌≡◌, ℕ, ◌<◌, length, Decides, MatchResult, slice_index};
ghost use Rattle.refusal.specs.Rows.{Clear, First};
ghost use Rattle.formula.specs.View.{entries_of, tree_of};
ghost use Rattle.meaning.specs.Runs.{Satisfies};
ghost use Rattle.runs.specs.Tests.{rows};
ghost use Rattle.runs.specs.Known.{opens, view, run_of};

use crate::arrays::Arrays;
use crate::faults::{Known, event_beyond, shaped};
use crate::states::OpenStates;
use book::book::Book;
use formula::formula::Formula;
use plant::Plant;
use refusal::{Cause, Refusal};

// Yes exactly when the run satisfies the formula in the system that the book tells of; or the first refusal.
// Granted, every byte that was lent is 0; refused, they are as they were.
pub fn test<P: Plant>(
    plant: &P,
    book: &Book,
    formula: &Formula,
    arrays: Arrays,
    cells: &mut [u8],
) -> Result<bool, Refusal>
    ensures answer { MatchResult result (λ yes. Clear (rows (P.Plant.model plant.now).events (opens book.now) (view book.now (P.Plant.model plant.now)) (entries_of formula.now) (run_of arrays.entry) (length cells.old)) × Decides yes (Satisfies (view book.now (P.Plant.model plant.now)) (run_of arrays.entry) (tree_of formula.now))) (λ e. First (rows (P.Plant.model plant.now).events (opens book.now) (view book.now (P.Plant.model plant.now)) (entries_of formula.now) (run_of arrays.entry) (length cells.old)) e) }
    ensures cells { MatchResult result (λ _. (k : ℕ) → k < length cells.new → slice_index cells.new k ≡ 0) (λ _. cells.new ≡ cells.old) }
{
    if let Some(entry) = event_beyond(formula.entries(), plant.events()) {
        return Err(Cause::EventBeyond.at(entry));
    }
    let run = shaped(arrays).ok_or(Cause::RunShape.at(0))?;
    Known { plant, book }.run_stands(&run)?;
    rows::test::test(&OpenStates { book }, &run, formula, cells).ok_or(Cause::WorkspaceShort.at(0))
}
