// A row of U, by sweeps from the last place to the first.
ghost use Rattle.std.specs.Prelude.{◌≡◌, ◌+◌, ◌-◌, ◌<◌, ◌≤◌, false, ◌&&◌, ◌||◌, length, ◌==◌};
ghost use Rattle.std.specs.Option.{unwrap_or};
ghost use Rattle.meaning.specs.Truth.{sweep};
ghost use Rattle.rows.specs.Rows.{on, Row, SameBelow};

use crate::cells::Parts;

// The last part holds here, or the first does and the U at the next place.
fn kept(last: u8, first: u8, next: bool) -> bool
    ensures { result ≡ (last == 1 || (first == 1 && next)) }
{
    last == 1 || first == 1 && next
}

// The last part at this place or a later one, and the first before; past the last place, `end`.
fn sweep_row(cells: &mut [u8], parts: Parts, out: usize, m: usize, end: bool)
    requires before { (parts.first + m ≤ out) × (parts.last + m ≤ out) }
    requires room { out + m ≤ length cells.old }
    ensures row { Row cells.new out m (λ p. sweep (on cells.old parts.first) (on cells.old parts.last) end (m - p) p) }
    ensures same { SameBelow cells.old cells.new out }
{
    let mut next = end;
    // by place: three rows of one table, of which one is written; slices of them would be two splits and two zips
    for p in (0..m).rev() {
        next = kept(cells[parts.last + p], cells[parts.first + p], next);
        cells[out + p] = u8::from(next);
    }
}

// A second sweep where the first finds the U at the place that the run goes back to.
pub(crate) fn until_row(cells: &mut [u8], parts: Parts, out: usize, m: usize, back: Option<usize>)
    requires before { (parts.first + m ≤ out) × (parts.last + m ≤ out) }
    requires room { out + m ≤ length cells.old }
    requires back { unwrap_or back 0 < m }
    ensures row { Row cells.new out m (λ p. sweep (on cells.old parts.first) (on cells.old parts.last) (sweep (on cells.old parts.first) (on cells.old parts.last) false (m - unwrap_or back m) (unwrap_or back m)) (m - p) p) }
    ensures same { SameBelow cells.old cells.new out }
{
    sweep_row(cells, parts, out, m, false);
    let Some(back) = back else {
        return;
    };
    if cells[out + back] == 1 {
        sweep_row(cells, parts, out, m, true);
    }
}
