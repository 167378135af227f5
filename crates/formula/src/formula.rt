// A formula: its table, in an array that needs no heap.
ghost use Rattle.std.specs.Prelude.{◌≡◌, ◌≤◌, true, length, take};
ghost use Rattle.formula.specs.Table.{table, weight};
ghost use Rattle.formula.specs.Stack.{tree, in_range};

use crate::entry::Entry;

// Every formula that exists is one whole formula with facts below 32, events below 64,
// at most 48 entries and at most ten elementary ones.
#[derive(Drop)]
pub struct Formula {
    pub entries: [Entry; 48],
    pub len: usize,
    ghost full: { length entries ≡ 48 },
    ghost fits: { len ≤ 48 },
    ghost whole: { table (tree (take len entries)) ≡ take len entries },
    ghost ranged: { in_range (take len entries) ≡ true },
    ghost few: { weight (take len entries) ≤ 10 },
}
