// What a formula tells: its entries, its parts, and what an atom makes of them.
ghost use Rattle.std.specs.Prelude.{◌≡◌, ◌<◌, ◌≤◌, length, MatchOption, slice_index_or};
ghost use Rattle.formula.specs.Evaluated.{value_at};
ghost use Rattle.formula.specs.Stack.{sub};
ghost use Rattle.formula.specs.Table.{size, weight};
ghost use Rattle.formula.specs.View.{entries_of};
ghost use Rattle.formula.specs.declared.entry.Entry.TheVariants.{True};

use crate::entry::Entry;
use crate::evaluate::evaluate;
use crate::formula::Formula;
use crate::spans::span;
use crate::words::weigh;

impl Formula {
    // Its entries.
    pub fn entries(&self) -> &[Entry]
        ensures { result.now ≡ entries_of self.now }
    {
        &self.entries[..self.len]
    }

    // How many entries it has: 1 to 48.
    pub fn len(&self) -> usize
        ensures value { result ≡ length (entries_of self.now) }
        ensures bound { (1 ≤ result) × (result ≤ 48) }
    {
        self.entries().len()
    }

    // Its elementary count k: 0 to 10.
    pub fn elementary(&self) -> usize
        ensures value { result ≡ weight (entries_of self.now) }
        ensures bound { result ≤ 10 }
    {
        weigh(self.entries())
    }

    // The entry at a number; none past the end.
    pub fn entry(&self, at: usize) -> Option<Entry>
        ensures { MatchOption result (length (entries_of self.now) ≤ at) (λ e. (at < length (entries_of self.now)) × (e ≡ slice_index_or (entries_of self.now) at True)) }
    {
        self.entries().get(at).copied()
    }

    // How many entries belong to the formula that ends at an entry; none past the end.
    pub fn span(&self, at: usize) -> Option<usize>
        ensures { MatchOption result (length (entries_of self.now) ≤ at) (λ n. (at < length (entries_of self.now)) × (n ≡ size (sub (entries_of self.now) at))) }
    {
        let entries = self.entries();
        if at >= entries.len() {
            return None;
        }
        Some(span(entries, at))
    }

    // What the atom in a word makes of the formula that ends at an entry; none past the end.
    // Its bits follow those of the elementary entries that stand before that formula.
    pub fn value(&self, at: usize, word: u32) -> Option<bool>
        ensures { MatchOption result (length (entries_of self.now) ≤ at) (λ b. (at < length (entries_of self.now)) × (b ≡ value_at (entries_of self.now) at word)) }
    {
        let entries = self.entries();
        if at >= entries.len() {
            return None;
        }
        let count = weigh(&entries[..at + 1]);
        Some(evaluate(entries, at, count, word).holds)
    }
}
