// What an atom makes of the formula that ends at an entry.
// An atom gives each elementary entry a truth: the word's bit i is that of elementary entry i, in table order.
ghost use Rattle.std.specs.Prelude.{◌≡◌, ◌+◌, ◌<◌, ◌≤◌, true, length, take};
ghost use Rattle.formula.specs.Atoms.{bit_of};
ghost use Rattle.formula.specs.Evaluated.{Evaluated};
ghost use Rattle.formula.specs.Stack.{sound, sub};
ghost use Rattle.formula.specs.Table.{weight};

use crate::entry::Entry;

// A formula inside a table: its value, and how many entries and elementary entries it has.
#[derive(Clone, Copy)]
pub struct Part {
    pub holds: bool,
    pub entries: usize,
    pub elementary: usize,
}

impl Part {
    fn new(holds: bool, entries: usize, elementary: usize) -> Part
        ensures { result ≡ record { holds = holds; entries = entries; elementary = elementary } }
    {
        Part {
            holds,
            entries,
            elementary,
        }
    }
}

// Bit `place` of a word; past its end every bit is 0.
pub fn bit(word: u32, place: usize) -> bool
    ensures { result ≡ bit_of word place }
{
    place < 32 && (word >> place) & 1 == 1
}

// By recursion over the entries; `count` is how many elementary entries there are up to `at`.
pub(crate) fn evaluate(entries: &[Entry], at: usize, count: usize, word: u32) -> Part
    requires within { at < length entries.now }
    requires whole { sound 0 entries.now ≡ true }
    requires counted { count ≡ weight (take (at + 1) entries.now) }
    requires few { count ≤ 32 }
    ensures { Evaluated entries.now at count word result }
{
    match entries[at] {
        Entry::True => Part::new(true, 1, 0),
        Entry::Fact(_) | Entry::Enabled(_) | Entry::Taken(_) => Part::new(
            bit(word, count - 1),
            1,
            1,
        ),
        Entry::Not => {
            let part = evaluate(entries, at - 1, count, word);
            Part::new(!part.holds, part.entries + 1, part.elementary)
        }
        Entry::Next => {
            let part = evaluate(entries, at - 1, count - 1, word);
            Part::new(bit(word, count - 1), part.entries + 1, part.elementary + 1)
        }
        Entry::Or => {
            let last = evaluate(entries, at - 1, count, word);
            let first = evaluate(
                entries,
                at - 1 - last.entries,
                count - last.elementary,
                word,
            );
            let size = first.entries + last.entries + 1;
            Part::new(
                first.holds | last.holds,
                size,
                first.elementary + last.elementary,
            )
        }
        Entry::Until => {
            let last = evaluate(entries, at - 1, count - 1, word);
            let first = evaluate(
                entries,
                at - 1 - last.entries,
                count - 1 - last.elementary,
                word,
            );
            let holds = last.holds | (first.holds & bit(word, count - 1));
            let size = first.entries + last.entries + 1;
            Part::new(holds, size, first.elementary + last.elementary + 1)
        }
    }
}
