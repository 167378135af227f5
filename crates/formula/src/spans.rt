// How many entries belong to the formula that ends at an entry.
ghost use Rattle.std.specs.Prelude.{◌≡◌, ◌+◌, ◌<◌, ◌≤◌, true, length};
ghost use Rattle.formula.specs.Table.{size};
ghost use Rattle.formula.specs.Stack.{sound, sub};

use crate::entry::Entry;

// By recursion over the entries: the parts end before the operator, so the entry number falls.
pub(crate) fn span(entries: &[Entry], at: usize) -> usize
    requires within { at < length entries.now }
    requires whole { sound 0 entries.now ≡ true }
    ensures value { result ≡ size (sub entries.now at) }
    ensures bound { result ≤ at + 1 }
{
    match entries[at] {
        Entry::True | Entry::Fact(_) | Entry::Enabled(_) | Entry::Taken(_) => 1,
        Entry::Not | Entry::Next => span(entries, at - 1) + 1,
        Entry::Or | Entry::Until => {
            let last = span(entries, at - 1);
            let first = span(entries, at - 1 - last);
            first + last + 1
        }
    }
}
