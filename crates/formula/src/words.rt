// Formulas from words, or the refusal of the first rule that they break.
ghost use Rattle.std.specs.Prelude.{◌≡◌, ◌≤◌, true, ◌⊎◌, length, take, Err, MatchOption, MatchResult};
ghost use Rattle.refusal.specs.declared.Refusal.{Refusal as Given};
ghost use Rattle.formula.specs.Stack.{sound, depth, in_range};
ghost use Rattle.formula.specs.Table.{weight};
ghost use Rattle.formula.specs.View.{entries_of};
ghost use Rattle.formula.specs.Words.{count, Counted, Lists, Unspelled, Lacks, Several, Granted, Refused, OneTree};

use crate::entry::Entry;
use crate::formula::Formula;
use refusal::{Cause, Refusal};

// The number of entries, where the words are as many as it says.
fn counted(words: &[u32]) -> Option<usize>
    ensures { MatchOption result (Counted words.now → ⊥) (λ n. (n ≡ count words.now) × Counted words.now) }
{
    let n = *words.first()? as usize;
    if n < 1 || n > 48 || words.len() != 2 * n + 1 {
        return None;
    }
    Some(n)
}

// The entries that the words say, or the lowest of which they say none.
fn listed(words: &[u32], n: usize) -> Result<[Entry; 48], usize>
    requires counted { (Counted words.now) × (n ≡ count words.now) }
    ensures { MatchResult result (λ es. (length es ≡ 48) × Lists words.now (take n es)) (λ i. Unspelled words.now i) }
{
    let mut entries = [Entry::True; 48];
    let (kinds, arguments) = words[1..].split_at(n);
    for (i, kind) in kinds.iter().enumerate() {
        entries[i] = Entry::spelled(*kind, arguments[i]).ok_or(i)?;
    }
    Ok(entries)
}

// Whether the entries are one formula, or the place where they are not.
fn joined(entries: &[Entry]) -> Result<(), usize>
    ensures { MatchResult result (λ _. (sound 0 entries.now ≡ true) × (depth 0 entries.now ≡ 1)) (λ i. Lacks entries.now i ⊎ ((i ≡ length entries.now) × Several entries.now)) }
{
    let mut depth = 0;
    for (i, e) in entries.iter().enumerate() {
        let parts = e.arity();
        if depth < parts {
            return Err(i);
        }
        depth = depth - parts + 1;
    }
    if depth == 1 {
        Ok(())
    } else {
        Err(entries.len())
    }
}

// The elementary count of some entries.
pub fn weigh(entries: &[Entry]) -> usize
    ensures { result ≡ weight entries.now }
{
    entries.iter().filter(|e| e.is_elementary()).count()
}

impl Formula {
    // Which formula the words are: granted, its table is theirs and is one tree's; else the first rule that they break.
    pub fn from_words(words: &[u32]) -> Result<Formula, Refusal>
        ensures answer { MatchResult result (λ f. Granted words.now (entries_of f)) (λ e. Refused words.now e) }
        ensures only { (e : Given) → Refused words.now e → result ≡ Err e }
        ensures tree { OneTree }
    {
        let n = counted(words).ok_or(Cause::TableLength.at(0))?;
        let entries = listed(words, n).map_err(|i| Cause::TableEntry.at(i))?;
        joined(&entries[..n]).map_err(|i| Cause::TableParts.at(i))?;
        if weigh(&entries[..n]) > 10 {
            return Err(Cause::TableElementary.at(0));
        }
        Ok(Formula { entries, len: n })
    }
}
