// What is printed of a formula that is granted.
ghost use Rattle.std.specs.Prelude.{◌≡◌, ◌++◌, IfOk, string_bytes};
ghost use Rattle.formula.specs.View.{entries_of};
ghost use Rattle.printing.specs.Printed.{spaced_out, accepted_line, words_of_table, table_line};

use formula::formula::Formula;
use std::alloc::{AllocError, Global};
use std::iter;

// `ok k K`
pub fn accepted(heap: Global, formula: &Formula) -> Result<String, AllocError>
    ensures { IfOk result (λ s. string_bytes s ≡ accepted_line (entries_of formula.now)) }
{
    let k = formula.elementary();
    format!(in heap; "ok k {k}")
}

// The words of a formula's table: how many entries, their kinds, and their arguments.
fn table_words(heap: Global, formula: &Formula) -> Result<Vec<u32>, AllocError>
    ensures { IfOk result (λ v. v.items ≡ words_of_table (entries_of formula.now)) }
{
    let entries = formula.entries();
    let kinds = entries.iter().map(|entry| entry.kind());
    let arguments = entries.iter().map(|entry| entry.argument());
    iter::once(entries.len() as u32)
        .chain(kinds)
        .chain(arguments)
        .collect(heap)
}

// The line and then each word, with a space before it.
fn with_words(heap: Global, line: String, words: &[u32]) -> Result<String, AllocError>
    ensures { IfOk result (λ s. string_bytes s ≡ string_bytes line ++ spaced_out words.now) }
{
    let mut line = line;
    for word in words {
        write!(line, " {word}")?;
    }
    Ok(line)
}

// `ok k K words n kinds args`
pub fn table(heap: Global, formula: &Formula) -> Result<String, AllocError>
    ensures { IfOk result (λ s. string_bytes s ≡ table_line (entries_of formula.now)) }
{
    let mut line = accepted(heap, formula)?;
    line.push_str(" words")?;
    let words = table_words(heap, formula)?;
    with_words(heap, line, words.as_slice())
}
