// What each call takes and what it answers. Relies on script's words.
use script::calls::{AloneWord, ListWord, OneWord, Word};
use std::alloc::{AllocError, Global};

fn usage(word: Word) -> &'static str {
    match word {
        Word::List(ListWord::Formula) =>
            "formula W...: a formula's table in words; ok k K, or refused NO LAYER PLACE",
        Word::Text =>
            "text F: a formula's text; ok k K words n kinds args, or refused NO LAYER PLACE",
        Word::Hex => "hex HH...: the same as text, the bytes in hexadecimal",
        Word::List(ListWord::Table) =>
            "table W...: a table plant in words; ok, or refused NO LAYER PLACE",
        Word::List(ListWord::Rule) =>
            "rule W...: a rule plant in words; ok, or refused NO LAYER PLACE",
        Word::Alone(AloneWord::Ask) => "ask: of the last plant, E e extent x width w initials i",
        Word::One(OneWord::Initial) => "initial i: its initial state at an index",
        Word::One(OneWord::Facts) => "facts s: the facts of a state, as a number",
        Word::One(OneWord::Arcs) => "arcs s: how many arcs a state has",
        Word::Arc => "arc s j: the event and the target of an arc",
        Word::Alone(AloneWord::Help) => "help: this, one line for each call",
    }
}

// A line for each word that is known.
pub(crate) fn help(heap: Global, words: &[Word]) -> Result<String, AllocError> {
    let mut lines = String::new(heap);
    for word in words {
        if !lines.is_empty() {
            lines.push('\n')?;
        }
        lines.push_str(usage(*word))?;
    }
    Ok(lines)
}
