// Which call a line says. Relies on calls, spacing, numerals and pairs.
ghost use Rattle.std.specs.Prelude.{◌≡◌, ℕ, List, length, IfOk, Decides, MatchOption, ◌≢◌};
ghost use Rattle.std.specs.List.{Contains};
ghost use Rattle.script.specs.declared.calls.Word.{Word as Head};
ghost use Rattle.script.specs.Values.{Numbers};
ghost use Rattle.script.specs.Says.{Meaning, meaning, spelled, Given, Skipped, Reads, Plain};

use crate::calls::{Call, Line, Word};
use crate::numerals::numbers;
use crate::pairs::hex;
use crate::spacing::{cut, first_word};
use std::alloc::{AllocError, Global};

// Whether a line is passed over.
fn is_skipped(line: &[u8]) -> bool
    ensures { Decides result (Skipped line.now) }
{
    match line {
        [] => true,
        [first, ..] => *first == b'#',
    }
}

// The known word that is spelled so.
fn known_word(words: &[Word], head: &[u8]) -> Option<Word>
    ensures { MatchOption result ((w : Head) → Contains words.now w → head.now ≢ spelled w) (λ w. Contains words.now w × (head.now ≡ spelled w)) }
{
    for word in words {
        if head == word.spelling() {
            return Some(*word);
        }
    }
    None
}

// As many numbers as asked, where the rest of a line writes that many.
fn exactly<const N: usize>(heap: Global, rest: &[u8]) -> Result<Option<[u32; N]>, AllocError>
    ensures { IfOk result (λ o. MatchOption o ((ns : List ℕ) → length ns ≡ N → Numbers rest.now ns → ⊥) (λ ns. (length ns ≡ N) × Numbers rest.now ns)) }
{
    let Some(all) = numbers(heap, rest)? else {
        return Ok(None);
    };
    Ok(<[u32; N]>::try_from(all.as_slice()).ok())
}

// The call that a word and the rest of its line say, or None where the word does not take that rest.
fn given(heap: Global, word: Word, rest: &[u8]) -> Result<Option<Call>, AllocError>
    ensures { IfOk result (λ o. MatchOption o ((m : Meaning) → Given word rest.now m → ⊥) (λ c. Given word rest.now (meaning c))) }
{
    match word {
        Word::List(word) => Ok(numbers(heap, rest)?.map(|words| Call::List(word, words))),
        Word::Text => Ok(Some(Call::Text(Vec::from_slice(heap, rest)?))),
        Word::Hex => Ok(hex(heap, rest)?.map(Call::Text)),
        Word::Alone(word) => Ok(first_word(rest).is_none().then_some(Call::Alone(word))),
        // no `map` over the array: of a closure that takes one apart nothing is known
        Word::One(word) => {
            let Some(all) = exactly::<1>(heap, rest)? else {
                return Ok(None);
            };
            Ok(Some(Call::One(word, all[0])))
        }
        Word::Arc => {
            let Some(all) = exactly::<2>(heap, rest)? else {
                return Ok(None);
            };
            Ok(Some(Call::Arc(all[0], all[1])))
        }
    }
}

// What a line says, to a reader who knows some words.
pub fn read(heap: Global, words: &[Word], line: &[u8]) -> Result<Line, AllocError>
    ensures answer { IfOk result (λ l. Reads words.now line.now l) }
    ensures plain { Plain words.now line.now }
{
    if is_skipped(line) {
        return Ok(Line::Skip);
    }
    let (head, rest) = cut(line, b' ');
    let Some(word) = known_word(words, head) else {
        return Ok(Line::What);
    };
    match given(heap, word, rest)? {
        Some(call) => Ok(Line::Call(call)),
        None => Ok(Line::What),
    }
}
