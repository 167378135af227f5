// Decimal numbers: a word as a number, and a list of them. Relies on spacing.
ghost use Rattle.std.specs.Prelude.{◌≡◌, ℕ, ◌+◌, ◌*◌, ◌^◌, ◌<◌, List, IfOk, MatchOption};
ghost use Rattle.std.specs.Option.{SomeIff};
ghost use Rattle.std.specs.Char.{digit_value};
ghost use Rattle.script.specs.Values.{Number, Numbers};

use crate::spacing::first_word;
use std::alloc::{AllocError, Global};

// The number so far and one digit more, where the byte is a digit and the number stays below 2^32.
fn one_more(n: u32, b: u8) -> Option<u32>
    ensures { SomeIff result ((digit_value b < 10) × (n * 10 + digit_value b < 2 ^ 32)) (n * 10 + digit_value b) }
{
    n.checked_mul(10)?.checked_add(char::from(b).to_digit(10)?)
}

// The number that a word of decimal digits writes, if it is below 2^32.
pub fn number(word: &[u8]) -> Option<u32>
    ensures { MatchOption result ((n : ℕ) → Number word.now n → ⊥) (λ n. Number word.now n) }
{
    if word.is_empty() {
        return None;
    }
    let mut n = 0;
    for b in word {
        n = one_more(n, *b)?;
    }
    Some(n)
}

// The numbers that the words of `bytes` write, or None where some word writes none.
pub fn numbers(heap: Global, bytes: &[u8]) -> Result<Option<Vec<u32>>, AllocError>
    ensures { IfOk result (λ o. MatchOption o ((ns : List ℕ) → Numbers bytes.now ns → ⊥) (λ v. Numbers bytes.now v.items)) }
{
    let mut out = Vec::new(heap);
    let mut rest = bytes;
    while let Some((word, after)) = first_word(rest) {
        let Some(n) = number(word) else {
            return Ok(None);
        };
        out.push(n)?;
        rest = after;
    }
    Ok(Some(out))
}
