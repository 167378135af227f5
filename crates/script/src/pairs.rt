// Bytes in hexadecimal, two digits each. Relies on spacing.
ghost use Rattle.std.specs.Prelude.{◌≡◌, ℕ, ◌+◌, ◌*◌, ◌<◌, List, IfOk, MatchOption};
ghost use Rattle.std.specs.Option.{SomeIff};
ghost use Rattle.std.specs.Char.{digit_value};
ghost use Rattle.script.specs.Values.{Pair, Pairs};

use crate::spacing::after_gap;
use std::alloc::{AllocError, Global};

// The byte that two hexadecimal digits of either case write.
fn pair(high: u8, low: u8) -> Option<u8>
    ensures { MatchOption result ((x : ℕ) → Pair high low x → ⊥) (λ x. Pair high low x) }
{
    let high = char::from(high).to_digit(16)?;
    let low = char::from(low).to_digit(16)?;
    Some((high * 16 + low) as u8)
}

// The bytes that pairs of hexadecimal digits write, or None where `bytes` holds anything else but spaces between them.
pub fn hex(heap: Global, bytes: &[u8]) -> Result<Option<Vec<u8>>, AllocError>
    ensures { IfOk result (λ o. MatchOption o ((xs : List ℕ) → Pairs bytes.now xs → ⊥) (λ v. Pairs bytes.now v.items)) }
{
    let mut out = Vec::new(heap);
    let mut rest = after_gap(bytes);
    while let [high, low, after @ ..] = rest {
        let Some(byte) = pair(*high, *low) else {
            return Ok(None);
        };
        out.push(byte)?;
        rest = after_gap(after);
    }
    if rest.is_empty() {
        Ok(Some(out))
    } else {
        Ok(None)
    }
}
