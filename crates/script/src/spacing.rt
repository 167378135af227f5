// Where bytes are cut, and the words of a line. Relies on nothing.
ghost use Rattle.std.specs.Prelude.{◌≡◌, ℕ, ◌<◌, ◌≤◌, length, MatchOption, ◌≢◌, slice_index};
ghost use Rattle.script.specs.Words.{Blank, Cut, Skips, First};

// What is left behind the spaces at the front.
pub(crate) fn after_gap(bytes: &[u8]) -> &[u8]
    ensures { Skips bytes.now result.now }
{
    let mut rest = bytes;
    while let [b' ', after @ ..] = rest {
        rest = after;
    }
    rest
}

// The bytes before the first byte `by`, and those behind it.
pub(crate) fn cut(bytes: &[u8], by: u8) -> (&[u8], &[u8])
    ensures { Cut by bytes.now result.0.now result.1.now }
{
    match bytes.iter().position(|b| *b == by) {
        Some(at) => (&bytes[..at], &bytes[at + 1..]),
        None => (bytes, &[]),
    }
}

// The first word and what is left behind it, or None where there are only spaces.
pub(crate) fn first_word(bytes: &[u8]) -> Option<(&[u8], &[u8])>
    ensures { MatchOption result (Blank bytes.now) (λ p. First bytes.now p.0.now p.1.now) }
{
    let from = after_gap(bytes);
    if from.is_empty() {
        None
    } else {
        Some(cut(from, b' '))
    }
}
