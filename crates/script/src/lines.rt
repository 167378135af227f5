// The lines of a script. Relies on spacing.
ghost use Rattle.std.specs.Prelude.{◌≡◌, ◌<◌, [], length, IfSome, MatchOption};
ghost use Rattle.script.specs.Words.{Cut};

use crate::spacing::cut;

// The first line without its end, and what comes behind it; None where nothing is left.
pub fn first_line(script: &[u8]) -> Option<(&[u8], &[u8])>
    ensures cases { MatchOption result (script.now ≡ []) (λ p. Cut 10 script.now p.0.now p.1.now) }
    ensures less { IfSome result (λ p. length p.1.now < length script.now) }
{
    if script.is_empty() {
        None
    } else {
        Some(cut(script, b'\n'))
    }
}
