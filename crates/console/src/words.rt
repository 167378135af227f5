// The words that this console knows. Relies on script's.
ghost use Rattle.std.specs.Prelude.{◌≡◌};
ghost use Rattle.console.specs.Known.{every};

use script::calls::{AloneWord, ListWord, Word};

// Every word that it knows, in the order in which help tells them.
pub(crate) fn all() -> [Word; 4]
    ensures { result ≡ every }
{
    [
        Word::List(ListWord::Formula),
        Word::Text,
        Word::Hex,
        Word::Alone(AloneWord::Help),
    ]
}
