// The words that this console knows. Relies on script's.
ghost use Rattle.std.specs.Prelude.{◌≡◌};
ghost use Rattle.std.specs.List.{Contains};
ghost use Rattle.script.specs.declared.calls.Word.{Word as Head};
ghost use Rattle.plant_console.specs.Known.{every};

use script::calls::{AloneWord, ListWord, OneWord, Word};

// Every word there is, in the order in which help tells them.
pub(crate) fn all() -> [Word; 11]
    ensures known { result ≡ every }
    ensures whole { (w : Head) → Contains every w }
{
    [
        Word::List(ListWord::Formula),
        Word::Text,
        Word::Hex,
        Word::List(ListWord::Table),
        Word::List(ListWord::Rule),
        Word::Alone(AloneWord::Ask),
        Word::One(OneWord::Initial),
        Word::One(OneWord::Facts),
        Word::One(OneWord::Arcs),
        Word::Arc,
        Word::Alone(AloneWord::Help),
    ]
}
