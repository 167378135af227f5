// The calls of a script, and the words that they begin with. Relies on nothing.
// A new call adds a word here, under what it takes, and its spelling to specs/Says.antt. Which words a script may use is
// for its reader's caller to say.
ghost use Rattle.std.specs.Prelude.{◌≡◌};
ghost use Rattle.script.specs.Says.{spelled_list, spelled_alone, spelled_one, spelled};

// A call that takes any number of numbers.
#[derive(Clone, Copy, Debug, PartialEq, Eq)]
pub enum ListWord {
    Formula,
    Table,
    Rule,
}

// A call that takes nothing.
#[derive(Clone, Copy, Debug, PartialEq, Eq)]
pub enum AloneWord {
    Ask,
    Help,
}

// A call that takes one number.
#[derive(Clone, Copy, Debug, PartialEq, Eq)]
pub enum OneWord {
    Initial,
    Facts,
    Arcs,
}

// The word that a call begins with.
#[derive(Clone, Copy, Debug, PartialEq, Eq)]
pub enum Word {
    List(ListWord),
    // a formula's text, as it stands or in hexadecimal
    Text,
    Hex,
    Alone(AloneWord),
    One(OneWord),
    // two numbers: a state, and an index
    Arc,
}

// Four enums spell their words one by one: a trait over them would hold the same lines.
impl ListWord {
    fn spelling(self) -> &'static [u8]
        ensures { result.now ≡ spelled_list self }
    {
        match self {
            ListWord::Formula => b"formula",
            ListWord::Table => b"table",
            ListWord::Rule => b"rule",
        }
    }
}

impl AloneWord {
    fn spelling(self) -> &'static [u8]
        ensures { result.now ≡ spelled_alone self }
    {
        match self {
            AloneWord::Ask => b"ask",
            AloneWord::Help => b"help",
        }
    }
}

impl OneWord {
    fn spelling(self) -> &'static [u8]
        ensures { result.now ≡ spelled_one self }
    {
        match self {
            OneWord::Initial => b"initial",
            OneWord::Facts => b"facts",
            OneWord::Arcs => b"arcs",
        }
    }
}

impl Word {
    // The bytes of the word.
    pub fn spelling(self) -> &'static [u8]
        ensures { result.now ≡ spelled self }
    {
        match self {
            Word::List(word) => word.spelling(),
            Word::Text => b"text",
            Word::Hex => b"hex",
            Word::Alone(word) => word.spelling(),
            Word::One(word) => word.spelling(),
            Word::Arc => b"arc",
        }
    }
}

// A call, with what it is given.
#[derive(Drop)]
pub enum Call {
    List(ListWord, Vec<u32>),
    // a formula's text, in either spelling
    Text(Vec<u8>),
    Alone(AloneWord),
    One(OneWord, u32),
    Arc(u32, u32),
}

// What a line is.
#[derive(Drop)]
pub enum Line {
    Call(Call),
    // empty, or a comment
    Skip,
    // anything else
    What,
}
