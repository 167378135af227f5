// The language of formula text: its signs, and what can be wrong with a text. Relies on refusal and formula.
#![tactic(auto)]

// What a letter names by a number: `pN`, `eN`, `[N]`.
#[derive(Clone, Copy, Debug, PartialEq, Eq)]
pub enum Name {
    Fact,
    Enabled,
    Taken,
}

// A letter before one formula: `!`, `X`, `F`, `G`.
#[derive(Clone, Copy, Debug, PartialEq, Eq)]
pub enum Prefix {
    Not,
    Next,
    Finally,
    Globally,
}

// A sign between two formulas: `|`, `&`, `>`, `U`.
#[derive(Clone, Copy, Debug, PartialEq, Eq)]
pub enum Joint {
    Or,
    And,
    Implies,
    Until,
}

// Why a text is none of the language.
#[derive(Clone, Copy, Debug, PartialEq, Eq)]
pub enum Fault {
    // the byte at this place is not allowed there
    Byte(usize),
    // the text ends too early
    End,
    // the number that begins at this place is out of range
    Number(usize),
}
