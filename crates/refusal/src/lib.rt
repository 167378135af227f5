// Why a call is not granted: a cause and a place. Relies on nothing.
// A layer that brings causes of its own adds its cases here and to specs/Causes.antt;
// contracts elsewhere speak of `Gives`, and their proofs go by the number alone.
#![tactic(auto)]

ghost use Rattle.std.specs.Prelude.{◌≡◌, Some};
ghost use Rattle.refusal.specs.Causes.{number_of, layer_of, Gives};
ghost use Rattle.refusal.specs.Printed.{name_of_layer, refused_line};

use std::fmt;

// Which part of the checker refuses.
#[derive(Clone, Copy, Debug, PartialEq, Eq)]
pub enum Layer {
    Formula,
    Text,
    Plant,
    Session,
}

// The rule that a call breaks.
#[derive(Clone, Copy, Debug, PartialEq, Eq)]
pub enum Cause {
    // a formula's table
    TableLength,
    TableEntry,
    TableParts,
    TableElementary,
    // a formula's text
    TextLength,
    TextByte,
    TextEnd,
    TextNumber,
    TextTable,
    // a table plant's words
    PlantLength,
    PlantLimit,
    PlantRange,
    PlantRepeat,
    // a rule plant's words
    RuleSize,
    RuleValue,
    // a session's calls
    StateOpen,
    BookFull,
    StateClosed,
    EventBeyond,
    WorkspaceShort,
    WalkUnderWay,
    NoWalk,
    NoSuchIndex,
    RunShape,
    NotARun,
}

// A cause, and the place that the rule names: 0 where it names none.
#[derive(Clone, Copy, Debug, PartialEq, Eq)]
pub struct Refusal {
    pub cause: Cause,
    pub place: usize,
}

impl Cause {
    // The number by which a planner knows the rule, as it is printed.
    pub fn number(self) -> u8
        ensures { result ≡ number_of self }
    {
        match self {
            Cause::TableLength => 11,
            Cause::TableEntry => 12,
            Cause::TableParts => 13,
            Cause::TableElementary => 14,
            Cause::TextLength => 21,
            Cause::TextByte => 22,
            Cause::TextEnd => 23,
            Cause::TextNumber => 24,
            Cause::TextTable => 25,
            Cause::PlantLength => 31,
            Cause::PlantLimit => 32,
            Cause::PlantRange => 33,
            Cause::PlantRepeat => 34,
            Cause::RuleSize => 35,
            Cause::RuleValue => 36,
            Cause::StateOpen => 41,
            Cause::BookFull => 42,
            Cause::StateClosed => 43,
            Cause::EventBeyond => 44,
            Cause::WorkspaceShort => 45,
            Cause::WalkUnderWay => 47,
            Cause::NoWalk => 48,
            Cause::NoSuchIndex => 49,
            Cause::RunShape => 50,
            Cause::NotARun => 51,
        }
    }

    pub fn layer(self) -> Layer
        ensures { result ≡ layer_of self }
    {
        match self {
            Cause::TableLength | Cause::TableEntry | Cause::TableParts | Cause::TableElementary =>
                Layer::Formula,
            Cause::TextLength
            | Cause::TextByte
            | Cause::TextEnd
            | Cause::TextNumber
            | Cause::TextTable => Layer::Text,
            Cause::PlantLength
            | Cause::PlantLimit
            | Cause::PlantRange
            | Cause::PlantRepeat
            | Cause::RuleSize
            | Cause::RuleValue => Layer::Plant,
            Cause::StateOpen
            | Cause::BookFull
            | Cause::StateClosed
            | Cause::EventBeyond
            | Cause::WorkspaceShort
            | Cause::WalkUnderWay
            | Cause::NoWalk
            | Cause::NoSuchIndex
            | Cause::RunShape
            | Cause::NotARun => Layer::Session,
        }
    }

    // The refusal for this cause at a place.
    pub fn at(self, place: usize) -> Refusal
        ensures { Gives result (number_of self) (layer_of self) place }
    {
        Refusal { cause: self, place }
    }
}

// Its name, as a planner reads it.
impl fmt::Display for Layer {
    ghost output = { λ l. Some (name_of_layer l) };

    fn fmt<W: fmt::Write>(&self, f: &mut fmt::Formatter<W>) -> fmt::Result {
        f.write_str(match self {
            Layer::Formula => "formula",
            Layer::Text => "text",
            Layer::Plant => "plant",
            Layer::Session => "session",
        })
    }
}

// `refused NO LAYER PLACE`
impl fmt::Display for Refusal {
    ghost output = { λ r. Some (refused_line r) };

    fn fmt<W: fmt::Write>(&self, f: &mut fmt::Formatter<W>) -> fmt::Result {
        let number = self.cause.number();
        let layer = self.cause.layer();
        let place = self.place;
        write!(f, "refused {number} {layer} {place}")
    }
}
