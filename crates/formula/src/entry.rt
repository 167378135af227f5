// One entry of a formula's table, and the two words for it.
ghost use Rattle.std.specs.Prelude.{◌≡◌, if◌then◌else◌, MatchOption};
ghost use Rattle.formula.specs.Table.{arity, elementary};
ghost use Rattle.formula.specs.Words.{kind_of, argument_of, Spells};

#[derive(Clone, Copy, Debug, PartialEq, Eq)]
pub enum Entry {
    True,
    // a fact of the state, by its number
    Fact(u8),
    // e(t): some arc of the state bears the event
    Enabled(u8),
    // [t]: an arc is taken that bears the event
    Taken(u8),
    Not,
    Or,
    Next,
    Until,
}

impl Entry {
    // The entry that a kind and an argument spell, if they spell one. No `TryFrom`: it would say `(u32, u32)` and not which is which.
    pub fn spelled(kind: u32, argument: u32) -> Option<Entry>
        ensures { MatchOption result ((e : Entry) → Spells kind argument e → ⊥) (λ e. Spells kind argument e) }
    {
        match kind {
            1 if argument == 0 => Some(Entry::True),
            2 if argument < 32 => Some(Entry::Fact(argument as u8)),
            3 if argument < 64 => Some(Entry::Enabled(argument as u8)),
            4 if argument < 64 => Some(Entry::Taken(argument as u8)),
            5 if argument == 0 => Some(Entry::Not),
            6 if argument == 0 => Some(Entry::Or),
            7 if argument == 0 => Some(Entry::Next),
            8 if argument == 0 => Some(Entry::Until),
            _ => None,
        }
    }

    // The word for its kind.
    pub fn kind(self) -> u32
        ensures { result ≡ kind_of self }
    {
        match self {
            Entry::True => 1,
            Entry::Fact(_) => 2,
            Entry::Enabled(_) => 3,
            Entry::Taken(_) => 4,
            Entry::Not => 5,
            Entry::Or => 6,
            Entry::Next => 7,
            Entry::Until => 8,
        }
    }

    // The word for its argument: 0 where the kind has none.
    pub fn argument(self) -> u32
        ensures { result ≡ argument_of self }
    {
        match self {
            Entry::Fact(n) | Entry::Enabled(n) | Entry::Taken(n) => u32::from(n),
            Entry::True | Entry::Not | Entry::Or | Entry::Next | Entry::Until => 0,
        }
    }

    // How many parts it takes.
    pub fn arity(self) -> usize
        ensures { result ≡ arity self }
    {
        match self {
            Entry::True | Entry::Fact(_) | Entry::Enabled(_) | Entry::Taken(_) => 0,
            Entry::Not | Entry::Next => 1,
            Entry::Or | Entry::Until => 2,
        }
    }

    // Whether it counts as elementary.
    pub fn is_elementary(self) -> bool
        ensures { (if result then 1 else 0) ≡ elementary self }
    {
        match self {
            Entry::True | Entry::Not | Entry::Or => false,
            Entry::Fact(_) | Entry::Enabled(_) | Entry::Taken(_) | Entry::Next | Entry::Until =>
                true,
        }
    }
}
