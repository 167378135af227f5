// Entries more for a draft.
ghost use Rattle.std.specs.Prelude.{[], ◌∷◌};
ghost use Rattle.draft.specs.Drafts.{Drafted, Adds, front, rear, between, behind};

use crate::draft::Draft;
use formula::entry::Entry;
use grammar::{Joint, Prefix};

impl Draft {
    // No entries yet.
    pub fn new() -> Draft
        ensures { Drafted result [] }
    {
        Draft {
            entries: [Entry::True; 48],
            count: Some(0),
        }
    }

    pub fn add(&mut self, e: Entry)
        ensures { Adds self.old self.new (e ∷ []) }
    {
        match self.count {
            Some(count) if count < 48 => {
                self.entries[count] = e;
                self.count = Some(count + 1);
            }
            _ => self.count = None,
        }
    }

    // What stands before the part of a prefix.
    pub fn add_front(&mut self, prefix: Prefix)
        ensures { Adds self.old self.new (front prefix) }
    {
        match prefix {
            Prefix::Not | Prefix::Next => {}
            Prefix::Finally | Prefix::Globally => self.add(Entry::True),
        }
    }

    // What stands behind it.
    pub fn add_rear(&mut self, prefix: Prefix)
        ensures { Adds self.old self.new (rear prefix) }
    {
        match prefix {
            Prefix::Not => self.add(Entry::Not),
            Prefix::Next => self.add(Entry::Next),
            Prefix::Finally => self.add(Entry::Until),
            Prefix::Globally => {
                self.add(Entry::Not);
                self.add(Entry::Until);
                self.add(Entry::Not);
            }
        }
    }

    // What stands between the parts that a sign joins.
    pub fn add_between(&mut self, joint: Joint)
        ensures { Adds self.old self.new (between joint) }
    {
        match joint {
            Joint::And | Joint::Implies => self.add(Entry::Not),
            Joint::Or | Joint::Until => {}
        }
    }

    // What stands behind them.
    pub fn add_behind(&mut self, joint: Joint)
        ensures { Adds self.old self.new (behind joint) }
    {
        match joint {
            Joint::Or | Joint::Implies => self.add(Entry::Or),
            Joint::And => {
                self.add(Entry::Not);
                self.add(Entry::Or);
                self.add(Entry::Not);
            }
            Joint::Until => self.add(Entry::Until),
        }
    }
}
