// Phrases of a text, whose entries go to a draft.
ghost use Rattle.std.specs.Prelude.{[], ◌∷◌, MatchResult};
ghost use Rattle.grammar.specs.Machine.{phrase, name_parts};
ghost use Rattle.text.specs.Spelled.{Named, Written, Failed};

use crate::reader::Reader;
use draft::draft::Draft;
use formula::entry::Entry;
use grammar::{Fault, Name, Prefix};

impl Reader<'_> {
    // The number of a name, and what closes it.
    fn named(&mut self, name: Name, out: &mut Draft) -> Result<(), Fault>
        ensures { MatchResult result (λ _. Named name self.old self.new out.old out.new) (λ e. Failed (name_parts name) self.old e) }
    {
        let n = self.number(name)?;
        match name {
            Name::Fact => out.add(Entry::Fact(n)),
            Name::Enabled => out.add(Entry::Enabled(n)),
            Name::Taken => {
                self.expect(']')?;
                out.add(Entry::Taken(n));
            }
        }
        Ok(())
    }

    // One phrase. Its first letter decides what follows.
    pub(crate) fn phrase(&mut self, out: &mut Draft) -> Result<(), Fault>
        ensures { MatchResult result (λ _. Written self.old self.new out.old out.new) (λ e. Failed (phrase ∷ []) self.old e) }
    {
        let place = self.at;
        let prefix = match self.next()? {
            'T' => {
                out.add(Entry::True);
                return Ok(());
            }
            'p' => return self.named(Name::Fact, out),
            'e' => return self.named(Name::Enabled, out),
            '[' => return self.named(Name::Taken, out),
            '(' => {
                self.phrase(out)?;
                let joint = self.joint()?;
                out.add_between(joint);
                self.phrase(out)?;
                self.expect(')')?;
                out.add_behind(joint);
                return Ok(());
            }
            '!' => Prefix::Not,
            'X' => Prefix::Next,
            'F' => Prefix::Finally,
            'G' => Prefix::Globally,
            _ => return Err(Fault::Byte(place)),
        };
        out.add_front(prefix);
        self.phrase(out)?;
        out.add_rear(prefix);
        Ok(())
    }
}
