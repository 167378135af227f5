// A rule plant's words, cut into their parts. Relies on guarded and refusal.
ghost use Rattle.std.specs.Prelude.{◌≡◌, ℕ, Decides, MatchOption};
ghost use Rattle.refusal.specs.Rows.{Lowest};
ghost use Rattle.guarded.specs.Values.{Sized};
ghost use Rattle.rule.specs.Words.{sizes as sizes_in, all_needs, all_sets, Shaped, Foreign};

// The words are shaped as they say, and these are their parts.
#[derive(Clone, Copy)]
pub(crate) struct Sections<'a> {
    // all the words
    pub(crate) words: &'a [u32],
    pub(crate) sizes: &'a [u32],
    // row after row, a row for each rule
    pub(crate) needs: &'a [u32],
    pub(crate) sets: &'a [u32],
    ghost shaped: { Shaped words.now },
    ghost by_sizes: { sizes.now ≡ sizes_in words.now },
    ghost by_needs: { needs.now ≡ all_needs words.now },
    ghost by_sets: { sets.now ≡ all_sets words.now },
}

// The word for any value in a need, and for no change in a set: the format's own number, which is `None` once it is read.
pub(crate) const ANY: u32 = 255;

// Whether each size is 1 to 16.
fn sized(sizes: &[u32]) -> bool
    ensures { Decides result (Sized sizes.now) }
{
    sizes.iter().all(|size| (1..=16).contains(size))
}

impl<'a> Sections<'a> {
    // The parts, where the counts, the sizes and the number of words are as they should be.
    pub(crate) fn cut(words: &'a [u32]) -> Option<Sections<'a>>
        ensures { MatchOption result (Shaped words.now → ⊥) (λ t. t.words.now ≡ words.now) }
    {
        let [variables, rules, rest @ ..] = words else {
            return None;
        };
        let variables = *variables as usize;
        let rules = *rules as usize;
        if !(1..=8).contains(&variables) || !(1..=16).contains(&rules) {
            return None;
        }
        if rest.len() != variables + 2 * (rules * variables) {
            return None;
        }
        let (sizes, rest) = rest.split_at(variables);
        if !sized(sizes) {
            return None;
        }
        let (needs, sets) = rest.split_at(rules * variables);
        Some(Sections {
            words,
            sizes,
            needs,
            sets,
        })
    }

    // The lowest place of a need or a set that is neither 255 nor a value of its variable.
    pub(crate) fn foreign(&self) -> Option<usize>
        ensures { MatchOption result ((i : ℕ) → Foreign self.now.words.now i → ⊥) (λ i. Lowest (Foreign self.now.words.now) i) }
    {
        let from = 2 + self.sizes.len();
        (from..self.words.len()).find(|&place| {
            let word = self.words[place];
            word != ANY && word >= self.sizes[(place - from) % self.sizes.len()]
        })
    }
}
