// A state's number taken apart, variable by variable, the first counting fastest. Relies on guarded.
ghost use Rattle.std.specs.Prelude.{◌≡◌, ◌≤◌, [], ◌∷◌, length, MatchOption};
ghost use Rattle.guarded.specs.Values.{extent_of, values_of, number_of, facts_of, meets, after, Sized, Ranged};

// The sizes of at most 8 variables, each 1 to 16.
#[derive(Clone, Copy)]
pub(crate) struct Sizes<'a> {
    pub(crate) sizes: &'a [u8],
    ghost few: { length sizes.now ≤ 8 },
    ghost sized: { Sized sizes.now },
}

impl<'a> Sizes<'a> {
    // The size of the first variable, and those of the others.
    fn split_first(self) -> Option<(u32, Sizes<'a>)>
        ensures { MatchOption result (self.entry.sizes.now ≡ []) (λ p. self.entry.sizes.now ≡ p.0 ∷ p.1.sizes.now) }
    {
        let (size, others) = self.sizes.split_first()?;
        Some((u32::from(*size), Sizes { sizes: others }))
    }

    // How many states there are.
    pub(crate) fn extent(self) -> u64
        ensures { result ≡ extent_of self.entry.sizes.now }
    {
        let Some((size, others)) = self.split_first() else {
            return 1;
        };
        u64::from(size) * others.extent()
    }

    // The facts of a state, as bits.
    pub(crate) fn facts(self, state: u32) -> u32
        ensures { result ≡ facts_of (values_of self.entry.sizes.now state) }
    {
        let Some((size, others)) = self.split_first() else {
            return 0;
        };
        let rest = 2 * others.facts(state / size);
        if state % size == 0 { rest } else { rest + 1 }
    }

    // Whether a rule's needs are met in a state.
    pub(crate) fn met(self, needs: &[Option<u8>], state: u32) -> bool
        ensures { result ≡ meets needs.now (values_of self.entry.sizes.now state) }
    {
        let [need, needs @ ..] = needs else {
            return true;
        };
        let Some((size, others)) = self.split_first() else {
            return true;
        };
        need.is_none_or(|needed| u32::from(needed) == state % size)
            && others.met(needs, state / size)
    }

    // The state that a rule's sets lead to.
    pub(crate) fn target(self, sets: &[Option<u8>], state: u32) -> u32
        requires long { length self.sizes.now ≤ length sets.now }
        requires ranged { Ranged self.sizes.now sets.now }
        ensures { result ≡ number_of self.entry.sizes.now (after sets.now (values_of self.entry.sizes.now state)) }
    {
        let [set, sets @ ..] = sets else {
            return 0;
        };
        let Some((size, others)) = self.split_first() else {
            return 0;
        };
        let value = set.map_or(state % size, u32::from);
        value + size * others.target(sets, state / size)
    }
}
