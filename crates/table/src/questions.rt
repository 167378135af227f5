// What a table plant answers: each in constant time. Relies on table.
ghost use Rattle.std.specs.Prelude.{◌≡◌, ◌+◌, slice_get};
ghost use Rattle.std.specs.Option.{option_map};
ghost use Rattle.table.specs.Parts.{model_of};

use crate::parts::State;
use crate::table::TablePlant;
use meaning::Arc;
use plant::{PAST_ARC, Plant};
use std::ops::Range;

impl State {
    // The places of its arcs among those of all states.
    fn places(&self) -> Range<usize>
        ensures start { result.start ≡ self.now.from }
        ensures end { result.end ≡ self.now.from + self.now.count }
    {
        let from = self.from as usize;
        from..from + self.count as usize
    }
}

impl TablePlant {
    // The state with a number: none at or beyond the extent.
    fn state(&self, state: u32) -> Option<&State>
        ensures { option_map (λ t. t.now) result ≡ slice_get self.now.parts.states.items state }
    {
        // no `From` widens to the machine's size
        self.parts.states.get(state as usize)
    }

    // The arcs of a state: none at or beyond the extent.
    fn arcs_of(&self, state: u32) -> &[Arc]
        ensures { result.now ≡ (model_of self.now.parts).system.arcs state }
    {
        match self.state(state) {
            Some(state) => &self.parts.arcs[state.places()],
            None => &[],
        }
    }
}

impl Plant for TablePlant {
    ghost model = { λ p. model_of p.parts };

    ghost lawful = { λ p. p.lawful };

    fn events(&self) -> u8 {
        self.parts.events
    }

    fn extent(&self) -> u64 {
        self.parts.states.len() as u64
    }

    fn width(&self) -> u8 {
        self.parts.width
    }

    fn initial_count(&self) -> u8 {
        self.parts.initial.len() as u8
    }

    fn initial(&self, index: usize) -> u32 {
        self.parts.initial.get(index).copied().unwrap_or(0)
    }

    fn facts(&self, state: u32) -> u32 {
        self.state(state).map_or(0, |state| state.facts)
    }

    fn arc_count(&self, state: u32) -> u8 {
        self.arcs_of(state).len() as u8
    }

    fn arc(&self, state: u32, index: usize) -> Arc {
        self.arcs_of(state).get(index).copied().unwrap_or(PAST_ARC)
    }
}
