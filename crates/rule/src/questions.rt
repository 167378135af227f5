// What a rule plant answers: a state's number is taken apart anew for each rule. Relies on rule and states.
ghost use Rattle.std.specs.Prelude.{◌≡◌, ◌<◌};
ghost use Rattle.guarded.specs.Values.{meets, values_of};
ghost use Rattle.guarded.specs.Made.{sizes_of, rule_count, needs_of, target_of, model_of};
ghost use Rattle.guarded.proofs.Laws.{lawful as lawful_model};

use crate::rule::RulePlant;
use crate::states::Sizes;
use meaning::Arc;
use plant::{PAST_ARC, Plant};

impl RulePlant {
    // The sizes of its variables.
    fn sizes(&self) -> Sizes<'_>
        ensures { result.sizes.now ≡ sizes_of self.now.parts }
    {
        Sizes {
            sizes: self.parts.sizes.as_slice(),
        }
    }

    // Whether a rule's needs are met in a state. Asked of each rule in two loops, which took 1.3 times as long to call it.
    #[inline(always)]
    fn enabled(&self, rule: u8, state: u32) -> bool
        requires { rule < rule_count self.now.parts }
        ensures { result ≡ meets (needs_of self.now.parts rule) (values_of (sizes_of self.now.parts) state) }
    {
        let needs = &self.parts.rules[usize::from(rule)].needs;
        self.sizes().met(needs, state)
    }

    // The state that a rule leads to.
    fn landing(&self, rule: u8, state: u32) -> u32
        requires { rule < rule_count self.now.parts }
        ensures { result ≡ target_of self.now.parts (values_of (sizes_of self.now.parts) state) rule }
    {
        let sets = &self.parts.rules[usize::from(rule)].sets;
        self.sizes().target(sets, state)
    }
}

impl Plant for RulePlant {
    ghost model = { λ p. model_of p.parts };

    ghost lawful = { λ p. lawful_model p.parts p.few p.ranged };

    fn events(&self) -> u8 {
        self.parts.rules.len() as u8
    }

    fn extent(&self) -> u64 {
        self.sizes().extent()
    }

    fn width(&self) -> u8 {
        self.events()
    }

    fn initial_count(&self) -> u8 {
        1
    }

    fn initial(&self, _index: usize) -> u32 {
        0
    }

    fn facts(&self, state: u32) -> u32 {
        if u64::from(state) >= self.extent() {
            return 0;
        }
        self.sizes().facts(state)
    }

    fn arc_count(&self, state: u32) -> u8 {
        if u64::from(state) >= self.extent() {
            return 0;
        }
        (0..self.events())
            .filter(|rule| self.enabled(*rule, state))
            .count() as u8
    }

    fn arc(&self, state: u32, index: usize) -> Arc {
        if u64::from(state) >= self.extent() {
            return PAST_ARC;
        }
        (0..self.events())
            .filter(|rule| self.enabled(*rule, state))
            .nth(index)
            .map_or(
                PAST_ARC,
                |rule| Arc {
                    event: rule,
                    target: self.landing(rule, state),
                },
            )
    }
}
