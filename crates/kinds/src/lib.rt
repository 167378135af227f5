// A plant of any kind, for callers that learn the kind as they go. Relies on plant, table and rule.
#![tactic(auto)]

ghost use Rattle.std.specs.Prelude.{◌≡◌};
ghost use Rattle.kinds.specs.Kinds.{any_model, any_lawful};

use meaning::Arc;
use plant::Plant;
use rule::rule::RulePlant;
use table::table::TablePlant;

#[derive(Drop)]
pub enum AnyPlant {
    Table(TablePlant),
    Rule(RulePlant),
}

// An enum, since the kinds are two and closed; a `Box<dyn Plant>` would allocate, and would say no more of its methods.
impl Plant for AnyPlant {
    ghost model = { any_model };

    ghost lawful = { any_lawful };

    fn events(&self) -> u8 {
        match self {
            AnyPlant::Table(plant) => plant.events(),
            AnyPlant::Rule(plant) => plant.events(),
        }
    }

    fn extent(&self) -> u64 {
        match self {
            AnyPlant::Table(plant) => plant.extent(),
            AnyPlant::Rule(plant) => plant.extent(),
        }
    }

    fn width(&self) -> u8 {
        match self {
            AnyPlant::Table(plant) => plant.width(),
            AnyPlant::Rule(plant) => plant.width(),
        }
    }

    fn initial_count(&self) -> u8 {
        match self {
            AnyPlant::Table(plant) => plant.initial_count(),
            AnyPlant::Rule(plant) => plant.initial_count(),
        }
    }

    fn initial(&self, index: usize) -> u32 {
        match self {
            AnyPlant::Table(plant) => plant.initial(index),
            AnyPlant::Rule(plant) => plant.initial(index),
        }
    }

    fn facts(&self, state: u32) -> u32 {
        match self {
            AnyPlant::Table(plant) => plant.facts(state),
            AnyPlant::Rule(plant) => plant.facts(state),
        }
    }

    fn arc_count(&self, state: u32) -> u8 {
        match self {
            AnyPlant::Table(plant) => plant.arc_count(state),
            AnyPlant::Rule(plant) => plant.arc_count(state),
        }
    }

    fn arc(&self, state: u32, index: usize) -> Arc {
        match self {
            AnyPlant::Table(plant) => plant.arc(state, index),
            AnyPlant::Rule(plant) => plant.arc(state, index),
        }
    }
}
