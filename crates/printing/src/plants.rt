// What is printed of a plant as a whole.
ghost use Rattle.std.specs.Prelude.{◌≡◌, IfOk, string_bytes};
ghost use Rattle.printing.specs.Printed.{asked_line};

use plant::Plant;
use std::alloc::{AllocError, Global};

// `E e extent x width w initials i`
pub fn asked<P: Plant>(heap: Global, plant: &P) -> Result<String, AllocError>
    ensures { IfOk result (λ s. string_bytes s ≡ asked_line (P.Plant.model plant.now)) }
{
    let events = plant.events();
    let extent = plant.extent();
    let width = plant.width();
    let initials = plant.initial_count();
    format!(in heap; "E {events} extent {extent} width {width} initials {initials}")
}
