// A table plant: what was read, with the laws that it keeps. Relies on parts.
ghost use Rattle.plant.specs.Model.{Lawful};
ghost use Rattle.std.specs.Prelude.{◌+◌, ◌≤◌, vec_items, vec_len};
ghost use Rattle.std.specs.List.{All};
ghost use Rattle.table.specs.Parts.{model_of};
ghost use Rattle.table.specs.declared.parts.State.{State};

use crate::parts::Parts;

#[derive(Drop)]
pub struct TablePlant {
    pub parts: Parts,
    ghost lawful: { Lawful (model_of parts) },
    ghost inside: { All (λ (t : State). t.from + t.count ≤ vec_len parts.arcs) (vec_items parts.states) },
}
