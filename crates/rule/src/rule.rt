// A rule plant: what was read, within its bounds. Relies on guarded.
ghost use Rattle.guarded.specs.Made.{Few, Filled, InRange};

use guarded::Parts;

#[derive(Drop)]
pub struct RulePlant {
    pub parts: Parts,
    ghost few: { Few parts },
    ghost filled: { Filled parts },
    ghost ranged: { InRange parts },
}
