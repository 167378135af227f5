// A run as it is lent: two parallel arrays, as a caller has them, and the place that the last one leads back to.
ghost use Rattle.std.specs.Prelude.{◌≡◌, ◌<◌, ◌≤◌, length};
ghost use Rattle.std.specs.Option.{unwrap_or};

// Whether its places follow arcs of some system is for others to say.
#[derive(Drop)]
pub struct Run<'a> {
    pub states: &'a [u32],
    pub events: &'a [u8],
    // none where the run ends in a deadlock
    pub back: Option<usize>,
    ghost some: { 1 ≤ length states.now },
    ghost parallel: { length events.now ≡ length states.now },
    ghost low: { unwrap_or back 0 < length states.now },
}
