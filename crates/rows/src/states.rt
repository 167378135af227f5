// What the test asks about the states on a run.
ghost use Rattle.std.specs.Prelude.{◌≡◌};
ghost use Rattle.meaning.specs.Systems.{System};

use meaning::Arc;

pub trait States {
    // the system that the answers are about
    ghost system: { Self → System };

    fn facts(&self, state: u32) -> u32
        ensures { result ≡ (system self.now).facts state };

    fn arcs(&self, state: u32) -> &[Arc]
        ensures { result.now ≡ (system self.now).arcs state };
}
