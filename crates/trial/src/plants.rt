// Three small systems to try runs on.
ghost use Rattle.std.specs.Prelude.{◌≡◌};
ghost use Rattle.meaning.specs.Claims.{A as PlantA, B as PlantB};
ghost use Rattle.trial.specs.Noise.{noise};

use meaning::Arc;
use rows::states::States;

// 0 –0→ 1, 1 –1→ 1, 1 –2→ 2, with facts 1, 2 and 4; the one that the worked examples are about.
pub struct Slide;

impl States for Slide {
    ghost system = { λ _. PlantA };

    fn facts(&self, state: u32) -> u32 {
        match state {
            0 => 1,
            1 => 2,
            2 => 4,
            _ => 0,
        }
    }

    fn arcs(&self, state: u32) -> &[Arc] {
        match state {
            0 => &[Arc {
                event: 0,
                target: 1,
            }],
            1 => &[
                Arc {
                    event: 1,
                    target: 1,
                },
                Arc {
                    event: 2,
                    target: 2,
                },
            ],
            _ => &[],
        }
    }
}

// One state, with no facts and no arcs.
pub struct Still;

impl States for Still {
    ghost system = { λ _. PlantB };

    fn facts(&self, _state: u32) -> u32 {
        0
    }

    fn arcs(&self, _state: u32) -> &[Arc] {
        &[]
    }
}

// The facts of a state are its number's bits, and every state has the same two arcs: for runs of any length.
pub struct Noise;

impl States for Noise {
    ghost system = { λ _. noise };

    fn facts(&self, state: u32) -> u32 {
        state
    }

    fn arcs(&self, _state: u32) -> &[Arc] {
        &[
            Arc {
                event: 1,
                target: 0,
            },
            Arc {
                event: 2,
                target: 7,
            },
        ]
    }
}
