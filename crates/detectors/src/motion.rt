// The motion detector: strict both ways, above on while settled, below off while moving.
ghost use Rattle.std.specs.Prelude.{◌≡◌};
ghost use Rattle.detectors.specs.Latch.{turn_of};
ghost use Rattle.detectors.specs.Motion.{settled_of, motion_said};

use crate::hysteresis::{Turn, advance, in_force};
use crate::{Judgement, Moved, Scored, Settings};
use rvcsi_core::event::CsiEventKind;

#[derive(Clone, Copy)]
pub struct MotionConfig {
    pub on_threshold: f32,
    pub off_threshold: f32,
    pub debounce_windows: u32,
}

// A type of its own, and `moved` a method of its own: presence has the same switch, and goes by another rule.
#[derive(Clone, Copy)]
pub struct MotionState {
    pub moving: bool,
    pub streak: u32,
}

impl Default for MotionConfig {
    ghost use Rattle.detectors.specs.Motion.{motion_default};

    ghost is_default = { λ c. c ≡ motion_default };

    fn default() -> MotionConfig {
        MotionConfig {
            on_threshold: 0.05,
            off_threshold: 0.02,
            debounce_windows: 2,
        }
    }
}

impl Settings for MotionConfig {
    type State = MotionState;

    ghost use Rattle.detectors.specs.Motion.{motion_accepted, motion_fresh, motion_in};

    ghost accepts = { motion_accepted };

    ghost begins = { motion_fresh };

    ghost ranges = { motion_in };

    fn accepted(self) -> bool {
        crate::limits_ok(self.on_threshold, self.off_threshold) && 1 <= self.debounce_windows
    }

    // Settled.
    fn fresh() -> MotionState {
        MotionState {
            moving: false,
            streak: 0,
        }
    }

    fn in_range(self, s: MotionState) -> bool {
        self.accepted() && s.streak < self.debounce_windows
    }
}

impl Scored for MotionConfig {
    ghost use Rattle.detectors.specs.Motion.{motion_move};

    ghost moves = { motion_move };

    fn moved(self, s: MotionState, x: f32) -> Moved<MotionState> {
        let met = in_force(s.moving, x > self.on_threshold, x < self.off_threshold);
        let l = advance(s.moving, s.streak, met, self.debounce_windows);
        let state = MotionState {
            moving: l.on,
            streak: l.streak,
        };
        Moved {
            state,
            first: said(l.turn, self.on_threshold, x),
            second: None,
        }
    }
}

// The confidence of settling: 1 less that of the same motion detected.
fn settled(on: f32, m: f32) -> f32
    ensures { result ≡ settled_of on m }
{
    floats::clamp01(1.0 - crate::over_twice(m, on))
}

// What a turn at the motion energy m says.
fn said(turn: Option<Turn>, on: f32, m: f32) -> Option<Judgement>
    ensures { result ≡ motion_said (turn_of turn) on m }
{
    match turn {
        None => None,
        Some(Turn::Rose) => Some(Judgement {
            kind: CsiEventKind::MotionDetected,
            confidence: crate::over_twice(m, on),
        }),
        Some(Turn::Fell) => Some(Judgement {
            kind: CsiEventKind::MotionSettled,
            confidence: settled(on, m),
        }),
    }
}
