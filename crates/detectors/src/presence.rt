// The presence detector: a score at or above on counts while absent, one at or under off while present.
ghost use Rattle.std.specs.Prelude.{◌≡◌};
ghost use Rattle.detectors.specs.Latch.{turn_of};
ghost use Rattle.detectors.specs.Presence.{presence_said};

use crate::hysteresis::{Turn, advance, in_force};
use crate::{Judgement, Moved, Scored, Settings};
use rvcsi_core::event::CsiEventKind;

#[derive(Clone, Copy)]
pub struct PresenceConfig {
    pub on_threshold: f32,
    pub off_threshold: f32,
    pub enter_windows: u32,
    pub exit_windows: u32,
}

// A type of its own, as `said` below is a function of its own: motion has the same switch, and another rule and other events.
#[derive(Clone, Copy)]
pub struct PresenceState {
    pub present: bool,
    pub streak: u32,
}

impl Default for PresenceConfig {
    ghost use Rattle.detectors.specs.Presence.{presence_default};

    ghost is_default = { λ c. c ≡ presence_default };

    fn default() -> PresenceConfig {
        PresenceConfig {
            on_threshold: 0.7,
            off_threshold: 0.45,
            enter_windows: 2,
            exit_windows: 3,
        }
    }
}

impl Settings for PresenceConfig {
    type State = PresenceState;

    ghost use Rattle.detectors.specs.Presence.{presence_accepted, presence_fresh, presence_in};

    ghost accepts = { presence_accepted };

    ghost begins = { presence_fresh };

    ghost ranges = { presence_in };

    fn accepted(self) -> bool {
        crate::limits_ok(self.on_threshold, self.off_threshold)
            && crate::counts_ok(self.enter_windows, self.exit_windows)
    }

    // Absent.
    fn fresh() -> PresenceState {
        PresenceState {
            present: false,
            streak: 0,
        }
    }

    fn in_range(self, s: PresenceState) -> bool {
        self.accepted() && s.streak < in_force(s.present, self.enter_windows, self.exit_windows)
    }
}

impl Scored for PresenceConfig {
    ghost use Rattle.detectors.specs.Presence.{presence_move};

    ghost moves = { presence_move };

    fn moved(self, s: PresenceState, x: f32) -> Moved<PresenceState> {
        let n = in_force(s.present, self.enter_windows, self.exit_windows);
        let met = in_force(s.present, x >= self.on_threshold, x <= self.off_threshold);
        let l = advance(s.present, s.streak, met, n);
        let state = PresenceState {
            present: l.on,
            streak: l.streak,
        };
        Moved {
            state,
            first: said(l.turn, x),
            second: None,
        }
    }
}

// What a turn at the score p says.
fn said(turn: Option<Turn>, p: f32) -> Option<Judgement>
    ensures { result ≡ presence_said (turn_of turn) p }
{
    match turn {
        None => None,
        Some(Turn::Rose) => Some(Judgement {
            kind: CsiEventKind::PresenceStarted,
            confidence: floats::clamp01(p),
        }),
        Some(Turn::Fell) => Some(Judgement {
            kind: CsiEventKind::PresenceEnded,
            confidence: floats::clamp01(1.0 - p),
        }),
    }
}
