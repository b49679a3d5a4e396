// The quality detector: windows of low quality in a row; dropped, then calibration, once each until a window isn't low.
ghost use Rattle.std.specs.Prelude.{◌≡◌, not, ◌&&◌, ◌||◌, ◌+◌, min, leb};
ghost use Rattle.detectors.specs.Quality.{said_if, low, top};

use crate::{Judgement, Moved, Scored, Settings};
use rvcsi_core::event::CsiEventKind;

#[derive(Clone, Copy)]
pub struct QualityConfig {
    pub drop_threshold: f32,
    pub debounce_windows: u32,
    pub calib_windows: u32,
}

#[derive(Clone, Copy)]
pub struct QualityState {
    pub low_streak: u32,
    pub dropped_emitted: bool,
    pub calib_emitted: bool,
}

impl Default for QualityConfig {
    ghost use Rattle.detectors.specs.Quality.{quality_default};

    ghost is_default = { λ c. c ≡ quality_default };

    fn default() -> QualityConfig {
        QualityConfig {
            drop_threshold: 0.4,
            debounce_windows: 2,
            calib_windows: 4,
        }
    }
}

impl Settings for QualityConfig {
    type State = QualityState;

    ghost use Rattle.detectors.specs.Quality.{quality_accepted, quality_fresh, quality_in};

    ghost accepts = { quality_accepted };

    ghost begins = { quality_fresh };

    ghost ranges = { quality_in };

    fn accepted(self) -> bool {
        rvcsi_core::threshold_ok(self.drop_threshold)
            && crate::counts_ok(self.debounce_windows, self.calib_windows)
    }

    // No low window yet.
    fn fresh() -> QualityState {
        QualityState {
            low_streak: 0,
            dropped_emitted: false,
            calib_emitted: false,
        }
    }

    fn in_range(self, s: QualityState) -> bool {
        self.accepted() && s.low_streak <= self.debounce_windows.max(self.calib_windows)
    }
}

impl Scored for QualityConfig {
    ghost use Rattle.detectors.specs.Quality.{quality_move};

    ghost moves = { quality_move };

    fn moved(self, s: QualityState, x: f32) -> Moved<QualityState> {
        if x < self.drop_threshold {
            return low(self, s, floats::clamp01(1.0 - x));
        }
        Moved {
            state: QualityConfig::fresh(),
            first: None,
            second: None,
        }
    }
}

// One more, held at `top`.
fn held(k: u32, top: u32) -> u32
    ensures { result ≡ min (k + 1) top }
{
    k.saturating_add(1).min(top)
}

// The count is reached, and that was not said before.
fn due(emitted: bool, count: u32, streak: u32) -> bool
    ensures { result ≡ (not emitted && leb count streak) }
{
    !emitted && count <= streak
}

fn marked(emitted: bool, count: u32, streak: u32) -> bool
    ensures { result ≡ (emitted || leb count streak) }
{
    emitted || count <= streak
}

// A judgement of this kind and confidence, where it is due.
fn said_if(due: bool, kind: CsiEventKind, confidence: f32) -> Option<Judgement>
    ensures { result ≡ said_if due kind confidence }
{
    due.then_some(Judgement { kind, confidence })
}

// A low window, where what is said has the confidence x.
fn low(c: QualityConfig, s: QualityState, x: f32) -> Moved<QualityState>
    ensures { result ≡ low c s (min (s.low_streak + 1) (top c)) x }
{
    let up = held(s.low_streak, c.debounce_windows.max(c.calib_windows));
    let dropped = due(s.dropped_emitted, c.debounce_windows, up);
    let calibration = due(s.calib_emitted, c.calib_windows, up);
    Moved {
        state: QualityState {
            low_streak: up,
            dropped_emitted: marked(s.dropped_emitted, c.debounce_windows, up),
            calib_emitted: marked(s.calib_emitted, c.calib_windows, up),
        },
        first: said_if(dropped, CsiEventKind::SignalQualityDropped, x),
        second: said_if(calibration, CsiEventKind::CalibrationRequired, x),
    }
}
