// Baseline drift: the mean list of a window against a baseline, which stands in a lent store from place 0.
#![tactic(auto)]

ghost use Rattle.std.specs.Prelude.{◌≡◌, ◌≤◌, ◌<◌, length};
ghost use Rattle.std.specs.Float.{binary32, binary64};
ghost use Rattle.std.specs.Float.Ieee.{div};
ghost use Rattle.floats.specs.Sqrt.{sqrt};
ghost use Rattle.floats.specs.Convert.{convert};
ghost use Rattle.drift.specs.Distance.{relative_to, distance_of};
ghost use Rattle.drift.specs.Drift.{most, length_ok, anomaly_if, streak_of, ewma, Driving, begun, measured, drift_move, paper, drift_step};

use detectors::{Judgement, Moved, Settings};
use rvcsi_core::event::CsiEventKind;

// The places that a baseline store has, and the most values of a list: this crate's `most`, of which its clauses speak.
const MOST: usize = 256;

// A baseline RMS up to this is taken for none: the distance is absolute.
const FLAT: f32 = 0.001;

#[derive(Clone, Copy)]
pub struct BaselineDriftConfig {
    pub drift_threshold: f32,
    pub drift_windows: u32,
    pub anomaly_threshold: f32,
    pub ewma_alpha: f32,
}

// The baseline's length, once there is one, and how many windows in a row drifted. There is no heap: its values stand in the lent store.
#[derive(Clone, Copy)]
pub struct DriftState {
    pub baseline: Option<usize>,
    pub drift_streak: u32,
}

// Reply 13, 14 or 5.
#[derive(Clone, Copy, Debug, PartialEq, Eq)]
pub enum DriftRefusal {
    StoreShort,
    OutOfRange,
    TooLong,
}

// ---- settings

impl Default for BaselineDriftConfig {
    ghost use Rattle.drift.specs.Settings.{drift_default};

    ghost is_default = { λ c. c ≡ drift_default };

    fn default() -> BaselineDriftConfig {
        BaselineDriftConfig {
            drift_threshold: 0.15,
            drift_windows: 3,
            anomaly_threshold: 1.0,
            ewma_alpha: 0.1,
        }
    }
}

impl Settings for BaselineDriftConfig {
    type State = DriftState;

    ghost use Rattle.drift.specs.Settings.{drift_accepted, drift_fresh};
    ghost use Rattle.drift.specs.Drift.{drift_in};

    ghost accepts = { drift_accepted };

    ghost begins = { drift_fresh };

    ghost ranges = { drift_in };

    fn accepted(self) -> bool {
        detectors::limits_ok(self.anomaly_threshold, self.drift_threshold)
            && 1 <= self.drift_windows
            && self.ewma_alpha > 0.0
            && self.ewma_alpha <= 1.0
    }

    // No baseline yet.
    fn fresh() -> DriftState {
        DriftState {
            baseline: None,
            drift_streak: 0,
        }
    }

    fn in_range(self, s: DriftState) -> bool {
        self.accepted() && length_ok(s.baseline) && s.drift_streak < self.drift_windows
    }
}

fn length_ok(b: Option<usize>) -> bool
    ensures { result ≡ length_ok b }
{
    b.is_none_or(|n| n <= MOST)
}

// ---- distance

// The root of a sum of squares over the root of their count.
fn root_over(sum: f64, by: f64) -> f32
    ensures { result ≡ convert binary32 (div binary64 (sqrt binary64 sum) by) }
{
    floats::narrow(floats::root(sum) / by)
}

fn relative(size: f32, distance: f32) -> f32
    ensures { result ≡ relative_to size distance }
{
    if size <= FLAT {
        return distance;
    }
    distance / size
}

fn relative_drift(current: &[f32], baseline: &[f32]) -> f32
    requires { (length current.now ≤ most) × (length current.now ≤ length baseline.now) }
    ensures { result ≡ distance_of current.now baseline.now }
{
    let n = current.len();
    if n == 0 {
        return 0.0;
    }
    let root_n = floats::root(n as f64);
    let distance = root_over(lists::squares_away(current, baseline), root_n);
    let size = root_over(lists::squares(baseline, n), root_n);
    relative(size, distance)
}

// ---- one window

// Each baseline value becomes a * current + (1 - a) * old. By place: of values written through `iter_mut().zip(..)` nothing is proved afterwards.
fn update_ewma(a: f32, current: &[f32], baseline: &mut [f32])
    requires { length current.now ≤ length baseline.old }
    ensures { baseline.new ≡ ewma a current.now baseline.old }
{
    for (k, x) in current.iter().enumerate() {
        baseline[k] = a * *x + (1.0 - a) * baseline[k];
    }
}

fn anomaly_if(c: BaselineDriftConfig, d: f32) -> Option<Judgement>
    ensures { result ≡ anomaly_if c d }
{
    if d > c.anomaly_threshold {
        return Some(Judgement {
            kind: CsiEventKind::AnomalyDetected,
            confidence: detectors::over_twice(d, c.anomaly_threshold),
        });
    }
    None
}

fn streak_of(c: BaselineDriftConfig, streak: u32, d: f32) -> u32
    requires { streak < c.drift_windows }
    ensures { result ≡ streak_of c streak d }
{
    if d > c.drift_threshold {
        return streak + 1;
    }
    0
}

// The list against a baseline of its own length: measured first, then the baseline moves.
fn measure(
    c: BaselineDriftConfig,
    streak: u32,
    current: &[f32],
    baseline: &mut [f32],
) -> Moved<DriftState>
    requires { Driving c streak (length current.now) (length baseline.old) }
    ensures { record { moved = result; store = baseline.new } ≡ measured c streak current.now baseline.old }
{
    let n = current.len();
    let d = relative_drift(current, baseline);
    let first = anomaly_if(c, d);
    let next = streak_of(c, streak, d);
    if next >= c.drift_windows {
        lists::copy_over(current, baseline);
        return Moved {
            state: DriftState {
                baseline: Some(n),
                drift_streak: 0,
            },
            first,
            second: Some(Judgement {
                kind: CsiEventKind::BaselineChanged,
                confidence: detectors::over_twice(d, c.drift_threshold),
            }),
        };
    }
    update_ewma(c.ewma_alpha, current, baseline);
    Moved {
        state: DriftState {
            baseline: Some(n),
            drift_streak: next,
        },
        first,
        second: None,
    }
}

// The list becomes the baseline, and nothing is said.
fn begin(streak: u32, current: &[f32], baseline: &mut [f32]) -> Moved<DriftState>
    ensures { record { moved = result; store = baseline.new } ≡ begun streak current.now baseline.old }
{
    let n = current.len();
    lists::copy_over(current, baseline);
    Moved {
        state: DriftState {
            baseline: Some(n),
            drift_streak: streak,
        },
        first: None,
        second: None,
    }
}

// One window that no reply refuses. Not `Scored`, which goes by a number: this goes by a list and writes a lent store.
fn moved(
    c: BaselineDriftConfig,
    s: DriftState,
    current: &[f32],
    baseline: &mut [f32],
) -> Moved<DriftState>
    requires { Driving c s.drift_streak (length current.now) (length baseline.old) }
    ensures { record { moved = result; store = baseline.new } ≡ drift_move c s current.now baseline.old }
{
    let Some(n) = s.baseline else {
        return begin(s.drift_streak, current, baseline);
    };
    if n == current.len() {
        return measure(c, s.drift_streak, current, baseline);
    }
    begin(0, current, baseline)
}

// One window: the list against the baseline in its store.
pub fn on_window(
    c: BaselineDriftConfig,
    s: DriftState,
    current: &[f32],
    baseline: &mut [f32],
) -> Result<Moved<DriftState>, DriftRefusal>
    ensures { record { reply = paper result; store = baseline.new } ≡ drift_step c s current.now baseline.old }
{
    if baseline.len() < MOST {
        return Err(DriftRefusal::StoreShort);
    }
    if !c.in_range(s) {
        return Err(DriftRefusal::OutOfRange);
    }
    if current.len() > MOST {
        return Err(DriftRefusal::TooLong);
    }
    Ok(moved(c, s, current, baseline))
}
