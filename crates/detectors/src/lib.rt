// Three of the four detectors: presence, motion and quality, each with its settings and its state, which travel by value. What a detector of any kind is
// stands here, with what the drift detector shares with the three.
#![tactic(auto)]

ghost use Rattle.std.specs.Prelude.{◌≡◌, Bool, Float};
ghost use Rattle.detectors.specs.declared.Moved.{Moved};
ghost use Rattle.detectors.specs.Common.{limits_ok, counts_ok, over_twice};
ghost use Rattle.detectors.specs.Replies.{made, judged};

use rvcsi_core::event::CsiEventKind;

mod hysteresis;
pub mod motion;
pub mod presence;
pub mod quality;

// What a detector says of one window, if it says anything: an event of a kind with its confidence.
#[derive(Clone, Copy)]
pub struct Judgement {
    pub kind: CsiEventKind,
    pub confidence: f32,
}

// A detector's state after a window, and what it says, in this order.
#[derive(Clone, Copy)]
pub struct Moved<S> {
    pub state: S,
    pub first: Option<Judgement>,
    pub second: Option<Judgement>,
}

// Reply 1: the settings are not accepted. The buffer's, of the same name, holds what they would have made.
#[derive(Clone, Copy, Debug, PartialEq, Eq)]
pub struct NotAccepted;

// Reply 14: the settings are not accepted, or the state is not one of theirs.
#[derive(Clone, Copy, Debug, PartialEq, Eq)]
pub struct OutOfRange;

// The settings of a detector: are they accepted, with which state does it begin, and which states are in range?
pub trait Settings: Copy {
    type State: Copy;

    ghost accepts: { Self → Bool };

    ghost begins: { Self.State };

    ghost ranges: { Self → Self.State → Bool };

    fn accepted(self) -> bool
        ensures { result ≡ accepts self };

    fn fresh() -> Self::State
        ensures { result ≡ begins };

    fn in_range(self, s: Self::State) -> bool
        ensures { result ≡ ranges self s };
}

// A detector that goes by one number of a window.
pub trait Scored: Settings {
    ghost moves: { Self → Self.State → Float → Moved Self.State };

    // One window, in range or not.
    fn moved(self, s: Self::State, x: f32) -> Moved<Self::State>
        ensures { result ≡ moves self s x };
}

// A detector with these settings, in the state that it begins with.
pub fn with_config<C: Settings>(c: C) -> Result<C::State, NotAccepted>
    ensures { result ≡ made (C.accepts c) C.begins }
{
    if !c.accepted() {
        return Err(NotAccepted);
    }
    Ok(C::fresh())
}

// One window with the number x.
pub fn on_window<C: Scored>(c: C, s: C::State, x: f32) -> Result<Moved<C::State>, OutOfRange>
    ensures { result ≡ judged (C.ranges c s) (C.moves c s x) }
{
    if !c.in_range(s) {
        return Err(OutOfRange);
    }
    Ok(c.moved(s, x))
}

// Are two limits accepted: each a threshold in range, and on above off?
pub fn limits_ok(on: f32, off: f32) -> bool
    ensures { result ≡ limits_ok on off }
{
    rvcsi_core::threshold_ok(on) && rvcsi_core::threshold_ok(off) && off < on
}

// Are both counts at least 1?
pub fn counts_ok(a: u32, b: u32) -> bool
    ensures { result ≡ counts_ok a b }
{
    1 <= a && 1 <= b
}

// x / (2 * limit), clamped to 0..1.
pub fn over_twice(x: f32, limit: f32) -> f32
    ensures { result ≡ over_twice x limit }
{
    floats::clamp01(x / (2.0 * limit))
}
