// What the parts of the sensing chain hand to each other: counters, frames, windows and events.
#![tactic(auto)]

ghost use Rattle.std.specs.Prelude.{◌≡◌};
ghost use Rattle.rvcsi_core.specs.Score.{score_ok};
ghost use Rattle.rvcsi_core.specs.Settings.{threshold_ok};

pub mod event;
pub mod frame;
pub mod ids;
pub mod window;

// Does x lie from 0 to 1? A NaN does not.
fn score_ok(x: f32) -> bool
    ensures { result ≡ score_ok x }
{
    0.0 <= x && x <= 1.0
}

// Does a threshold lie from 0 to 1,000,000? A NaN does not.
pub fn threshold_ok(t: f32) -> bool
    ensures { result ≡ threshold_ok t }
{
    0.0 <= t && t <= 1000000.0
}
