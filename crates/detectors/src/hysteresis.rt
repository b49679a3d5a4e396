// The switch that presence and motion are: two limits and two counts. Beyond it the two differ in their rules, not in a type.
ghost use Rattle.std.specs.Prelude.{◌≡◌, ◌+◌, leb};
ghost use Rattle.detectors.specs.Hysteresis.{for, moved};
ghost use Rattle.detectors.specs.Latch.{latched};

// Which way the switch went.
#[derive(Clone, Copy)]
pub enum Turn {
    Rose,
    Fell,
}

// The switch after a window, and its turn if it turned.
#[derive(Clone, Copy)]
pub struct Latch {
    pub on: bool,
    pub streak: u32,
    pub turn: Option<Turn>,
}

// What goes for a switch that is off, and for one that is on: the limit met, the count.
pub fn in_force<X: Copy>(on: bool, off_value: X, on_value: X) -> X
    ensures { result ≡ for on off_value on_value }
{
    if on { on_value } else { off_value }
}

// Does one more reach the count? One more than a streak of 2^32 - 1 has no room.
fn full(streak: u32, count: u32) -> bool
    ensures { result ≡ leb count (streak + 1) }
{
    count == 0 || count - 1 <= streak
}

// One window, which met the limit in force or not.
pub fn advance(on: bool, streak: u32, met: bool, count: u32) -> Latch
    ensures { latched result ≡ moved on met (leb count (streak + 1)) streak }
{
    if !met {
        return Latch {
            on,
            streak: 0,
            turn: None,
        };
    }
    if !full(streak, count) {
        return Latch {
            on,
            streak: streak + 1,
            turn: None,
        };
    }
    let turn = if on { Turn::Fell } else { Turn::Rose };
    Latch {
        on: !on,
        streak: 0,
        turn: Some(turn),
    }
}
