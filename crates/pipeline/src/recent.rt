// The newest 32 windows, newest last.
ghost use Rattle.std.specs.Prelude.{◌≡◌, ◌∷◌, ◌++◌, [], drop};
ghost use Rattle.pipeline.specs.Recents.{none_kept, remember_of};

use rvcsi_core::window::CsiWindow;

// How many windows are kept.
pub const RECENT_WINDOW_CAP: usize = 32;

// The scalar fields of the newest windows, oldest first: the first `count` places of an array, since the state travels by value and there is no heap.
// A state may come with any count; one past the end is out of range.
#[derive(Clone, Copy)]
pub struct Recent {
    pub windows: [CsiWindow; RECENT_WINDOW_CAP],
    pub count: usize,
}

// No window yet. The promises have it by this name; a `Default` beside it would be a second way.
#[tactic(auto, unfolding(crate::specs::Recents::none_kept))]
pub fn none_kept() -> Recent
    ensures { result ≡ none_kept }
{
    let w = CsiWindow {
        window_id: 0,
        session_id: 0,
        source_id: 0,
        start_ns: 0,
        end_ns: 0,
        frame_count: 0,
        motion_energy: 0.0,
        presence_score: 0.0,
        quality_score: 0.0,
    };
    Recent {
        windows: [w; RECENT_WINDOW_CAP],
        count: 0,
    }
}

// The oldest goes, and w comes behind the others.
fn shifted(old: [CsiWindow; RECENT_WINDOW_CAP], w: CsiWindow) -> [CsiWindow; RECENT_WINDOW_CAP]
    ensures { result ≡ drop 1 old ++ (w ∷ []) }
{
    let mut new = old;
    for k in 0..31 {
        new[k] = old[k + 1];
    }
    new[31] = w;
    new
}

// The window joins the others; of more than 32 the oldest goes. Over a copy of all that is kept: over one of the array alone, and by the library's
// `rotate_left`, the compiler copies the windows at each frame.
#[tactic(auto, unfolding(crate::specs::Recents::remember_of))]
pub fn remember(r: Recent, w: CsiWindow) -> Recent
    ensures { result ≡ remember_of r w }
{
    let at = r.count;
    if at < RECENT_WINDOW_CAP {
        let mut out = r;
        out.windows[at] = w;
        out.count = at + 1;
        return out;
    }
    let old = r.windows;
    Recent {
        windows: shifted(old, w),
        count: RECENT_WINDOW_CAP,
    }
}
