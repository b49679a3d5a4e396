// The counters that number windows and events, each from 0 by one.
ghost use Rattle.std.specs.Prelude.{◌≡◌};
ghost use Rattle.rvcsi_core.specs.Counters.{fresh_ids, given, counted, next_window, next_event};

#[derive(Clone, Copy)]
pub struct Ids {
    pub window: u64,
    pub event: u64,
}

// A number handed out, or none, and the counters after it, which come back by value: 2^64 - 1 itself is never given.
#[derive(Clone, Copy)]
pub struct Minted {
    pub taken: Option<u64>,
    pub ids: Ids,
}

// Counters from which nothing was taken yet. The manual begins with this call; a `Default` beside it would be a second way.
pub fn fresh() -> Ids
    ensures { result ≡ fresh_ids }
{
    Ids {
        window: 0,
        event: 0,
    }
}

// The number that a counter gives, and the counter after it.
fn take(n: u64) -> (Option<u64>, u64)
    ensures { result ≡ (given n, counted n) }
{
    if n == u64::MAX {
        return (None, n);
    }
    (Some(n), n + 1)
}

// The next window number, and the counters after it. Beside `next_event`, as each is a call of the manual; both are `take`.
pub fn next_window(ids: Ids) -> Minted
    ensures { result ≡ next_window ids }
{
    let (taken, window) = take(ids.window);
    Minted {
        taken,
        ids: Ids { window, ..ids },
    }
}

// The next event number, and the counters after it.
pub fn next_event(ids: Ids) -> Minted
    ensures { result ≡ next_event ids }
{
    let (taken, event) = take(ids.event);
    Minted {
        taken,
        ids: Ids { event, ..ids },
    }
}
