// A caller of the lent counters: it holds them in a local and lends them for each number.
#![tactic(auto)]

ghost use Rattle.std.specs.Prelude.{◌≡◌};
ghost use Rattle.lending.specs.Each.{each_of};

use rvcsi_core::ids::Ids;

// A number of each kind, and the counters after both.
#[derive(Clone, Copy)]
pub struct Each {
    pub window: Option<u64>,
    pub event: Option<u64>,
    pub ids: Ids,
}

// The next window number, then the next event number.
#[tactic(auto, unfolding(crate::specs::Each::each_of))]
pub fn next_of_each(ids: Ids) -> Each
    ensures { result ≡ each_of ids }
{
    let mut own = ids;
    let window = in_place::next_window(&mut own);
    let event = in_place::next_event(&mut own);
    Each {
        window,
        event,
        ids: own,
    }
}
