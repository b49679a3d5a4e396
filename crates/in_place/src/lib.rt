// The window and event counters, lent and advanced in place: thin functions over those that take and return the counters by value.
#![tactic(auto)]

ghost use Rattle.std.specs.Prelude.{◌≡◌};
ghost use Rattle.rvcsi_core.specs.Counters.{minted, next_window, next_event};
ghost use Rattle.window_buffer.specs.Lent.{SameStores, SameResults};
ghost use Rattle.pipeline.specs.Process.{process_of, flush_of};
ghost use Rattle.in_place.specs.Lent.{together, lent};

use buffer_rules::Refusal;
use pipeline::{EventPipeline, Processed};
use rvcsi_core::frame::{CsiFrame, Lists};
use rvcsi_core::ids::{Ids, Minted};
use slots::Batch;
use window_buffer::{Closed, Results, Stores};

// The number that was taken; the counters after it go behind the reference.
fn hand_out(ids: &mut Ids, out: Minted) -> Option<u64>
    ensures { minted result ids.new ≡ out }
{
    *ids = out.ids;
    out.taken
}

// The next window number; the counters rise behind the reference. A call of the manual, as `next_event`: what they share is `hand_out`.
pub fn next_window(ids: &mut Ids) -> Option<u64>
    ensures { minted result ids.new ≡ next_window ids.old }
{
    let out = rvcsi_core::ids::next_window(*ids);
    hand_out(ids, out)
}

// The next event number; the counters rise behind the reference.
pub fn next_event(ids: &mut Ids) -> Option<u64>
    ensures { minted result ids.new ≡ next_event ids.old }
{
    let out = rvcsi_core::ids::next_event(*ids);
    hand_out(ids, out)
}

// The reply, the pipeline, and the events of the window that closed; the counters stay behind the reference.
#[derive(Clone, Copy)]
pub struct Answered {
    pub reply: Result<Option<Closed>, Refusal>,
    pub pipeline: EventPipeline,
    pub batch: Batch,
}

// All but the counters; these go behind the reference.
fn answer(ids: &mut Ids, out: Processed) -> Answered
    ensures { together ids.new result ≡ out }
{
    *ids = out.ids;
    Answered {
        reply: out.reply,
        pipeline: out.pipeline,
        batch: out.batch,
    }
}

// `pipeline::process_frame` on lent counters, with the lent lists as it takes them.
pub fn process_frame(
    ids: &mut Ids,
    pipeline: EventPipeline,
    frame: CsiFrame,
    lists: &Lists<'_>,
    stores: &mut Stores<'_>,
    baseline_store: &mut [f32],
    results: &mut Results<'_>,
) -> Answered
    ensures same_references { SameStores stores.old stores.new × SameResults results.old results.new }
    ensures made { lent ids.new result stores.new.amplitudes.now stores.new.phases.now baseline_store.new
        results.new.mean_amplitude.now results.new.phase_variance.now
        ≡ process_of ids.old pipeline frame lists.now.amplitudes.now lists.now.phases.now lists.now.pairs.now
        stores.old.amplitudes.now stores.old.phases.now baseline_store.old
        results.old.mean_amplitude.now results.old.phase_variance.now }
{
    let out = pipeline::process_frame(
        *ids,
        pipeline,
        frame,
        lists,
        stores,
        baseline_store,
        results,
    );
    answer(ids, out)
}

// `pipeline::flush` on lent counters. It is lent the stores to read alone, and promises other things than a frame.
pub fn flush(
    ids: &mut Ids,
    pipeline: EventPipeline,
    amplitude_store: &[f32],
    phase_store: &[f32],
    baseline_store: &mut [f32],
    results: &mut Results<'_>,
) -> Answered
    ensures same_references { SameResults results.old results.new }
    ensures made { lent ids.new result amplitude_store.now phase_store.now baseline_store.new
        results.new.mean_amplitude.now results.new.phase_variance.now
        ≡ flush_of ids.old pipeline amplitude_store.now phase_store.now baseline_store.old
        results.old.mean_amplitude.now results.old.phase_variance.now }
{
    let out = pipeline::flush(
        *ids,
        pipeline,
        amplitude_store,
        phase_store,
        baseline_store,
        results,
    );
    answer(ids, out)
}
