// Loops over the calls that bench/ measures, for its driver to link. Each answers every input.
// By what a loop returns the driver compares its work with that of ruvnet/rvcsi, the Rust that was carried over.
// `process_frame` is called in one place, as in a program: the compiler then sees the whole path of a frame at once.
#![tactic(auto)]

use records::{BitLists, Header, ReadLists};
use rvcsi_core::frame::{CsiFrame, Lists};
use rvcsi_core::ids::Ids;
use window_buffer::{Results, Stores};

// ---- float helpers

// C calls each loop by its name and its types, so the three stay apart.
#[unsafe(no_mangle)]
pub extern "C" fn bench_root(values: &[f64], out: &mut [f64]) {
    for (root, x) in out.iter_mut().zip(values) {
        *root = floats::root(*x);
    }
}

#[unsafe(no_mangle)]
pub extern "C" fn bench_narrow(values: &[f64], out: &mut [f32]) {
    for (narrow, x) in out.iter_mut().zip(values) {
        *narrow = floats::narrow(*x);
    }
}

#[unsafe(no_mangle)]
pub extern "C" fn bench_score(values: &[f32], threshold: f32, out: &mut [f32]) {
    for (score, motion) in out.iter_mut().zip(values) {
        *score = logistic::presence_score(*motion, threshold);
    }
}

// ---- frames

// What each frame has, and after how many they begin again.
#[derive(Clone, Copy)]
struct Shape {
    subcarriers: usize,
    pair_count: usize,
    ring: usize,
}

// Where the next frame stands, in all and in each list, and when it comes.
#[derive(Clone, Copy, Default)]
struct Place {
    frame: usize,
    at: usize,
    pairs_at: usize,
    time: u64,
}

impl Place {
    // The frame behind, or the first again after `ring` of them; a millisecond later.
    fn next(self, shape: Shape) -> Place {
        let frame = self.frame.wrapping_add(1);
        let time = self.time.wrapping_add(1_000_000);
        if shape.ring <= frame {
            return Place {
                time,
                ..Place::default()
            };
        }
        Place {
            frame,
            at: self.at.wrapping_add(shape.subcarriers),
            pairs_at: self.pairs_at.wrapping_add(shape.pair_count.wrapping_mul(2)),
            time,
        }
    }
}

// n floats of a list from a place on, or as many as there are.
fn part(list: &[f32], at: usize, n: usize) -> &[f32] {
    lists::front(&list[at.min(list.len())..], n)
}

fn frame_at(time: u64, shape: Shape) -> CsiFrame {
    CsiFrame {
        session_id: 1,
        source_id: 1,
        timestamp_ns: time,
        exposable: 1,
        subcarrier_count: shape.subcarriers,
        pair_count: shape.pair_count,
        quality_score: 0.75,
    }
}

// A fresh pipeline is given `count` frames, the `ring` frames of the lists round and round.
// The lent lists stay three parameters: the borrow checker does not cover a struct that holds `Stores` and `Results`.
fn run(
    count: u64,
    shape: Shape,
    lists: &Lists<'_>,
    stores: &mut Stores<'_>,
    baseline: &mut [f32],
    results: &mut Results<'_>,
) -> Ids {
    let mut ids = rvcsi_core::ids::fresh();
    let mut pipeline = pipeline::with_defaults(1, 1);
    let mut place = Place::default();
    for _ in 0..count {
        let frame = Lists {
            amplitudes: part(lists.amplitudes, place.at, shape.subcarriers),
            phases: part(lists.phases, place.at, shape.subcarriers),
            pairs: part(
                lists.pairs,
                place.pairs_at,
                shape.pair_count.wrapping_mul(2),
            ),
        };
        let done = pipeline::process_frame(
            ids,
            pipeline,
            frame_at(place.time, shape),
            &frame,
            stores,
            baseline,
            results,
        );
        ids = done.ids;
        pipeline = done.pipeline;
        place = place.next(shape);
    }
    ids
}

// A run; its windows go into `tally[0]`, its events into `tally[1]`. The driver of `bench/` calls it by these parameters.
#[unsafe(no_mangle)]
pub extern "C" fn bench_frames(
    count: u64,
    subcarriers: usize,
    pair_count: usize,
    ring: usize,
    amplitude: &[f32],
    phase: &[f32],
    pairs: &[f32],
    amplitude_store: &mut [f32; 4096],
    phase_store: &mut [f32; 4096],
    baseline_store: &mut [f32; 256],
    mean_amplitude: &mut [f32; 256],
    phase_variance: &mut [f32; 256],
    tally: &mut [u64; 2],
) {
    let shape = Shape {
        subcarriers,
        pair_count,
        ring,
    };
    let lists = Lists {
        amplitudes: amplitude,
        phases: phase,
        pairs,
    };
    let mut stores = Stores {
        amplitudes: amplitude_store,
        phases: phase_store,
    };
    let mut results = Results {
        mean_amplitude,
        phase_variance,
    };
    let ids = run(
        count,
        shape,
        &lists,
        &mut stores,
        baseline_store,
        &mut results,
    );
    *tally = [ids.window, ids.event];
}

// ---- records

// Reads every record of the input. The records are counted in `tally[0]`, their subcarriers in `tally[1]`.
fn read_all(input: &[u8], lists: &mut ReadLists<'_>, tally: &mut [u64; 2]) {
    let mut at = 0;
    for _ in 0..input.len() {
        let Ok(Some(record)) = records::read_record(input, at, lists) else {
            return;
        };
        tally[0] = tally[0].wrapping_add(1);
        tally[1] = tally[1].wrapping_add(record.header.subcarriers);
        at = record.next;
    }
}

// The same `rounds` times.
#[unsafe(no_mangle)]
pub extern "C" fn bench_read(
    rounds: u64,
    input: &[u8],
    amplitudes: &mut [u32; 256],
    phases: &mut [u32; 256],
    pairs: &mut [u32; 512],
    tally: &mut [u64; 2],
) {
    let mut lists = ReadLists {
        amplitudes,
        phases,
        pairs,
    };
    for _ in 0..rounds {
        read_all(input, &mut lists, tally);
    }
}

fn header_at(time: u64, subcarriers: u64, pair_count: u64) -> Header {
    Header {
        session: 1,
        source: 1,
        time,
        exposable: true,
        subcarriers,
        pairs: pair_count,
        quality: 0x3f40_0000,
    }
}

// Writes `count` records one behind the other, a millisecond apart. Returns the place after them.
#[unsafe(no_mangle)]
pub extern "C" fn bench_write(
    count: u64,
    out: &mut [u8],
    amplitudes: &[u32],
    phases: &[u32],
    pairs: &[u32],
) -> usize {
    let lists = BitLists {
        amplitudes,
        phases,
        pairs,
    };
    let subcarriers = amplitudes.len() as u64;
    let pair_count = pairs.len() as u64 / 2;
    let mut at = 0;
    let mut time = 0u64;
    for _ in 0..count {
        let header = header_at(time, subcarriers, pair_count);
        let Ok(next) = records::write_record(out, at, header, &lists) else {
            return at;
        };
        at = next;
        time = time.wrapping_add(1_000_000);
    }
    at
}
