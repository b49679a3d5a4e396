// Detectors in slots, in order of adding, and the batch of events that they say of a window.
#![tactic(auto)]

ghost use Rattle.std.specs.Prelude.{◌≡◌, not, ◌<◌, ◌≤◌, ◌+◌, length, eqb, Err};
ghost use Rattle.lists.specs.All.{all_to};
ghost use Rattle.slots.specs.Limits.{places, part};
ghost use Rattle.drift.specs.Drift.{drift_move};
ghost use Rattle.slots.specs.Slots.{detector_in, kind_of, kind_number, detector_at, in_at, other_at, fresh_at, set_ok, kinds_of, Ready, stepped, by_drift, step_of, place_of};
ghost use Rattle.slots.specs.Adding.{no_detectors, config_accepted, made_of, addition_number, adding, added_to, add_of, put_of};
ghost use Rattle.slots.specs.Batches.{nothing, pushed, Numbers};
ghost use Rattle.slots.specs.Judging.{round, one_of, judge_to, AllReady, paper, verdict_of, outcome, judge_of};

use detectors::motion::{MotionConfig, MotionState};
use detectors::presence::{PresenceConfig, PresenceState};
use detectors::quality::{QualityConfig, QualityState};
use detectors::{Judgement, Moved, Scored, Settings};
use drift::{BaselineDriftConfig, DriftState};
use rvcsi_core::event::{CsiEvent, CsiEventKind};
use rvcsi_core::ids::Ids;
use rvcsi_core::window::CsiWindow;

// How many detectors a set holds, and how many events a batch.
pub const PLACES: usize = 4;

pub const MOST: usize = 6;

// How many values a baseline has at most, and how many the lent store must have: `part`, of which the clauses speak.
pub const PART: usize = 256;

pub const ROOM: usize = 256;

// The last event number that leaves room for a batch: 2^64 - 7.
pub const LAST: u64 = 0xffff_ffff_ffff_fff9;

// One detector: its settings and its state.
#[derive(Clone, Copy)]
pub enum Detector {
    Presence(PresenceConfig, PresenceState),
    Motion(MotionConfig, MotionState),
    Quality(QualityConfig, QualityState),
    Drift(BaselineDriftConfig, DriftState),
}

// One place of a set. The definitions and laws of a set, also those of `pipeline_laws` and `worked`, speak of its slots.
#[derive(Clone, Copy)]
pub struct Slot {
    pub detector: Detector,
}

// The detectors in order of adding: the first `count` slots. There is no heap, and a count above PLACES is answered (14), so it stands beside the array.
#[derive(Clone, Copy)]
pub struct Detectors {
    pub slots: [Slot; PLACES],
    pub count: usize,
}

// ---- one detector

// Are its settings accepted and its state in range?
pub fn detector_in(d: Detector) -> bool
    ensures { result ≡ detector_in d }
{
    match d {
        Detector::Presence(c, s) => c.in_range(s),
        Detector::Motion(c, s) => c.in_range(s),
        Detector::Quality(c, s) => c.in_range(s),
        Detector::Drift(c, s) => c.in_range(s),
    }
}

// The kinds, in the order of their numbers.
#[derive(Clone, Copy, PartialEq, Eq)]
pub enum DetectorKind {
    Presence,
    Motion,
    Quality,
    Drift,
}

fn kind(d: Detector) -> DetectorKind
    ensures { result ≡ kind_of d }
{
    match d {
        Detector::Presence(_, _) => DetectorKind::Presence,
        Detector::Motion(_, _) => DetectorKind::Motion,
        Detector::Quality(_, _) => DetectorKind::Quality,
        Detector::Drift(_, _) => DetectorKind::Drift,
    }
}

// The scope document's kind number: promises and the manual speak of it, and within this crate kinds are an enum.
pub fn kind_number(d: Detector) -> u8
    ensures { result ≡ kind_number d }
{
    kind(d) as u8
}

// One window. The baseline, a drift detector's, stands in the lent list from place 0.
fn step(d: Detector, w: CsiWindow, mean_amplitude: &[f32], baseline: &mut [f32]) -> Moved<Detector>
    requires { Ready d (length mean_amplitude.now) (length baseline.old) }
    ensures { stepped result baseline.new ≡ step_of w mean_amplitude.now d baseline.old }
{
    match d {
        Detector::Presence(c, s) => {
            let m = c.moved(s, w.presence_score);
            with_state(Detector::Presence(c, m.state), m)
        }
        Detector::Motion(c, s) => {
            let m = c.moved(s, w.motion_energy);
            with_state(Detector::Motion(c, m.state), m)
        }
        Detector::Quality(c, s) => {
            let m = c.moved(s, w.quality_score);
            with_state(Detector::Quality(c, m.state), m)
        }
        Detector::Drift(c, s) => step_drift(c, s, mean_amplitude, baseline),
    }
}

// What a detector says, beside the whole detector.
fn with_state<S: Copy>(detector: Detector, m: Moved<S>) -> Moved<Detector>
    ensures { result ≡ record { state = detector; first = m.first; second = m.second } }
{
    Moved {
        state: detector,
        first: m.first,
        second: m.second,
    }
}

// One window of a drift detector. `Ready` says that no refusal comes; the arm stands, as no public function asks anything of its caller.
fn step_drift(
    c: BaselineDriftConfig,
    s: DriftState,
    mean_amplitude: &[f32],
    baseline: &mut [f32],
) -> Moved<Detector>
    requires { Ready (Detector.Drift c s) (length mean_amplitude.now) (length baseline.old) }
    ensures { stepped result baseline.new ≡ by_drift c (drift_move c s mean_amplitude.now baseline.old) }
{
    let Ok(m) = drift::on_window(c, s, mean_amplitude, baseline) else {
        return Moved {
            state: Detector::Drift(c, s),
            first: None,
            second: None,
        };
    };
    with_state(Detector::Drift(c, m.state), m)
}

// ---- the set

// Where the baseline of slot i begins: at 0 for every i, since a set has one drift detector at most. The laws speak of `place_of i`.
fn place_of(i: usize) -> usize
    ensures { result ≡ place_of i }
{
    0
}

// By a function, since the definitions `kinds_of` and `judge_to` speak of `detector_at`.
fn detector_at(slots: [Slot; PLACES], i: usize) -> Detector
    requires { i < places }
    ensures { result ≡ detector_at slots i }
{
    let slot = slots[i];
    slot.detector
}

// Each is in range.
fn all_in(slots: &[Slot]) -> bool
    ensures { result ≡ all_to (in_at slots.now) (length slots.now) }
{
    slots.iter().all(|slot| detector_in(slot.detector))
}

fn other(a: Detector, b: Detector) -> bool
    ensures { result ≡ not (eqb (kind_number a) (kind_number b)) }
{
    kind(a) != kind(b)
}

// None is of the kind of d.
fn fresh(slots: &[Slot], d: Detector) -> bool
    ensures { result ≡ all_to (other_at slots.now d) (length slots.now) }
{
    slots.iter().all(|slot| other(slot.detector, d))
}

// No kind twice.
fn all_fresh(slots: &[Slot]) -> bool
    ensures { result ≡ all_to (fresh_at slots.now) (length slots.now) }
{
    for (i, slot) in slots.iter().enumerate() {
        if !fresh(&slots[..i], slot.detector) {
            return false;
        }
    }
    true
}

// Is each detector in range, and no kind there twice?
pub fn set_ok(set: Detectors) -> bool
    ensures { result ≡ set_ok set }
{
    let Some(there) = set.slots.get(..set.count) else {
        return false;
    };
    all_in(there) && all_fresh(there)
}

// The kinds in order of adding: the first `count` places, by value.
#[derive(Clone, Copy)]
pub struct Kinds {
    pub numbers: [u8; PLACES],
    pub count: usize,
}

pub fn detector_kinds(set: Detectors) -> Kinds
    ensures { result ≡ kinds_of set }
{
    let n = set.count.min(PLACES);
    let slots = set.slots;
    let mut numbers = [0u8; PLACES];
    // i is the place in both arrays.
    for i in 0..n {
        numbers[i] = kind_number(detector_at(slots, i));
    }
    Kinds { numbers, count: n }
}

// ---- adding

// The settings of a detector to be added.
#[derive(Clone, Copy)]
pub enum DetectorConfig {
    Presence(PresenceConfig),
    Motion(MotionConfig),
    Quality(QualityConfig),
    Drift(BaselineDriftConfig),
}

fn config_accepted(c: DetectorConfig) -> bool
    ensures { result ≡ config_accepted c }
{
    match c {
        DetectorConfig::Presence(p) => p.accepted(),
        DetectorConfig::Motion(m) => m.accepted(),
        DetectorConfig::Quality(q) => q.accepted(),
        DetectorConfig::Drift(d) => d.accepted(),
    }
}

// A fresh detector.
fn made(c: DetectorConfig) -> Detector
    ensures { result ≡ made_of c }
{
    match c {
        DetectorConfig::Presence(p) => Detector::Presence(p, PresenceConfig::fresh()),
        DetectorConfig::Motion(m) => Detector::Motion(m, MotionConfig::fresh()),
        DetectorConfig::Quality(q) => Detector::Quality(q, QualityConfig::fresh()),
        DetectorConfig::Drift(d) => Detector::Drift(d, BaselineDriftConfig::fresh()),
    }
}

// A set with no detector. The promises have it by this name, as they have `empty`; a `Default` beside it would be a second way.
pub fn no_detectors() -> Detectors
    ensures { result ≡ no_detectors }
{
    let c = PresenceConfig {
        on_threshold: 0.0,
        off_threshold: 0.0,
        enter_windows: 0,
        exit_windows: 0,
    };
    let slot = Slot {
        detector: Detector::Presence(c, PresenceConfig::fresh()),
    };
    Detectors {
        slots: [slot; PLACES],
        count: 0,
    }
}

// Why a detector is not added.
#[derive(Clone, Copy, Debug, PartialEq, Eq)]
pub enum AddRefusal {
    OutOfRange,
    NotAccepted,
    KindThere,
}

impl AddRefusal {
    // 01's number of the refusal.
    pub fn number(self) -> u64
        ensures { result ≡ addition_number (Err self) }
    {
        match self {
            AddRefusal::OutOfRange => 14,
            AddRefusal::NotAccepted => 1,
            AddRefusal::KindThere => 15,
        }
    }
}

// The set stands beside the reply, since a refusal gives it back too.
#[derive(Clone, Copy)]
pub struct Adding {
    pub reply: Result<(), AddRefusal>,
    pub set: Detectors,
}

// A fresh detector with these settings, behind the others.
pub fn add(set: Detectors, c: DetectorConfig) -> Adding
    ensures { adding result ≡ add_of set c }
{
    match try_add(set, c) {
        Ok(more) => Adding {
            reply: Ok(()),
            set: more,
        },
        Err(why) => Adding {
            reply: Err(why),
            set,
        },
    }
}

// The set with the detector, or why it is not added.
fn try_add(set: Detectors, c: DetectorConfig) -> Result<Detectors, AddRefusal>
    ensures { added_to set result ≡ add_of set c }
{
    if !set_ok(set) {
        return Err(AddRefusal::OutOfRange);
    }
    if !config_accepted(c) {
        return Err(AddRefusal::NotAccepted);
    }
    put(set, made(c))
}

// A detector in the next place, if its kind is new and there is a place.
fn put(set: Detectors, d: Detector) -> Result<Detectors, AddRefusal>
    requires { set.count ≤ places }
    ensures { added_to set result ≡ put_of set d }
{
    let n = set.count;
    if !fresh(&set.slots[..n], d) {
        return Err(AddRefusal::KindThere);
    }
    if PLACES <= n {
        return Err(AddRefusal::KindThere);
    }
    let mut out = set;
    out.slots[n] = Slot { detector: d };
    out.count = n + 1;
    Ok(out)
}

// ---- the batch

// The events of one window, in order: the first `count` places, by value.
#[derive(Clone, Copy)]
pub struct Batch {
    pub events: [CsiEvent; MOST],
    pub count: usize,
}

// A batch with no event.
pub fn empty() -> Batch
    ensures { result ≡ nothing }
{
    let e = CsiEvent {
        event_id: 0,
        kind: CsiEventKind::PresenceStarted,
        session_id: 0,
        source_id: 0,
        timestamp_ns: 0,
        confidence: 0.0,
        window_id: 0,
    };
    Batch {
        events: [e; MOST],
        count: 0,
    }
}

// What is said joins the batch, with the next number: a window's own numbers do not say which event is next, so `first` stands beside it.
fn push(b: Batch, said: Option<Judgement>, w: CsiWindow, first: u64) -> Batch
    requires { Numbers first }
    ensures { result ≡ pushed w first b said }
{
    let Some(j) = said else {
        return b;
    };
    let at = b.count;
    if at < MOST {
        let mut out = b;
        let event_id = first + at as u64;
        out.events[at] = CsiEvent {
            event_id,
            kind: j.kind,
            session_id: w.session_id,
            source_id: w.source_id,
            timestamp_ns: w.end_ns,
            confidence: j.confidence,
            window_id: w.window_id,
        };
        out.count = at + 1;
        return out;
    }
    b
}

// ---- all of them

#[derive(Clone, Copy)]
pub struct Round {
    pub slots: [Slot; PLACES],
    pub batch: Batch,
}

// The detector d of slot i judges the window.
fn judge_one(
    g: Round,
    i: usize,
    d: Detector,
    w: CsiWindow,
    first: u64,
    mean_amplitude: &[f32],
    baseline_store: &mut [f32],
) -> Round
    requires { (i < places) × Numbers first × (place_of i + part ≤ length baseline_store.old) × (Ready d (length mean_amplitude.now) part) }
    ensures { round result baseline_store.new ≡ one_of (step_of w mean_amplitude.now) w first d i (round g baseline_store.old) }
{
    let at = place_of(i);
    let end = at + PART;
    let s = step(d, w, mean_amplitude, &mut baseline_store[at..end]);
    let batch = push(push(g.batch, s.first, w, first), s.second, w, first);
    let mut out = g;
    out.slots[i] = Slot { detector: s.state };
    out.batch = batch;
    out
}

// The first n slots, in order. It takes all slots and n, since the round gives the whole array back; i is the slot that is written.
fn judge_all(
    slots: [Slot; PLACES],
    n: usize,
    w: CsiWindow,
    first: u64,
    mean_amplitude: &[f32],
    baseline_store: &mut [f32],
) -> Round
    requires { AllReady slots n first (length mean_amplitude.now) (length baseline_store.old) }
    ensures { round result baseline_store.new ≡ judge_to (step_of w mean_amplitude.now) w first slots baseline_store.old n }
{
    let batch = empty();
    let mut g = Round { slots, batch };
    for i in 0..n {
        let d = detector_at(slots, i);
        g = judge_one(g, i, d, w, first, mean_amplitude, baseline_store);
    }
    g
}

// Reply 13, 14, 5 or 8. The first three are `drift`'s too: here they are asked of the whole set, before any detector steps.
#[derive(Clone, Copy, Debug, PartialEq, Eq)]
pub enum Refusal {
    StoreShort,
    OutOfRange,
    TooLong,
    NoNumber,
}

// Counters and set stand beside the reply, since a refusal gives them back too.
#[derive(Clone, Copy)]
pub struct Judged {
    pub reply: Result<(), Refusal>,
    pub ids: Ids,
    pub set: Detectors,
    pub batch: Batch,
}

// Is a window with a list of n refused, where `room` places are lent for the baseline?
fn judge_verdict(ids: Ids, set: Detectors, n: usize, room: usize) -> Result<(), Refusal>
    ensures { paper result ≡ verdict_of ids set n room }
{
    if room < ROOM {
        return Err(Refusal::StoreShort);
    }
    if !set_ok(set) {
        return Err(Refusal::OutOfRange);
    }
    if PART < n {
        return Err(Refusal::TooLong);
    }
    if LAST < ids.event {
        return Err(Refusal::NoNumber);
    }
    Ok(())
}

// Every detector judges the window, in order of adding. Its events are numbered from the event counter.
pub fn judge(
    ids: Ids,
    set: Detectors,
    window: CsiWindow,
    mean_amplitude: &[f32],
    baseline_store: &mut [f32],
) -> Judged
    ensures { outcome result baseline_store.new ≡ judge_of ids set window mean_amplitude.now baseline_store.old }
{
    match judge_verdict(ids, set, mean_amplitude.len(), baseline_store.len()) {
        Err(why) => {
            let batch = empty();
            Judged {
                reply: Err(why),
                ids,
                set,
                batch,
            }
        }
        Ok(()) => {
            let old = set.slots;
            let count = set.count;
            let g = judge_all(
                old,
                count,
                window,
                ids.event,
                mean_amplitude,
                baseline_store,
            );
            let slots = g.slots;
            let batch = g.batch;
            let event = ids.event + batch.count as u64;
            Judged {
                reply: Ok(()),
                ids: Ids {
                    window: ids.window,
                    event,
                },
                set: Detectors { slots, count },
                batch,
            }
        }
    }
}
