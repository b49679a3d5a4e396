// Forging: one field of the counters, the buffer, the detectors or a store is overwritten.
#![tactic(auto)]

use crate::numbers::Numbers;
use buffer_rules::WindowBuffer;
use rvcsi_core::ids::Ids;
use slots::{Detector, Detectors};

pub mod numbers;

// ---- the fields, by the codes of a script

#[derive(Clone, Copy)]
pub enum Counter {
    Window,
    Event,
}

#[derive(Clone, Copy)]
pub enum Buffer {
    MaxFrames,
    MaxDuration,
    Threshold,
    SubcarrierCount,
    Pending,
    First,
    Last,
    Quality,
    Scale,
}

// Of a detector: word j of its settings, or what numbers its state.
#[derive(Clone, Copy)]
pub enum Part {
    Word(usize),
    Switch,
    Streak,
    Calibration,
}

// Of the set: how many slots are in use, a slot that becomes a copy of another, or a part of a slot's detector.
#[derive(Clone, Copy)]
pub enum Set {
    Count,
    Copy,
    Slot(Part),
}

#[derive(Clone, Copy)]
pub enum Store {
    Amplitudes,
    Phases,
    Baseline,
    Means,
    Variances,
}

#[derive(Clone, Copy)]
pub enum Field {
    Counter(Counter),
    Buffer(Buffer),
    RecentCount,
    Set(Set),
    Store(Store),
}

// A code that names no field.
#[derive(Clone, Copy, Debug, PartialEq, Eq)]
pub struct NoField(pub u8);

impl TryFrom<u8> for Field {
    type Error = NoField;

    fn try_from(code: u8) -> Result<Self, NoField> {
        Ok(match code {
            0 => Field::Counter(Counter::Window),
            1 => Field::Counter(Counter::Event),
            2 => Field::Buffer(Buffer::MaxFrames),
            3 => Field::Buffer(Buffer::MaxDuration),
            4 => Field::Buffer(Buffer::Threshold),
            5 => Field::Buffer(Buffer::SubcarrierCount),
            6 => Field::Buffer(Buffer::Pending),
            7 => Field::Buffer(Buffer::First),
            8 => Field::Buffer(Buffer::Last),
            9 => Field::Buffer(Buffer::Quality),
            10 => Field::Buffer(Buffer::Scale),
            11 => Field::RecentCount,
            12 => Field::Set(Set::Count),
            13 => Field::Set(Set::Copy),
            16..=19 => Field::Set(Set::Slot(Part::Word(usize::from(code - 16)))),
            20 => Field::Set(Set::Slot(Part::Switch)),
            21 => Field::Set(Set::Slot(Part::Streak)),
            22 => Field::Set(Set::Slot(Part::Calibration)),
            24 => Field::Store(Store::Amplitudes),
            25 => Field::Store(Store::Phases),
            26 => Field::Store(Store::Baseline),
            27 => Field::Store(Store::Means),
            28 => Field::Store(Store::Variances),
            _ => return Err(NoField(code)),
        })
    }
}

// ---- overwriting

// The low 32 bits. `vectors` has these two as well: one line each, which no crate of the library would call.
fn low(value: u64) -> u32 {
    (value % 0x1_0000_0000) as u32
}

fn low_float(value: u64) -> f32 {
    floats::from_bits(low(value))
}

pub fn forge_counters(mut ids: Ids, field: Counter, value: u64) -> Ids {
    match field {
        Counter::Window => ids.window = value,
        Counter::Event => ids.event = value,
    }
    ids
}

// The place of a list, if it is there.
fn put(list: &mut [f32], index: usize, value: u64) {
    if let Some(place) = list.get_mut(index) {
        *place = low_float(value);
    }
}

// Field, index and value as a script has them; each function here takes a field of its own type.
pub fn forge_buffer(mut b: WindowBuffer, field: Buffer, index: usize, value: u64) -> WindowBuffer {
    match field {
        Buffer::MaxFrames => b.cfg.max_frames = value as usize,
        Buffer::MaxDuration => b.cfg.max_duration_ns = value,
        Buffer::Threshold => b.cfg.presence_threshold = low_float(value),
        Buffer::SubcarrierCount => b.subcarrier_count = value as usize,
        Buffer::Pending => b.pending = value as usize,
        Buffer::First => b.first = value,
        Buffer::Last => b.last = value,
        Buffer::Quality => put(&mut b.qualities, index, value),
        Buffer::Scale => put(&mut b.scales, index, value),
    }
    b
}

// What a kind does not have stays.
fn forge_detector(d: Detector, part: Part, value: u64) -> Detector {
    let mut numbers = Numbers::from(d);
    match part {
        Part::Word(j) => {
            if let Some(word) = numbers.words.get_mut(j) {
                *word = low(value);
            }
        }
        Part::Switch => numbers.switch = value,
        Part::Streak => numbers.streak = low(value),
        Part::Calibration => numbers.calibration = value != 0,
    }
    numbers.detector(d)
}

// A slot that is not there changes nothing.
pub fn forge_detectors(mut set: Detectors, field: Set, index: usize, value: u64) -> Detectors {
    let slots = &mut set.slots;
    match field {
        Set::Count => set.count = value as usize,
        Set::Copy => {
            if let (Some(from), Some(to)) = (
                slots.get(value as usize).copied(),
                slots.get_mut(index),
            ) {
                *to = from;
            }
        }
        Set::Slot(part) => {
            if let Some(slot) = slots.get_mut(index) {
                slot.detector = forge_detector(slot.detector, part, value);
            }
        }
    }
    set
}

// The place value div 2^32 of a store.
pub fn forge_store(list: &mut [f32], value: u64) {
    put(list, (value / 0x1_0000_0000) as usize, value);
}
