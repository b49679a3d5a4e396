// The commands of a script, read from bytes.
#![tactic(auto)]

pub mod input;

use buffer_rules::WindowBufferConfig;
use forging::{Field, numbers};
use rvcsi_core::frame::CsiFrame;
use slots::{DetectorConfig, DetectorKind};

// How many floats a list of a frame has at most.
pub const MOST: usize = 600;

// How many places of each store the calls that follow are lent.
#[derive(Clone, Copy)]
pub struct Lent {
    pub amplitudes: usize,
    pub phases: usize,
    pub baseline: usize,
    pub means: usize,
    pub variances: usize,
}

// A frame with its lists.
#[derive(Clone, Copy)]
pub struct Frame<'a> {
    pub frame: CsiFrame,
    pub amplitudes: Floats<'a>,
    pub phases: Floats<'a>,
    pub pairs: Floats<'a>,
}

#[derive(Clone, Copy)]
pub enum Command<'a> {
    End,
    New {
        session_id: u64,
        source_id: u64,
        config: WindowBufferConfig,
    },
    Add(DetectorConfig),
    Lend(Lent),
    Frame(Frame<'a>),
    Flush,
    // of no field where the code names none
    Forge {
        field: Option<Field>,
        index: usize,
        value: u64,
    },
    Look,
}

// ---- numbers, low byte first

// The bytes that are still to be read. A number that is not there whole is none.
#[derive(Drop)]
struct Bytes<'a> {
    rest: &'a [u8],
}

impl<'a> Bytes<'a> {
    fn take<const N: usize>(&mut self) -> Option<[u8; N]> {
        let (first, rest) = self.rest.split_first_chunk::<N>()?;
        self.rest = rest;
        Some(*first)
    }

    fn byte(&mut self) -> Option<u8> {
        let [b] = self.take::<1>()?;
        Some(b)
    }

    fn short(&mut self) -> Option<usize> {
        let bytes = self.take::<2>()?;
        Some(usize::from(u16::from_le_bytes(bytes)))
    }

    fn word(&mut self) -> Option<u32> {
        let bytes = self.take::<4>()?;
        Some(u32::from_le_bytes(bytes))
    }

    // A word as a size.
    fn size(&mut self) -> Option<usize> {
        Some(self.word()? as usize)
    }

    fn long(&mut self) -> Option<u64> {
        let bytes = self.take::<8>()?;
        Some(u64::from_le_bytes(bytes))
    }

    fn float(&mut self) -> Option<f32> {
        Some(floats::from_bits(self.word()?))
    }

    // A list of so many floats.
    fn floats(&mut self, n: usize) -> Option<Floats<'a>> {
        let (bytes, rest) = self.rest.split_at_checked(n.checked_mul(4)?)?;
        self.rest = rest;
        let (floats, _) = bytes.as_chunks::<4>();
        Some(Floats(floats))
    }
}

// A list of floats by their bytes.
#[derive(Clone, Copy)]
pub struct Floats<'a>(&'a [[u8; 4]]);

impl Floats<'_> {
    // Puts them at the start of the list, as many as it takes, and gives that part of it.
    pub fn put<'b>(&self, list: &'b mut [f32; MOST]) -> &'b [f32] {
        let n = self.0.len().min(MOST);
        for (place, bytes) in list.iter_mut().zip(self.0) {
            *place = floats::from_bits(u32::from_le_bytes(*bytes));
        }
        &list[..n]
    }
}

// ---- commands

impl<'a> Command<'a> {
    // The command at the start of the bytes and how many it takes, if it is one and there whole.
    pub fn read(bytes: &'a [u8]) -> Option<(Command<'a>, usize)> {
        let mut from = Bytes { rest: bytes };
        let command = match from.byte()? {
            0 => Command::End,
            1 => Command::New {
                session_id: from.long()?,
                source_id: from.long()?,
                config: read_config(&mut from)?,
            },
            2 => Command::Add(read_settings(&mut from)?),
            3 => Command::Lend(read_lent(&mut from)?),
            4 => Command::Frame(read_frame(&mut from)?),
            5 => Command::Flush,
            6 => Command::Forge {
                field: Field::try_from(from.byte()?).ok(),
                index: usize::from(from.byte()?),
                value: from.long()?,
            },
            7 => Command::Look,
            _ => return None,
        };
        Some((command, bytes.len().saturating_sub(from.rest.len())))
    }
}

// The settings of a buffer.
fn read_config(from: &mut Bytes<'_>) -> Option<WindowBufferConfig> {
    Some(WindowBufferConfig {
        max_frames: from.long()? as usize,
        max_duration_ns: from.long()?,
        presence_threshold: from.float()?,
    })
}

// The settings of a detector. At the number of no kind they are some that are never accepted.
fn read_settings(from: &mut Bytes<'_>) -> Option<DetectorConfig> {
    let kind = from.byte()?;
    let words = [from.word()?, from.word()?, from.word()?, from.word()?];
    Some(match numbers::kind(kind) {
        Some(kind) => numbers::settings(kind, words),
        None => numbers::settings(DetectorKind::Presence, [0; 4]),
    })
}

fn read_lent(from: &mut Bytes<'_>) -> Option<Lent> {
    Some(Lent {
        amplitudes: from.size()?,
        phases: from.size()?,
        baseline: from.size()?,
        means: from.size()?,
        variances: from.size()?,
    })
}

// A frame with a list of too many floats is none.
fn read_frame<'a>(from: &mut Bytes<'a>) -> Option<Frame<'a>> {
    let frame = CsiFrame {
        session_id: from.long()?,
        source_id: from.long()?,
        timestamp_ns: from.long()?,
        exposable: from.byte()?,
        subcarrier_count: from.size()?,
        pair_count: from.size()?,
        quality_score: from.float()?,
    };
    let lengths = [from.short()?, from.short()?, from.short()?];
    if lengths.iter().any(|n| MOST < *n) {
        return None;
    }
    let [amplitudes, phases, pairs] = lengths;
    Some(Frame {
        frame,
        amplitudes: from.floats(amplitudes)?,
        phases: from.floats(phases)?,
        pairs: from.floats(pairs)?,
    })
}
