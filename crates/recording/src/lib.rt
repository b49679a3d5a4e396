// A recording as it is read: a bounded buffer over a reader, and the record at a place of it.
#![tactic(auto)]

ghost use Rattle.std.specs.Prelude.{◌≡◌, ◌-◌, min, length, take, drop};
ghost use Rattle.records.specs.Answers.{paper};
ghost use Rattle.recording.specs.Place.{place_of};
ghost use Rattle.recording.specs.Heard.{floats_over, heard, heard_of};

use records::{ReadError, ReadLists, Record};
use std::io::Read;

// No record is longer. Before each, this many bytes are at hand, or all that are left.
const LONGEST: usize = 4135;

// How many bytes are held at once.
pub const HELD: usize = 16384;

// Where reading stands: the first `have` bytes of the buffer are at hand, the next record begins at `at`,
// and the buffer's first byte is the input's byte `base`. The buffer is lent beside it: the equation of a run's step is over a cursor by value.
// Two flags, and no enum of the three states that come about: `fill` and `refill` answer every cursor, also one that failed and has not ended.
#[derive(Clone, Copy)]
pub struct Cursor {
    pub base: u64,
    pub at: usize,
    pub have: usize,
    pub ended: bool,
    pub failed: bool,
}

// By default before the first byte, with nothing read.
impl Default for Cursor {
    ghost is_default = { λ c. place_of c ≡ 0 };

    fn default() -> Cursor {
        Cursor {
            base: 0,
            at: 0,
            have: 0,
            ended: false,
            failed: false,
        }
    }
}

// Moves the bytes from `at` to `have` to the front, and returns how many they are.
fn shift(buf: &mut [u8], at: usize, have: usize) -> usize
    ensures { (result ≡ min have (length buf.old) - at) × (take result buf.new ≡ take result (drop at buf.old)) }
{
    let end = have.min(buf.len());
    if end < at {
        return 0;
    }
    buf.copy_within(at..end, 0);
    end - at
}

// One read behind the bytes at hand.
fn read_once<R: Read>(rt: &impl Eprint, reader: &mut R, buf: &mut [u8], c: Cursor) -> Cursor
    ensures { (result.base ≡ c.base) × (result.at ≡ c.at) }
{
    let from = c.have.min(buf.len());
    match reader.read(&mut buf[from..]) {
        Ok(more) => Cursor {
            have: from + more,
            ended: more == 0,
            failed: false,
            ..c
        },
        Err(e) => {
            let _ = eprintln!(rt; "rvcsi: the recording cannot be read: {e}");
            Cursor {
                have: from,
                ended: true,
                failed: true,
                ..c
            }
        }
    }
}

// Reads until the buffer is full or the input ends. Where a read fails, it says so on standard error.
pub fn fill<R: Read>(rt: &impl Eprint, reader: &mut R, buf: &mut [u8], c: Cursor) -> Cursor
    ensures { (result.base ≡ c.base) × (result.at ≡ c.at) }
{
    let mut next = c;
    for _ in 0..buf.len() {
        if next.ended || buf.len() <= next.have {
            return next;
        }
        next = read_once(rt, reader, buf, next);
    }
    next
}

// Sees to it that a whole record is at hand, or the input's end.
pub fn refill<R: Read>(rt: &impl Eprint, reader: &mut R, buf: &mut [u8], c: Cursor) -> Cursor
    ensures { place_of result ≡ place_of c }
{
    if c.ended || LONGEST <= c.have.wrapping_sub(c.at) {
        return c;
    }
    let left = shift(buf, c.at, c.have);
    let base = c.base.wrapping_add(c.at as u64);
    let front = Cursor {
        base,
        at: 0,
        have: left,
        ended: false,
        failed: false,
    };
    fill(rt, reader, buf, front)
}

// The floats of the first n bit patterns, by index: of what `iter_mut` in a zip leaves in a list, no more than the length is known.
fn floats_of(bits: &[u32], out: &mut [f32], n: usize)
    ensures { out.new ≡ floats_over n bits.now out.old }
{
    for i in 0..n.min(bits.len()).min(out.len()) {
        out[i] = floats::from_bits(bits[i]);
    }
}

// The record at a place of the input, its lists as floats. The three lists are lent here alone.
// The arrays are named where a record is read: `ReadLists` borrows them, so a struct of them would be one more type for three lines.
pub fn next_record(
    input: &[u8],
    at: usize,
    amplitude: &mut [f32],
    phase: &mut [f32],
    pairs: &mut [f32],
) -> Result<Option<Record>, ReadError>
    ensures { heard (paper result) amplitude.new phase.new pairs.new ≡ heard_of input.now at amplitude.old phase.old pairs.old }
{
    let mut a = [0u32; 256];
    let mut p = [0u32; 256];
    let mut q = [0u32; 512];
    let mut lists = ReadLists {
        amplitudes: &mut a,
        phases: &mut p,
        pairs: &mut q,
    };
    let read = records::read_record(input, at, &mut lists)?;
    if let Some(record) = read {
        let n = record.header.subcarriers as usize;
        let m = 2 * (record.header.pairs as usize).min(256);
        floats_of(lists.amplitudes, amplitude, n);
        floats_of(lists.phases, phase, n);
        floats_of(lists.pairs, pairs, m);
    }
    Ok(read)
}
