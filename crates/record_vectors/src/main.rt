// Runs the cases of data/vectors through the reader and the writer, and compares reply, place, header, lists and bytes.
// tools/record_vectors.py makes them, and says how a case is laid out.
#![tactic(auto)]

ghost use Rattle.std.specs.Prelude.{◌<◌, ◌≤◌};

use records::{BitLists, Fault, Header, ReadError, ReadLists, Record, WriteError};
use std::io::Read;
use std::{array, fs, io};

// What stands in a lent list before a call, and in an output.
const KEPT: u32 = 1515870810;

const BLANK: u8 = 165;

// ---- a case

// The bytes at a place of a case, 0 past its end.
fn bytes<const N: usize>(c: &[u8], at: usize) -> [u8; N] {
    array::from_fn(|k| c.get(at.saturating_add(k)).copied().unwrap_or(0))
}

fn byte(c: &[u8], at: usize) -> u8 {
    u8::from_le_bytes(bytes(c, at))
}

fn two(c: &[u8], at: usize) -> usize
    ensures { result < 65536 }
{
    usize::from(u16::from_le_bytes(bytes(c, at)))
}

fn word(c: &[u8], at: usize) -> u32 {
    u32::from_le_bytes(bytes(c, at))
}

fn long(c: &[u8], at: usize) -> u64 {
    u64::from_le_bytes(bytes(c, at))
}

fn is_write(c: &[u8]) -> bool {
    byte(c, 1) == 1
}

fn has_header(c: &[u8]) -> bool {
    is_write(c) || byte(c, 13) == 2
}

fn header_of(c: &[u8]) -> Header {
    Header {
        session: long(c, 16),
        source: long(c, 24),
        time: long(c, 32),
        exposable: byte(c, 40) == 1,
        subcarriers: long(c, 41),
        pairs: long(c, 49),
        quality: word(c, 57),
    }
}

// How many words the lists of a case have.
fn words_of(c: &[u8]) -> usize
    ensures { result < 262144 }
{
    if is_write(c) {
        two(c, 4) + two(c, 6) + two(c, 8)
    } else {
        2 * two(c, 41) + 2 * two(c, 49)
    }
}

// Where the bytes of a case begin.
fn body(c: &[u8]) -> usize
    ensures low { 16 ≤ result }
    ensures high { result < 1048638 }
{
    if has_header(c) {
        61 + 4 * words_of(c)
    } else {
        16
    }
}

// How many bytes they are.
fn body_size(c: &[u8]) -> usize
    ensures { result < 65536 }
{
    if !is_write(c) {
        two(c, 10)
    } else if byte(c, 12) == 0 {
        two(c, 14).saturating_sub(two(c, 2))
    } else {
        0
    }
}

// ---- what is due

fn fault_of(number: u8) -> Option<Fault> {
    match number {
        5 => Some(Fault::Count),
        9 => Some(Fault::Cut),
        10 => Some(Fault::Malformed),
        11 => Some(Fault::Flag),
        _ => None,
    }
}

// What a case that reads is due, by its number, kind and place; a reply that has no place stands beside the place 0.
fn due_read(c: &[u8]) -> Option<Result<Option<Record>, ReadError>> {
    match (byte(c, 12), byte(c, 13), two(c, 14)) {
        (0, 2, next) => Some(Ok(Some(Record {
            header: header_of(c),
            next,
        }))),
        (0, 0, 0) => Some(Ok(None)),
        (13, 0, 0) => Some(Err(ReadError::Stores)),
        (number, 1, offset) => {
            fault_of(number).map(|fault| Err(ReadError::Refused { fault, offset }))
        }
        _ => None,
    }
}

// What a case that writes is due.
fn due_write(c: &[u8]) -> Option<Result<usize, WriteError>> {
    match (byte(c, 12), byte(c, 13), two(c, 14)) {
        (0, 1, next) => Some(Ok(next)),
        (5, 0, 0) => Some(Err(WriteError::Counts)),
        (12, 0, 0) => Some(Err(WriteError::Short)),
        _ => None,
    }
}

// ---- comparing

// Whether the first n places of a list hold the words of the case from `from` on, and the others what they held.
// Not one function with `same_bytes`: over a closure for what is due it would need a contract on calls, and be no plainer.
fn same_list(list: &[u32], n: usize, c: &[u8], from: usize) -> bool {
    list.iter().enumerate().all(|(i, x)| {
        *x == if i < n {
            word(c, from.saturating_add(i.saturating_mul(4)))
        } else {
            KEPT
        }
    })
}

// Whether an output holds the case's bytes from `from` on at its places at..next, and elsewhere what it held.
fn same_bytes(out: &[u8], at: usize, next: usize, c: &[u8], from: usize) -> bool {
    out.iter().enumerate().all(|(i, x)| {
        *x == if at <= i && i < next {
            byte(c, from.saturating_add(i - at))
        } else {
            BLANK
        }
    })
}

// The words of the case from `from` on.
fn load(c: &[u8], from: usize, into: &mut [u32]) {
    for (i, x) in into.iter_mut().enumerate() {
        *x = word(c, from.saturating_add(i.saturating_mul(4)));
    }
}

// A record that was read, written back to its place: the same bytes again, and no others.
fn rewritten(c: &[u8], at: usize, record: Record, lists: &BitLists<'_>, from: usize) -> bool {
    let n = record.header.subcarriers as usize;
    let m = (record.header.pairs as usize).saturating_mul(2);
    let lists = BitLists {
        amplitudes: lists::front(lists.amplitudes, n),
        phases: lists::front(lists.phases, n),
        pairs: lists::front(lists.pairs, m),
    };
    let mut out = [BLANK; 5000];
    let wrote = records::write_record(&mut out, at, record.header, &lists);
    wrote == Ok(record.next) && same_bytes(&out, at, record.next, c, from)
}

fn reads(c: &[u8]) -> bool {
    let at = two(c, 2);
    let from = body(c);
    let Some(input) = c.get(from..from + body_size(c)) else {
        return false;
    };
    let mut a = [KEPT; 256];
    let mut p = [KEPT; 256];
    let mut q = [KEPT; 512];
    let (la, lp, lq) = (two(c, 4), two(c, 6), two(c, 8));
    let mut lists = ReadLists {
        amplitudes: &mut a[..la.min(256)],
        phases: &mut p[..lp.min(256)],
        pairs: &mut q[..lq.min(512)],
    };
    // longer lists than there are cannot be lent
    let read = if 256 < la || 256 < lp || 512 < lq {
        Err(ReadError::Stores)
    } else {
        records::read_record(input, at, &mut lists)
    };
    if Some(read) != due_read(c) {
        return false;
    }
    let Ok(Some(record)) = read else {
        return same_list(&a, 0, c, 0) && same_list(&p, 0, c, 0) && same_list(&q, 0, c, 0);
    };
    let n = two(c, 41);
    let lists = BitLists {
        amplitudes: &a,
        phases: &p,
        pairs: &q,
    };
    same_list(&a, n, c, 61)
        && same_list(&p, n, c, 61 + 4 * n)
        && same_list(&q, 2 * two(c, 49), c, 61 + 8 * n)
        && rewritten(c, at, record, &lists, from + at)
}

fn writes(c: &[u8]) -> bool {
    let at = two(c, 2);
    let la = two(c, 4).min(600);
    let lp = two(c, 6).min(600);
    let lq = two(c, 8).min(600);
    let mut a = [0u32; 600];
    let mut p = [0u32; 600];
    let mut q = [0u32; 600];
    load(c, 61, &mut a[..la]);
    load(c, 61 + 4 * la, &mut p[..lp]);
    load(c, 61 + 4 * la + 4 * lp, &mut q[..lq]);
    let lists = BitLists {
        amplitudes: &a[..la],
        phases: &p[..lp],
        pairs: &q[..lq],
    };
    let mut out = [BLANK; 5000];
    let room = two(c, 10);
    let wrote = if 5000 < room {
        Err(WriteError::Short)
    } else {
        records::write_record(&mut out[..room], at, header_of(c), &lists)
    };
    Some(wrote) == due_write(c) && same_bytes(&out, at, at + body_size(c), c, body(c))
}

fn is_same(c: &[u8]) -> bool {
    if is_write(c) { writes(c) } else { reads(c) }
}

// ---- groups of cases: their names are constant, and what is counted of them is lent beside.

const GROUPS: [&str; 8] = [
    "good records, read and written back",
    "damaged records",
    "records cut short",
    "counts",
    "short lists",
    "places at or past the end",
    "outputs",
    "wrong counts and lists",
];

// How many cases of a group were compared, and the first that differs, counted from 1.
#[derive(Clone, Copy, Default)]
struct Tally {
    compared: u64,
    differs: Option<u64>,
}

impl Tally {
    // A group's count ends at a million.
    fn add(&mut self, same: bool) {
        if 1_000_000 <= self.compared {
            return;
        }
        self.compared += 1;
        if !same && self.differs.is_none() {
            self.differs = Some(self.compared);
        }
    }
}

// The cases of a block one behind the other: each says how long it is, so there is no range to go through.
fn run_block(block: &[u8], tallies: &mut [Tally; 8]) {
    let mut rest = block;
    while let Some(group) = rest.first() {
        let Some(tally) = tallies.get_mut(usize::from(*group)) else {
            return;
        };
        tally.add(is_same(rest));
        let step = body(rest) + body_size(rest);
        let Some(more) = rest.get(step..) else {
            return;
        };
        rest = more;
    }
}

fn next_block<R: Read>(file: &mut R, tallies: &mut [Tally; 8]) -> io::Result<bool> {
    let mut block = [0u8; 65536];
    let n = reading::read_full(file, &mut block)?;
    run_block(&block[..n], tallies);
    Ok(0 < n)
}

fn run_all<R: Read>(file: &mut R, tallies: &mut [Tally; 8]) -> io::Result<()> {
    for _ in 0..u64::MAX {
        if !next_block(file, tallies)? {
            break;
        }
    }
    Ok(())
}

fn write_line(rt: &impl Print, name: &str, tally: Tally) -> io::Result<()> {
    print!(rt; "{name}: {}", tally.compared)?;
    if let Some(differs) = tally.differs {
        print!(rt; ", the first that differs: {differs}")?;
    }
    println!(rt; "")
}

fn main(rt: HostRuntime) -> io::Result<()> {
    let path = "vectors";
    match fs::open(&rt, path) {
        Ok(mut file) => {
            let mut tallies = [Tally::default(); 8];
            run_all(&mut file, &mut tallies)?;
            for (name, tally) in GROUPS.iter().zip(tallies) {
                write_line(&rt, name, tally)?;
            }
            Ok(())
        }
        Err(e) => eprintln!(rt; "{path}: {e}"),
    }
}
