// The recording format, on bytes alone: a record's reader and writer.
#![tactic(auto)]

ghost use Rattle.std.specs.Prelude.{◌≡◌, ℕ, List, ◌+◌, ◌*◌, ◌<◌, ◌≤◌, length, drop};
ghost use Rattle.std.proofs.lemmas.List.Edits.{sets};
ghost use Rattle.records.specs.Numbers.{number_in, number_bytes};
ghost use Rattle.records.specs.Fields.{field_in, fields_in};
ghost use Rattle.records.specs.Records.{numbers, header_of, floats_after, numbers_of, each, float_bytes, record_bytes};
ghost use Rattle.records.specs.Answers.{paper, paper_wrote, fault_number, read, write, stored, stores_long, counted, read_of, write_of};
ghost use Rattle.records.specs.Parts.{kind_of, field_read, head_read, float_at, floats_at, SameLists};

// The fields of a record but its lists. A float is its bits.
#[derive(Clone, Copy, PartialEq)]
pub struct Header {
    pub session: u64,
    pub source: u64,
    pub time: u64,
    pub exposable: bool,
    pub subcarriers: u64,
    pub pairs: u64,
    pub quality: u32,
}

// A record that was read, and the place after it.
#[derive(Clone, Copy, PartialEq)]
pub struct Record {
    pub header: Header,
    pub next: usize,
}

// Why a field is refused.
#[derive(Clone, Copy, Debug, PartialEq, Eq)]
pub enum Fault {
    // The bytes end within the field: reply 9.
    Cut,
    // A tenth byte above 1, or not the shortest form: reply 10.
    Malformed,
    // A count above 256: reply 5.
    Count,
    // An exposable flag above 1: reply 11.
    Flag,
}

// Why a record is not read.
#[derive(Clone, Copy, Debug, PartialEq, Eq)]
pub enum ReadError {
    // Reply 13: a lent list is short.
    Stores,
    // The first field at fault, with the offset of its first byte.
    Refused { fault: Fault, offset: usize },
}

// Why a record is not written.
#[derive(Clone, Copy, Debug, PartialEq, Eq)]
pub enum WriteError {
    // Reply 5: a count above 256, or a list of another length than its count.
    Counts,
    // Reply 12: the output is too short.
    Short,
}

// The lists that a record is read into.
#[derive(Drop)]
pub struct ReadLists<'a> {
    pub amplitudes: &'a mut [u32],
    pub phases: &'a mut [u32],
    pub pairs: &'a mut [u32],
}

// The lists of a record to be written. `rvcsi_core::frame::Lists` has floats; these are bits, and this crate stands on no other.
#[derive(Clone, Copy)]
pub struct BitLists<'a> {
    pub amplitudes: &'a [u32],
    pub phases: &'a [u32],
    pub pairs: &'a [u32],
}

impl Fault {
    // The number by which the scope document calls a fault.
    pub fn number(self) -> u64
        ensures { result ≡ fault_number self }
    {
        match self {
            Fault::Cut => 9,
            Fault::Malformed => 10,
            Fault::Count => 5,
            Fault::Flag => 11,
        }
    }
}

// ---- reading. Each part takes the whole input and a place in it: offsets count from the input's first byte, and the clauses speak of them.

// A number that was read, and the place after it.
#[derive(Clone, Copy)]
struct Number {
    value: u64,
    next: usize,
}

// `p` goes on with i, since the byte behind the nine is looked at too.
fn read_number(input: &[u8], at: usize) -> Result<Number, Fault>
    ensures { result ≡ field_read at (number_in 9 (drop at input.now)) }
{
    let mut value: u64 = 0;
    let mut weight: u64 = 1;
    let mut p = at;
    for i in 0..9usize {
        let Some(&byte) = input.get(p) else {
            return Err(Fault::Cut);
        };
        let b = u64::from(byte);
        if b < 128 {
            if b == 0 && 0 < i {
                return Err(Fault::Malformed);
            }
            return Ok(Number {
                value: value + weight * b,
                next: p + 1,
            });
        }
        value += weight * (b - 128);
        weight *= 128;
        p += 1;
    }
    let Some(&tenth) = input.get(p) else {
        return Err(Fault::Cut);
    };
    if tenth != 1 {
        return Err(Fault::Malformed);
    }
    Ok(Number {
        value: value + weight,
        next: p + 1,
    })
}

// What a number of the head stands for.
#[derive(Clone, Copy)]
enum Field {
    Number,
    Flag,
    Count,
}

// Session, source, time, flag, subcarriers, pairs.
const FIELDS: [Field; 6] = [
    Field::Number,
    Field::Number,
    Field::Number,
    Field::Flag,
    Field::Count,
    Field::Count,
];

fn read_field(input: &[u8], at: usize, field: Field) -> Result<Number, Fault>
    ensures { result ≡ field_read at (field_in (kind_of field) (drop at input.now)) }
{
    let read = read_number(input, at)?;
    match field {
        Field::Flag if 1 < read.value => Err(Fault::Flag),
        Field::Count if 256 < read.value => Err(Fault::Count),
        _ => Ok(read),
    }
}

// The header that six numbers make, its quality still 0. No `From`: six numbers are no header yet.
fn header_of(v: [u64; 6]) -> Header
    ensures { result ≡ header_of v }
{
    Header {
        session: v[0],
        source: v[1],
        time: v[2],
        exposable: v[3] == 1,
        subcarriers: v[4],
        pairs: v[5],
        quality: 0,
    }
}

// The six numbers of a record, and the place after them.
// By index: of what `iter_mut` beside a zip leaves in a list, no more than the length is known.
fn read_head(input: &[u8], at: usize) -> Result<Record, ReadError>
    ensures { result ≡ head_read (fields_in numbers at (drop at input.now)) }
{
    let mut v = [0u64; 6];
    let mut p = at;
    for (i, field) in FIELDS.iter().enumerate() {
        match read_field(input, p, *field) {
            Ok(Number { value, next }) => {
                v[i] = value;
                p = next;
            }
            Err(fault) => return Err(ReadError::Refused { fault, offset: p }),
        }
    }
    Ok(Record {
        header: header_of(v),
        next: p,
    })
}

fn read_float(input: &[u8], at: usize) -> u32
    requires { at + 4 ≤ length input.now }
    ensures { result ≡ float_at input.now at }
{
    u32::from_le_bytes([input[at], input[at + 1], input[at + 2], input[at + 3]])
}

// Reads n floats into the first n places, by index: of what `iter_mut` beside a zip leaves in a list, no more than the length is known.
fn read_floats(input: &[u8], at: usize, into: &mut [u32], n: usize)
    requires { (at + 4 * n ≤ length input.now) × (n ≤ length into.old) }
    ensures { into.new ≡ sets into.old 0 (floats_at input.now at n) }
{
    for i in 0..n {
        into[i] = read_float(input, at + 4 * i);
    }
}

fn read_lists(input: &[u8], at: usize, n: usize, m: usize, lists: &mut ReadLists<'_>)
    requires { (at + 8 * n + 8 * m ≤ length input.now) × (n ≤ length lists.old.amplitudes.now) × (n ≤ length lists.old.phases.now) × (2 * m ≤ length lists.old.pairs.now) }
    ensures amplitudes { lists.new.amplitudes.now ≡ sets lists.old.amplitudes.now 0 (floats_at input.now at n) }
    ensures phases { lists.new.phases.now ≡ sets lists.old.phases.now 0 (floats_at input.now (at + 4 * n) n) }
    ensures pairs { lists.new.pairs.now ≡ sets lists.old.pairs.now 0 (floats_at input.now (at + 8 * n) (2 * m)) }
    ensures same_references { SameLists lists.old lists.new }
{
    read_floats(input, at, lists.amplitudes, n);
    read_floats(input, at + 4 * n, lists.phases, n);
    read_floats(input, at + 8 * n, lists.pairs, 2 * m);
}

// The floats after a header: the lists are written once all are known to be there.
fn read_body(
    input: &[u8],
    at: usize,
    h: Header,
    lists: &mut ReadLists<'_>,
) -> Result<Option<Record>, ReadError>
    requires { (h.subcarriers ≤ 256) × (h.pairs ≤ 256) × (at ≤ length input.now) × (256 ≤ length lists.old.amplitudes.now) × (256 ≤ length lists.old.phases.now) × (512 ≤ length lists.old.pairs.now) }
    ensures outcome { read (paper result) lists.new.amplitudes.now lists.new.phases.now lists.new.pairs.now
        ≡ stored (floats_after h at (drop at input.now)) lists.old.amplitudes.now lists.old.phases.now lists.old.pairs.now }
    ensures same_references { SameLists lists.old lists.new }
{
    let n = h.subcarriers as usize;
    let m = h.pairs as usize;
    let size = 4 + 8 * n + 8 * m;
    let left = input.len() - at;
    if left < size {
        let offset = at + left / 4 * 4;
        let fault = Fault::Cut;
        return Err(ReadError::Refused { fault, offset });
    }
    let quality = read_float(input, at);
    let next = at + size;
    read_lists(input, at + 4, n, m, lists);
    let header = Header { quality, ..h };
    Ok(Some(Record { header, next }))
}

fn stores_long(lists: &ReadLists<'_>) -> bool
    ensures { result ≡ stores_long (length lists.now.amplitudes.now) (length lists.now.phases.now) (length lists.now.pairs.now) }
{
    256 <= lists.amplitudes.len() && 256 <= lists.phases.len() && 512 <= lists.pairs.len()
}

// Reads the record at a place of the input into the lent lists; `None` where no bytes are left. On a refusal nothing is written.
pub fn read_record(
    input: &[u8],
    at: usize,
    lists: &mut ReadLists<'_>,
) -> Result<Option<Record>, ReadError>
    ensures outcome { read (paper result) lists.new.amplitudes.now lists.new.phases.now lists.new.pairs.now
        ≡ read_of input.now at lists.old.amplitudes.now lists.old.phases.now lists.old.pairs.now }
    ensures same_references { SameLists lists.old lists.new }
{
    if !stores_long(lists) {
        return Err(ReadError::Stores);
    }
    if input.len() <= at {
        return Ok(None);
    }
    let head = read_head(input, at)?;
    read_body(input, head.next, head.header, lists)
}

// ---- writing. Each part writes from `at` on and returns the place behind it: the clauses are `sets out.old at ..`.

// What a record is written of: its numbers, and its floats as their bits.
trait Written: Copy {
    // Its bytes.
    ghost bytes: { Self → List ℕ };

    // Writes them from `at` on, and returns the place after them.
    fn write(self, out: &mut [u8], at: usize) -> usize
        requires { at + length (bytes self) ≤ length out.old }
        ensures place { result ≡ at + length (bytes self) }
        ensures written { out.new ≡ sets out.old at (bytes self) };
}

impl Written for u64 {
    ghost bytes = { number_bytes };

    fn write(self, out: &mut [u8], at: usize) -> usize {
        let mut rest = self;
        let mut p = at;
        // What is left of the number ends the loop: there is no range to go through.
        while 127 < rest {
            out[p] = (128 + rest % 128) as u8;
            rest /= 128;
            p += 1;
        }
        out[p] = rest as u8;
        p + 1
    }
}

// Four bytes, the lowest first.
impl Written for u32 {
    ghost bytes = { float_bytes };

    fn write(self, out: &mut [u8], at: usize) -> usize {
        out[at..at + 4].copy_from_slice(&self.to_le_bytes());
        at + 4
    }
}

// Writes values one behind the other, and returns the place after them.
fn write_each<T: Written>(out: &mut [u8], at: usize, values: &[T]) -> usize
    requires { at + length (each T.bytes values.now) ≤ length out.old }
    ensures place { result ≡ at + length (each T.bytes values.now) }
    ensures written { out.new ≡ sets out.old at (each T.bytes values.now) }
{
    let mut p = at;
    for v in values {
        p = v.write(out, p);
    }
    p
}

// How many bytes a number takes. What is left of it ends the loop: there is no index to count.
fn number_width(v: u64) -> usize
    ensures { (result ≡ length (number_bytes v)) × (result ≤ 10) }
{
    let mut rest = v;
    let mut n: usize = 1;
    while 127 < rest {
        rest /= 128;
        n += 1;
    }
    n
}

// The six numbers of a record.
fn numbers_of(h: Header) -> [u64; 6]
    ensures { result ≡ numbers_of h }
{
    [
        h.session,
        h.source,
        h.time,
        u64::from(h.exposable),
        h.subcarriers,
        h.pairs,
    ]
}

// How many bytes numbers in a row take.
fn numbers_width(vs: &[u64]) -> usize
    requires { length vs.now ≤ 6 }
    ensures { (result ≡ length (each number_bytes vs.now)) × (result ≤ 60) }
{
    let mut sum: usize = 0;
    for v in vs {
        sum += number_width(*v);
    }
    sum
}

fn write_all(out: &mut [u8], at: usize, h: Header, lists: &BitLists<'_>) -> usize
    requires { at + length (record_bytes h lists.now.amplitudes.now lists.now.phases.now lists.now.pairs.now) ≤ length out.old }
    ensures place { result ≡ at + length (record_bytes h lists.now.amplitudes.now lists.now.phases.now lists.now.pairs.now) }
    ensures written { out.new ≡ sets out.old at (record_bytes h lists.now.amplitudes.now lists.now.phases.now lists.now.pairs.now) }
{
    let vs = numbers_of(h);
    let p1 = write_each(out, at, &vs);
    let p2 = h.quality.write(out, p1);
    let p3 = write_each(out, p2, lists.amplitudes);
    let p4 = write_each(out, p3, lists.phases);
    write_each(out, p4, lists.pairs)
}

// Reply 5's test: the counts, then the lists.
fn counts_fit(h: Header, lists: &BitLists<'_>) -> bool
    ensures { result ≡ counted h (length lists.now.amplitudes.now) (length lists.now.phases.now) (length lists.now.pairs.now) }
{
    let n = h.subcarriers;
    let m = h.pairs;
    n <= 256
        && m <= 256
        && lists.amplitudes.len() as u64 == n
        && lists.phases.len() as u64 == n
        && lists.pairs.len() as u64 == 2 * m
}

// Writes a record from a place of the output on, and returns the place after it. On a refusal nothing is written.
pub fn write_record(
    out: &mut [u8],
    at: usize,
    header: Header,
    lists: &BitLists<'_>,
) -> Result<usize, WriteError>
    ensures { write (paper_wrote result) out.new ≡ write_of out.old at header lists.now.amplitudes.now lists.now.phases.now lists.now.pairs.now }
{
    if !counts_fit(header, lists) {
        return Err(WriteError::Counts);
    }
    let floats = 1 + lists.amplitudes.len() + lists.phases.len() + lists.pairs.len();
    let need = numbers_width(&numbers_of(header)) + 4 * floats;
    if out.len().saturating_sub(at) < need {
        return Err(WriteError::Short);
    }
    Ok(write_all(out, at, header, lists))
}
