// The listing of a run, on bytes alone: its heading, a line for an event, a refusal and the end, and the counts that the end line gives.
#![tactic(auto)]

ghost use Rattle.std.specs.Prelude.{◌≡◌, ◌+◌, ◌<◌, ◌≤◌, length, drop};
ghost use Rattle.std.proofs.lemmas.List.Edits.{sets};
ghost use Rattle.listing.specs.Text.{digits, trimmed};
ghost use Rattle.listing.specs.Text.{glyph as Text·glyph};
ghost use Rattle.listing.specs.Lines.{heading_line, kind_field, bits_field, event_line, stop_line, end_line, Placed};
ghost use Rattle.listing.specs.Lines.{field as Lines·field, word as Lines·word};
ghost use Rattle.listing.specs.Counting.{more_if, count_frame, count_flush};
ghost use Rattle.listing.specs.Counting.{skips as Counting·skips};

use rvcsi_core::event::{CsiEvent, CsiEventKind};

// The longest line has 89 bytes.
pub const LINE: usize = 96;

// ---- bytes. Each part takes the place where it begins and returns the one behind it: `Placed` says both as equations, with no state to keep.
// It is no `Display` with `write!`, since their clauses say nothing of the bytes.

// A digit as text.
fn glyph(d: u64) -> u8
    requires { d < 16 }
    ensures { result ≡ Text·glyph d }
{
    if d < 10 { 48 + d as u8 } else { 87 + d as u8 }
}

// The last k digits of n in a base, from `at` on, the last first. By index: of what `iter_mut().rev()` leaves in a list, no more than the length is known.
fn spell(out: &mut [u8], at: usize, base: u64, k: usize, n: u64)
    requires { (at + k ≤ length out.old) × (0 < base) × (base ≤ 16) }
    ensures { out.new ≡ sets out.old at (digits base k n) }
{
    let mut rest = n;
    for i in (0..k).rev() {
        out[at + i] = glyph(rest % base);
        rest /= base;
    }
}

// How many zeros stand in front, the last digit aside. By a loop: of `position` under a slice one goal was left.
fn zeros(text: &[u8]) -> usize
    ensures { (drop result text.now ≡ trimmed text.now) × (result ≤ length text.now) }
{
    let last = text.len().saturating_sub(1);
    for (i, digit) in text[..last].iter().enumerate() {
        if *digit != b'0' {
            return i;
        }
    }
    last
}

// Bytes from `at` on; the place after them.
fn put(out: &mut [u8], at: usize, bytes: &[u8]) -> usize
    requires { at + length bytes.now ≤ length out.old }
    ensures { (result ≡ at + length bytes.now) × (out.new ≡ sets out.old at bytes.now) }
{
    let end = at + bytes.len();
    out[at..end].copy_from_slice(bytes);
    end
}

// A number in twenty decimal digits.
fn twenty(n: u64) -> [u8; 20]
    ensures { result ≡ digits 10 20 n }
{
    let mut text = [0u8; 20];
    spell(&mut text, 0, 10, 20, n);
    text
}

// A number in decimal and the byte behind it, from `at` on; the place after them.
fn field(out: &mut [u8], at: usize, n: u64, behind: u8) -> usize
    requires { at + 21 ≤ length out.old }
    ensures { Placed out.old at (Lines·field n behind) 21 out.new result }
{
    let text = twenty(n);
    let from = zeros(&text);
    let p = put(out, at, &text[from..]);
    out[p] = behind;
    p + 1
}

// A kind's word.
fn word(kind: CsiEventKind) -> &'static [u8]
    ensures { result.now ≡ Lines·word kind }
{
    match kind {
        CsiEventKind::PresenceStarted => b"presence-started",
        CsiEventKind::PresenceEnded => b"presence-ended",
        CsiEventKind::MotionDetected => b"motion-detected",
        CsiEventKind::MotionSettled => b"motion-settled",
        CsiEventKind::BaselineChanged => b"baseline-changed",
        CsiEventKind::SignalQualityDropped => b"quality-dropped",
        CsiEventKind::AnomalyDetected => b"anomaly",
        CsiEventKind::CalibrationRequired => b"calibration",
    }
}

// A kind's word and a comma, from `at` on; the place after them.
fn kind_field(out: &mut [u8], at: usize, kind: CsiEventKind) -> usize
    requires { at + 17 ≤ length out.old }
    ensures { Placed out.old at (kind_field kind) 17 out.new result }
{
    let p = put(out, at, word(kind));
    out[p] = b',';
    p + 1
}

// A confidence's bits in eight hexadecimal digits, and the line's end.
fn bits_field(out: &mut [u8], at: usize, bits: u32) -> usize
    requires { at + 9 ≤ length out.old }
    ensures { Placed out.old at (bits_field bits) 9 out.new result }
{
    spell(out, at, 16, 8, u64::from(bits));
    let p = at + 8;
    out[p] = b'\n';
    p + 1
}

// ---- lines: each is written to the front of a lent array, which has room for any, and returns how many bytes it has. The other places stay.

// The heading.
pub fn heading(out: &mut [u8; LINE]) -> usize
    ensures { (result ≡ length heading_line) × (out.new ≡ sets out.old 0 heading_line) }
{
    put(out, 0, b"event,window,kind,time,confidence\n")
}

// An event's line.
pub fn event_line(out: &mut [u8; LINE], e: CsiEvent) -> usize
    ensures { (result ≡ length (event_line e)) × (out.new ≡ sets out.old 0 (event_line e)) }
{
    let kind = e.kind;
    let bits = floats::to_bits(e.confidence);
    let p1 = field(out, 0, e.event_id, b',');
    let p2 = field(out, p1, e.window_id, b',');
    let p3 = kind_field(out, p2, kind);
    let p4 = field(out, p3, e.timestamp_ns, b',');
    bits_field(out, p4, bits)
}

// The line of a refusal: its number and its offset.
pub fn stop_line(out: &mut [u8; LINE], number: u64, offset: u64) -> usize
    ensures { (result ≡ length (stop_line number offset)) × (out.new ≡ sets out.old 0 (stop_line number offset)) }
{
    let p1 = put(out, 0, b"stop,");
    let p2 = field(out, p1, number, b',');
    field(out, p2, offset, b'\n')
}

// The end line.
pub fn end_line(out: &mut [u8; LINE], c: Counts) -> usize
    ensures { (result ≡ length (end_line c)) × (out.new ≡ sets out.old 0 (end_line c)) }
{
    let p1 = put(out, 0, b"end,");
    let p2 = field(out, p1, c.accepted, b',');
    let p3 = field(out, p2, c.windows, b',');
    field(out, p3, c.skipped, b'\n')
}

// ---- counts

// By default nothing is counted yet.
#[derive(Clone, Copy, Default)]
pub struct Counts {
    pub accepted: u64,
    pub windows: u64,
    pub skipped: u64,
}

// One more where the test holds; 2^64 - 1 stays.
#[tactic(auto, unfolding(crate::specs::Counting::more))]
fn more_if(test: bool, n: u64) -> u64
    ensures { result ≡ more_if test n }
{
    n.saturating_add(u64::from(test))
}

// Does a reply of this number skip its frame? By the scope document's number: the clause answers every number, refusals or not.
#[tactic(auto, unfolding(crate::specs::Counting::skips))]
pub fn skips(number: u64) -> bool
    ensures { result ≡ Counting·skips number }
{
    matches!(number, 2..=4 | 6..=8)
}

// The counts after a frame's reply of this number, which closed a window or did not. As `skips`, by any number.
#[tactic(auto, unfolding(crate::specs::Counting::count_frame))]
pub fn count_frame(c: Counts, number: u64, closed: bool) -> Counts
    ensures { result ≡ count_frame c number closed }
{
    let taken = number == 0;
    Counts {
        accepted: more_if(taken, c.accepted),
        windows: more_if(taken && closed, c.windows),
        skipped: more_if(skips(number), c.skipped),
    }
}

// The counts after the flush.
#[tactic(auto, unfolding(crate::specs::Counting::count_flush))]
pub fn count_flush(c: Counts, closed: bool) -> Counts
    ensures { result ≡ count_flush c closed }
{
    Counts {
        windows: more_if(closed, c.windows),
        ..c
    }
}
