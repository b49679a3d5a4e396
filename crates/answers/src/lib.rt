// The lines of an answer. They gather in 65,536 bytes, which are written out when there is no room for the next one.
#![tactic(auto)]

ghost use Rattle.std.specs.Prelude.{◌≤◌};

use rvcsi_core::event::CsiEvent;
use rvcsi_core::window::CsiWindow;
use slots::Batch;
use std::io::Write;
use std::{fmt, io, str};

const ROOM: usize = 65536;

const DIGITS: [u8; 16] = *b"0123456789abcdef";

// A writer, and what was answered but is not yet written: the first `end` bytes.
#[derive(Drop)]
pub struct Answers<W> {
    to: W,
    bytes: [u8; ROOM],
    end: usize,
    ghost within: { end ≤ 65536 },
}

impl<W: Write> Answers<W> {
    pub fn new(to: W) -> Self {
        Answers {
            to,
            bytes: [0; ROOM],
            end: 0,
        }
    }
}

impl<W: Write> Write for Answers<W> {
    fn write(&mut self, buf: &[u8]) -> io::Result<usize> {
        if self.end == ROOM && !buf.is_empty() {
            self.to.write_all(&self.bytes)?;
            self.end = 0;
        }
        let n = buf.len().min(ROOM - self.end);
        self.bytes[self.end..self.end + n].copy_from_slice(&buf[..n]);
        self.end += n;
        Ok(n)
    }

    fn flush(&mut self) -> io::Result<()> {
        self.to.write_all(&self.bytes[..self.end])?;
        self.end = 0;
        self.to.flush()
    }
}

// A space, and the bits of a float as 8 hexadecimal digits. By hand: answers are floats for the most part, and `{:08x}` takes half as long again.
fn spaced(x: f32) -> [u8; 9] {
    let mut text = *b" 00000000";
    let mut rest = floats::to_bits(x);
    for digit in text[1..].iter_mut().rev() {
        *digit = DIGITS[(rest % 16) as usize];
        rest /= 16;
    }
    text
}

// Text to a formatter. It is ASCII: the error never comes.
fn put<W: fmt::Write>(f: &mut fmt::Formatter<W>, text: &[u8]) -> fmt::Result {
    match str::from_utf8(text) {
        Ok(text) => f.write_str(text),
        Err(_) => Err(fmt::Error),
    }
}

// A float by its bits.
#[derive(Clone, Copy)]
pub struct Float(pub f32);

impl fmt::Display for Float {
    fn fmt<W: fmt::Write>(&self, f: &mut fmt::Formatter<W>) -> fmt::Result {
        put(f, &spaced(self.0)[1..])
    }
}

// A list of floats, each behind a space.
#[derive(Clone, Copy)]
pub struct Floats<'a>(pub &'a [f32]);

impl fmt::Display for Floats<'_> {
    fn fmt<W: fmt::Write>(&self, f: &mut fmt::Formatter<W>) -> fmt::Result {
        for x in self.0 {
            put(f, &spaced(*x))?;
        }
        Ok(())
    }
}

// The fields of a window.
#[derive(Clone, Copy)]
pub struct Window(pub CsiWindow);

impl fmt::Display for Window {
    fn fmt<W: fmt::Write>(&self, f: &mut fmt::Formatter<W>) -> fmt::Result {
        let w = self.0;
        write!(f, "{} {} {} ", w.window_id, w.session_id, w.source_id)?;
        write!(f, "{} {} {} ", w.start_ns, w.end_ns, w.frame_count)?;
        let [motion, presence, quality] = [
            Float(w.motion_energy),
            Float(w.presence_score),
            Float(w.quality_score),
        ];
        write!(f, "{motion} {presence} {quality}")
    }
}

// The fields of an event.
#[derive(Clone, Copy)]
struct Event(CsiEvent);

impl fmt::Display for Event {
    fn fmt<W: fmt::Write>(&self, f: &mut fmt::Formatter<W>) -> fmt::Result {
        let e = self.0;
        let kind = e.kind as u64;
        let confidence = Float(e.confidence);
        write!(f, "{} {kind} {} {} ", e.event_id, e.session_id, e.source_id)?;
        write!(f, "{} {confidence} {}", e.timestamp_ns, e.window_id)
    }
}

// A line for each event of a batch, in order.
#[derive(Clone, Copy)]
pub struct Events(pub Batch);

impl fmt::Display for Events {
    fn fmt<W: fmt::Write>(&self, f: &mut fmt::Formatter<W>) -> fmt::Result {
        let batch = self.0;
        for event in batch.events.iter().take(batch.count) {
            writeln!(f, "e {}", Event(*event))?;
        }
        Ok(())
    }
}
