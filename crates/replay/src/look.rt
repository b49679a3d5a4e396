// What a look shows: a number of each store, the buffer, and the detectors; and the recent windows at the end of a script.
use crate::stores::Stores;
use answers::{Answers, Float, Floats, Window};
use buffer_rules::WindowBuffer;
use forging::numbers::Numbers;
use pipeline::EventPipeline;
use pipeline::recent::Recent;
use slots::Detector;
use std::io;
use std::io::Write;

// The span of the pending frames shows as 0 where there are none.
fn put_buffer<W: Write>(out: &mut Answers<W>, b: WindowBuffer) -> io::Result<()> {
    let shown = if b.pending == 0 {
        [0, 0, 0]
    } else {
        [b.subcarrier_count as u64, b.first, b.last]
    };
    let [count, first, last] = shown;
    let cfg = b.cfg;
    let threshold = Float(cfg.presence_threshold);
    write!(out, "b {} {} ", b.session_id, b.source_id)?;
    write!(
        out,
        "{} {} {threshold} ",
        cfg.max_frames, cfg.max_duration_ns
    )?;
    writeln!(out, "{count} {} {first} {last}", b.pending)
}

fn put_detector<W: Write>(out: &mut Answers<W>, d: Detector) -> io::Result<()> {
    let kind = slots::kind_number(d);
    let numbers = Numbers::from(d);
    write!(out, "d {kind}")?;
    for word in numbers.words {
        write!(out, " {word:08x}")?;
    }
    let calibration = u64::from(numbers.calibration);
    writeln!(out, " {} {} {calibration}", numbers.switch, numbers.streak)
}

pub fn put_look<W: Write>(
    out: &mut Answers<W>,
    stores: &Stores,
    p: EventPipeline,
) -> io::Result<()> {
    let [a, b, c, d, e] = stores.sums();
    writeln!(out, "s {a} {b} {c} {d} {e}")?;
    let buffer = p.buffer;
    put_buffer(out, buffer)?;
    writeln!(
        out,
        "q{}",
        Floats(lists::front(&buffer.qualities, buffer.pending))
    )?;
    writeln!(
        out,
        "c{}",
        Floats(lists::front(&buffer.scales, buffer.pending))
    )?;
    for slot in p.detectors.slots.iter().take(p.detectors.count) {
        put_detector(out, slot.detector)?;
    }
    Ok(())
}

// A line for each recent window, newest last.
pub fn put_recent<W: Write>(out: &mut Answers<W>, recent: Recent) -> io::Result<()> {
    for window in recent.windows.iter().take(recent.count) {
        writeln!(out, "r {}", Window(*window))?;
    }
    Ok(())
}
