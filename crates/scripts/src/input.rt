// The scripts of a reader, as far as they are read: 65,536 bytes at most.
ghost use Rattle.std.specs.Prelude.{◌≤◌};

use std::io;
use std::io::Read;

const ROOM: usize = 65536;

// No command is longer than this.
const LONGEST: usize = 7244;

// The bytes from `start` to `end` are read but not yet used.
#[derive(Drop)]
pub struct Input<R> {
    reader: R,
    bytes: [u8; ROOM],
    start: usize,
    end: usize,
    ended: bool,
    ghost ordered: { start ≤ end },
    ghost within: { end ≤ 65536 },
}

impl<R: Read> Input<R> {
    pub fn new(reader: R) -> Self {
        Input {
            reader,
            bytes: [0; ROOM],
            start: 0,
            end: 0,
            ended: false,
        }
    }

    // The unread bytes. Where the longest command may not be there whole they come to the front, and more are read behind them.
    pub fn fill_buf(&mut self) -> io::Result<&[u8]> {
        if !self.ended && self.end - self.start < LONGEST {
            self.fill()?;
        }
        let filled = &*self;
        Ok(&filled.bytes[filled.start..filled.end])
    }

    // The first n unread bytes are used, or all where they are fewer.
    pub fn consume(&mut self, n: usize) {
        self.start += n.min(self.end - self.start);
    }

    fn fill(&mut self) -> io::Result<()> {
        let unread = self.end - self.start;
        self.bytes.copy_within(self.start..self.end, 0);
        self.start = 0;
        self.end = unread;
        let read = reading::read_full(&mut self.reader, &mut self.bytes[unread..])?;
        self.end = unread + read;
        self.ended = self.end < ROOM;
        Ok(())
    }
}
