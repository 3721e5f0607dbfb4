// The lines of the card, one at a time.
ghost use Rattle.std.specs.Prelude.{◌≤◌};

use replay_read::{fill, keep};
use std::io::Read;

// A chunk of the input: what was read and not used yet are its bytes from `at` to `end`.
#[derive(Clone, Copy)]
pub(crate) struct Lines {
    chunk: [u8; 4096],
    at: usize,
    end: usize,
    ghost in_bounds: { end ≤ 4096 },
}

impl Lines {
    pub(crate) fn new() -> Lines {
        Lines {
            chunk: [0; 4096],
            at: 0,
            end: 0,
        }
    }

    // The next byte; none at the end of the input. Reads only where nothing is left, since the card may wait for the next command.
    // A line of `count` bytes has arrived so far.
    fn next<R: Read>(&mut self, input: &mut R, count: usize) -> std::io::Result<Option<u8>> {
        if self.at >= self.end {
            let end = fill(input, &mut self.chunk, count)?;
            if end == 0 {
                return Ok(None);
            }
            self.at = 0;
            self.end = end;
        }
        let byte = self.chunk[self.at];
        self.at += 1;
        Ok(Some(byte))
    }

    // The next line, without its newline; an empty one at the end of the input. Bytes past the buffer's length are dropped.
    pub(crate) fn line<R: Read>(
        &mut self,
        input: &mut R,
        line: &mut [u8],
    ) -> std::io::Result<usize> {
        let mut count: usize = 0;
        for _ in 0..u64::MAX {
            match self.next(input, count)? {
                None | Some(b'\n') => break,
                Some(byte) => count = keep(line, count, byte),
            }
        }
        Ok(count)
    }
}
