// Lines from a reader, which is read a block at a time. std's buffered readers ask for a heap.
ghost use Rattle.std.specs.Prelude.{◌≡◌, ◌-◌, ◌≤◌, length};

use std::io::{Read, Result};

const BLOCK: usize = 512;

// A reader, until its input ends, and what was read of it and not yet passed on: the block's bytes from `start` up to `end`.
#[derive(Drop)]
pub struct Lines<R> {
    reader: Option<R>,
    block: [u8; BLOCK],
    start: usize,
    end: usize,
    ghost ordered: { start ≤ end },
    ghost in_block: { end ≤ 512 },
}

impl<R: Read + Drop> Lines<R> {
    pub fn new(reader: R) -> Self {
        Lines {
            reader: Some(reader),
            block: [0; BLOCK],
            start: 0,
            end: 0,
        }
    }

    // What was read and not yet passed on.
    fn left(&self) -> &[u8]
        ensures { length result.now ≡ self.now.end - self.now.start }
    {
        let block = &self.block[..];
        &block[self.start..self.end]
    }

    // Reads a block where nothing is left. At the end of the input nothing is left after that, and it is not read again.
    fn fill(&mut self) -> Result<()> {
        let Some(reader) = &mut self.reader else {
            return Ok(());
        };
        if self.start == self.end {
            let n = reader.read(&mut self.block)?;
            self.start = 0;
            self.end = n;
            if n == 0 {
                self.reader = None;
            }
        }
        Ok(())
    }

    // The next line, without its line end: no more of it than there is room for. There is none at the end of the input.
    pub fn next_line<'a>(&mut self, room: &'a mut [u8]) -> Result<Option<&'a [u8]>> {
        let mut len = 0;
        // A proved loop has to end: more turns than any run uses up.
        for _ in 0..u64::MAX {
            self.fill()?;
            let block = self.left();
            if block.is_empty() {
                break;
            }
            let end = block.iter().position(|b| *b == b'\n');
            let part = &block[..end.unwrap_or(block.len())];
            let n = part.len().min(room.len() - len);
            room[len..len + n].copy_from_slice(&part[..n]);
            len += n;
            if end.is_some() {
                self.start += part.len() + 1;
                return Ok(Some(&room[..len]));
            }
            self.start = self.end;
        }
        if len == 0 {
            return Ok(None);
        }
        Ok(Some(&room[..len]))
    }
}
