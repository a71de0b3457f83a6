// A writer that gathers what is written in a block, and passes the block on when it is full. std's buffered writers ask for a heap.
ghost use Rattle.std.specs.Prelude.{◌<◌, ◌≤◌};

use std::io::{Result, Write};

const BLOCK: usize = 512;

// How many bytes give a block of hex digits.
const HALF: usize = BLOCK / 2;

// The hex digit of a number below 16.
fn hex_digit(n: u8) -> u8
    requires { n < 16 }
{
    match n {
        0..=9 => b'0' + n,
        _ => b'a' - 10 + n,
    }
}

// The block's first bytes wait to be passed on.
#[derive(Drop)]
pub struct Output<W> {
    writer: W,
    block: [u8; BLOCK],
    len: usize,
    ghost in_block: { len ≤ 512 },
}

impl<W: Write + Drop> Output<W> {
    pub fn new(writer: W) -> Self {
        Output {
            writer,
            block: [0; BLOCK],
            len: 0,
        }
    }

    // Bytes in hex, a block of digits at a time: `-` where there are none. What waits is passed on before each block.
    pub fn write_hex(&mut self, bytes: &[u8]) -> Result<()> {
        if bytes.is_empty() {
            return self.write_all(b"-");
        }
        for part in bytes.chunks(HALF) {
            self.flush()?;
            let (pairs, _) = self.block.as_chunks_mut();
            for (pair, b) in pairs.iter_mut().zip(part) {
                *pair = [hex_digit(b / 16), hex_digit(b % 16)];
            }
            self.len = 2 * part.len();
        }
        Ok(())
    }
}

impl<W: Write + Drop> Write for Output<W> {
    fn write(&mut self, buf: &[u8]) -> Result<usize> {
        if self.len == BLOCK {
            self.flush()?;
        }
        let n = buf.len().min(BLOCK - self.len);
        self.block[self.len..self.len + n].copy_from_slice(&buf[..n]);
        self.len += n;
        Ok(n)
    }

    fn flush(&mut self) -> Result<()> {
        self.writer.write_all(&self.block[..self.len])?;
        self.len = 0;
        Ok(())
    }
}
