// What rlpcheck says of a file: the line for its bytes, and the file read and answered.
#![tactic(auto)]

mod file;

ghost use Rattle.std.specs.Prelude.{◌≡◌, ◌+◌, ◌≤◌, length};
ghost use Rattle.io.specs.Counts.{IsPrefixLen};
ghost use Rattle.encode.specs.Put.{put};
ghost use Rattle.verdict.specs.Verdict.{verdict};
ghost use Rattle.verdict.specs.Line.{line_of, accepted_line, refused_line};
ghost use Rattle.verdict.specs.Steps.{Spelled, Lined};
ghost use Rattle.verdict.specs.Claims.{Claimed};

pub use file::{fail, say_file};
use rlp::Refusal;
use strict::Tally;

// A file has at most so many bytes.
pub const LARGEST: usize = 65_536;

// The answer for a file's bytes: 12 for too many, else the strict check's.
#[tactic(auto, unfolding(crate::specs::Verdict::largest, crate::specs::Verdict::verdict, rlp::specs::Refusals::unless))]
fn answer(bytes: &[u8]) -> Result<Tally, Refusal>
    ensures { result ≡ verdict bytes.now }
{
    if LARGEST < bytes.len() {
        return Err(Refusal::TooLarge);
    }
    strict::check(bytes)
}

// A number in decimal, at a place; answers the place behind it.
// A line is put together from pieces, and no answer is a Display: `write!` promises only what it has written
// where it says Ok, and there is a line whatever the bytes.
fn put_decimal(out: &mut [u8], at: usize, n: usize) -> usize
    requires { at + 20 ≤ length out.old }
    ensures { Spelled out.old out.new at n result }
{
    let mut text = [0u8; 20];
    let k = io::decimal(n as u64, &mut text); // from usize to u64 there is no `From`
    encode::copy_at(out, at, &text[..k]);
    at + k
}

// The line of an accepted sheet, at the front; answers its length.
fn put_accepted(out: &mut [u8; 64], tally: Tally) -> usize
    ensures { Lined out.old out.new (accepted_line tally.items tally.depth) result }
{
    encode::copy_at(out, 0, b"accepted items=");
    let items = put_decimal(out, 15, tally.items);
    encode::copy_at(out, items, b" depth=");
    let depth = put_decimal(out, items + 7, tally.depth);
    encode::copy_at(out, depth, b"\n");
    depth + 1
}

// The line of a refusal, at the front; answers its length.
fn put_refused(out: &mut [u8; 64], e: Refusal) -> usize
    ensures { Lined out.old out.new (refused_line e) result }
{
    encode::copy_at(out, 0, b"refused ");
    let number = put_decimal(out, 8, usize::from(e.number()));
    encode::copy_at(out, number, b"\n");
    number + 1
}

// The line for a file's bytes, at the front of `out`; answers its length. What lies behind it is kept: there is no heap for a
// text of its own.
#[tactic(auto, unfolding(crate::specs::Line::line_of))]
pub fn line(bytes: &[u8], out: &mut [u8; 64]) -> usize
    ensures out_after { out.new ≡ put out.old 0 (line_of (verdict bytes.now)) }
    ensures value { result ≡ length (line_of (verdict bytes.now)) }
    ensures prefix_len { IsPrefixLen result out.new }
{
    match answer(bytes) {
        Ok(tally) => put_accepted(out, tally),
        Err(e) => put_refused(out, e),
    }
}

// What specs/Claims.antt claims is proved.
fn claimed()
    ensures { Claimed }
{}
