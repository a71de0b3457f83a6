// Encodings written at a place of a lent buffer. The caller has seen that they fit.
//
// The buffer goes with a place in it, and not as a part: so a contract says of the whole buffer what is
// written and what is kept (`put`), and no caller proves that again. The size goes along, since the caller has
// judged room by it: it is worked out once. Where a number becomes a byte, `as` is
// proved to lose no bit: `try_from` would add a refusal that never comes.
ghost use Rattle.std.specs.Prelude.{◌≡◌, ◌+◌, ◌≤◌, length};
ghost use Rattle.rlp.specs.Bytes.{be};
ghost use Rattle.rlp.specs.Tree.{header, header_size, str, enc};
ghost use Rattle.encode.specs.Put.{put};
ghost use Rattle.encode.specs.Encode.{numeral};

use crate::moves::copy_at;

// The `size` bytes of a number, most significant first. By `to_be_bytes` and a copy of the tail a number of up to 4 bytes
// takes a third more instructions.
#[tactic(auto, using(crate::proofs::Writes::be_steps))]
fn write_be(buf: &mut [u8], at: usize, n: usize, size: usize)
    requires { (size ≡ length (be n)) × (at + size ≤ length buf.old) }
    ensures { buf.new ≡ put buf.old at (be n) }
{
    let mut left = n;
    for i in (0..size).rev() {
        buf[at + i] = (left % 256) as u8;
        left /= 256;
    }
}

// What stands before a payload of n bytes: `first` is where the first bytes of strings begin, or those of lists.
// inner: the stream and the amender write every list's header so
#[tactic(auto, using(crate::proofs::Writes::header_steps))]
pub fn write_header(buf: &mut [u8], at: usize, first: u8, n: usize, size: usize)
    requires { (first ≤ 192) × (size ≡ header_size n) × (at + size ≤ length buf.old) }
    ensures { buf.new ≡ put buf.old at (header first n) }
{
    if n < 56 {
        buf[at] = first + (n as u8);
    } else {
        buf[at] = first + 54 + (size as u8);
        write_be(buf, at + 1, n, size - 1);
    }
}

// A string's encoding.
// inner: the stream writes every string so
#[tactic(auto, using(crate::proofs::Writes::string_steps))]
pub fn write_string(buf: &mut [u8], at: usize, src: &[u8], size: usize)
    requires { (size ≡ length (enc (str src.now))) × (at + size ≤ length buf.old) }
    ensures { buf.new ≡ put buf.old at (enc (str src.now)) }
{
    let before = size - src.len();
    copy_at(buf, at + before, src);
    if 0 < before {
        write_header(buf, at, 0x80, src.len(), before);
    }
}

// A scalar's encoding.
// inner: the stream writes every number so
#[tactic(auto, using(crate::proofs::Writes::scalar_steps))]
pub fn write_scalar(buf: &mut [u8], at: usize, n: usize, size: usize)
    requires { (size ≡ length (enc (numeral n))) × (at + size ≤ length buf.old) }
    ensures { buf.new ≡ put buf.old at (enc (numeral n)) }
{
    if n == 0 {
        buf[at] = 0x80;
    } else if n < 0x80 {
        buf[at] = n as u8;
    } else {
        buf[at] = 0x7f + (size as u8);
        write_be(buf, at + 1, n, size - 1);
    }
}
