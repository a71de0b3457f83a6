// All that writes bytes, once: the encodings of Appendix B at a place of a lent buffer, and moves within it.
//
// The calls of this file are what the crate rlp 0.6.1 gives by encode, for each type of its own: one
// encoding into the front of a lent buffer.
#![tactic(auto)]

mod moves;
mod scalars;
mod sizes;
mod write;

ghost use Rattle.std.specs.Prelude.{◌≡◌, ◌&&◌, [], length, nat_le, Ok};
ghost use Rattle.rlp.specs.declared.Refusal.TheVariants.{TooLarge, NoRoom};
ghost use Rattle.rlp.specs.Refusals.{unless};
ghost use Rattle.rlp.specs.Limits.{limit};
ghost use Rattle.rlp.specs.Tree.{str, list, end};
ghost use Rattle.encode.specs.Encode.{encoded};
ghost use Rattle.encode.specs.Answers.{leaves};
ghost use Rattle.encode.specs.Claims.{Claimed};

pub use moves::{copy_at, slide};
use rlp::Refusal;
pub use scalars::Scalar;
pub use sizes::{be_size, header_size, scalar_size, string_size};
pub use write::{write_header, write_scalar, write_string};

// Refuses `size` bytes that do not fit a buffer of `room` bytes, and a buffer, or `lent` bytes beside it, over the limit.
#[tactic(auto, unfolding(rlp::specs::Refusals::unless))]
fn check_room(size: usize, room: usize, lent: usize) -> Result<(), Refusal>
    ensures { result ≡ unless (nat_le room limit && nat_le lent limit) TooLarge (unless (nat_le size room) NoRoom (Ok tt)) }
{
    if rlp::LIMIT < room || rlp::LIMIT < lent {
        return Err(Refusal::TooLarge);
    }
    if room < size {
        return Err(Refusal::NoRoom);
    }
    Ok(())
}

// A string. Like each call here it answers how many bytes it wrote to the buffer's front.
#[tactic(auto, unfolding(crate::specs::Encode::encoded, crate::specs::Encode::wrote, crate::specs::Answers::leaves, rlp::specs::Refusals::unless))]
pub fn encode_bytes(buf: &mut [u8], src: &[u8]) -> Result<usize, Refusal>
    ensures { leaves result buf.new ≡ encoded buf.old (length src.now) (str src.now) }
{
    let size = string_size(src);
    check_room(size, buf.len(), src.len())?;
    write_string(buf, 0, src, size);
    Ok(size)
}

// A number of any width, or a bool.
#[tactic(auto, unfolding(crate::specs::Encode::encoded, crate::specs::Encode::wrote, crate::specs::Answers::leaves, rlp::specs::Refusals::unless))]
pub fn encode_scalar<T: Scalar>(buf: &mut [u8], value: T) -> Result<usize, Refusal>
    ensures { leaves result buf.new ≡ encoded buf.old 0 (T.item value) }
{
    let n = value.number();
    let size = scalar_size(n);
    check_room(size, buf.len(), 0)?;
    write_scalar(buf, 0, n, size);
    Ok(size)
}

// The empty string, which is what 0 is.
#[tactic(auto, using(crate::proofs::Numbers::zero_bytes))]
pub fn encode_empty_data(buf: &mut [u8]) -> Result<usize, Refusal>
    ensures { leaves result buf.new ≡ encoded buf.old 0 (str []) }
{
    encode_scalar(buf, 0_u8)
}

#[tactic(auto, unfolding(crate::specs::Encode::encoded, crate::specs::Encode::wrote, crate::specs::Answers::leaves, rlp::specs::Refusals::unless), using(crate::proofs::Writes::empty_list_steps))]
pub fn encode_empty_list(buf: &mut [u8]) -> Result<usize, Refusal>
    ensures { leaves result buf.new ≡ encoded buf.old 0 (list end) }
{
    check_room(1, buf.len(), 0)?;
    buf[0] = 0xc0;
    Ok(1)
}

// What specs/Claims.antt claims is proved.
fn claimed()
    ensures { Claimed }
{}
