// One encoding at the front of a buffer, and amending in place. The answer is a length.
#![tactic(auto, using(crate::proofs::Truths::truth_so), unfolding(crate::specs::Answers::fills, crate::specs::Answers::written, crate::specs::Answers::exchanged, encode::specs::Answers::leaves, amend::specs::Answers::leaves))]

ghost use Rattle.std.specs.Prelude.{◌≡◌, [], length};
ghost use Rattle.rlp.specs.Tree.{str, list, end};
ghost use Rattle.encode.specs.Encode.{numeral, flag, encoded};
ghost use Rattle.amend.specs.Amend.{amended};
ghost use Rattle.loughcable.specs.Answers.{truth_of, answered, fills, written, exchanged};

use crate::Answer;

#[unsafe(no_mangle)]
pub extern "C" fn loughcable_encode_bytes(buf: &mut [u8], src: &[u8]) -> Answer
    ensures { fills result buf.new ≡ written (encoded buf.old (length src.now) (str src.now)) }
{
    encode::encode_bytes(buf, src).into()
}

// Numbers. C has no generic function: so each width is an export of its own, and one call serves them.
#[unsafe(no_mangle)]
pub extern "C" fn loughcable_encode_u8(buf: &mut [u8], n: u8) -> Answer
    ensures { fills result buf.new ≡ written (encoded buf.old 0 (numeral n)) }
{
    encode::encode_scalar(buf, n).into()
}

#[unsafe(no_mangle)]
pub extern "C" fn loughcable_encode_u16(buf: &mut [u8], n: u16) -> Answer
    ensures { fills result buf.new ≡ written (encoded buf.old 0 (numeral n)) }
{
    encode::encode_scalar(buf, n).into()
}

#[unsafe(no_mangle)]
pub extern "C" fn loughcable_encode_u32(buf: &mut [u8], n: u32) -> Answer
    ensures { fills result buf.new ≡ written (encoded buf.old 0 (numeral n)) }
{
    encode::encode_scalar(buf, n).into()
}

#[unsafe(no_mangle)]
pub extern "C" fn loughcable_encode_u64(buf: &mut [u8], n: u64) -> Answer
    ensures { fills result buf.new ≡ written (encoded buf.old 0 (numeral n)) }
{
    encode::encode_scalar(buf, n).into()
}

// 0 is false, any other number true.
#[unsafe(no_mangle)]
pub extern "C" fn loughcable_encode_bool(buf: &mut [u8], truth: u32) -> Answer
    ensures { fills result buf.new ≡ written (encoded buf.old 0 (flag (truth_of truth))) }
{
    encode::encode_scalar(buf, truth != 0).into()
}

#[unsafe(no_mangle)]
pub extern "C" fn loughcable_encode_empty_data(buf: &mut [u8]) -> Answer
    ensures { fills result buf.new ≡ written (encoded buf.old 0 (str [])) }
{
    encode::encode_empty_data(buf).into()
}

#[unsafe(no_mangle)]
pub extern "C" fn loughcable_encode_empty_list(buf: &mut [u8]) -> Answer
    ensures { fills result buf.new ≡ written (encoded buf.old 0 (list end)) }
{
    encode::encode_empty_list(buf).into()
}

// The item at the path, in the sheet that is the buffer's first n bytes, gives way to the replacement.
#[unsafe(no_mangle)]
pub extern "C" fn loughcable_amend(
    buf: &mut [u8],
    n: usize,
    path: &[usize],
    replacement: &[u8],
) -> Answer
    ensures { fills result buf.new ≡ exchanged (amended buf.old n path.now replacement.now) }
{
    amend::amend(buf, n, path, replacement).into()
}
