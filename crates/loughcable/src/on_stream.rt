// The stream's calls that write: the state is lent with the buffer. A refusal changes neither.
#![tactic(auto, using(crate::proofs::Truths::truth_so), unfolding(rlp::specs::Tree::payload))]

ghost use Rattle.std.specs.Prelude.{◌≡◌, []};
ghost use Rattle.rlp.specs.Bytes.{be};
ghost use Rattle.rlp.specs.Tree.{payload};
ghost use Rattle.encode.specs.Encode.{flag};
ghost use Rattle.stream.specs.Stream.{value, begin, unbounded, finalize, raw, clear};
ghost use Rattle.loughcable.specs.Answers.{truth_of};
ghost use Rattle.loughcable.specs.Crossing.{leaves, crossed, crossed_checked, crossed_new, crossed_new_list};

use crate::{Answer, calls};

// A stream that will write from a place of its buffer on.
#[unsafe(no_mangle)]
pub extern "C" fn loughcable_stream_new(state: &mut [u32], start: u32) -> Answer
    ensures { leaves result state.new [] ≡ crossed_new state.old start }
{
    calls::new(state, start).into()
}

// A stream with a list open that takes so many items. What the lent state held is not looked at.
#[unsafe(no_mangle)]
pub extern "C" fn loughcable_stream_new_list(
    state: &mut [u32],
    buf: &mut [u8],
    start: u32,
    most: u32,
) -> Answer
    ensures { leaves result state.new buf.new ≡ crossed_new_list state.old buf.old start most }
{
    calls::new_list(state, buf, start, most).into()
}

// A string.
#[unsafe(no_mangle)]
pub extern "C" fn loughcable_stream_append(state: &mut [u32], buf: &mut [u8], src: &[u8]) -> Answer
    ensures { leaves result state.new buf.new ≡ crossed state.old buf.old (value src.now) }
{
    calls::append(state, buf, src).into()
}

// The empty string, which is what 0 is.
#[unsafe(no_mangle)]
#[tactic(auto, using(encode::proofs::Numbers::zero_bytes), unfolding(rlp::specs::Tree::payload))]
pub extern "C" fn loughcable_stream_append_empty_data(state: &mut [u32], buf: &mut [u8]) -> Answer
    ensures { leaves result state.new buf.new ≡ crossed state.old buf.old (value []) }
{
    calls::append_scalar(state, buf, 0_u8).into()
}

// Numbers. C has no generic function: so each width is an export of its own, and one call serves them.
#[unsafe(no_mangle)]
pub extern "C" fn loughcable_stream_append_u8(state: &mut [u32], buf: &mut [u8], n: u8) -> Answer
    ensures { leaves result state.new buf.new ≡ crossed state.old buf.old (value (be n)) }
{
    calls::append_scalar(state, buf, n).into()
}

#[unsafe(no_mangle)]
pub extern "C" fn loughcable_stream_append_u16(state: &mut [u32], buf: &mut [u8], n: u16) -> Answer
    ensures { leaves result state.new buf.new ≡ crossed state.old buf.old (value (be n)) }
{
    calls::append_scalar(state, buf, n).into()
}

#[unsafe(no_mangle)]
pub extern "C" fn loughcable_stream_append_u32(state: &mut [u32], buf: &mut [u8], n: u32) -> Answer
    ensures { leaves result state.new buf.new ≡ crossed state.old buf.old (value (be n)) }
{
    calls::append_scalar(state, buf, n).into()
}

#[unsafe(no_mangle)]
pub extern "C" fn loughcable_stream_append_u64(state: &mut [u32], buf: &mut [u8], n: u64) -> Answer
    ensures { leaves result state.new buf.new ≡ crossed state.old buf.old (value (be n)) }
{
    calls::append_scalar(state, buf, n).into()
}

// A truth: 80 or 01. 0 is false, any other number true.
#[unsafe(no_mangle)]
pub extern "C" fn loughcable_stream_append_bool(
    state: &mut [u32],
    buf: &mut [u8],
    truth: u32,
) -> Answer
    ensures { leaves result state.new buf.new ≡ crossed state.old buf.old (value (payload (flag (truth_of truth)))) }
{
    calls::append_scalar(state, buf, truth != 0).into()
}

// Items that are encoded already, exactly so many.
#[unsafe(no_mangle)]
pub extern "C" fn loughcable_stream_append_raw(
    state: &mut [u32],
    buf: &mut [u8],
    src: &[u8],
    items: usize,
) -> Answer
    ensures { leaves result state.new buf.new ≡ crossed state.old buf.old (raw src.now items) }
{
    calls::append_raw(state, buf, src, items).into()
}

// The same, unless the size would then pass a maximum: that is answered no.
#[unsafe(no_mangle)]
pub extern "C" fn loughcable_stream_append_raw_checked(
    state: &mut [u32],
    buf: &mut [u8],
    src: &[u8],
    items: usize,
    most: usize,
) -> Answer
    ensures { leaves result state.new buf.new ≡ crossed_checked state.old buf.old src.now items most }
{
    calls::append_raw_checked(state, buf, src, items, most).into()
}

// A list of so many items. Of none, it is written at once.
#[unsafe(no_mangle)]
pub extern "C" fn loughcable_stream_begin_list(
    state: &mut [u32],
    buf: &mut [u8],
    most: u32,
) -> Answer
    ensures { leaves result state.new buf.new ≡ crossed state.old buf.old (begin most) }
{
    calls::begin_list(state, buf, most).into()
}

// A list of any number of items.
#[unsafe(no_mangle)]
pub extern "C" fn loughcable_stream_begin_unbounded_list(
    state: &mut [u32],
    buf: &mut [u8],
) -> Answer
    ensures { leaves result state.new buf.new ≡ crossed state.old buf.old unbounded }
{
    calls::begin_unbounded_list(state, buf).into()
}

// The innermost list, of any number of items, is complete.
#[unsafe(no_mangle)]
pub extern "C" fn loughcable_stream_finalize_unbounded_list(
    state: &mut [u32],
    buf: &mut [u8],
) -> Answer
    ensures { leaves result state.new buf.new ≡ crossed state.old buf.old finalize }
{
    calls::finalize_unbounded_list(state, buf).into()
}

// Back to the start, with nothing written and no open list.
#[unsafe(no_mangle)]
pub extern "C" fn loughcable_stream_clear(state: &mut [u32], buf: &[u8]) -> Answer
    ensures { leaves result state.new buf.now ≡ crossed state.old buf.now clear }
{
    calls::clear(state, buf).into()
}
