// The stream's calls over the numbers of a state. A refusal changes neither the numbers nor the buffer.
// inner: on_stream.rt and looking.rt export each under its name. `Stream` has the same calls, over its own fields and by value, as
// the rules name them: what both share is `Lent`'s
#![tactic(auto, using(crate::proofs::Crossings::lent_refused, crate::proofs::Crossings::call_refused, crate::proofs::Crossings::call_kept), unfolding(stream::specs::Stream::lent))]

ghost use Rattle.std.specs.Prelude.{◌≡◌, [], length, Ok};
ghost use Rattle.rlp.specs.Tree.{payload};
ghost use Rattle.stream.specs.Stream.{value, begin, unbounded, finalize, raw, clear, guarded, finished_of, raw_length, out_length};
ghost use Rattle.stream.specs.Sizes.{estimate_of, empty_of};
ghost use Rattle.loughcable.specs.Answers.{asked};
ghost use Rattle.loughcable.specs.Steps.{lends};
ghost use Rattle.loughcable.specs.Crossing.{state_in, fitting, leaves, crossed, crossed_checked, crossed_new, crossed_new_list};

use crate::state::{NUMBERS, lent, renew, store, store_list};
use encode::Scalar;
use rlp::Refusal;
use stream::{Left, Lent};

// The state that the numbers are, past the tests that every call makes.
#[tactic(auto, using(crate::proofs::Seen::fitting_also, crate::proofs::Seen::guarded_also), unfolding(crate::specs::Steps::lends, rlp::specs::Refusals::also))]
fn seen<'a>(state: &'a [u32], buf: &[u8]) -> Result<Lent<'a>, Refusal>
    ensures { lends result ≡ fitting state.now (length buf.now) 0 (guarded (state_in state.now) (length buf.now) 0 (Ok (state_in state.now))) }
{
    let lent = lent(state, buf.len(), 0)?;
    lent.guard(buf.len(), 0)?;
    Ok(lent)
}

#[tactic(auto, using(crate::proofs::Crossings::new_refused, crate::proofs::Crossings::new_made))]
pub fn new(state: &mut [u32], start: u32) -> Result<bool, Refusal>
    ensures { leaves (asked result) state.new [] ≡ crossed_new state.old start }
{
    if state.len() != NUMBERS {
        return Err(Refusal::StateMismatch);
    }
    renew(state, start);
    Ok(true)
}

// With no open list, what the arrays hold is not looked at: so the state that is lent is new, though the numbers are not yet.
// From u32 to usize there is no `From`.
#[tactic(auto, using(crate::proofs::Crossings::new_list_unlent))]
pub fn new_list(state: &mut [u32], buf: &mut [u8], start: u32, most: u32) -> Result<bool, Refusal>
    ensures { leaves (asked result) state.new buf.new ≡ crossed_new_list state.old buf.old start most }
{
    let lent = Lent {
        start: start as usize,
        end: start as usize,
        opened: 0,
        ..lent(state, buf.len(), 0)?
    };
    if most == 0 {
        let left = lent.empty_list_change(buf)?;
        renew(state, start);
        store(state, left);
        return Ok(true);
    }
    let left = lent.open_change(buf)?;
    renew(state, start);
    store_list(state, left, most);
    Ok(true)
}

pub fn append(state: &mut [u32], buf: &mut [u8], src: &[u8]) -> Result<bool, Refusal>
    ensures { leaves (asked result) state.new buf.new ≡ crossed state.old buf.old (value src.now) }
{
    let left = lent(state, buf.len(), src.len())?.string_change(buf, src)?;
    store(state, left);
    Ok(true)
}

pub fn append_scalar<T: Scalar>(state: &mut [u32], buf: &mut [u8], n: T) -> Result<bool, Refusal>
    ensures { leaves (asked result) state.new buf.new ≡ crossed state.old buf.old (value (payload (T.item n))) }
{
    let number = n.number();
    let left = lent(state, buf.len(), 0)?.scalar_change(buf, number)?;
    store(state, left);
    Ok(true)
}

pub fn append_raw(
    state: &mut [u32],
    buf: &mut [u8],
    src: &[u8],
    items: usize,
) -> Result<bool, Refusal>
    ensures { leaves (asked result) state.new buf.new ≡ crossed state.old buf.old (raw src.now items) }
{
    let left = lent(state, buf.len(), src.len())?.raw_change(buf, src, items)?;
    store(state, left);
    Ok(true)
}

#[tactic(auto, using(crate::proofs::Seen::checked_refused, crate::proofs::Seen::checked_no, crate::proofs::Seen::checked_yes))]
pub fn append_raw_checked(
    state: &mut [u32],
    buf: &mut [u8],
    src: &[u8],
    items: usize,
    most: usize,
) -> Result<bool, Refusal>
    ensures { leaves (asked result) state.new buf.new ≡ crossed_checked state.old buf.old src.now items most }
{
    if most < estimate_size(state, buf, src.len())? {
        return Ok(false);
    }
    append_raw(state, buf, src, items)
}

#[tactic(auto, using(crate::proofs::Crossings::lent_refused, crate::proofs::Crossings::call_refused, crate::proofs::Crossings::call_kept, crate::proofs::Crossings::list_refused, crate::proofs::Crossings::list_kept), unfolding(stream::specs::Stream::lent))]
pub fn begin_list(state: &mut [u32], buf: &mut [u8], most: u32) -> Result<bool, Refusal>
    ensures { leaves (asked result) state.new buf.new ≡ crossed state.old buf.old (begin most) }
{
    let lent = lent(state, buf.len(), 0)?;
    if most == 0 {
        let left = lent.empty_list_change(buf)?;
        store(state, left);
        return Ok(true);
    }
    let left = lent.open_change(buf)?;
    store_list(state, left, most);
    Ok(true)
}

#[tactic(auto, using(crate::proofs::Crossings::lent_refused, crate::proofs::Crossings::call_refused, crate::proofs::Crossings::unbounded_kept), unfolding(stream::specs::Stream::lent))]
pub fn begin_unbounded_list(state: &mut [u32], buf: &mut [u8]) -> Result<bool, Refusal>
    ensures { leaves (asked result) state.new buf.new ≡ crossed state.old buf.old unbounded }
{
    let left = lent(state, buf.len(), 0)?.open_change(buf)?;
    store_list(state, left, 0);
    Ok(true)
}

pub fn finalize_unbounded_list(state: &mut [u32], buf: &mut [u8]) -> Result<bool, Refusal>
    ensures { leaves (asked result) state.new buf.new ≡ crossed state.old buf.old finalize }
{
    let left = lent(state, buf.len(), 0)?.finalize_change(buf)?;
    store(state, left);
    Ok(true)
}

#[tactic(auto, using(crate::proofs::Seen::clear_refused, crate::proofs::Seen::clear_kept))]
pub fn clear(state: &mut [u32], buf: &[u8]) -> Result<bool, Refusal>
    ensures { leaves (asked result) state.new buf.now ≡ crossed state.old buf.now clear }
{
    let start = seen(state, buf)?.start;
    let left = Left {
        end: start,
        opened: 0,
        current: 0,
    };
    store(state, left);
    Ok(true)
}

#[tactic(auto, using(crate::proofs::Seen::finished_also, crate::proofs::Seen::opens_count), unfolding(crate::specs::Steps::lends, rlp::specs::Refusals::also))]
pub fn is_finished(state: &[u32], buf: &[u8]) -> Result<bool, Refusal>
    ensures { result ≡ fitting state.now (length buf.now) 0 (finished_of (state_in state.now) (length buf.now)) }
{
    Ok(seen(state, buf)?.opened == 0)
}

#[tactic(auto, using(crate::proofs::Seen::empty_also), unfolding(rlp::specs::Refusals::also))]
pub fn is_empty(state: &[u32], buf: &[u8]) -> Result<bool, Refusal>
    ensures { result ≡ fitting state.now (length buf.now) 0 (empty_of (state_in state.now) (length buf.now)) }
{
    Ok(estimate_size(state, buf, 0)? == 0)
}

#[tactic(auto, using(crate::proofs::Seen::fitting_also), unfolding(crate::specs::Steps::lends, rlp::specs::Refusals::also))]
pub fn estimate_size(state: &[u32], buf: &[u8], n: usize) -> Result<usize, Refusal>
    ensures { result ≡ fitting state.now (length buf.now) n (estimate_of (state_in state.now) (length buf.now) n) }
{
    lent(state, buf.len(), n)?.estimate(buf.len(), n)
}

#[tactic(auto, using(crate::proofs::Seen::raw_also), unfolding(crate::specs::Steps::lends, rlp::specs::Refusals::also))]
pub fn as_raw_len(state: &[u32], buf: &[u8]) -> Result<usize, Refusal>
    ensures { result ≡ fitting state.now (length buf.now) 0 (raw_length (state_in state.now) (length buf.now)) }
{
    Ok(seen(state, buf)?.end)
}

#[tactic(auto, using(crate::proofs::Seen::out_also, crate::proofs::Seen::opens_count), unfolding(crate::specs::Steps::lends, rlp::specs::Refusals::also, rlp::specs::Refusals::unless))]
pub fn out_len(state: &[u32], buf: &[u8]) -> Result<usize, Refusal>
    ensures { result ≡ fitting state.now (length buf.now) 0 (out_length (state_in state.now) (length buf.now)) }
{
    let lent = seen(state, buf)?;
    if 0 < lent.opened {
        return Err(Refusal::Unfinished);
    }
    Ok(lent.end)
}
