// The stream's calls that only look.
ghost use Rattle.std.specs.Prelude.{◌≡◌, length};
ghost use Rattle.stream.specs.Stream.{finished_of, raw_length, out_length};
ghost use Rattle.stream.specs.Sizes.{estimate_of, len_of, empty_of};
ghost use Rattle.loughcable.specs.Answers.{answered, asked};
ghost use Rattle.loughcable.specs.Crossing.{state_in, fitting};

use crate::{Answer, calls};

// Whether no list is open.
#[unsafe(no_mangle)]
pub extern "C" fn loughcable_stream_is_finished(state: &[u32], buf: &[u8]) -> Answer
    ensures { result ≡ asked (fitting state.now (length buf.now) 0 (finished_of (state_in state.now) (length buf.now))) }
{
    calls::is_finished(state, buf).into()
}

// Whether nothing is written: whether `len` is 0.
#[unsafe(no_mangle)]
pub extern "C" fn loughcable_stream_is_empty(state: &[u32], buf: &[u8]) -> Answer
    ensures { result ≡ asked (fitting state.now (length buf.now) 0 (empty_of (state_in state.now) (length buf.now))) }
{
    calls::is_empty(state, buf).into()
}

// The written total, and for each open list with more than 55 bytes in it the bytes that number takes.
#[unsafe(no_mangle)]
#[tactic(auto, using(crate::proofs::Seen::len_seen))]
pub extern "C" fn loughcable_stream_len(state: &[u32], buf: &[u8]) -> Answer
    ensures { result ≡ answered (fitting state.now (length buf.now) 0 (len_of (state_in state.now) (length buf.now))) }
{
    calls::estimate_size(state, buf, 0).into()
}

// The same with n bytes more.
#[unsafe(no_mangle)]
pub extern "C" fn loughcable_stream_estimate_size(state: &[u32], buf: &[u8], n: usize) -> Answer
    ensures { result ≡ answered (fitting state.now (length buf.now) n (estimate_of (state_in state.now) (length buf.now) n)) }
{
    calls::estimate_size(state, buf, n).into()
}

// How many bytes of the buffer are shown, open lists with their reserved bytes.
#[unsafe(no_mangle)]
pub extern "C" fn loughcable_stream_as_raw(state: &[u32], buf: &[u8]) -> Answer
    ensures { result ≡ answered (fitting state.now (length buf.now) 0 (raw_length (state_in state.now) (length buf.now))) }
{
    calls::as_raw_len(state, buf).into()
}

// The same; refused while a list is open.
#[unsafe(no_mangle)]
pub extern "C" fn loughcable_stream_out(state: &[u32], buf: &[u8]) -> Answer
    ensures { result ≡ answered (fitting state.now (length buf.now) 0 (out_length (state_in state.now) (length buf.now))) }
{
    calls::out_len(state, buf).into()
}
