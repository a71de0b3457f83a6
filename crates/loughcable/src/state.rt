// The stream's state as it crosses: 51 numbers, of which start, end and the count of open lists come first, then 16 positions, 16
// currents and 16 maxima. It is read where it lies, and what a call changes of it is stored in it: it is never copied.
ghost use Rattle.std.specs.Prelude.{◌≡◌, ◌≢◌, length, get_or, Ok, MatchOption};
ghost use Rattle.stream.specs.Stream.{new_of};
ghost use Rattle.stream.specs.Steps.{state_lent, keeping, opening};
ghost use Rattle.loughcable.specs.Crossing.{size, numbers, stream_in, state_in, misfit, fitting};
ghost use Rattle.loughcable.specs.Steps.{lends, Stores, StoresList};

use rlp::Refusal;
use stream::{Left, Lent};

// Where the three arrays stand, an entry for each level, and how many numbers a state is.
const POSITIONS: usize = 3;

const CURRENTS: usize = POSITIONS + rlp::LEVELS;

const MAXIMA: usize = CURRENTS + rlp::LEVELS;

pub const NUMBERS: usize = MAXIMA + rlp::LEVELS;

// Why a state that is not 51 numbers is refused, with a buffer of `room` bytes and `beside` bytes lent beside it: 12 comes before 20.
#[tactic(auto, unfolding(crate::specs::Crossing::misfit))]
fn unfit(room: usize, beside: usize) -> Refusal
    ensures { result ≡ misfit room beside }
{
    if rlp::LIMIT < room || rlp::LIMIT < beside {
        return Refusal::TooLarge;
    }
    Refusal::StateMismatch
}

// The state that the numbers are, where they are 51. From u32 to usize there is no `From`; and back `as` is proved to lose no bit.
fn apart(state: &[u32]) -> Option<Lent<'_>>
    ensures { MatchOption result (length state.now ≢ size) (λ lent. (length state.now ≡ size) × (state_lent lent ≡ state_in state.now)) }
{
    let (&[start, end, opened], rest) = state.split_first_chunk::<3>()?;
    let (positions, rest) = rest.split_first_chunk()?;
    let (currents, rest) = rest.split_first_chunk()?;
    Some(Lent {
        start: start as usize,
        end: end as usize,
        opened: opened as usize,
        positions,
        currents,
        maxima: rest.as_array()?,
    })
}

// The state that the numbers are, lent to a call with such a buffer.
// inner: every call of the stream begins so
#[tactic(auto, unfolding(crate::specs::Steps::lends, crate::specs::Crossing::fitting, rlp::specs::Refusals::unless))]
pub fn lent(state: &[u32], room: usize, beside: usize) -> Result<Lent<'_>, Refusal>
    ensures { lends result ≡ fitting state.now room beside (Ok (state_in state.now)) }
{
    apart(state).ok_or_else(|| unfit(room, beside))
}

// What a change in which lists may have closed leaves. `Stream` keeps the same in its fields: here it is stored where C's numbers lie.
// inner: the calls that count items
pub fn store(state: &mut [u32], left: Left)
    requires { Stores state.old left }
    ensures { state.new ≡ numbers (keeping (stream_in state.old) left) }
{
    let n = left.opened;
    state[1] = left.end as u32;
    state[2] = n as u32;
    if 0 < n {
        let last = n - 1;
        state[CURRENTS + last] = left.current;
    }
}

// What a change that opened a list leaves. What the calls have tested stands in this contract alone.
// inner: the calls that open a list
pub fn store_list(state: &mut [u32], left: Left, most: u32)
    requires { StoresList state.old (get_or state.old 0 0) left }
    ensures { state.new ≡ numbers (opening (stream_in state.old) left most) }
{
    let n = left.opened;
    let last = n - 1;
    let start = state[0];
    let end = left.end as u32;
    state[1] = end;
    state[2] = n as u32;
    state[POSITIONS + last] = end - start;
    state[CURRENTS + last] = left.current;
    state[MAXIMA + last] = most;
}

// A new state: nothing written, and no open list.
// inner: `new` and `new_list`
pub fn renew(state: &mut [u32], start: u32)
    requires { length state.old ≡ size }
    ensures { state.new ≡ numbers (new_of start) }
{
    state.fill(0);
    state[0] = start;
    state[1] = start;
}
