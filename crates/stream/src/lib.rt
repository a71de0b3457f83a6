// The stream: items written one after the other into a lent buffer, in lists that may be open at once, 16 at most.
//
// Ported from stream.rs (RlpStream) of the crate rlp 0.6.1. Its buffer is lent with every call, its
// vector of open lists is three arrays of 16, and its panics are refusals. A call takes the state and
// gives it back beside its answer, as the rules name it (docs/RULES.md, "The form of the code"); a refusal gives it back as it
// was, and changes no byte.
#![tactic(auto)]

mod changes;
mod lists;

ghost use Rattle.std.specs.Prelude.{◌≡◌, ◌-◌, ◌<◌, ◌≤◌, [], length, IfOk};
ghost use Rattle.rlp.specs.Limits.{levels};
ghost use Rattle.rlp.specs.Tree.{payload};
ghost use Rattle.stream.specs.State.{state_of};
ghost use Rattle.stream.specs.Stream.{new_of, value, begin, unbounded, finalize, raw, clear, called, finished_of, raw_length, out_length, shown_part};
ghost use Rattle.stream.specs.Sizes.{estimate_of, len_of, empty_of, checked};
ghost use Rattle.stream.specs.Answers.{leaves};
ghost use Rattle.stream.specs.Claims.{Claimed};
ghost use Rattle.stream.specs.Steps.{state_lent, step_of, kept_step, opened_step, Opens};

use encode::Scalar;
pub use lists::{Left, Lent};
use rlp::Refusal;

// A stream from `start` to `end` of its buffer. The first `opened` entries of the arrays are the open
// lists, the outermost first: where the contents start, counted from `start`; the items so far; how
// many items the list takes, 0 for any number. Three arrays, and not one of lists: so the fields cross
// to C, as 51 numbers.
#[derive(Clone, Copy, Debug, PartialEq, Eq)]
pub struct Stream {
    pub start: usize,
    pub end: usize,
    pub opened: usize,
    pub positions: [u32; 16],
    pub currents: [u32; 16],
    pub maxima: [u32; 16],
}

// The state after a call, and the call's answer.
#[derive(Clone, Copy, Debug, PartialEq, Eq)]
pub struct Step {
    pub stream: Stream,
    pub answer: Result<bool, Refusal>,
}

impl Stream {
    // A stream that will write from a place of its buffer on.
    pub fn new(start: usize) -> Self
        ensures { result ≡ new_of start }
    {
        Self {
            start,
            end: start,
            opened: 0,
            positions: [0; 16],
            currents: [0; 16],
            maxima: [0; 16],
        }
    }

    // A stream with a list open that takes so many items.
    pub fn new_list(buf: &mut [u8], start: usize, most: u32) -> Step
        ensures { leaves result buf.new ≡ called (new_of start) buf.old (begin most) }
    {
        Self::new(start).begin_list(buf, most)
    }

    // The state, lent.
    #[tactic(auto, unfolding(crate::specs::State::state_of))]
    fn lent(&self) -> Lent<'_>
        ensures { (result.start ≡ self.now.start) × (state_lent result ≡ state_of self.now) }
    {
        Lent {
            start: self.start,
            end: self.end,
            opened: self.opened,
            positions: &self.positions,
            currents: &self.currents,
            maxima: &self.maxima,
        }
    }

    // What a call leaves in which lists may have closed, is kept. Answers the call.
    #[tactic(auto, using(crate::proofs::Kept::last_some, crate::proofs::Kept::last_none), unfolding(crate::specs::Steps::kept_step, crate::specs::Steps::keeping))]
    fn keep(&mut self, change: Result<Left, Refusal>) -> Result<bool, Refusal>
        requires { IfOk change (λ l. l.opened ≤ levels) }
        ensures { step_of result self.new ≡ kept_step self.old change }
    {
        let left = change?;
        self.end = left.end;
        self.opened = left.opened;
        if 0 < left.opened {
            self.currents[left.opened - 1] = left.current;
        }
        Ok(true)
    }

    // What a call leaves that opened a list of so many items, 0 for any number. `as` is proved to lose no bit.
    #[tactic(auto, using(crate::proofs::Kept::last_some), unfolding(crate::specs::Steps::opened_step, crate::specs::Steps::opening))]
    fn keep_list(&mut self, change: Result<Left, Refusal>, most: u32) -> Result<bool, Refusal>
        requires { IfOk change (Opens self.old.start) }
        ensures { step_of result self.new ≡ opened_step self.old change most }
    {
        let left = change?;
        let last = left.opened - 1;
        self.positions[last] = (left.end - self.start) as u32;
        self.currents[last] = left.current;
        self.maxima[last] = most;
        self.end = left.end;
        self.opened = left.opened;
        Ok(true)
    }

    // A string.
    #[tactic(auto, using(crate::proofs::Kept::kept_steps), unfolding(crate::proofs::Kept::Counting))]
    pub fn append(mut self, buf: &mut [u8], src: &[u8]) -> Step
        ensures { leaves result buf.new ≡ called self buf.old (value src.now) }
    {
        let change = self.lent().string_change(buf, src);
        let answer = self.keep(change);
        Step {
            stream: self,
            answer,
        }
    }

    // The empty string.
    #[tactic(auto, using(crate::proofs::Kept::none_steps), unfolding(rlp::specs::Tree::payload))]
    pub fn append_empty_data(self, buf: &mut [u8]) -> Step
        ensures { leaves result buf.new ≡ called self buf.old (value []) }
    {
        self.append_scalar(buf, 0u8)
    }

    // A number, as its shortest big-endian string; or a truth, as 80 or 01.
    #[tactic(auto, using(crate::proofs::Kept::kept_steps), unfolding(crate::proofs::Kept::Counting, rlp::specs::Tree::payload))]
    pub fn append_scalar<T: Scalar>(mut self, buf: &mut [u8], n: T) -> Step
        ensures { leaves result buf.new ≡ called self buf.old (value (payload (T.item n))) }
    {
        let change = self.lent().scalar_change(buf, n.number());
        let answer = self.keep(change);
        Step {
            stream: self,
            answer,
        }
    }

    // Items that are encoded already, exactly so many.
    #[tactic(auto, using(crate::proofs::Kept::kept_steps), unfolding(crate::proofs::Kept::Counting))]
    pub fn append_raw(mut self, buf: &mut [u8], src: &[u8], items: usize) -> Step
        ensures { leaves result buf.new ≡ called self buf.old (raw src.now items) }
    {
        let change = self.lent().raw_change(buf, src, items);
        let answer = self.keep(change);
        Step {
            stream: self,
            answer,
        }
    }

    // The same, unless the size would then pass a maximum: that is answered no.
    #[tactic(auto, using(crate::proofs::Looks::within_steps))]
    pub fn append_raw_checked(self, buf: &mut [u8], src: &[u8], items: usize, most: usize) -> Step
        ensures { leaves result buf.new ≡ checked self buf.old src.now items most }
    {
        match self.lent().estimate(buf.len(), src.len()) {
            Err(e) => Step {
                stream: self,
                answer: Err(e),
            },
            Ok(size) => {
                if most < size {
                    return Step {
                        stream: self,
                        answer: Ok(false),
                    };
                }
                self.append_raw(buf, src, items)
            }
        }
    }

    // A list of so many items. Of none, it is written at once.
    #[tactic(auto, using(crate::proofs::Kept::begun_steps), unfolding(crate::proofs::Kept::Counting))]
    pub fn begin_list(mut self, buf: &mut [u8], most: u32) -> Step
        ensures { leaves result buf.new ≡ called self buf.old (begin most) }
    {
        if most == 0 {
            let change = self.lent().empty_list_change(buf);
            let answer = self.keep(change);
            return Step {
                stream: self,
                answer,
            };
        }
        let change = self.lent().open_change(buf);
        let answer = self.keep_list(change, most);
        Step {
            stream: self,
            answer,
        }
    }

    // A list of any number of items.
    #[tactic(auto, using(crate::proofs::Kept::opened_steps), unfolding(crate::proofs::Kept::asking))]
    pub fn begin_unbounded_list(mut self, buf: &mut [u8]) -> Step
        ensures { leaves result buf.new ≡ called self buf.old unbounded }
    {
        let change = self.lent().open_change(buf);
        let answer = self.keep_list(change, 0);
        Step {
            stream: self,
            answer,
        }
    }

    // The innermost list, of any number of items, is complete.
    #[tactic(auto, using(crate::proofs::Kept::kept_steps), unfolding(crate::proofs::Kept::Counting))]
    pub fn finalize_unbounded_list(mut self, buf: &mut [u8]) -> Step
        ensures { leaves result buf.new ≡ called self buf.old finalize }
    {
        let change = self.lent().finalize_change(buf);
        let answer = self.keep(change);
        Step {
            stream: self,
            answer,
        }
    }

    // Back to the start, with nothing written and no open list.
    #[tactic(auto, using(crate::proofs::Looks::clear_steps))]
    pub fn clear(mut self, buf: &[u8]) -> Step
        ensures { leaves result buf.now ≡ called self buf.now clear }
    {
        if let Err(e) = self.lent().guard(buf.len(), 0) {
            return Step {
                stream: self,
                answer: Err(e),
            };
        }
        self.end = self.start;
        self.opened = 0;
        Step {
            stream: self,
            answer: Ok(true),
        }
    }

    // Whether no list is open.
    #[tactic(auto, using(crate::proofs::Looks::look_steps), unfolding(crate::specs::Stream::finished_of, crate::specs::Stream::is_finished, crate::specs::State::state_of, crate::specs::Stream::guarded, rlp::specs::Refusals::unless))]
    pub fn is_finished(&self, buf: &[u8]) -> Result<bool, Refusal>
        ensures { result ≡ finished_of (state_of self.now) (length buf.now) }
    {
        self.lent().guard(buf.len(), 0)?;
        Ok(self.opened == 0)
    }

    // Whether nothing is written: whether `len` is 0.
    #[tactic(auto, using(crate::proofs::Looks::empty_steps))]
    pub fn is_empty(&self, buf: &[u8]) -> Result<bool, Refusal>
        ensures { result ≡ empty_of (state_of self.now) (length buf.now) }
    {
        Ok(self.len(buf)? == 0)
    }

    // The written total, and for each open list with more than 55 bytes in it the bytes that number takes.
    #[tactic(auto, using(crate::proofs::Looks::len_now))]
    pub fn len(&self, buf: &[u8]) -> Result<usize, Refusal>
        ensures { result ≡ len_of (state_of self.now) (length buf.now) }
    {
        self.lent().estimate(buf.len(), 0)
    }

    // The same with n bytes more.
    pub fn estimate_size(&self, buf: &[u8], n: usize) -> Result<usize, Refusal>
        ensures { result ≡ estimate_of (state_of self.now) (length buf.now) n }
    {
        self.lent().estimate(buf.len(), n)
    }

    // How many bytes `as_raw` hands back.
    #[tactic(auto, unfolding(crate::specs::Stream::raw_length, crate::specs::Stream::guarded, rlp::specs::Refusals::unless, crate::specs::State::state_of))]
    pub fn as_raw_len(&self, buf: &[u8]) -> Result<usize, Refusal>
        ensures { result ≡ raw_length (state_of self.now) (length buf.now) }
    {
        self.lent().guard(buf.len(), 0)?;
        Ok(self.end)
    }

    // The buffer up to the end, open lists with their reserved bytes; nothing on a refusal, so that the call cannot fail.
    #[tactic(auto, using(crate::proofs::Looks::shown_steps))]
    pub fn as_raw<'a>(&self, buf: &'a [u8]) -> &'a [u8]
        ensures { result.now ≡ shown_part buf.now (raw_length (state_of self.now) (length buf.now)) }
    {
        &buf[..self.as_raw_len(buf).unwrap_or(0)]
    }

    // How many bytes `out` hands back; refused while a list is open.
    #[tactic(auto, using(crate::proofs::Looks::look_steps), unfolding(crate::specs::Stream::out_length, crate::specs::Stream::is_finished, crate::specs::State::state_of, crate::specs::Stream::guarded, rlp::specs::Refusals::unless))]
    pub fn out_len(&self, buf: &[u8]) -> Result<usize, Refusal>
        ensures { result ≡ out_length (state_of self.now) (length buf.now) }
    {
        self.lent().guard(buf.len(), 0)?;
        if 0 < self.opened {
            return Err(Refusal::Unfinished);
        }
        Ok(self.end)
    }

    // The buffer up to the end, once no list is open; nothing on a refusal, so that the call cannot fail.
    #[tactic(auto, using(crate::proofs::Looks::shown_steps))]
    pub fn out<'a>(&self, buf: &'a [u8]) -> &'a [u8]
        ensures { result.now ≡ shown_part buf.now (out_length (state_of self.now) (length buf.now)) }
    {
        &buf[..self.out_len(buf).unwrap_or(0)]
    }
}

// What specs/Claims.antt claims is proved.
fn claimed()
    ensures { Claimed }
{}
