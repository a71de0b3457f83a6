// The stream's calls over a state that is lent. Each works out what it adds, which lists it closes and where the end will then be;
// refuses if it must; then writes, and answers what of the state changes.
ghost use Rattle.std.specs.Prelude.{◌≡◌, ◌+◌, ◌-◌, ◌≤◌, [], length, nat_le, Ok};
ghost use Rattle.rlp.specs.declared.Refusal.TheVariants.{NoRoom};
ghost use Rattle.rlp.specs.Refusals.{unless};
ghost use Rattle.rlp.specs.Bytes.{be};
ghost use Rattle.rlp.specs.Limits.{limit};
ghost use Rattle.stream.specs.Stream.{value, begin, unbounded, finalize, raw, guarded, answer};
ghost use Rattle.stream.specs.Sizes.{estimate_of};
ghost use Rattle.stream.specs.Steps.{state_lent, Past, room_for, change_leaves, changes};

use crate::lists::{Left, Lent, close_list, growth};
use rlp::Refusal;

impl<'a> Lent<'a> {
    // 12 and 20, of a call with a buffer of `room` bytes and `lent` bytes beside it.
    // inner: every call of the stream begins so
    pub fn guard(self, room: usize, lent: usize) -> Result<(), Refusal>
        ensures { result ≡ guarded (state_lent self.entry) room lent (Ok tt) }
    {
        if rlp::LIMIT < room || rlp::LIMIT < lent {
            return Err(Refusal::TooLarge);
        }
        if self.start <= self.end
            && self.end <= room
            && self.opened <= rlp::LEVELS
            && self.lists_fit(self.end - self.start)
        {
            return Ok(());
        }
        Err(Refusal::StateMismatch)
    }

    // 13, of n items in so many bytes that follow what is written, with the headers of the lists that they close.
    #[inline(always)]
    fn room_for(self, room: usize, n: usize, size: usize) -> Result<(), Refusal>
        requires { Past (state_lent self) room × (n ≤ limit) × (size ≤ limit + 9) }
        ensures { result ≡ room_for (state_lent self.entry) room n size }
    {
        if room - self.start < self.total_after(n, self.end - self.start + size) {
            return Err(Refusal::NoRoom);
        }
        Ok(())
    }

    // A string.
    // inner: `append`, and what Rust and C link
    pub fn string_change(self, buf: &mut [u8], src: &[u8]) -> Result<Left, Refusal>
        ensures { change_leaves result buf.new ≡ changes self.entry.start buf.old (answer (state_lent self.entry) buf.old (value src.now)) }
    {
        self.guard(buf.len(), src.len())?;
        let size = encode::string_size(src);
        self.room_for(buf.len(), 1, size)?;
        encode::write_string(buf, self.end, src, size);
        Ok(self.count_item(buf, self.end + size))
    }

    // A number, as its shortest big-endian string.
    // inner: `append_scalar`, and what Rust and C link
    #[inline(always)]
    pub fn scalar_change(self, buf: &mut [u8], n: usize) -> Result<Left, Refusal>
        ensures { change_leaves result buf.new ≡ changes self.entry.start buf.old (answer (state_lent self.entry) buf.old (value (be n))) }
    {
        self.guard(buf.len(), 0)?;
        let size = encode::scalar_size(n);
        self.room_for(buf.len(), 1, size)?;
        encode::write_scalar(buf, self.end, n, size);
        Ok(self.count_item(buf, self.end + size))
    }

    // The empty list.
    // inner: `begin_list` of no items, and what Rust and C link
    #[inline(always)]
    pub fn empty_list_change(self, buf: &mut [u8]) -> Result<Left, Refusal>
        ensures { change_leaves result buf.new ≡ changes self.entry.start buf.old (answer (state_lent self.entry) buf.old (begin 0)) }
    {
        self.guard(buf.len(), 0)?;
        if rlp::LEVELS <= self.opened {
            return Err(Refusal::TooDeep);
        }
        self.room_for(buf.len(), 1, 1)?;
        buf[self.end] = 0xc0;
        Ok(self.count_item(buf, self.end + 1))
    }

    // A list that takes some number of items, or any number: its reserved byte. Its position and its maximum are the caller's to store.
    // inner: `begin_list` and `begin_unbounded_list`, and what Rust and C link
    #[inline(always)]
    pub fn open_change(self, buf: &mut [u8]) -> Result<Left, Refusal>
        ensures { change_leaves result buf.new ≡ changes self.entry.start buf.old (answer (state_lent self.entry) buf.old unbounded) }
    {
        self.guard(buf.len(), 0)?;
        if rlp::LEVELS <= self.opened {
            return Err(Refusal::TooDeep);
        }
        if buf.len() <= self.end {
            return Err(Refusal::NoRoom);
        }
        buf[self.end] = 0;
        Ok(Left {
            end: self.end + 1,
            opened: self.opened + 1,
            current: 0,
        })
    }

    // Raw items, as many as is said.
    // inner: `append_raw`, and what Rust and C link
    pub fn raw_change(self, buf: &mut [u8], src: &[u8], items: usize) -> Result<Left, Refusal>
        ensures { change_leaves result buf.new ≡ changes self.entry.start buf.old (answer (state_lent self.entry) buf.old (raw src.now items)) }
    {
        self.guard(buf.len(), src.len())?;
        let tally = strict::check_items(src)?;
        if tally.items != items {
            return Err(Refusal::CountMismatch);
        }
        if !self.takes(items) {
            return Err(Refusal::TooManyItems);
        }
        if rlp::LEVELS < self.opened + tally.depth {
            return Err(Refusal::TooDeep);
        }
        self.room_for(buf.len(), items, src.len())?;
        encode::copy_at(buf, self.end, src);
        Ok(self.count_items(buf, items, self.end + src.len()))
    }

    // The innermost list ends, if it takes any number of items.
    // inner: `finalize_unbounded_list`, and what Rust and C link
    pub fn finalize_change(self, buf: &mut [u8]) -> Result<Left, Refusal>
        ensures { change_leaves result buf.new ≡ changes self.entry.start buf.old (answer (state_lent self.entry) buf.old finalize) }
    {
        self.guard(buf.len(), 0)?;
        if self.opened == 0 {
            return Err(Refusal::NoOpenList);
        }
        let outer = Lent {
            opened: self.opened - 1,
            ..self
        };
        let list = self.entry(outer.opened);
        if 0 < list.most {
            return Err(Refusal::ListTypeMismatch);
        }
        let at = self.start + list.position as usize;
        let more = growth(self.end - at);
        outer.room_for(buf.len(), 1, more)?;
        close_list(buf, at, self.end);
        Ok(outer.count_items(buf, 1, self.end + more))
    }

    // The size with n bytes more, by the rule.
    // inner: `len` and `estimate_size`, and what Rust and C link
    #[inline(always)]
    pub fn estimate(self, room: usize, n: usize) -> Result<usize, Refusal>
        ensures { result ≡ estimate_of (state_lent self.entry) room n }
    {
        self.guard(room, n)?;
        let written = self.end - self.start + n;
        Ok(written + self.growths(written))
    }
}
