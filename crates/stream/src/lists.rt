// The open lists of a state that is lent: the test of the state, and the cascade.
ghost use Rattle.std.specs.Prelude.{◌≡◌, suc, ◌+◌, ◌-◌, ◌<◌, ◌≤◌, ◌++◌, length, take, drop, ◌∷◌};
ghost use Rattle.rlp.specs.Limits.{limit, levels};
ghost use Rattle.rlp.specs.Tree.{lists, header};
ghost use Rattle.encode.specs.Put.{put};
ghost use Rattle.stream.specs.State.{most_of, waits, full, holds, sane, sound, laid};
ghost use Rattle.stream.specs.Stream.{takes};
ghost use Rattle.stream.specs.Sizes.{growth, growths};
ghost use Rattle.stream.specs.Steps.{opens_to, opens_lent, open_of, total_after, Lists, Ready, counted_in, changed};

// A state as the calls take it: its three numbers, and its three arrays where they lie, in a `Stream` or among C's numbers.
#[derive(Clone, Copy)]
pub struct Lent<'a> {
    pub start: usize,
    pub end: usize,
    pub opened: usize,
    pub positions: &'a [u32; 16],
    pub currents: &'a [u32; 16],
    pub maxima: &'a [u32; 16],
}

// What an accepted call leaves: the end, how many lists are open, and the items of the innermost: 0 where none is open, and nobody
// looks at it.
#[derive(Clone, Copy)]
pub struct Left {
    pub end: usize,
    pub opened: usize,
    pub current: u32,
}

// An open list: where its contents start, counted from the stream's start; its items so far; how many it takes, 0 for any number,
// as in the state, whose numbers cross to C. They are widened by `as`, since from u32 to usize there is no `From`; back, `as` is
// proved to lose no bit.
#[derive(Clone, Copy)]
pub(crate) struct Entry {
    pub(crate) position: u32,
    pub(crate) current: u32,
    pub(crate) most: u32,
}

impl Entry {
    // Whether it waits for one more.
    #[tactic(auto, unfolding(crate::specs::State::waits, crate::specs::State::most_of))]
    fn waits(self) -> bool
        ensures { result ≡ waits self.current (most_of self.most) }
    {
        self.most == 0 || self.current < self.most
    }

    // Whether n more are all that it takes.
    #[tactic(auto, unfolding(crate::specs::State::full, crate::specs::State::most_of))]
    fn fills(self, n: usize) -> bool
        requires { n ≤ limit }
        ensures { result ≡ full (self.current + n) (most_of self.most) }
    {
        self.most != 0 && self.current as usize + n == self.most as usize
    }

    // Whether it takes n more.
    #[tactic(auto, unfolding(crate::specs::State::holds, crate::specs::State::most_of))]
    fn holds(self, n: usize) -> bool
        requires { n ≤ limit }
        ensures { result ≡ holds (self.current + n) (most_of self.most) }
    {
        self.most == 0 || self.current as usize + n <= self.most as usize
    }

    // The test of one list.
    #[tactic(auto, unfolding(crate::specs::State::sane))]
    fn fits(self, written: usize, bound: usize) -> bool
        requires { bound ≤ written + 1 }
        ensures { result ≡ sane written bound (open_of self) }
    {
        let position = self.position as usize;
        0 < position
            && position < bound
            && self.current as usize <= written - position
            && self.waits()
    }
}

impl<'a> Lent<'a> {
    // The list with i lists around it.
    // inner: the calls of `changes`, and the tests here, read a list so
    #[tactic(auto, unfolding(crate::specs::State::opens_in))]
    pub(crate) fn entry(self, i: usize) -> Entry
        requires { i < levels }
        ensures { opens_to self.entry (suc i) ≡ open_of result ∷ opens_to self.entry i }
    {
        Entry {
            position: self.positions[i],
            current: self.currents[i],
            most: self.maxima[i],
        }
    }

    // What a caller has tested stands in the contracts from here on: a type of tested states would be made anew, and proved, for
    // every list that closes.

    // The test of all lists, from the innermost out.
    // inner: the calls of `changes` test every state so
    pub(crate) fn lists_fit(self, written: usize) -> bool
        requires { (self.opened ≤ levels) × (written ≤ limit) }
        ensures { result ≡ sound written (suc written) (opens_lent self.entry) }
    {
        let mut bound = written + 1;
        for i in (0..self.opened).rev() {
            let list = self.entry(i);
            if !list.fits(written, bound) {
                return false;
            }
            bound = list.position as usize;
        }
        true
    }

    // Whether the innermost list takes n more.
    // inner: the calls of `changes` test raw items so
    #[tactic(auto, unfolding(crate::specs::Stream::takes, crate::specs::State::opens_in))]
    pub(crate) fn takes(self, n: usize) -> bool
        requires { (self.opened ≤ levels) × (n ≤ limit) }
        ensures { result ≡ takes n (opens_lent self.entry) }
    {
        self.opened == 0 || self.entry(self.opened - 1).holds(n)
    }

    // For each open list the bytes that its number of bytes takes.
    // inner: the calls of `changes` size a stream so
    pub(crate) fn growths(self, written: usize) -> usize
        requires { (self.opened ≤ levels) × (written ≤ limit + limit) × Lists written (opens_lent self) }
        ensures { result ≡ growths written (opens_lent self.entry) }
    {
        let mut sum = 0;
        for i in (0..self.opened).rev() {
            sum += growth(written - self.entry(i).position as usize);
        }
        sum
    }

    // The written total once n items are counted, with the headers of the lists that close.
    // inner: the calls of `changes` judge room by it
    #[inline(always)]
    pub(crate) fn total_after(self, n: usize, written: usize) -> usize
        requires { (self.opened ≤ levels) × (n ≤ limit) × (written ≤ limit + limit + limit) × Lists written (opens_lent self) }
        ensures { result ≡ total_after n (opens_lent self.entry) written }
    {
        let mut t = written;
        let mut add = n;
        for i in (0..self.opened).rev() {
            let list = self.entry(i);
            if !list.fills(add) {
                return t;
            }
            let p = list.position as usize;
            t += growth(t - p);
            add = 1;
        }
        t
    }

    // The n items that end at `end` are counted: full lists close, each an item of its parent.
    // inner: the calls of `changes` end every append so
    pub(crate) fn count_items(self, buf: &mut [u8], n: usize, end: usize) -> Left
        requires { Ready (length buf.old) self.start (opens_lent self) n end }
        ensures { (result ≡ changed self.entry.start (counted_in self.entry.start buf.old (opens_lent self.entry) n end)) × (buf.new ≡ laid self.entry.start buf.old (counted_in self.entry.start buf.old (opens_lent self.entry) n end)) }
    {
        let mut e = end;
        let mut add = n;
        for i in (0..self.opened).rev() {
            let list = self.entry(i);
            if !list.fills(add) {
                return Left {
                    end: e,
                    opened: i + 1,
                    current: (list.current as usize + add) as u32,
                };
            }
            e = close_list(buf, self.start + list.position as usize, e);
            add = 1; // a closed list is one item of its parent
        }
        Left {
            end: e,
            opened: 0,
            current: 0,
        }
    }

    // One item that ends at `end` is counted. That no list is open, or that the innermost has room for more, as it is for most items, is told
    // without the loop.
    // inner: the calls of `changes` end an append of one value so
    #[inline(always)]
    pub(crate) fn count_item(self, buf: &mut [u8], end: usize) -> Left
        requires { Ready (length buf.old) self.start (opens_lent self) 1 end }
        ensures { (result ≡ changed self.entry.start (counted_in self.entry.start buf.old (opens_lent self.entry) 1 end)) × (buf.new ≡ laid self.entry.start buf.old (counted_in self.entry.start buf.old (opens_lent self.entry) 1 end)) }
    {
        if self.opened == 0 {
            return Left {
                end,
                opened: 0,
                current: 0,
            };
        }
        let list = self.entry(self.opened - 1);
        if !list.fills(1) {
            return Left {
                end,
                opened: self.opened,
                current: list.current + 1,
            };
        }
        self.count_items(buf, 1, end)
    }
}

// The bytes that a number of bytes takes, where it is more than 55.
// inner: the calls of `changes` size a list that closes so
pub(crate) fn growth(n: usize) -> usize
    ensures { result ≡ growth n }
{
    encode::header_size(n) - 1
}

// The list whose contents lie from `at` to `end` closes: its reserved byte gives way to its header. Answers the new end.
// inner: the calls of `changes` close an unbounded list so
pub(crate) fn close_list(buf: &mut [u8], at: usize, end: usize) -> usize
    requires { (1 ≤ at) × (at ≤ end) × (end + growth (end - at) ≤ length buf.old) }
    ensures { (result ≡ end + growth (end - at)) × (buf.new ≡ put buf.old (at - 1) (header lists (end - at) ++ take (end - at) (drop at buf.old))) }
{
    let n = end - at;
    let size = encode::header_size(n);
    encode::slide(buf, at, n, at + size - 1);
    encode::write_header(buf, at - 1, 0xc0, n, size);
    end + size - 1
}
