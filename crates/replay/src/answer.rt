// What a line is answered, and how it is written.
use list::Prototype;
use rlp::Refusal;
use std::fmt;
use stream::Stream;

// The answer to a line. Bytes are no part of its text: they follow it, in hex.
#[derive(Clone, Copy)]
pub enum Answer<'a> {
    Done,
    Number(u64),
    Numbers(usize, usize),
    // A bit each.
    Flags(u8),
    Prototype(Prototype),
    // Whether the raw bytes were taken.
    Taken(bool),
    Bytes(&'a [u8]),
    // How many bytes the amended sheet has, and the buffer.
    Amended(usize, &'a [u8]),
    // The stream's state, and its buffer.
    State(Stream, &'a [u8]),
}

impl<'a> Answer<'a> {
    // The bytes that follow its text, if any do.
    pub fn bytes(&self) -> Option<&'a [u8]> {
        match *self {
            Answer::Bytes(b) | Answer::Amended(_, b) | Answer::State(_, b) => Some(b),
            _ => None,
        }
    }
}

// Why a line has no such answer.
#[derive(Clone, Copy)]
pub enum Fault {
    BadLine,
    Refused(Refusal),
    // A call that was refused, or took no bytes, and yet changed the state or the buffer.
    RefusedChanged(Refusal),
    NotTakenChanged,
    // Two calls that should agree on the part that is handed back.
    PartDiffers,
    CacheDiffers,
}

impl From<Refusal> for Fault {
    fn from(refusal: Refusal) -> Self {
        Fault::Refused(refusal)
    }
}

impl fmt::Display for Fault {
    fn fmt<W: fmt::Write>(&self, f: &mut fmt::Formatter<W>) -> fmt::Result {
        match *self {
            Fault::BadLine => f.write_str("bad line"),
            Fault::Refused(e) => write!(f, "no {}", e.number()),
            Fault::RefusedChanged(e) => write!(f, "no {} changed", e.number()),
            Fault::NotTakenChanged => f.write_str("ok no changed"),
            Fault::PartDiffers => f.write_str("part differs"),
            Fault::CacheDiffers => f.write_str("cache differs"),
        }
    }
}

// What an item is, and how many bytes or items it has.
#[derive(Clone, Copy)]
struct Kind(Prototype);

impl fmt::Display for Kind {
    fn fmt<W: fmt::Write>(&self, f: &mut fmt::Formatter<W>) -> fmt::Result {
        match self.0 {
            Prototype::Null => f.write_str("null"),
            Prototype::Data(n) => write!(f, "data {n}"),
            Prototype::List(n) => write!(f, "list {n}"),
        }
    }
}

// How many items a list takes, as the state has it: `-` for 0, which is any number.
#[derive(Clone, Copy)]
struct Maximum(u32);

impl fmt::Display for Maximum {
    fn fmt<W: fmt::Write>(&self, f: &mut fmt::Formatter<W>) -> fmt::Result {
        match self.0 {
            0 => f.write_str("-"),
            n => write!(f, "{n}"),
        }
    }
}

// A state: the open lists, the outermost first, are as many as it has room for.
#[derive(Clone, Copy)]
struct Shown(Stream);

impl fmt::Display for Shown {
    fn fmt<W: fmt::Write>(&self, f: &mut fmt::Formatter<W>) -> fmt::Result {
        let stream = self.0;
        write!(f, "{} {} {}", stream.start, stream.end, stream.opened)?;
        for ((position, current), maximum) in stream
            .positions
            .iter()
            .zip(&stream.currents)
            .zip(&stream.maxima)
            .take(stream.opened)
        {
            write!(f, " {position}:{current}:{}", Maximum(*maximum))?;
        }
        Ok(())
    }
}

impl fmt::Display for Answer<'_> {
    fn fmt<W: fmt::Write>(&self, f: &mut fmt::Formatter<W>) -> fmt::Result {
        match *self {
            Answer::Done => f.write_str("ok"),
            Answer::Number(n) => write!(f, "ok {n}"),
            Answer::Numbers(a, b) => write!(f, "ok {a} {b}"),
            Answer::Flags(flags) => write!(f, "ok {flags:05b}"),
            Answer::Prototype(prototype) => write!(f, "ok {}", Kind(prototype)),
            Answer::Taken(true) => f.write_str("ok yes"),
            Answer::Taken(false) => f.write_str("ok no"),
            Answer::Bytes(_) => f.write_str("ok "),
            Answer::Amended(len, _) => write!(f, "ok {len} "),
            Answer::State(stream, _) => write!(f, "state {} ", Shown(stream)),
        }
    }
}
