// What is held from line to line, and the answer to a line.
ghost use Rattle.std.specs.Prelude.{◌≤◌};

use crate::amending::amend;
use crate::answer::{Answer, Fault};
use crate::parse::{MOST, byte, bytes, number, open_list, truth, words};
use crate::reading::{at, at_cached, counted, read};
use encode::Scalar;
use rlp::Refusal;
use stream::{Step, Stream};

// The room of a buffer: the most bytes that a line may give, one more than the limit.
pub const ROOM: usize = 1_048_577;

// The most bytes of a line, without its line end.
pub const LONGEST: usize = 65_536;

// A stream, and how many of the buffer's bytes are its own: the room is fixed, for there is no heap.
#[derive(Clone, Copy)]
pub struct Held {
    stream: Stream,
    room: usize,
    ghost fits: { room ≤ 1048577 },
}

#[derive(Drop)]
pub struct Session {
    buffer: [u8; ROOM],
    // What a buffer was before a call.
    copy: [u8; ROOM],
    held: Option<Held>,
}

// A new stream, and its buffer set to one byte all over.
fn fresh(start: &[u8], room: &[u8], fill: &[u8], buffer: &mut [u8; ROOM]) -> Result<Held, Fault> {
    let stream = Stream::new(number(start)?);
    let room = number(room)?;
    let fill = byte(fill)?;
    if room > ROOM {
        return Err(Fault::BadLine);
    }
    buffer[..room].fill(fill);
    Ok(Held { stream, room })
}

// A state of these three numbers, in which the open lists are as the words say, the outermost first.
fn state(start: &[u8], end: &[u8], opened: &[u8], lists: &[&[u8]]) -> Result<Stream, Fault> {
    let mut stream = Stream::new(number(start)?);
    stream.end = number(end)?;
    stream.opened = number(opened)?;
    for (k, list) in lists.iter().enumerate() {
        let (position, current, maximum) = open_list(list)?;
        *stream.positions.get_mut(k).ok_or(Fault::BadLine)? = position;
        *stream.currents.get_mut(k).ok_or(Fault::BadLine)? = current;
        *stream.maxima.get_mut(k).ok_or(Fault::BadLine)? = maximum;
    }
    Ok(stream)
}

// A truth, as 0 or 1.
fn said(yes: bool) -> Answer<'static> {
    Answer::Number(u64::from(yes))
}

// That a call was accepted which takes whatever it is given.
fn done<'a>(taken: Result<bool, Fault>) -> Result<Answer<'a>, Fault> {
    taken?;
    Ok(Answer::Done)
}

// Bytes that are handed out, held to the length that another call says: there are none where that is refused.
fn handed<'a>(len: Result<usize, Refusal>, part: &'a [u8]) -> Result<Answer<'a>, Fault> {
    if part.len() != len.unwrap_or(0) {
        return Err(Fault::PartDiffers);
    }
    len?;
    Ok(Answer::Bytes(part))
}

impl Session {
    // Before the first stream.
    pub fn new() -> Self {
        Session {
            buffer: [0; ROOM],
            copy: [0; ROOM],
            held: None,
        }
    }

    // A call that may change the stream, and whether it took what it was given. One that did not is held
    // to the state before it, and to the copy of the buffer.
    fn change<F: FnOnce(Stream, &mut [u8]) -> Step>(&mut self, call: F) -> Result<bool, Fault>
        requires { F.IsAlwaysCallable call }
    {
        let mut held = self.held.ok_or(Fault::BadLine)?;
        let buf = &mut self.buffer[..];
        let buf = &mut buf[..held.room];
        let copy = &mut self.copy[..];
        let copy = &mut copy[..held.room];
        copy.copy_from_slice(buf);
        let Step { stream, answer } = call(held.stream, buf);
        let changed = held.stream != stream || *buf != *copy;
        held.stream = stream;
        self.held = Some(held);
        match answer {
            Ok(false) if changed => Err(Fault::NotTakenChanged),
            Err(e) if changed => Err(Fault::RefusedChanged(e)),
            Ok(taken) => Ok(taken),
            Err(e) => Err(Fault::Refused(e)),
        }
    }

    // Refuses a line that needs a stream where none is held.
    fn needed(&self) -> Result<(), Fault> {
        if self.held.is_none() {
            return Err(Fault::BadLine);
        }
        Ok(())
    }

    // The stream and its buffer.
    fn lent(&self) -> Result<(&Stream, &[u8]), Fault> {
        let held = self.held.as_ref().ok_or(Fault::BadLine)?;
        Ok((&held.stream, &self.buffer[..held.room]))
    }

    // Appends the number that a word gives, which is read where a stream is held.
    fn put<T: Scalar, F: FnOnce(&[u8]) -> Result<T, Fault>>(
        &mut self,
        word: &[u8],
        parse: F,
    ) -> Result<Answer<'_>, Fault>
        requires { F.IsAlwaysCallable parse }
    {
        self.needed()?;
        let n = parse(word)?;
        done(self.change(|stream, buf| stream.append_scalar(buf, n)))
    }

    fn begin(&mut self, most: &[u8]) -> Result<Answer<'_>, Fault> {
        self.needed()?;
        let most = number(most)?;
        done(self.change(|stream, buf| stream.begin_list(buf, most)))
    }

    fn append(&mut self, b: &[u8], room: &mut [u8]) -> Result<Answer<'_>, Fault> {
        self.needed()?;
        let (b, _) = bytes(b, room)?;
        done(self.change(|stream, buf| stream.append(buf, b)))
    }

    fn raw(&mut self, b: &[u8], items: &[u8], room: &mut [u8]) -> Result<Answer<'_>, Fault> {
        self.needed()?;
        let items = number(items)?;
        let (b, _) = bytes(b, room)?;
        done(self.change(|stream, buf| stream.append_raw(buf, b, items)))
    }

    fn checked(
        &mut self,
        b: &[u8],
        items: &[u8],
        most: &[u8],
        room: &mut [u8],
    ) -> Result<Answer<'_>, Fault> {
        self.needed()?;
        let (items, most) = (number(items)?, number(most)?);
        let (b, _) = bytes(b, room)?;
        let taken = self.change(|stream, buf| stream.append_raw_checked(buf, b, items, most))?;
        Ok(Answer::Taken(taken))
    }

    fn estimate(&self, n: &[u8]) -> Result<Answer<'_>, Fault> {
        let (stream, buf) = self.lent()?;
        let n = number(n)?;
        Ok(counted(stream.estimate_size(buf, n)?))
    }

    // The answer to a name alone that asks the stream something.
    fn ask(&self, name: &str) -> Result<Answer<'_>, Fault> {
        let (stream, buf) = self.lent()?;
        match name {
            "len" => Ok(counted(stream.len(buf)?)),
            "finished" => Ok(said(stream.is_finished(buf)?)),
            "isempty" => Ok(said(stream.is_empty(buf)?)),
            "out" => handed(stream.out_len(buf), stream.out(buf)),
            "raws" => handed(stream.as_raw_len(buf), stream.as_raw(buf)),
            "show" => Ok(Answer::State(*stream, buf)),
            _ => Err(Fault::BadLine),
        }
    }

    // The answer to a name alone.
    fn on_name(&mut self, name: &str) -> Result<Answer<'_>, Fault> {
        match name {
            "unbounded" => done(self.change(|stream, buf| stream.begin_unbounded_list(buf))),
            "empty" => done(self.change(|stream, buf| stream.append_empty_data(buf))),
            "finalize" => done(self.change(|stream, buf| stream.finalize_unbounded_list(buf))),
            "clear" => done(self.change(|stream, buf| stream.clear(buf))),
            _ => self.ask(name),
        }
    }

    // The answer to a name and one word: a number for the stream, or bytes.
    fn on_word(&mut self, name: &str, word: &[u8], room: &mut [u8]) -> Result<Answer<'_>, Fault> {
        match name {
            "begin" => self.begin(word),
            "put8" => self.put(word, number::<u8>),
            "put16" => self.put(word, number::<u16>),
            "put32" => self.put(word, number::<u32>),
            "put64" => self.put(word, number::<u64>),
            "putbool" => self.put(word, truth),
            "estimate" => self.estimate(word),
            "bytes" => self.append(word, room),
            _ => read(name, word, room),
        }
    }

    // A new stream.
    fn make(&mut self, start: &[u8], room: &[u8], fill: &[u8]) -> Result<Answer<'_>, Fault> {
        self.held = Some(fresh(start, room, fill, &mut self.buffer)?);
        Ok(Answer::Done)
    }

    // The state of the stream is set.
    fn set(
        &mut self,
        start: &[u8],
        end: &[u8],
        opened: &[u8],
        lists: &[&[u8]],
    ) -> Result<Answer<'_>, Fault> {
        let mut held = self.held.ok_or(Fault::BadLine)?;
        held.stream = state(start, end, opened, lists)?;
        self.held = Some(held);
        Ok(Answer::Done)
    }

    // The answer to a line. The bytes that it gives are put into the room.
    pub fn answer<'a>(
        &'a mut self,
        line: &[u8],
        room: &'a mut [u8; ROOM],
    ) -> Result<Answer<'a>, Fault> {
        if line.len() > LONGEST {
            return Err(Fault::BadLine);
        }
        let mut word_room = [line; MOST];
        match words(line, &mut word_room)? {
            (name, []) => self.on_name(name),
            (name, [word]) => self.on_word(name, word, room),
            ("raw", [b, items]) => self.raw(b, items, room),
            ("checked", [b, items, most]) => self.checked(b, items, most, room),
            ("stream", [start, room, fill]) => self.make(start, room, fill),
            ("state", [start, end, opened, lists @ ..]) => self.set(start, end, opened, lists),
            ("at", [b, index]) => at(b, index, room),
            ("at", [b, index, known, offset]) => at_cached(b, index, known, offset, room),
            ("amend", [buffer, n, path, new]) => {
                amend(buffer, n, path, new, room, &mut self.copy)
            }
            _ => Err(Fault::BadLine),
        }
    }
}
