// A file, or standard input, read and answered by one line on standard output.
ghost use Rattle.std.specs.Prelude.{◌≡◌, ◌≤◌, length, take, IfSome, IfOk, OnOk, Err};
ghost use Rattle.std.specs.declared.io.Error.{Error};
ghost use Rattle.std.specs.Io.KnownBytes.{Appends};
ghost use Rattle.verdict.specs.Verdict.{verdict};
ghost use Rattle.verdict.specs.Line.{line_of};

use crate::{LARGEST, line};
use std::rt::Files;
use std::{fmt, fs, io, str};

// One byte more than a file may have, so that a longer one shows.
const ROOM: usize = LARGEST + 1;

// Room for the text of an error: a reason of at most 256 bytes, and its number.
const WORDS: usize = 320;

// Reads the file until the buffer is full or the file ends; answers how many bytes were read. They stand at the
// buffer's front: of a file whose bytes are known, its first bytes, as many as the buffer has room for. std's ways
// to read to the end ask for a heap, and `read_exact` refuses a shorter file.
fn read_file<F: io::Read>(file: &mut F, buf: &mut [u8]) -> io::Result<usize>
    ensures fits { IfOk result (λ n. n ≤ length buf.new) }
    ensures bytes { IfOk result (λ n. IfSome (F.remaining file.old) (λ bytes. take n buf.new ≡ take (length buf.new) bytes)) }
{
    let mut at = 0;
    while at < buf.len() {
        match file.read(&mut buf[at..])? {
            0 => return Ok(at),
            n => at += n,
        }
    }
    Ok(at)
}

// Writes what failed, a colon and the system's reason to standard error. std puts the reason's number
// behind it, which is left out.
// inner: the programs; no contract can say what the system writes
pub fn fail<R: Eprint, D: fmt::Display + Drop>(rt: &R, what: D, error: io::Error) {
    let text = fmt::InlineText::<WORDS>::of(error);
    let text = text.as_str();
    let reason = text
        .rsplit_once(" (os error ")
        .map_or(text, |(reason, _)| reason);
    let _ = eprintln!(rt; "{what}: {reason}");
}

// Writes the line for these bytes, at once.
fn say<W: io::Write>(out: &mut W, bytes: &[u8]) -> io::Result<()>
    ensures { OnOk result (Appends (W.contents out.old) (W.contents out.new) (line_of (verdict bytes.now))) }
{
    let mut text = [0u8; 64];
    let n = line(bytes, &mut text);
    out.write_all(&text[..n])
}

// Why a file got no line.
#[derive(Clone, Copy)]
enum Fault {
    Reading(io::Error),
    Writing(io::Error),
}

// Reads an open file and writes its line: where the file's bytes are known, the line for all of them. Of a
// file that cannot be read nothing is written.
fn say_open<F: io::Read, W: io::Write>(file: &mut F, out: &mut W) -> Result<(), Fault>
    ensures line { OnOk result (IfSome (F.remaining file.old)
        (λ bytes. Appends (W.contents out.old) (W.contents out.new) (line_of (verdict bytes)))) }
    ensures unread { (e : Error) → result ≡ Err (Fault.Reading e) → out.new ≡ out.old }
{
    let mut buf = [0u8; ROOM];
    let n = read_file(file, &mut buf).map_err(Fault::Reading)?;
    say(out, &buf[..n]).map_err(Fault::Writing)
}

// Answers an open file on standard output. What is wrong with it goes to standard error.
fn answer_open<R: Print + Eprint, F: io::Read>(rt: &R, file: &mut F, name: &str) {
    match say_open(file, &mut io::writer(rt)) {
        Ok(()) => {}
        Err(Fault::Reading(e)) => fail(rt, name, e),
        Err(Fault::Writing(e)) => fail(rt, "standard output", e),
    }
}

// A path as it is shown: what is no UTF-8 in it as U+FFFD.
#[derive(Clone, Copy)]
struct Shown<'a>(&'a [u8]);

impl fmt::Display for Shown<'_> {
    fn fmt<W: fmt::Write>(&self, f: &mut fmt::Formatter<W>) -> fmt::Result {
        for part in self.0.utf8_chunks() {
            f.write_str(part.valid())?;
            if !part.invalid().is_empty() {
                f.write_str("\u{fffd}")?;
            }
        }
        Ok(())
    }
}

// Reads the file at a path, or standard input where the path is `-`, and writes its line, as
// `accepted items=3 depth=1` or `refused 10`, to standard output. What is wrong with the file goes to
// standard error, with nothing on standard output. An error of writing goes there too. A path that is
// no UTF-8 cannot be opened.
// inner: the programs; no contract can say what the system reads and writes. What is written of the bytes read is
// `say_open`'s and `line`'s
pub fn say_file<R: Files + Input + Print + Eprint>(rt: &R, path: &[u8]) {
    if path == b"-".as_slice() {
        answer_open(rt, &mut rt.reader(), "standard input");
        return;
    }
    let Ok(name) = str::from_utf8(path) else {
        let why = io::Error::new(io::ErrorKind::InvalidInput, "The name is not UTF-8");
        fail(rt, Shown(path), why);
        return;
    };
    match fs::open(rt, name) {
        Ok(mut file) => answer_open(rt, &mut file, name),
        Err(e) => fail(rt, name, e),
    }
}
