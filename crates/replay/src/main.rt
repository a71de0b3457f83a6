// Runs cases: reads lines from standard input, and writes one answer line for each line that asks
// something. This file moves the lines through; what a line says is for the other files to know.
#![tactic(auto)]

mod amending;
mod answer;
mod input;
mod output;
mod parse;
mod reading;
mod session;

use input::Lines;
use output::Output;
use session::{LONGEST, ROOM, Session};
use std::env::FillError;
use std::io;
use std::io::Write;
use std::rt::Env;
use verdict::fail;

// Room for a line, and for one byte more, by which a longer line shows.
const LINE_ROOM: usize = LONGEST + 1;

// Writes the answer to a line that asks something: an empty one and a comment ask nothing. One that is too long, a comment too, is answered.
fn reply<W: Write + Drop>(
    out: &mut Output<W>,
    session: &mut Session,
    line: &[u8],
    room: &mut [u8; ROOM],
) -> io::Result<()> {
    match line {
        [] => Ok(()),
        [b'#', ..] if line.len() <= LONGEST => Ok(()),
        _ => match session.answer(line, room) {
            Ok(answer) => {
                write!(out, "{answer}")?;
                if let Some(bytes) = answer.bytes() {
                    out.write_hex(bytes)?;
                }
                out.write_all(b"\n")
            }
            Err(fault) => writeln!(out, "{fault}"),
        },
    }
}

// Answers every line. A proved loop has to end, and nothing says that the input does: so the loop has a
// number of turns that no run uses up.
fn replay<R: Input + Print + Eprint>(rt: &R, session: &mut Session, room: &mut [u8; ROOM]) {
    let mut input = Lines::new(rt.reader());
    let mut output = Output::new(io::writer(rt));
    let mut line_room = [0; LINE_ROOM];
    for _ in 0..u64::MAX {
        match input.next_line(&mut line_room) {
            Ok(Some(line)) => {
                if let Err(e) = reply(&mut output, session, line, room) {
                    fail(rt, "write", e);
                    return;
                }
            }
            Ok(None) => break,
            Err(e) => {
                fail(rt, "read", e);
                break;
            }
        }
    }
    if let Err(e) = output.flush() {
        fail(rt, "write", e);
    }
}

// Whether the program was given an argument. It may be of any length, since none of it is kept.
fn has_argument(rt: &impl Env) -> bool {
    !matches!(rt.arg(1, &mut []), Err(FillError::NotPresent))
}

// Runs the cases, or says how it is used where it is given an argument.
fn main(rt: HostRuntime) {
    if has_argument(&rt) {
        let _ = eprintln!(rt; "usage: replay < CASES");
        return;
    }
    let mut session = Session::new();
    let mut room = [0; ROOM];
    replay(&rt, &mut session, &mut room);
}
