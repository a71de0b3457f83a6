// rlpcheck FILE: says by one line whether a file of at most 65,536 bytes is one strict sheet, as
// `accepted items=3 depth=1` or `refused 10`. FILE may be `-`, for standard input. What is wrong
// with the file itself goes to standard error.
#![tactic(auto)]

use std::env::FillError;
use std::rt::Env;

// A longer path cannot be opened.
const ROOM: usize = 4096;

// Writes a line to standard error.
fn complain(rt: &impl Eprint, line: &str) {
    let _ = eprintln!(rt; "{line}");
}

fn main(rt: HostRuntime) {
    let mut path = [0u8; ROOM];
    let name = rt.arg(1, &mut path);
    let more = rt.arg(2, &mut []);
    match (name, more) {
        (Ok(n), Err(FillError::NotPresent)) => verdict::say_file(&rt, &path[..n]),
        (Err(FillError::TooLong), Err(FillError::NotPresent)) => {
            complain(&rt, "rlpcheck: the file's name: File name too long");
        }
        _ => complain(&rt, "usage: rlpcheck FILE"),
    }
}
