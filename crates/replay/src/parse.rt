// The words of a line, and what a word says: a number, bytes, a path or an open list.
ghost use Rattle.std.specs.Prelude.{◌≤◌, length, IfOk};

use crate::answer::Fault;
use std::str;
use std::str::FromStr;

// The most words of a line: a name, and a state's three numbers and 16 lists.
pub const MOST: usize = 20;

// The most indexes of a path.
pub const LONGEST_PATH: usize = 64;

// A line's name and its other words, which one space parts. A word may be empty, and such a word is no
// name, no bytes and no number.
pub fn words<'a, 'b>(
    line: &'a [u8],
    room: &'b mut [&'a [u8]; MOST],
) -> Result<(&'a str, &'b [&'a [u8]]), Fault> {
    let mut n = 0; // needed behind the loop
    for word in line.split(|b| *b == b' ') {
        *room.get_mut(n).ok_or(Fault::BadLine)? = word;
        n += 1;
    }
    let Some([name, others @ ..]) = room.get(..n) else {
        return Err(Fault::BadLine);
    };
    match str::from_utf8(name) {
        Ok(name) => Ok((name, others)),
        Err(_) => Err(Fault::BadLine),
    }
}

// A number in decimal digits alone, of which the first may be zeros: `parse` would take a sign too.
pub fn number<T: FromStr>(word: &[u8]) -> Result<T, Fault>
where
    T::Err: Drop,
{
    if !word.iter().all(|b| b.is_ascii_digit()) {
        return Err(Fault::BadLine);
    }
    let Ok(text) = str::from_utf8(word) else {
        return Err(Fault::BadLine);
    };
    match text.parse() {
        Ok(n) => Ok(n),
        Err(_) => Err(Fault::BadLine),
    }
}

// A truth, as 0 or 1.
pub fn truth(word: &[u8]) -> Result<bool, Fault> {
    match number(word)? {
        0u8 => Ok(false),
        1 => Ok(true),
        _ => Err(Fault::BadLine),
    }
}

// What a hex digit counts, with lower-case letters alone: `to_digit` would take capitals too.
fn digit(b: u8) -> Result<u8, Fault> {
    match b {
        b'0'..=b'9' => Ok(b - b'0'),
        b'a'..=b'f' => Ok(b - b'a' + 10),
        _ => Err(Fault::BadLine),
    }
}

// The byte that two hex digits give.
fn pair([high, low]: &[u8; 2]) -> Result<u8, Fault> {
    Ok(digit(*high)? << 4 | digit(*low)?)
}

// A byte in hex.
pub fn byte(word: &[u8]) -> Result<u8, Fault> {
    pair(word.as_array().ok_or(Fault::BadLine)?)
}

// Puts the bytes of a part to the front of the room, and answers how many they are. A part is one byte
// in hex, `*` and how often, or hex digits, two for each byte. A byte that stands no times is not read.
fn part(part: &[u8], room: &mut [u8]) -> Result<usize, Fault>
    ensures { IfOk result (λ n. n ≤ length room.new) }
{
    if let [high, low, b'*', times @ ..] = part {
        let times = number(times)?;
        let front = room.get_mut(..times).ok_or(Fault::BadLine)?;
        if !front.is_empty() {
            front.fill(pair(&[*high, *low])?);
        }
        return Ok(times);
    }
    let (pairs, odd) = part.as_chunks();
    if pairs.is_empty() || !odd.is_empty() {
        return Err(Fault::BadLine);
    }
    let front = room.get_mut(..pairs.len()).ok_or(Fault::BadLine)?;
    for (b, digits) in front.iter_mut().zip(pairs) {
        *b = pair(digits)?;
    }
    Ok(pairs.len())
}

// Puts the bytes that a word gives to the front of the room, and answers how many they are.
fn put(word: &[u8], room: &mut [u8]) -> Result<usize, Fault>
    ensures { IfOk result (λ n. n ≤ length room.new) }
{
    if matches!(word, b"-") {
        return Ok(0);
    }
    let mut len = 0;
    for piece in word.split(|b| *b == b'.') {
        len += part(piece, &mut room[len..])?;
    }
    Ok(len)
}

// The bytes that a word gives, put to the front of the room, and the room that is left.
pub fn bytes<'a>(word: &[u8], room: &'a mut [u8]) -> Result<(&'a mut [u8], &'a mut [u8]), Fault> {
    let len = put(word, room)?;
    Ok(room.split_at_mut(len))
}

// The indexes of a path.
pub fn path<'a>(word: &[u8], room: &'a mut [usize; LONGEST_PATH]) -> Result<&'a [usize], Fault> {
    if matches!(word, b"-") {
        return Ok(&[]);
    }
    let mut n = 0; // needed behind the loop
    for index in word.split(|b| *b == b'/') {
        *room.get_mut(n).ok_or(Fault::BadLine)? = number(index)?;
        n += 1;
    }
    room.get(..n).ok_or(Fault::BadLine)
}

// An open list: its position, its items so far, and how many it takes, which `-` gives as 0, as the state has it.
pub fn open_list(word: &[u8]) -> Result<(u32, u32, u32), Fault> {
    let mut parts = word.split(|b| *b == b':');
    let (Some(position), Some(current), Some(maximum), None) = (
        parts.next(),
        parts.next(),
        parts.next(),
        parts.next(),
    ) else {
        return Err(Fault::BadLine);
    };
    let maximum = match maximum {
        b"-" => 0,
        maximum => number(maximum)?,
    };
    Ok((number(position)?, number(current)?, maximum))
}
