// The line that amends a sheet.
use crate::answer::{Answer, Fault};
use crate::parse::{LONGEST_PATH, bytes, number, path};

// Amends the buffer. A copy of it says whether a refusal changed a byte.
fn amended<'a>(
    buffer: &'a mut [u8],
    n: usize,
    path: &[usize],
    new: &[u8],
    copy: &mut [u8],
) -> Result<Answer<'a>, Fault> {
    let before = copy.get_mut(..buffer.len()).ok_or(Fault::BadLine)?;
    before.copy_from_slice(buffer);
    match amend::amend(buffer, n, path, new) {
        Ok(len) => Ok(Answer::Amended(len, buffer)),
        Err(e) if *buffer != *before => Err(Fault::RefusedChanged(e)),
        Err(e) => Err(Fault::Refused(e)),
    }
}

// The answer to `amend BUFFER N PATH REPLACEMENT`. The bytes that the line gives are put into the room.
pub fn amend<'a>(
    buffer: &[u8],
    n: &[u8],
    indexes: &[u8],
    new: &[u8],
    room: &'a mut [u8],
    copy: &mut [u8],
) -> Result<Answer<'a>, Fault> {
    let mut path_room = [0; LONGEST_PATH];
    let path = path(indexes, &mut path_room)?;
    let n = number(n)?;
    let (buffer, room) = bytes(buffer, room)?;
    let (new, _) = bytes(new, room)?;
    amended(buffer, n, path, new, copy)
}
