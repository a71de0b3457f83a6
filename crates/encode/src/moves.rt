// Bytes moved within a lent buffer, or copied into it.
ghost use Rattle.std.specs.Prelude.{◌≡◌, ◌+◌, ◌≤◌, length};
ghost use Rattle.encode.specs.Put.{put, moved};

// The n bytes from `from` on, wherever `to` lies. Bytes that are to stay where they are, are not touched.
// inner: the stream makes room for a list's header so, and the amender for a replacement
#[tactic(auto, using(crate::proofs::Puts::slide_steps))]
pub fn slide(buf: &mut [u8], from: usize, n: usize, to: usize)
    requires { (from + n ≤ length buf.old) × (to + n ≤ length buf.old) }
    ensures { buf.new ≡ moved buf.old from n to }
{
    if from != to {
        buf.copy_within(from..from + n, to);
    }
}

// All of a slice, byte by byte. It is made part of its callers, where the length may be known.
#[inline(always)]
fn put_bytes(buf: &mut [u8], at: usize, src: &[u8])
    requires { at + length src.now ≤ length buf.old }
    ensures { buf.new ≡ put buf.old at src.now }
{
    for (i, &byte) in src.iter().enumerate() {
        buf[at + i] = byte;
    }
}

// A piece of N bytes, at a place. N is known where this is compiled, and the piece is read before any byte of it is written: so the
// compiler moves it at once. `copy_from_slice` of a whole string is a call of C's `memmove`, a name that the archive would need from
// outside; of a piece it tests each time whether the two slices lie over one another.
fn put_piece<const N: usize>(buf: &mut [u8], at: usize, piece: [u8; N])
    requires { at + N ≤ length buf.old }
    ensures { buf.new ≡ put buf.old at piece.entry }
{
    put_bytes(buf, at, &piece);
}

// All of a slice of N to twice N bytes, at a place: its first N, and its last.
fn put_ends<const N: usize>(buf: &mut [u8], at: usize, src: &[u8])
    requires { (N ≤ length src.now) × (length src.now ≤ N + N) × (at + length src.now ≤ length buf.old) }
    ensures { buf.new ≡ put buf.old at src.now }
{
    if let Some(first) = src.first_chunk::<N>()
        && let Some(last) = src.last_chunk::<N>()
    {
        put_piece(buf, at, *first);
        put_piece(buf, at + src.len() - N, *last);
    }
}

// All of a slice of 32 bytes or more: pieces of 32, while there is one left, and the last 32.
fn put_long(buf: &mut [u8], at: usize, src: &[u8])
    requires { (32 ≤ length src.now) × (at + length src.now ≤ length buf.old) }
    ensures { buf.new ≡ put buf.old at src.now }
{
    let mut left = src;
    let mut done = 0;
    while let Some((piece, rest)) = left.split_first_chunk::<32>() {
        put_piece(buf, at + done, *piece);
        done += 32;
        left = rest;
    }
    if let Some(last) = src.last_chunk::<32>() {
        put_piece(buf, at + src.len() - 32, *last);
    }
}

// All of another slice, at a place.
// inner: the writers copy strings so, and the stream raw items
pub fn copy_at(buf: &mut [u8], at: usize, src: &[u8])
    requires { at + length src.now ≤ length buf.old }
    ensures { buf.new ≡ put buf.old at src.now }
{
    match src.len() {
        0..=3 => put_bytes(buf, at, src),
        4..=8 => put_ends::<4>(buf, at, src),
        9..=16 => put_ends::<8>(buf, at, src),
        17..=32 => put_ends::<16>(buf, at, src),
        _ => put_long(buf, at, src),
    }
}
