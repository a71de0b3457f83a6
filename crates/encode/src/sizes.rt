// How many bytes encodings take.
ghost use Rattle.std.specs.Prelude.{◌≡◌, length};
ghost use Rattle.rlp.specs.Bytes.{be};
ghost use Rattle.rlp.specs.Tree.{header_size, str, itself, enc};
ghost use Rattle.encode.specs.Encode.{numeral};

// How many bytes a number takes, most significant first with no leading zero: 0 takes none.
// inner: the writers and the stream size what they write by it
pub fn be_size(n: usize) -> usize
    ensures { result ≡ length (be n) }
{
    if n < 0x100 {
        return if n == 0 { 0 } else { 1 };
    }
    if n < 0x1_0000 {
        return 2;
    }
    if n < 0x100_0000 {
        return 3;
    }
    if n < 0x1_0000_0000 {
        return 4;
    }
    if n < 0x100_0000_0000 {
        return 5;
    }
    if n < 0x1_0000_0000_0000 {
        return 6;
    }
    if n < 0x100_0000_0000_0000 {
        return 7;
    }
    8
}

// How many bytes stand before a payload of n bytes.
// inner: the stream and the amender size lists by it
#[tactic(auto, using(crate::proofs::Writes::size_steps), unfolding(rlp::specs::Tree::header_size))]
pub fn header_size(n: usize) -> usize
    ensures { result ≡ header_size n }
{
    if n < 56 {
        return 1;
    }
    1 + be_size(n)
}

// A string of one byte below 128 is its own encoding.
#[tactic(auto, unfolding(rlp::specs::Tree::itself))]
fn is_itself(src: &[u8]) -> bool
    ensures { result ≡ itself src.now }
{
    matches!(src, [0..=0x7f])
}

// How many bytes a string's encoding takes.
// inner: the stream judges room by it
#[tactic(auto, using(crate::proofs::Writes::size_steps))]
pub fn string_size(src: &[u8]) -> usize
    ensures { result ≡ length (enc (str src.now)) }
{
    if is_itself(src) {
        return 1;
    }
    header_size(src.len()) + src.len()
}

// How many bytes a scalar's encoding takes.
// inner: the stream judges room by it
#[tactic(auto, using(crate::proofs::Writes::size_steps))]
pub fn scalar_size(n: usize) -> usize
    ensures { result ≡ length (enc (numeral n)) }
{
    if n < 0x80 {
        return 1;
    }
    1 + be_size(n)
}
