// What an item is by its first bytes.
//
// Ported from rlpin.rs (Rlp's is_null, is_empty, is_list, is_data, is_int and size, and Prototype)
// of the crate rlp 0.6.1.
ghost use Rattle.std.specs.Prelude.{◌≡◌, drop};
ghost use Rattle.list.specs.Kinds.{is_null, is_empty, is_list, is_data, is_set, is_int, size_of};

// What an item is: nothing, data of so many bytes, or a list of so many items.
#[derive(Clone, Copy, Debug, PartialEq, Eq)]
pub enum Prototype {
    Null,
    Data(usize),
    List(usize),
}

#[tactic(auto, unfolding(crate::specs::Kinds::is_null))]
pub fn is_null(bytes: &[u8]) -> bool
    ensures { result ≡ is_null bytes.now }
{
    matches!(bytes, [])
}

// 80 or c0: looks at the first byte alone.
#[tactic(auto, unfolding(crate::specs::Kinds::is_empty))]
pub fn is_empty(bytes: &[u8]) -> bool
    ensures { result ≡ is_empty bytes.now }
{
    matches!(bytes, [0x80 | 0xc0, ..])
}

#[tactic(auto, unfolding(crate::specs::Kinds::is_list))]
pub fn is_list(bytes: &[u8]) -> bool
    ensures { result ≡ is_list bytes.now }
{
    matches!(bytes, [0xc0..=0xff, ..])
}

#[tactic(auto, unfolding(crate::specs::Kinds::is_data))]
pub fn is_data(bytes: &[u8]) -> bool
    ensures { result ≡ is_data bytes.now }
{
    matches!(bytes, [0..=0xbf, ..])
}

// Whether there is a byte at an index, and it is not 0.
#[tactic(auto, unfolding(crate::specs::Kinds::is_set))]
fn is_set(bytes: &[u8], at: usize) -> bool
    ensures { result ≡ is_set (drop at bytes.now) }
{
    match bytes.get(at) {
        Some(byte) => *byte != 0,
        None => false, // there is none
    }
}

// Whether the first byte of the value is not 0; the byte 00 itself is taken too.
#[tactic(auto, unfolding(crate::specs::Kinds::is_int))]
pub fn is_int(bytes: &[u8]) -> bool
    ensures { result ≡ is_int bytes.now }
{
    match bytes {
        [0..=0x80, ..] => true,
        [0x81..=0xb7, rest @ ..] => is_set(rest, 0),
        [first @ 0xb8..=0xbf, rest @ ..] => is_set(rest, usize::from(*first - 0xb7)),
        _ => false,
    }
}

// How many bytes the value of data has: 0 where the data is damaged, and for a list, as R answers. The call cannot fail.
#[tactic(auto, unfolding(crate::specs::Kinds::size_of, crate::specs::Kinds::value_in))]
pub fn size(bytes: &[u8]) -> usize
    ensures { result ≡ size_of bytes.now }
{
    if !is_data(bytes) {
        return 0;
    }
    header::payload_info(bytes).map_or(0, |info| info.value_len)
}
