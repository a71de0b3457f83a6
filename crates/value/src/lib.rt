// The value of an item: where its payload lies, the payload itself, and the number in it.
//
// Ported from rlpin.rs (BasicDecoder::decode_value, Rlp::data) and from impls.rs (the decoding of
// bool and of u8 to u64) of the crate rlp 0.6.1.
#![tactic(auto)]

ghost use Rattle.std.specs.Prelude.{◌≡◌, ◌+◌, ◌≤◌, ◌<◌, ◌^◌, ℕ, List, length, IfOk};
ghost use Rattle.rlp.specs.Refusals.{Or};
ghost use Rattle.value.specs.Value.{short_value, long_value, value_at, data_at, part, scalar, uint, boolean};
ghost use Rattle.value.specs.Answers.{part_in};
ghost use Rattle.value.specs.Claims.{Claimed};

use rlp::Refusal;

// Some bytes of a slice: where they start, and how many they are.
#[derive(Clone, Copy, Debug, PartialEq, Eq)]
pub struct Part {
    pub start: usize,
    pub len: usize,
}

// A short string: n bytes after the first one, of which `rest` are there.
#[tactic(auto, unfolding(crate::specs::Value::short_value, crate::specs::Value::spare, rlp::specs::Refusals::unless))]
fn short_place(rest: &[u8], n: usize) -> Result<Part, Refusal>
    ensures { result ≡ short_value n rest.now }
{
    if rest.len() < n {
        return Err(Refusal::RlpInconsistentLengthAndData);
    }
    if n == 1 && rest[0] < 0x80 {
        return Err(Refusal::RlpInvalidIndirection);
    }
    Ok(Part { start: 1, len: n })
}

// A long string: len_of_len bytes of length after the first one, then the string.
#[tactic(auto, unfolding(crate::specs::Value::long_value, crate::specs::Value::long_end, rlp::specs::Refusals::unless, rlp::specs::Refusals::also))]
fn long_place(rest: &[u8], len_of_len: usize) -> Result<Part, Refusal>
    requires { len_of_len ≤ 8 }
    ensures { result ≡ long_value len_of_len rest.now }
{
    if rest.len() < len_of_len {
        return Err(Refusal::RlpInconsistentLengthAndData); // the length bytes are cut
    }
    let len = header::decode_usize(&rest[..len_of_len])?;
    let start = 1 + len_of_len;
    if start.checked_add(len).is_none() {
        return Err(Refusal::RlpInvalidLength);
    }
    if rest.len() < len_of_len + len {
        return Err(Refusal::RlpInconsistentLengthAndData); // the value is cut
    }
    Ok(Part { start, len })
}

// Where the string at the front of the bytes lies.
#[tactic(auto, unfolding(crate::specs::Value::value_at))]
pub fn value_place(bytes: &[u8]) -> Result<Part, Refusal>
    ensures { result ≡ value_at bytes.now }
{
    let [first, rest @ ..] = bytes else {
        return Err(Refusal::RlpIsTooShort);
    };
    match *first {
        0..=0x7f => Ok(Part { start: 0, len: 1 }),
        0x80..=0xb7 => short_place(rest, usize::from(*first - 0x80)),
        0xb8..=0xbf => long_place(rest, usize::from(*first - 0xb7)),
        _ => Err(Refusal::RlpExpectedToBeData),
    }
}

// The bytes of a place that lies inside the slice, as a part of it.
#[tactic(auto, unfolding(crate::specs::Value::part))]
fn taken(bytes: &[u8], place: Part) -> &[u8]
    requires { place.start + place.len ≤ length bytes.now }
    ensures { result.now ≡ part bytes.now place }
{
    &bytes[place.start..place.start + place.len]
}

// The bytes of a place, as a part of the slice; no bytes where there is no place, or none inside, so that the call cannot fail.
#[tactic(auto, unfolding(crate::specs::Answers::part_in))]
pub fn part_of(bytes: &[u8], place: Result<Part, Refusal>) -> &[u8]
    ensures { result.now ≡ part_in bytes.now place }
{
    let Ok(part) = place else {
        return &bytes[0..0];
    };
    if bytes.len() < part.start {
        return &bytes[0..0]; // it starts outside
    }
    if bytes.len() - part.start < part.len {
        return &bytes[0..0]; // it ends outside
    }
    taken(bytes, part)
}

// The string at the front of the bytes, as a part of them; no bytes where value_place refuses, so that the call cannot fail.
pub fn decode_value(bytes: &[u8]) -> &[u8]
    ensures { result.now ≡ part_in bytes.now (value_at bytes.now) }
{
    part_of(bytes, value_place(bytes))
}

// Where the payload of the item at the front of the bytes lies, be it a string or a list.
#[tactic(auto, unfolding(crate::specs::Value::data_at, rlp::specs::Refusals::also))]
pub fn data_place(bytes: &[u8]) -> Result<Part, Refusal>
    ensures { result ≡ data_at bytes.now }
{
    let info = header::payload_info(bytes)?;
    Ok(Part {
        start: info.header_len,
        len: info.value_len,
    })
}

// The payload of the item at the front of the bytes, as a part of them; no bytes where data_place refuses, so that the call
// cannot fail.
pub fn data(bytes: &[u8]) -> &[u8]
    ensures { result.now ≡ part_in bytes.now (data_at bytes.now) }
{
    part_of(bytes, data_place(bytes))
}

// The number that a payload of at most `width` bytes holds.
#[tactic(auto, unfolding(crate::specs::Value::scalar, rlp::specs::Refusals::unless))]
fn scalar_in(payload: &[u8], width: usize) -> Result<usize, Refusal>
    requires { width ≤ 8 }
    ensures { result ≡ scalar width payload.now }
{
    match payload {
        [] => Ok(0),
        _ if width < payload.len() => Err(Refusal::RlpIsTooBig),
        [0, ..] => Err(Refusal::RlpInvalidIndirection),
        _ => Ok(header::be_usize(payload)),
    }
}

// The number of at most `width` bytes at the front of the bytes.
#[tactic(auto, unfolding(crate::specs::Value::uint, rlp::specs::Refusals::also), using(crate::proofs::Places::value_inside))]
fn uint_in(bytes: &[u8], width: usize) -> Result<usize, Refusal>
    requires { width ≤ 8 }
    ensures is { result ≡ uint width bytes.now }
    ensures fits { IfOk result (λ n. n < 256 ^ width) }
{
    let part = value_place(bytes)?;
    scalar_in(taken(bytes, part), width)
}

// A type that the value at the front of some bytes is read as.
pub trait Decodable: Sized {
    ghost decoded: { List ℕ → Or Self };

    fn decode(bytes: &[u8]) -> Result<Self, Refusal>
        ensures { result ≡ decoded bytes.now };
}

// An impl for each type, a line of body in each. Here `as` is proved to lose no bit: `try_from` would add a refusal that never
// comes.
impl Decodable for u8 {
    ghost decoded = { uint 1 };

    fn decode(bytes: &[u8]) -> Result<u8, Refusal> {
        Ok(uint_in(bytes, 1)? as u8)
    }
}

impl Decodable for u16 {
    ghost decoded = { uint 2 };

    fn decode(bytes: &[u8]) -> Result<u16, Refusal> {
        Ok(uint_in(bytes, 2)? as u16)
    }
}

impl Decodable for u32 {
    ghost decoded = { uint 4 };

    fn decode(bytes: &[u8]) -> Result<u32, Refusal> {
        Ok(uint_in(bytes, 4)? as u32)
    }
}

impl Decodable for u64 {
    ghost decoded = { uint 8 };

    fn decode(bytes: &[u8]) -> Result<u64, Refusal> {
        Ok(uint_in(bytes, 8)? as u64)
    }
}

// The numbers 0 and 1 of one byte.
impl Decodable for bool {
    ghost decoded = { boolean };

    #[tactic(auto, unfolding(crate::specs::Value::boolean, crate::specs::Value::truth, rlp::specs::Refusals::also))]
    fn decode(bytes: &[u8]) -> Result<bool, Refusal> {
        match uint_in(bytes, 1)? {
            0 => Ok(false),
            1 => Ok(true),
            _ => Err(Refusal::InvalidBoolean),
        }
    }
}

// The value at the front of the bytes, as a number or a truth.
pub fn decode<T: Decodable>(bytes: &[u8]) -> Result<T, Refusal>
    ensures { result ≡ T.decoded bytes.now }
{
    T::decode(bytes)
}

// What specs/Claims.antt claims is proved.
fn claimed()
    ensures { Claimed }
{}
