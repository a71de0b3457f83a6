// The header of an item: how many bytes it takes, and how many bytes of value follow it.
//
// Ported from rlpin.rs (PayloadInfo, calculate_payload_info, BasicDecoder::payload_info) and from
// impls.rs (decode_usize) of the crate rlp 0.6.1.
#![tactic(auto)]

ghost use Rattle.std.specs.Prelude.{◌≡◌, ◌<◌, ◌≤◌, length, take, drop, nat_le, Ok};
ghost use Rattle.rlp.specs.Refusals.{unless};
ghost use Rattle.rlp.specs.declared.Refusal.TheVariants.{RlpIsTooShort};
ghost use Rattle.rlp.specs.Bytes.{be_value};
ghost use Rattle.header.specs.Header.{length_of, long_header, header_of, payload_info, total_of, item_step, whole_size};
ghost use Rattle.header.specs.Claims.{Claimed};

use rlp::Refusal;

// Basic information about an item.
#[derive(Clone, Copy, Debug, PartialEq, Eq)]
pub struct PayloadInfo {
    // Header length in bytes.
    pub header_len: usize,
    // Value length in bytes.
    pub value_len: usize,
}

// The number of up to 8 bytes, most significant first. `from_be_bytes` takes exactly 8.
fn be_number(bytes: &[u8]) -> usize
    requires { length bytes.now ≤ 8 }
    ensures { result ≡ be_value bytes.now }
{
    let mut number = 0;
    for &byte in bytes {
        number = number * 256 + usize::from(byte);
    }
    number
}

// The number of some bytes, most significant first. Of more than 8 the first 8 are read.
pub fn be_usize(bytes: &[u8]) -> usize
    ensures { result ≡ be_value (take 8 bytes.now) }
{
    be_number(&bytes[..bytes.len().min(8)])
}

// The number that length bytes hold.
#[tactic(auto, unfolding(crate::specs::Header::length_in, crate::specs::Header::length_of, rlp::specs::Refusals::unless))]
pub fn decode_usize(bytes: &[u8]) -> Result<usize, Refusal>
    ensures { result ≡ length_of bytes.now }
{
    match bytes {
        _ if 8 < bytes.len() => Err(Refusal::RlpIsTooBig),
        [] => Err(Refusal::RlpIsTooShort), // there are none
        [0, ..] => Err(Refusal::RlpInvalidIndirection),
        _ => Ok(be_number(bytes)),
    }
}

// The long form: len_of_len bytes of length after the first byte, of which `rest` are there.
#[tactic(auto, unfolding(crate::specs::Header::long_header, rlp::specs::Refusals::unless))]
fn calculate_payload_info(rest: &[u8], len_of_len: usize) -> Result<PayloadInfo, Refusal>
    requires { len_of_len ≤ 8 }
    ensures { result ≡ long_header len_of_len rest.now }
{
    match rest {
        [] => return Err(Refusal::RlpIsTooShort), // the second byte is absent
        [0, ..] => return Err(Refusal::RlpDataLenWithZeroPrefix),
        _ if rest.len() < len_of_len => return Err(Refusal::RlpIsTooShort), // the length bytes are cut
        _ => {}
    }
    let value_len = be_number(&rest[..len_of_len]);
    if value_len <= 55 {
        return Err(Refusal::RlpInvalidIndirection);
    }
    Ok(PayloadInfo {
        header_len: 1 + len_of_len,
        value_len,
    })
}

impl PayloadInfo {
    // What the first bytes of an item say; whether the value is there is not looked at.
    #[tactic(auto, unfolding(crate::specs::Header::header_of))]
    pub fn from(header_bytes: &[u8]) -> Result<PayloadInfo, Refusal>
        ensures { result ≡ header_of header_bytes.now }
    {
        let [first, rest @ ..] = header_bytes else {
            return Err(Refusal::RlpIsTooShort);
        };
        match *first {
            0..=0x7f => Ok(PayloadInfo {
                header_len: 0,
                value_len: 1,
            }),
            0x80..=0xb7 => Ok(PayloadInfo {
                header_len: 1,
                value_len: usize::from(*first - 0x80),
            }),
            0xb8..=0xbf => calculate_payload_info(rest, usize::from(*first - 0xb7)),
            0xc0..=0xf7 => Ok(PayloadInfo {
                header_len: 1,
                value_len: usize::from(*first - 0xc0),
            }),
            _ => calculate_payload_info(rest, usize::from(*first - 0xf7)),
        }
    }

    // Header and value together.
    #[tactic(auto, unfolding(crate::specs::Header::total_of, crate::specs::Header::size, rlp::specs::Refusals::unless))]
    pub fn total(self) -> Result<usize, Refusal>
        ensures { result ≡ total_of self }
    {
        self.header_len
            .checked_add(self.value_len)
            .ok_or(Refusal::RlpIsTooShort)
    }
}

// What the first bytes of an item say, where the whole item is there.
#[tactic(auto, unfolding(crate::specs::Header::payload_info, crate::specs::Header::within, crate::specs::Header::size, rlp::specs::Refusals::also, rlp::specs::Refusals::unless), using(crate::proofs::Fits::header_inside))]
pub fn payload_info(bytes: &[u8]) -> Result<PayloadInfo, Refusal>
    ensures { result ≡ payload_info bytes.now }
{
    let info = PayloadInfo::from(bytes)?;
    let left = bytes.len() - info.header_len;
    if left < info.value_len {
        return Err(Refusal::RlpIsTooShort); // the value is cut
    }
    Ok(info)
}

// `size`, where so many bytes are there.
#[tactic(auto, unfolding(rlp::specs::Refusals::unless))]
fn size_if(size: usize, there: usize) -> Result<usize, Refusal>
    ensures { result ≡ unless (nat_le size there) RlpIsTooShort (Ok size) }
{
    if there < size {
        return Err(Refusal::RlpIsTooShort);
    }
    Ok(size)
}

// An item of the long form, by payload_info.
#[tactic(auto, unfolding(crate::specs::Header::item_step, crate::specs::Header::size, rlp::specs::Refusals::also), using(crate::proofs::Fits::item_inside))]
fn long_size(bytes: &[u8]) -> Result<usize, Refusal>
    ensures { result ≡ item_step bytes.now }
{
    let info = payload_info(bytes)?;
    Ok(info.header_len + info.value_len)
}

// How many bytes the item at the front takes, header and value: the step of a walk from item to item. The first
// byte alone tells most sizes; by `payload_info` for each item a walk takes twice as long.
#[tactic(auto, unfolding(crate::specs::Header::item_step, crate::specs::Header::payload_info, crate::specs::Header::header_of, crate::specs::Header::within, crate::specs::Header::size, rlp::specs::Refusals::also, rlp::specs::Refusals::unless))]
#[inline(always)]
pub fn item_step(bytes: &[u8]) -> Result<usize, Refusal>
    ensures { result ≡ item_step bytes.now }
{
    let [first, ..] = bytes else {
        return Err(Refusal::RlpIsTooShort);
    };
    match *first {
        0..=0x7f => Ok(1),
        0x80..=0xb7 => size_if(usize::from(*first - 0x7f), bytes.len()),
        0xb8..=0xbf => long_size(bytes),
        0xc0..=0xf7 => size_if(usize::from(*first - 0xbf), bytes.len()),
        _ => long_size(bytes),
    }
}

// How many bytes the item at the front takes, and 0 where payload_info refuses: a walk's step in one number. The call cannot fail.
#[tactic(auto, unfolding(crate::specs::Header::whole_size, crate::specs::Header::size_in, crate::specs::Header::item_step, rlp::specs::Refusals::also))]
pub fn item_size(bytes: &[u8]) -> usize
    ensures { result ≡ whole_size bytes.now }
{
    item_step(bytes).unwrap_or(0)
}

// What specs/Claims.antt claims is proved.
fn claimed()
    ensures { Claimed }
{}
