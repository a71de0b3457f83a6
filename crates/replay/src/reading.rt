// The lines that read bytes.
use crate::answer::{Answer, Fault};
use crate::parse::{bytes, number};
use header::PayloadInfo;
use list::{Found, OffsetCache};
use rlp::Refusal;
use value::{Decodable, Part};

// A number of bytes or items. From usize to u64 there is no `From`.
pub fn counted(n: usize) -> Answer<'static> {
    Answer::Number(n as u64)
}

// A header's length and its value's.
fn header(info: PayloadInfo) -> Answer<'static> {
    Answer::Numbers(info.header_len, info.value_len)
}

// Where a part lies, held to the part that another call hands back: it has no bytes where the place is refused.
fn placed(place: Result<Part, Refusal>, part: &[u8]) -> Result<Answer<'static>, Fault> {
    if part.len() != place.map_or(0, |place| place.len) {
        return Err(Fault::PartDiffers);
    }
    let place = place?;
    Ok(Answer::Numbers(place.start, place.len))
}

// A number that is kept in the payload of an item.
fn decoded<T: Decodable + Into<u64>>(b: &[u8]) -> Result<Answer<'static>, Fault> {
    Ok(Answer::Number(value::decode::<T>(b)?.into()))
}

fn flags(b: &[u8]) -> Answer<'static> {
    let flags = [
        list::is_null(b),
        list::is_empty(b),
        list::is_list(b),
        list::is_data(b),
        list::is_int(b),
    ];
    Answer::Flags(
        flags
            .iter()
            .fold(0, |bits, flag| bits << 1 | u8::from(*flag)),
    )
}

// An item of a fresh view. The bytes that the words give are put into the room.
pub fn at(b: &[u8], index: &[u8], room: &mut [u8]) -> Result<Answer<'static>, Fault> {
    let (b, _) = bytes(b, room)?;
    let index = number(index)?;
    placed(list::at_with_offset(b, index), list::at(b, index))
}

// An item, with a cached place handed in: what comes back has to be the item's place, and the same where the item is refused.
fn cached(b: &[u8], index: usize, handed: OffsetCache) -> Result<Answer<'static>, Fault> {
    let Found { place, cache } = list::at_with_cache(b, index, handed);
    let moved = place.map_or(
        handed,
        |place| OffsetCache {
            index,
            offset: place.start,
        },
    );
    if cache != moved {
        return Err(Fault::CacheDiffers);
    }
    placed(place, value::part_of(b, place))
}

pub fn at_cached(
    b: &[u8],
    index: &[u8],
    known: &[u8],
    offset: &[u8],
    room: &mut [u8],
) -> Result<Answer<'static>, Fault> {
    let handed = OffsetCache {
        index: number(known)?,
        offset: number(offset)?,
    };
    let (b, _) = bytes(b, room)?;
    cached(b, number(index)?, handed)
}

fn data(b: &[u8]) -> Result<Answer<'static>, Fault> {
    placed(value::data_place(b), value::data(b))
}

fn string(b: &[u8]) -> Result<Answer<'static>, Fault> {
    placed(value::value_place(b), value::decode_value(b))
}

fn tallied(b: &[u8]) -> Result<Answer<'static>, Fault> {
    let tally = strict::check(b)?;
    Ok(Answer::Numbers(tally.items, tally.depth))
}

// The bytes that a word gives, put to the front of the room.
fn given<'a>(word: &[u8], room: &'a mut [u8]) -> Result<&'a [u8], Fault> {
    let (b, _) = bytes(word, room)?;
    Ok(b)
}

// The answer of the call that is named, for the bytes that a word gives. They are put into the room once the name is
// known to be one of these.
pub fn read(name: &str, word: &[u8], room: &mut [u8]) -> Result<Answer<'static>, Fault> {
    match name {
        "length" => Ok(counted(header::decode_usize(given(word, room)?)?)),
        "from" => Ok(header(PayloadInfo::from(given(word, room)?)?)),
        "total" => Ok(counted(PayloadInfo::from(given(word, room)?)?.total()?)),
        "info" => Ok(header(header::payload_info(given(word, room)?)?)),
        "data" => data(given(word, room)?),
        "value" => string(given(word, room)?),
        "u8" => decoded::<u8>(given(word, room)?),
        "u16" => decoded::<u16>(given(word, room)?),
        "u32" => decoded::<u32>(given(word, room)?),
        "u64" => decoded::<u64>(given(word, room)?),
        "bool" => decoded::<bool>(given(word, room)?),
        "flags" => Ok(flags(given(word, room)?)),
        "size" => Ok(counted(list::size(given(word, room)?))),
        "count" => Ok(counted(list::item_count(given(word, room)?)?)),
        "prototype" => Ok(Answer::Prototype(list::prototype(given(word, room)?)?)),
        "strict" => tallied(given(word, room)?),
        _ => Err(Fault::BadLine),
    }
}
