// Reading, as the crate rlp reads, and the strict check.
#![tactic(auto, using(crate::proofs::Truths::yes_so))]

ghost use Rattle.std.specs.Prelude.{◌≡◌};
ghost use Rattle.header.specs.Header.{length_of, header_of, payload_info, total_of};
ghost use Rattle.value.specs.Value.{value_at, data_at, uint, boolean};
ghost use Rattle.list.specs.Kinds.{is_null, is_empty, is_list, is_data, is_int, size_of};
ghost use Rattle.list.specs.Walk.{item_count, prototype_of, payload_at, item_at, item_within, cached_answer};
ghost use Rattle.strict.specs.Strict.{strict, strict_items};
ghost use Rattle.loughcable.specs.Answers.{yes_no, answered, asked, informed, situated, found, prototyped, tallied};

use crate::{Answer, Count, Find, Info, Kind, Spot};
use header::PayloadInfo;
use list::OffsetCache;

#[unsafe(no_mangle)]
pub extern "C" fn loughcable_decode_usize(bytes: &[u8]) -> Answer
    ensures { result ≡ answered (length_of bytes.now) }
{
    header::decode_usize(bytes).into()
}

#[unsafe(no_mangle)]
pub extern "C" fn loughcable_payload_info_from(bytes: &[u8]) -> Info
    ensures { result ≡ informed (header_of bytes.now) }
{
    PayloadInfo::from(bytes).into()
}

#[unsafe(no_mangle)]
pub extern "C" fn loughcable_payload_info(bytes: &[u8]) -> Info
    ensures { result ≡ informed (payload_info bytes.now) }
{
    header::payload_info(bytes).into()
}

#[unsafe(no_mangle)]
pub extern "C" fn loughcable_payload_info_total(header_len: usize, value_len: usize) -> Answer
    ensures { result ≡ answered (total_of (record { header_len = header_len; value_len = value_len })) }
{
    let info = PayloadInfo {
        header_len,
        value_len,
    };
    info.total().into()
}

// A string's bytes.
#[unsafe(no_mangle)]
pub extern "C" fn loughcable_value(bytes: &[u8]) -> Spot
    ensures { result ≡ situated (value_at bytes.now) }
{
    value::value_place(bytes).into()
}

// A string's or a list's payload.
#[unsafe(no_mangle)]
pub extern "C" fn loughcable_data(bytes: &[u8]) -> Spot
    ensures { result ≡ situated (data_at bytes.now) }
{
    value::data_place(bytes).into()
}

// Numbers. C has no generic function: so each width is an export of its own, and one call serves them.
#[unsafe(no_mangle)]
pub extern "C" fn loughcable_u8(bytes: &[u8]) -> Answer
    ensures { result ≡ answered (uint 1 bytes.now) }
{
    value::decode::<u8>(bytes).map(u64::from).into()
}

#[unsafe(no_mangle)]
pub extern "C" fn loughcable_u16(bytes: &[u8]) -> Answer
    ensures { result ≡ answered (uint 2 bytes.now) }
{
    value::decode::<u16>(bytes).map(u64::from).into()
}

#[unsafe(no_mangle)]
pub extern "C" fn loughcable_u32(bytes: &[u8]) -> Answer
    ensures { result ≡ answered (uint 4 bytes.now) }
{
    value::decode::<u32>(bytes).map(u64::from).into()
}

#[unsafe(no_mangle)]
pub extern "C" fn loughcable_u64(bytes: &[u8]) -> Answer
    ensures { result ≡ answered (uint 8 bytes.now) }
{
    value::decode::<u64>(bytes).into()
}

#[unsafe(no_mangle)]
pub extern "C" fn loughcable_bool(bytes: &[u8]) -> Answer
    ensures { result ≡ asked (boolean bytes.now) }
{
    value::decode::<bool>(bytes).into()
}

#[unsafe(no_mangle)]
pub extern "C" fn loughcable_is_null(bytes: &[u8]) -> u32
    ensures { result ≡ yes_no (is_null bytes.now) }
{
    u32::from(list::is_null(bytes))
}

#[unsafe(no_mangle)]
pub extern "C" fn loughcable_is_empty(bytes: &[u8]) -> u32
    ensures { result ≡ yes_no (is_empty bytes.now) }
{
    u32::from(list::is_empty(bytes))
}

#[unsafe(no_mangle)]
pub extern "C" fn loughcable_is_list(bytes: &[u8]) -> u32
    ensures { result ≡ yes_no (is_list bytes.now) }
{
    u32::from(list::is_list(bytes))
}

#[unsafe(no_mangle)]
pub extern "C" fn loughcable_is_data(bytes: &[u8]) -> u32
    ensures { result ≡ yes_no (is_data bytes.now) }
{
    u32::from(list::is_data(bytes))
}

#[unsafe(no_mangle)]
pub extern "C" fn loughcable_is_int(bytes: &[u8]) -> u32
    ensures { result ≡ yes_no (is_int bytes.now) }
{
    u32::from(list::is_int(bytes))
}

#[unsafe(no_mangle)]
pub extern "C" fn loughcable_size(bytes: &[u8]) -> usize
    ensures { result ≡ size_of bytes.now }
{
    list::size(bytes)
}

#[unsafe(no_mangle)]
pub extern "C" fn loughcable_prototype_of(bytes: &[u8]) -> Kind
    ensures { result ≡ prototyped (prototype_of bytes.now) }
{
    list::prototype(bytes).into()
}

#[unsafe(no_mangle)]
pub extern "C" fn loughcable_item_count(bytes: &[u8]) -> Answer
    ensures { result ≡ answered (item_count bytes.now) }
{
    list::item_count(bytes).into()
}

#[unsafe(no_mangle)]
pub extern "C" fn loughcable_at(bytes: &[u8], index: usize) -> Spot
    ensures { result ≡ situated (item_at bytes.now index) }
{
    list::at_with_offset(bytes, index).into()
}

#[unsafe(no_mangle)]
#[tactic(auto, unfolding(list::specs::Walk::found_says, crate::specs::Answers::found, crate::specs::Answers::situated))]
pub extern "C" fn loughcable_at_with_cache(
    bytes: &[u8],
    cached_index: usize,
    cached_offset: usize,
    index: usize,
) -> Find
    ensures { result ≡ found (cached_answer bytes.now (record { index = cached_index; offset = cached_offset }) index) }
{
    let handed = OffsetCache {
        index: cached_index,
        offset: cached_offset,
    };
    let found = list::at_with_cache(bytes, index, handed);
    let spot = Spot::from(found.place);
    Find {
        refusal: spot.refusal,
        start: spot.start,
        len: spot.len,
        index: found.cache.index,
        offset: found.cache.offset,
    }
}

// A walk by steps: where a list's payload lies, and the item that starts at an offset and is bounded by the payload's end.
#[unsafe(no_mangle)]
pub extern "C" fn loughcable_payload(bytes: &[u8]) -> Spot
    ensures { result ≡ situated (payload_at bytes.now) }
{
    list::payload_place(bytes).into()
}

#[unsafe(no_mangle)]
pub extern "C" fn loughcable_item_within(bytes: &[u8], from: usize, end: usize) -> Spot
    ensures { result ≡ situated (item_within bytes.now from end) }
{
    list::item_within(bytes, from, end).into()
}

// The strict check: of one sheet, and of items in a row (a list's payload).
#[unsafe(no_mangle)]
pub extern "C" fn loughcable_check(bytes: &[u8]) -> Count
    ensures { result ≡ tallied (strict bytes.now) }
{
    strict::check(bytes).into()
}

#[unsafe(no_mangle)]
pub extern "C" fn loughcable_check_items(bytes: &[u8]) -> Count
    ensures { result ≡ tallied (strict_items bytes.now) }
{
    strict::check_items(bytes).into()
}
