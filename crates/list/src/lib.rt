// Lists: what an item is, how many items a list has, and where item i lies.
//
// Ported from rlpin.rs (Rlp's prototype, item_count, at and at_with_offset) of the crate rlp 0.6.1.
// A walk is bounded by the list's own payload, and never by what follows in the frame.
#![tactic(auto)]

mod kinds;

ghost use Rattle.std.specs.Prelude.{◌≡◌, ◌≤◌, length, drop};
ghost use Rattle.value.specs.Answers.{part_in};
ghost use Rattle.list.specs.Walk.{row_from, nth, count_in, payload_at, item_count, prototype_of, item_at, item_within, cached_at, found_says, cached_answer};
ghost use Rattle.list.specs.Claims.{Claimed};

pub use kinds::{Prototype, is_data, is_empty, is_int, is_list, is_null, size};
use rlp::Refusal;
use value::Part;

// Where a walk stood: at the item of this index, whose first byte has this offset.
#[derive(Clone, Copy, Debug, PartialEq, Eq)]
pub struct OffsetCache {
    pub index: usize,
    pub offset: usize,
}

// Where an item lies, and the cached place to hand in next time.
#[derive(Clone, Copy, Debug, PartialEq, Eq)]
pub struct Found {
    pub place: Result<Part, Refusal>,
    pub cache: OffsetCache,
}

// Where the payload of a list lies: its items, one after the other.
#[tactic(auto, unfolding(crate::specs::Walk::payload_at, rlp::specs::Refusals::unless))]
pub fn payload_place(bytes: &[u8]) -> Result<Part, Refusal>
    ensures { result ≡ payload_at bytes.now }
{
    if !is_list(bytes) {
        return Err(Refusal::RlpExpectedToBeList);
    }
    value::data_place(bytes)
}

// How many items there are in a payload. No index is counted: the step is what the callee answers, and the slice shrinks by it.
#[tactic(auto, using(crate::proofs::Rows::count_steps), unfolding(rlp::specs::Refusals::also))]
fn count(payload: &[u8]) -> Result<usize, Refusal>
    ensures { result ≡ count_in (row_from 0 0 payload.now) }
{
    let mut rest = payload;
    let mut items = 0;
    while !rest.is_empty() {
        let size = header::item_step(rest)?;
        rest = &rest[size..];
        items += 1;
    }
    Ok(items)
}

// How many items a list has, each of them whole.
#[tactic(auto, using(crate::proofs::Asked::payload_steps), unfolding(crate::specs::Walk::item_count, crate::specs::Walk::row_in, value::specs::Value::part, rlp::specs::Refusals::also))]
pub fn item_count(bytes: &[u8]) -> Result<usize, Refusal>
    ensures { result ≡ item_count bytes.now }
{
    let payload = payload_place(bytes)?;
    count(&bytes[payload.start..payload.start + payload.len])
}

// What the item at the front of the bytes is.
#[tactic(auto, unfolding(crate::specs::Walk::prototype_of, rlp::specs::Refusals::also))]
pub fn prototype(bytes: &[u8]) -> Result<Prototype, Refusal>
    ensures { result ≡ prototype_of bytes.now }
{
    if is_data(bytes) {
        return Ok(Prototype::Data(size(bytes)));
    }
    if is_list(bytes) {
        return Ok(Prototype::List(item_count(bytes)?));
    }
    Ok(Prototype::Null)
}

// Item `index`, counted from the item at an offset on, in a payload that ends with the bytes.
// A loop that counts down and yields by break, and no `for`: so the rules name it (docs/RULES.md, "The form of the code").
#[tactic(auto, using(crate::proofs::Rows::walk_steps), unfolding(rlp::specs::Refusals::also))]
fn walk(bytes: &[u8], from: usize, index: usize) -> Result<Part, Refusal>
    requires { from ≤ length bytes.now }
    ensures { result ≡ nth (row_from from 0 (drop from bytes.now)) index }
{
    let mut at = from;
    let mut left = index;
    loop {
        let len = match header::item_step(&bytes[at..]) {
            Ok(len) => len,
            Err(e) => break Err(e),
        };
        if left == 0 {
            break Ok(Part { start: at, len });
        }
        at += len;
        left -= 1;
    }
}

// Where the item lies that starts at one offset and is bounded by another: the step of a walk that knows where its list ends.
#[tactic(auto, using(crate::proofs::Rows::walk_steps), unfolding(crate::specs::Walk::item_within, crate::specs::Walk::row_in, value::specs::Value::part, rlp::specs::Refusals::unless, rlp::specs::Refusals::also))]
pub fn item_within(bytes: &[u8], from: usize, bound: usize) -> Result<Part, Refusal>
    ensures { result ≡ item_within bytes.now from bound }
{
    let rest = bytes.get(from..bound).ok_or(Refusal::RlpIsTooShort)?;
    let len = header::item_step(rest)?;
    Ok(Part { start: from, len })
}

// Where item `index` of a list lies: its offset in the bytes, and its whole length.
#[tactic(auto, using(crate::proofs::Asked::payload_steps), unfolding(crate::specs::Walk::item_at, rlp::specs::Refusals::also))]
pub fn at_with_offset(bytes: &[u8], index: usize) -> Result<Part, Refusal>
    ensures { result ≡ item_at bytes.now index }
{
    let payload = payload_place(bytes)?;
    walk(&bytes[..payload.start + payload.len], payload.start, index)
}

// Item `index` of a list, as a part of the bytes; no bytes where at_with_offset refuses, so that the call cannot fail.
pub fn at(bytes: &[u8], index: usize) -> &[u8]
    ensures { result.now ≡ part_in bytes.now (item_at bytes.now index) }
{
    value::part_of(bytes, at_with_offset(bytes, index))
}

// Where item `index` of a list lies, from a cached place on if its index is not above `index`.
// A place whose offset lies outside the payload is refused.
#[tactic(auto, using(crate::proofs::Asked::payload_steps), unfolding(crate::specs::Walk::cached_at, crate::specs::Walk::rest_at, rlp::specs::Refusals::also, rlp::specs::Refusals::unless))]
fn at_from(bytes: &[u8], index: usize, cache: OffsetCache) -> Result<Part, Refusal>
    ensures { result ≡ cached_at bytes.now cache index }
{
    if index < cache.index {
        return at_with_offset(bytes, index);
    }
    let payload = payload_place(bytes)?;
    let end = payload.start + payload.len;
    if cache.offset < payload.start || end < cache.offset {
        return Err(Refusal::RlpIsTooShort);
    }
    walk(&bytes[..end], cache.offset, index - cache.index)
}

// Where item `index` of a list lies, with a cached place: the item's own place comes back with it,
// and a refusal hands the same place back.
#[tactic(auto, unfolding(crate::specs::Walk::found_says, crate::specs::Walk::cached_answer, crate::specs::Walk::cache_after))]
pub fn at_with_cache(bytes: &[u8], index: usize, cache: OffsetCache) -> Found
    ensures { found_says result ≡ cached_answer bytes.now cache index }
{
    let place = at_from(bytes, index, cache);
    let cache = match place {
        Ok(item) => OffsetCache {
            index,
            offset: item.start,
        },
        Err(_) => cache,
    };
    Found { place, cache }
}

// What specs/Claims.antt claims is proved.
fn claimed()
    ensures { Claimed }
{}
