// The strict check: whether bytes are the encoding of an item tree, and of how many items and levels.
//
// The check of an item and the check of a payload of items call each other, levels falling;
// neighbours are a loop, so that the stack holds at most 17 levels whatever the sheet.
#![tactic(auto)]

ghost use Rattle.std.specs.Prelude.{◌≡◌, ℕ, IfOk, IfSome, Ok};
ghost use Rattle.strict.specs.Strict.{is_spare, strict, strict_items};
ghost use Rattle.strict.specs.Claims.{Claimed};
ghost use Rattle.strict.specs.Steps.{string_of, front_at, row_at};

use rlp::Refusal;

// How many items there are, and how deep.
#[derive(Clone, Copy, Debug, PartialEq, Eq)]
pub struct Tally {
    pub items: usize,
    pub depth: usize,
}

// The item at the front of some bytes: its tally, itself included, and its bytes.
#[derive(Clone, Copy)]
struct Took {
    tally: Tally,
    size: usize,
}

// All items of a payload: how many at the top, and the tally of all.
#[derive(Clone, Copy)]
struct Run {
    top: usize,
    tally: Tally,
}

// 81 with a byte below 80.
#[tactic(auto, unfolding(crate::specs::Strict::is_spare, value::specs::Value::spare))]
fn is_spare(bytes: &[u8]) -> bool
    ensures { result ≡ is_spare bytes.now }
{
    matches!(bytes, [0x81, 0..=0x7f, ..])
}

// A string of so many bytes, its header among them.
fn string(size: usize) -> Took
    ensures { result ≡ string_of size }
{
    let tally = Tally { items: 1, depth: 0 };
    Took { tally, size }
}

// The size of an item that is a byte below 80, or a short string but 81, and stands whole at the
// front. Most items of a sheet are such, and are checked by this number alone.
fn short(bytes: &[u8]) -> Option<usize>
    ensures { IfSome result (λ size. (levels : ℕ) → Ok (string_of size) ≡ front_at levels bytes.now) }
{
    let [first, ..] = bytes else {
        return None;
    };
    match first {
        0..=0x7f => Some(1),
        0x81 | 0xb8..=0xff => None,
        _ => {
            let size = usize::from(*first - 0x7f);
            (size <= bytes.len()).then_some(size)
        }
    }
}

// The item at the front, by the shorter way where there is one.
#[cycle(check_front_check_item_check_payload)]
fn check_front(bytes: &[u8], levels: usize) -> Result<Took, Refusal>
    ensures { result ≡ front_at levels bytes.now }
{
    match short(bytes) {
        Some(size) => Ok(string(size)),
        None => check_item(bytes, levels),
    }
}

// The item at the front, with so many levels left for it.
#[cycle(check_front_check_item_check_payload)]
#[tactic(auto, using(crate::proofs::Rules::item_steps), unfolding(rlp::specs::Refusals::also, rlp::specs::Refusals::unless))]
fn check_item(bytes: &[u8], levels: usize) -> Result<Took, Refusal>
    ensures { result ≡ front_at levels bytes.now }
{
    let info = header::payload_info(bytes)?;
    let start = info.header_len;
    let end = start + info.value_len;
    if list::is_list(bytes) {
        if levels == 0 {
            return Err(Refusal::TooDeep);
        }
        let run = check_payload(&bytes[start..end], levels - 1)?;
        let tally = Tally {
            items: run.tally.items + 1,
            depth: run.tally.depth + 1,
        };
        return Ok(Took { tally, size: end });
    }
    if is_spare(bytes) {
        return Err(Refusal::RlpInvalidIndirection);
    }
    Ok(string(end))
}

// All items of a payload, with so many levels left for each. No index is counted: the step is what the callee answers, and the
// slice shrinks by it.
#[cycle(check_front_check_item_check_payload)]
#[tactic(auto, using(crate::proofs::Rules::row_steps))]
fn check_payload(bytes: &[u8], levels: usize) -> Result<Run, Refusal>
    ensures { result ≡ row_at levels bytes.now }
{
    let mut rest = bytes;
    let mut top = 0;
    let mut items = 0;
    let mut depth = 0;
    while !rest.is_empty() {
        let took = check_front(rest, levels)?;
        top += 1;
        items += took.tally.items;
        depth = took.tally.depth.max(depth);
        rest = &rest[took.size..];
    }
    let tally = Tally { items, depth };
    Ok(Run { top, tally })
}

// The strict check of a sheet: exactly the encodings of item trees within the limits are accepted.
#[tactic(auto, using(crate::proofs::Rules::check_steps), unfolding(rlp::specs::Refusals::also, rlp::specs::Refusals::unless))]
pub fn check(bytes: &[u8]) -> Result<Tally, Refusal>
    ensures { result ≡ strict bytes.now }
{
    if rlp::LIMIT < bytes.len() {
        return Err(Refusal::TooLarge);
    }
    let took = check_item(bytes, rlp::LEVELS)?;
    if took.size != bytes.len() {
        return Err(Refusal::TrailingBytes);
    }
    Ok(took.tally)
}

// The strict check of bytes read as a list's payload, that list being no level: how many items
// there are at the top, and how deep they are.
#[tactic(auto, using(crate::proofs::Rules::check_steps), unfolding(rlp::specs::Refusals::also, rlp::specs::Refusals::unless))]
pub fn check_items(bytes: &[u8]) -> Result<Tally, Refusal>
    ensures { result ≡ strict_items bytes.now }
{
    if rlp::LIMIT < bytes.len() {
        return Err(Refusal::TooLarge);
    }
    let run = check_payload(bytes, rlp::LEVELS)?;
    Ok(Tally {
        items: run.top,
        depth: run.tally.depth,
    })
}

// What specs/Claims.antt claims is proved.
fn claimed()
    ensures { Claimed }
{}
