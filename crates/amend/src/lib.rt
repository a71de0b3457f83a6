// The amender: one item of a sheet is exchanged for another, in place.
//
// A path of item indexes names the item. First all refusals are decided: the new payload length of
// each list on the path is worked out, innermost first, and with it the new length of the sheet. Then
// the item gives way to the new one, and on the way out the header of each list on the path to its new
// one. What lies behind follows, and is not touched where the new bytes are as many as the old.
#![tactic(auto)]

ghost use Rattle.std.specs.Prelude.{◌≡◌, List, ◌++◌, ℕ, ◌+◌, ◌-◌, ◌*◌, ◌≤◌, ◌<◌, length, take, drop, get_or, IfSome};
ghost use Rattle.rlp.specs.Limits.{limit, levels};
ghost use Rattle.rlp.specs.Tree.{Item, lists, header, enc};
ghost use Rattle.amend.specs.Amend.{amended};
ghost use Rattle.amend.specs.Answers.{leaves};
ghost use Rattle.amend.specs.Claims.{Claimed};
ghost use Rattle.amend.specs.Steps.{IsInside, Kid, Level, Planned, spliced, Ready, CanWrite, Written, Both};

use rlp::Refusal;

// An item of a list: the list's header and payload lengths, where the item starts, and its size.
#[derive(Clone, Copy)]
struct Child {
    head: usize,
    value: usize,
    from: usize,
    size: usize,
}

// How many bytes an item takes with the new one in it, and the new payload length of each list on the
// path, at that list's level.
// A path has at most 16 lists on it, so the lengths go by value, with no table lent. They are u32, as the
// rules name the array: no more than the limit and some headers, so that `as` is proved to lose no bit.
#[derive(Clone, Copy)]
struct Sizes {
    size: u32,
    lens: [u32; 16],
}

// Item i of the list at the front of the bytes, if there is one.
fn item_of(bytes: &[u8], i: usize) -> Option<Child>
    ensures inside { IfSome result (IsInside (length bytes.now)) }
    ensures kid { (t : Item) (r : List ℕ) → bytes.now ≡ enc t ++ r → length bytes.now ≤ limit → Kid t i result }
{
    let info = header::payload_info(bytes).ok()?;
    let item = list::at_with_offset(bytes, i).ok()?;
    Some(Child {
        head: info.header_len,
        value: info.value_len,
        from: item.start,
        size: item.len,
    })
}

// The sizes of the item that the bytes are, which stands at level k, once x bytes come to the end of the
// path; none where the path names no item. The lengths are filled in innermost first.
fn plan(bytes: &[u8], path: &[usize], k: usize, x: u32, lens: [u32; 16]) -> Option<Sizes>
    requires item { (t : Item) × Level bytes.now k t }
    requires short { x ≤ limit }
    ensures planned { (t u : Item) → Level bytes.now k t → length (enc u) ≡ x
        → Planned t path.now u k result }
    ensures small { IfSome result (λ s. s.size ≤ length bytes.now + x + 9 * (levels - k)) }
{
    let Some((&i, inner)) = path.split_first() else {
        return Some(Sizes { size: x, lens });
    };
    let child = item_of(bytes, i)?;
    let part = &bytes[child.from..child.from + child.size];
    let mut sizes = plan(part, inner, k + 1, x, lens)?;
    let payload = (child.value - child.size) as u32 + sizes.size;
    sizes.lens[k] = payload;
    sizes.size = encode::header_size(payload as usize) as u32 + payload;
    Some(sizes)
}

// The header of `old` bytes at the front gives way to that of the list at level k; the rest of the first
// len bytes follows it. Answers the new length.
fn replace_header(buf: &mut [u8], len: usize, old: usize, lens: [u32; 16], k: usize) -> usize
    requires { (k < levels) × (old ≤ len) × (len ≤ length buf.old) × (len - old + length (header lists (get_or lens k 0)) ≤ length buf.old) }
    ensures { (result ≡ len - old + length (header lists (get_or lens k 0))) × (buf.new ≡ spliced buf.old len old (header lists (get_or lens k 0))) }
{
    let payload = lens[k] as usize;
    let size = encode::header_size(payload);
    let rest = len - old;
    encode::slide(buf, old, rest, size);
    encode::write_header(buf, 0, 0xc0, payload, size);
    rest + size
}

// The item of `old` bytes at the front gives way to another in the same way.
fn replace_item(buf: &mut [u8], len: usize, old: usize, new: &[u8]) -> usize
    requires { (old ≤ len) × (len ≤ length buf.old) × (len - old + length new.now ≤ length buf.old) }
    ensures { (result ≡ len - old + length new.now) × (buf.new ≡ spliced buf.old len old new.now) }
{
    let rest = len - old;
    encode::slide(buf, old, rest, new.len());
    encode::copy_at(buf, 0, new);
    rest + new.len()
}

// The item of `size` bytes at the front of the first len, which stands at level k, with the new one at the
// end of the path; then the header of each list on it. Answers the new length. The plan has found every item
// on the path, so that none is missing here.
fn write(
    buf: &mut [u8],
    len: usize,
    size: usize,
    path: &[usize],
    k: usize,
    new: &[u8],
    lens: [u32; 16],
) -> usize
    requires { (len ≤ length buf.old) × CanWrite (take len buf.old) path.now new.now (drop k lens) size (length buf.old) }
    ensures { (t u v : Item) (r : List ℕ)
        → Ready (take len buf.old) path.now new.now (drop k lens) size (length buf.old) t u v r
        → Written buf.old buf.new len result v r }
{
    let Some((&i, inner)) = path.split_first() else {
        return replace_item(buf, len, size, new);
    };
    let Some(child) = item_of(&buf[..len], i) else {
        return len;
    };
    let from = child.from;
    let part = &mut buf[from..];
    let n = write(part, len - from, child.size, inner, k + 1, new, lens);
    replace_header(buf, from + n, child.head, lens, k)
}

// The exchange, in a sheet and with a replacement that are strict, the replacement being so deep. Only
// 19, 11 and 13 can still hold, and nothing is written before they are decided.
fn exchange_item(
    buf: &mut [u8],
    n: usize,
    path: &[usize],
    new: &[u8],
    depth: usize,
) -> Result<usize, Refusal>
    requires { Both buf.old n path.now new.now depth }
    ensures { leaves result buf.new ≡ amended buf.old n path.now new.now }
{
    let sizes = plan(&buf[..n], path, 0, new.len() as u32, [0u32; 16]).ok_or(Refusal::NoSuchItem)?;
    if rlp::LEVELS < path.len() + depth {
        return Err(Refusal::TooDeep);
    }
    if buf.len() < sizes.size as usize {
        return Err(Refusal::NoRoom);
    }
    let m = write(buf, n, n, path, 0, new, sizes.lens);
    if m < n {
        buf[m..n].fill(0);
    }
    Ok(m)
}

// The item that the path names in the sheet, the buffer's first n bytes, gives way to the replacement. The
// length goes beside the buffer, and not a part of it: what lies behind is the room into which the sheet grows.
#[tactic(auto, unfolding(crate::specs::Answers::leaves, crate::specs::Amend::amended, crate::specs::Amend::after, crate::specs::Amend::new_tree, rlp::specs::Refusals::unless, rlp::specs::Refusals::also))]
pub fn amend(buf: &mut [u8], n: usize, path: &[usize], new: &[u8]) -> Result<usize, Refusal>
    ensures { leaves result buf.new ≡ amended buf.old n path.now new.now }
{
    if rlp::LIMIT < buf.len() {
        return Err(Refusal::TooLarge);
    }
    if rlp::LIMIT < new.len() {
        return Err(Refusal::TooLarge);
    }
    if buf.len() < n {
        return Err(Refusal::RlpIsTooShort);
    }
    strict::check(&buf[..n])?;
    let tally = strict::check(new)?;
    exchange_item(buf, n, path, new, tally.depth)
}

// What specs/Claims.antt claims is proved.
fn claimed()
    ensures { Claimed }
{}
