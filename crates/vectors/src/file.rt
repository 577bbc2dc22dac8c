// Reading a list of answers. Past its end a list reads as zeros, so that no place is out of range and a number that a record lacks is 0.
ghost use Rattle.std.specs.Prelude.{◌≡◌, ◌+◌, ◌-◌, ◌*◌, ◌<◌, ◌≤◌, true, IfErr, IfSome, IfNone, OnOk, length, take, drop, slice_index};
ghost use Rattle.vectors.specs.File.{tag_of, number_at, short_at, entries_size, place_of, field_of, has_field, passed_at, places_of, width_of, Filled, FieldKnown, AllKnown};

use planner::Allowances;
use replay::SearchCfg;
use std::array;

// The most work list entries and the longest step list or result list that a record may lend.
pub const ENTRIES: usize = 20050;

pub const STEPS: usize = 9400;

// The numbers of so many nodes and open entries, and the longest file.
pub const NODES: usize = 8 * ENTRIES;

pub const OPEN: usize = 4 * ENTRIES;

pub const FILE: usize = 400000;

// The fields of a record.
#[derive(Clone, Copy, PartialEq, Eq)]
pub enum Tag {
    Start,
    Goal,
    Limits,
    Tables,
    Passed,
    Lent,
    Ceiling,
    Asked,
    Answer,
    Plan,
    Window,
    Popped,
    Places,
    Beneath,
}

// The number of a tag: 1 to 14.
impl From<Tag> for u8 {
    ghost from_gives = { λ tag number. number ≡ tag_of tag };

    fn from(tag: Tag) -> u8 {
        match tag {
            Tag::Start => 1,
            Tag::Goal => 2,
            Tag::Limits => 3,
            Tag::Tables => 4,
            Tag::Passed => 5,
            Tag::Lent => 6,
            Tag::Ceiling => 7,
            Tag::Asked => 8,
            Tag::Answer => 9,
            Tag::Plan => 10,
            Tag::Window => 11,
            Tag::Popped => 12,
            Tag::Places => 13,
            Tag::Beneath => 14,
        }
    }
}

// The call that a record asks.
#[derive(Clone, Copy, PartialEq, Eq)]
pub enum Call {
    Plan,
    Replay,
    Mark,
    Pack,
    StarSwap,
    DeleteTail,
    Rewind,
}

// A number that stands for no call.
#[derive(Clone, Copy, PartialEq, Eq)]
pub struct UnknownCall(pub usize);

impl TryFrom<usize> for Call {
    type Error = UnknownCall;

    ghost try_from_gives = { λ number call. IfErr call (λ e. e.0 ≡ number) };

    fn try_from(number: usize) -> Result<Call, UnknownCall> {
        match number {
            0 => Ok(Call::Plan),
            1 => Ok(Call::Replay),
            2 => Ok(Call::Mark),
            3 => Ok(Call::Pack),
            4 => Ok(Call::StarSwap),
            5 => Ok(Call::DeleteTail),
            6 => Ok(Call::Rewind),
            _ => Err(UnknownCall(number)),
        }
    }
}

// Why the fields of a record cannot be read: one is not known or out of order, by its tag, or they do not fill the record.
#[derive(Clone, Copy, PartialEq, Eq)]
pub enum Strange {
    Field(u8),
    Length,
}

// The byte at a place.
// One call of the library, as in costs' `price_at`.
pub fn byte(s: &[u8], at: usize) -> u8
    ensures { result ≡ slice_index s.now at }
{
    s.get(at).copied().unwrap_or(0)
}

// The N bytes from a place on.
fn bytes<const N: usize>(s: &[u8], at: usize) -> [u8; N]
    requires { at + N < 18446744073709551616 }
    ensures { Filled (λ i b. b ≡ slice_index s.now (at + i)) N result }
{
    array::from_fn(|i| byte(s, at + i))
}

// The number of four bytes at a place: one call of the library.
pub fn number(s: &[u8], at: usize) -> u32
    requires { at < 1048576 }
    ensures { result ≡ number_at s.now at }
{
    u32::from_le_bytes(bytes(s, at))
}

// The same, as a length.
pub fn count(s: &[u8], at: usize) -> usize
    requires { at < 1048576 }
    ensures { (result ≡ number_at s.now at) × (result < 4294967296) }
{
    number(s, at) as usize
}

// The number of two bytes at a place: one call of the library, as in `number`. Step code i of a field of codes stands at 2 * i.
pub fn short(s: &[u8], at: usize) -> u16
    requires { at < 18446744073709551614 }
    ensures { result ≡ short_at s.now at }
{
    u16::from_le_bytes(bytes(s, at))
}

// The n bytes at a place, or what there is of them.
pub fn part(s: &[u8], at: usize, n: usize) -> &[u8]
    ensures { result.now ≡ take n (drop at s.now) }
{
    let rest = &s[at.min(s.len())..];
    &rest[..n.min(rest.len())]
}

// A product of a width and a count.
fn product(width: u8, n: u16) -> usize
    ensures { (result ≡ width * n) × (result < 16777216) }
{
    usize::from(width) * usize::from(n)
}

// The bytes of the entries of the field at a place.
fn entries_size(rec: &[u8], at: usize) -> usize
    requires { at < 2199023255552 }
    ensures { (result ≡ entries_size rec.now at) × (result < 16777216) }
{
    product(byte(rec, at + 1), short(rec, at + 2))
}

// Where the field with a tag begins, or the place behind all fields where there is none.
// No `Option`: `field_of` and `has_field` read a missing field there, where a filled record has ended.
fn place(rec: &[u8], tag: u8) -> usize
    ensures { (result ≡ place_of (short_at rec.now 6) rec.now tag 8) × (result < 2199023255552) }
{
    let mut at = 8;
    for _ in 0..short(rec, 6) {
        if byte(rec, at) == tag {
            return at;
        }
        at += 4 + entries_size(rec, at);
    }
    at
}

// The entries of the field with a tag, none where the record lacks it.
pub fn field(rec: &[u8], tag: Tag) -> &[u8]
    ensures { result.now ≡ field_of rec.now (tag_of tag) }
{
    let at = place(rec, u8::from(tag));
    part(rec, at + 4, entries_size(rec, at))
}

// Whether the record has the field with a tag, be it empty.
pub fn has(rec: &[u8], tag: Tag) -> bool
    ensures { result ≡ has_field rec.now (tag_of tag) }
{
    let tag = u8::from(tag);
    byte(rec, place(rec, tag)) == tag
}

// The reaches and the greatest length, and the allowances.
#[derive(Clone, Copy)]
pub struct Limits {
    pub cfg: SearchCfg,
    pub allowances: Allowances,
}

pub fn limits_of(limits: &[u8]) -> Limits
    ensures dup_max_value { (result.cfg.dup_max ≡ number_at limits.now 0) × (result.cfg.swap_max ≡ number_at limits.now 4) × (result.cfg.max_len ≡ number_at limits.now 8) }
    ensures max_expansions_value { (result.allowances.max_expansions ≡ number_at limits.now 12) × (result.allowances.states_without ≡ number_at limits.now 16) × (result.allowances.states_with ≡ number_at limits.now 20) }
{
    let cfg = SearchCfg {
        dup_max: count(limits, 0),
        swap_max: count(limits, 4),
        max_len: count(limits, 8),
    };
    let allowances = Allowances {
        max_expansions: count(limits, 12),
        states_without: count(limits, 16),
        states_with: count(limits, 20),
    };
    Limits { cfg, allowances }
}

// How many items lie beneath the window: a number of eight bytes, the lower four first.
pub fn beneath_of(items: &[u8]) -> usize
    ensures { result ≡ number_at items.now 0 + 4294967296 * number_at items.now 4 }
{
    count(items, 0) + 4294967296 * count(items, 4)
}

// How many entries of a table are passed: by a place of the field of counts, or all where the record lacks it.
pub fn passed(counts: &[u8], at: usize, all: usize) -> usize
    requires { at < 4 }
    ensures { result ≡ passed_at counts.now at all }
{
    if counts.len() < 4 {
        all
    } else {
        usize::from(short(counts, at))
    }
}

// How many places are lent for popped keys: by the field of places, or one for each step where the record lacks it.
pub fn places(lent: &[u8], steps: usize) -> usize
    ensures { result ≡ places_of lent.now steps }
{
    if lent.len() < 4 {
        steps
    } else {
        count(lent, 0)
    }
}

// The price list and the kinds list that a record names.
pub fn price_list<'a>(bytes: &'a [u8], rec: &[u8]) -> &'a [u8]
    ensures { result.now ≡ take 784 (drop (short_at bytes.now 8 + 784 * short_at (field_of rec.now 4) 0) bytes.now) }
{
    let i = usize::from(short(field(rec, Tag::Tables), 0));
    part(bytes, usize::from(short(bytes, 8)) + 784 * i, 784)
}

pub fn kinds<'a>(bytes: &'a [u8], rec: &[u8]) -> &'a [u8]
    ensures { result.now ≡ take (passed_at (field_of rec.now 5) 2 64) (drop (short_at bytes.now 8 + 784 * short_at bytes.now 10 + 64 * short_at (field_of rec.now 4) 2) bytes.now) }
{
    let tables = usize::from(short(bytes, 8)) + 784 * usize::from(short(bytes, 10));
    let i = usize::from(short(field(rec, Tag::Tables), 2));
    part(
        bytes,
        tables + 64 * i,
        passed(field(rec, Tag::Passed), 2, 64),
    )
}

// Where the records begin, if this is such a file: it begins with its name, and price lists have 196 numbers and kinds lists 64.
// No record begins at 0, where the name stands.
pub fn records_at(bytes: &[u8]) -> Option<usize>
    ensures { IfSome result (λ from. from ≤ length bytes.now) }
{
    let prices = usize::from(short(bytes, 8)) + 784 * usize::from(short(bytes, 10));
    let from = prices + 64 * usize::from(short(bytes, 14));
    let named = bytes.starts_with(b"NIMSKV2\n");
    let fits = short(bytes, 12) == 196 && short(bytes, 16) == 64;
    (named && fits && 0 < from && from <= bytes.len()).then_some(from)
}

// The bytes of an entry of the field with a tag, if the tag is known.
fn width_of(tag: u8) -> Option<u8>
    ensures known { IfSome result (λ width. (width ≡ width_of tag) × (0 < width)) }
    ensures unknown { IfNone result (width_of tag ≡ 0) }
{
    let widths: [u8; 14] = [1, 1, 4, 2, 2, 4, 4, 2, 4, 2, 1, 1, 4, 4];
    let i = usize::from(tag).checked_sub(1)?;
    widths.get(i).copied()
}

// Whether the field at a place is known and stands behind the tag before it.
fn is_known(rec: &[u8], at: usize, last: u8) -> bool
    requires { at < 2199023255552 }
    ensures { result ≡ true → FieldKnown rec.now at last }
{
    let tag = byte(rec, at);
    last < tag && width_of(tag) == Some(byte(rec, at + 1))
}

// Whether all fields are known, stand by rising tag and fill the record.
pub fn check_fields(rec: &[u8]) -> Result<(), Strange>
    ensures { OnOk result (AllKnown rec.now) }
{
    let mut at = 8;
    let mut last = 0;
    for _ in 0..short(rec, 6) {
        if !is_known(rec, at, last) {
            return Err(Strange::Field(byte(rec, at)));
        }
        last = byte(rec, at);
        at += 4 + entries_size(rec, at);
    }
    if at != rec.len() {
        return Err(Strange::Length);
    }
    Ok(())
}

// Whether no more of a table is passed than it has.
fn fits_passed(counts: &[u8]) -> bool {
    passed(counts, 0, 196) <= 196 && passed(counts, 2, 64) <= 64
}

// Whether a record's call and tables are there.
fn is_there(bytes: &[u8], rec: &[u8]) -> bool {
    let tables = field(rec, Tag::Tables);
    Call::try_from(usize::from(short(rec, 4))).is_ok()
        && fits_passed(field(rec, Tag::Passed))
        && short(tables, 0) < short(bytes, 10)
        && short(tables, 2) < short(bytes, 14)
}

// Whether a record lends no more than there is room for.
fn roomy(rec: &[u8]) -> bool {
    let lent = field(rec, Tag::Lent);
    count(lent, 0) <= STEPS
        && count(lent, 4) <= 8 * ENTRIES
        && count(lent, 8) <= ENTRIES
        && count(lent, 12) <= 4 * ENTRIES
        && count(field(rec, Tag::Places), 0) <= STEPS
        && field(rec, Tag::Asked).len() <= 2 * STEPS
}

// Whether a record can be asked: it is known to its end and has an answer.
fn is_whole(bytes: &[u8], rec: &[u8]) -> bool
    ensures { result ≡ true → AllKnown rec.now }
{
    check_fields(rec).is_ok()
        && !field(rec, Tag::Answer).is_empty()
        && is_there(bytes, rec)
        && roomy(rec)
}

// The record at a place, if there is a whole one.
pub fn record_at(bytes: &[u8], at: usize) -> Option<&[u8]>
    requires { at ≤ length bytes.now }
    ensures { IfSome result (λ rec. (at + length rec.now ≤ length bytes.now) × (rec.now ≡ take (length rec.now) (drop at bytes.now)) × AllKnown rec.now) }
{
    let size = count(part(bytes, at, 4), 0);
    let rec = part(bytes, at, size);
    (rec.len() == size && is_whole(bytes, rec)).then_some(rec)
}

// The tag of the field that keeps the record at a place from being read, if that is why.
pub fn strange_at(bytes: &[u8], at: usize) -> Option<u8> {
    let size = count(part(bytes, at, 4), 0);
    match check_fields(part(bytes, at, size)) {
        Err(Strange::Field(tag)) => Some(tag),
        _ => None,
    }
}
