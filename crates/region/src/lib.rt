// The region's bytes: the image test, the records by place and by key, and the two item calls that write. Document 01
// defines them in "The region and its items"; the contracts say that each function is that definition. Nothing above
// this crate knows a byte of a record, but for the lengths and heads that it passes on from `records`.
#![tactic(auto)]

ghost use Rattle.std.specs.Prelude.{◌≡◌, true, ◌+◌, ◌-◌, ◌^◌, ◌≤◌, ◌<◌, leb, length, drop, option_map, is_some, IfSome};
ghost use Rattle.std.specs.Iterator.{at_most};
ghost use Rattle.definition.specs.Region;
ghost use Rattle.definition.specs.Region.{item, distinct, allowed, items, whole, good, look};
ghost use Rattle.definition.specs.Space.{space_of};
ghost use Rattle.definition.specs.Recovery.{is_journal, journal_keys};
ghost use Rattle.region.specs.Places.{end_of, Visit, Goes, Trusts, place_of, Short, span_found, key_at, value_at, first_of};
ghost use Rattle.prints.specs.Prints.{most_classes, table_size};
ghost use Rattle.region.specs.Classes.{Tried, DistinctIn};
ghost use Rattle.region.specs.Changes.{Counted, Surveyed, Removes, Stores};

use definition::{
    ERASED, HEAD_SIZE, ITEM_KIND, JOURNAL_KEY_LEN, JOURNAL_TAG, KEY_LEN_AT, RESERVED_PREFIX, Space,
    VALUE_LEN_AT,
};
use prints::TABLE;
pub use records::{agrees, header, is_allowed, put_record, size, span};

// What stands where a key's length would, behind the records.
const NO_KEY_LEN: usize = ERASED as usize;

// Where a record stands, and how many bytes its key and its value have.
#[derive(Clone, Copy)]
pub struct Place {
    pub at: usize,
    pub klen: usize,
    pub vlen: usize,
}

impl Place {
    // The place behind the record.
    pub fn end(self) -> usize
        requires lengths { (self.klen < 256) × (self.vlen < 65536) }
        requires fits { end_of self < 2 ^ 64 }
        ensures { result ≡ end_of self }
    {
        self.at + span(self.klen, self.vlen)
    }

    // The record's key.
    pub fn key(self, region: &[u8]) -> &[u8]
        requires { self.at + Region.head_size + self.klen ≤ length region.now }
        ensures { result.now ≡ key_at region.now self.at self.klen }
    {
        slices::part(region, self.at + HEAD_SIZE, self.klen)
    }

    // The record's value.
    pub fn value(self, region: &[u8]) -> &[u8]
        requires { self.at + Region.head_size + self.klen + self.vlen ≤ length region.now }
        ensures { result.now ≡ value_at region.now self.at self.klen self.vlen }
    {
        slices::part(region, self.at + HEAD_SIZE + self.klen, self.vlen)
    }
}

// What one walk has seen: what the region holds, and where the record with a key stands.
#[derive(Clone, Copy)]
pub struct Seen {
    pub space: Space,
    pub found: Option<Place>,
}

// ---- what stands at a place

// The record at a place, if there is one. A record is told by its bytes: they are compared with those that its lengths
// give. What else may stand there is no matter here, so that a walk's end costs no look at the tail.
pub fn next_item(region: &[u8], at: usize) -> Option<Place>
    ensures { Visit region.now at result }
{
    let left = region.len().saturating_sub(at);
    if left < HEAD_SIZE {
        return None;
    }
    let klen = slices::wide(region[at + KEY_LEN_AT]);
    let vlen = slices::le16_at(region, at + VALUE_LEN_AT);
    if !is_allowed(klen, vlen) {
        return None;
    }
    if !agrees(region, at, ITEM_KIND, klen, vlen) {
        return None;
    }
    if left < span(klen, vlen) {
        return None;
    }
    Some(Place { at, klen, vlen })
}

// The same where the region is known to be whole from there on: no record is compared with itself again. 0xFF is no
// key's length, so that one byte tells a record from the tail.
fn next_whole(region: &[u8], at: usize) -> Option<Place>
    requires { whole (drop at region.now) ≡ true }
    ensures { Visit region.now at result }
{
    let left = region.len().saturating_sub(at);
    if left < HEAD_SIZE {
        return None;
    }
    let klen = slices::wide(region[at + KEY_LEN_AT]);
    if klen == NO_KEY_LEN {
        return None;
    }
    let vlen = slices::le16_at(region, at + VALUE_LEN_AT);
    Some(Place { at, klen, vlen })
}

// ---- a walk

// The records from a place on, in their order. WHOLE says that the region is known to be whole from there on.
#[derive(Clone, Copy)]
pub struct Records<'a, const WHOLE: bool> {
    region: &'a [u8],
    at: usize,
}

impl<'a, const WHOLE: bool> Iterator for Records<'a, WHOLE> {
    type Item = Place;

    ghost can_next = { λ s. Trusts WHOLE s.region.now s.at };

    ghost next_gives = { λ s r t. Goes s.region.now s.at r t.at × (t.region.now ≡ s.region.now) };

    ghost remaining = { λ s. at_most (length s.region.now - s.at) };

    fn next(&mut self) -> Option<Place> {
        let met = if WHOLE {
            next_whole(self.region, self.at)
        } else {
            next_item(self.region, self.at)
        };
        let place = met?;
        self.at = place.end();
        Some(place)
    }
}

// The records from the front, up to the first place that has none.
pub fn records_of<const WHOLE: bool>(region: &[u8]) -> Records<'_, WHOLE>
    ensures { (result.region.now ≡ region.now) × (result.at ≡ 0) }
{
    Records { region, at: 0 }
}

// The records of a whole region from a place on.
fn whole_records(region: &[u8], at: usize) -> Records<'_, true>
    ensures { (result.region.now ≡ region.now) × (result.at ≡ at) }
{
    Records { region, at }
}

// ---- the item with a key

// Where the record with a key stands.
pub fn find(region: &[u8], key: &[u8]) -> Option<Place>
    requires { whole region.now ≡ true }
    ensures { result ≡ place_of 0 key.now (items region.now) }
{
    for place in records_of::<true>(region) {
        if slices::same(place.key(region), key) {
            return Some(place);
        }
    }
    None
}

// The value under a key.
pub fn fetch<'a>(region: &'a [u8], key: &[u8]) -> Option<&'a [u8]>
    requires { good region.now ≡ true }
    ensures value { option_map (λ v. v.now) result ≡ look key.now region.now }
    ensures short { IfSome result (λ v. length v.now ≤ 481) }
{
    let place = find(region, key)?;
    Some(place.value(region))
}

// ---- the image test

// Whether only 0xFF follows the records; then about how many they are, a hint that no contract says.
fn sweep(region: &[u8]) -> Option<usize>
    ensures { is_some result ≡ whole region.now }
{
    let mut end: usize = 0;
    let mut n: usize = 0;
    for place in records_of::<false>(region) {
        end = place.end();
        n += 1;
    }
    records::is_blank_from(region, end).then_some(n)
}

// Whether a key is none of those before it, if it is of this class.
fn is_new(before: &[u8], key: &[u8], table: &mut [u8; TABLE], class: usize, classes: usize) -> bool
    requires before_value { whole before.now ≡ true }
    requires table_len { (length table.old ≡ table_size) × (classes ≤ most_classes) }
    ensures { Tried before.now key.now table.old class classes
        table.new result }
{
    let h = prints::hash(key);
    if prints::class_of(h, classes) != class {
        return true;
    }
    if !prints::note(table, h) {
        return true;
    }
    find(before, key).is_none()
}

// Whether no key of a class occurs twice.
fn is_distinct_in(region: &[u8], class: usize, classes: usize) -> bool
    requires { (whole region.now ≡ true) × (classes ≤ most_classes) }
    ensures { DistinctIn region.now class classes result }
{
    let mut table: [u8; TABLE] = [0; TABLE];
    for place in records_of::<true>(region) {
        let before = slices::part(region, 0, place.at);
        if !is_new(before, place.key(region), &mut table, class, classes) {
            return false;
        }
    }
    true
}

// Whether no key occurs twice, of about so many: a walk for each class, of which there are so many that a table has
// room for the keys of one.
fn is_distinct(region: &[u8], keys: usize) -> bool
    requires { whole region.now ≡ true }
    ensures { result ≡ distinct (items region.now) }
{
    let classes = prints::classes(keys);
    for class in 0..classes {
        if !is_distinct_in(region, class, classes) {
            return false;
        }
    }
    true
}

// Whether the image is good, which `good` defines by comparing each key with all others. Here a key leaves a print in
// a table, and only one whose print may stand there already is looked for among the records before it.
pub fn is_good(region: &[u8]) -> bool
    ensures { result ≡ good region.now }
{
    match sweep(region) {
        Some(keys) => is_distinct(region, keys),
        None => false,
    }
}

// ---- counting

// The bytes that the records take.
pub fn used(region: &[u8]) -> usize
    ensures { (result ≡ Region.used (items region.now)) × (result ≤ length region.now) }
{
    let mut end: usize = 0;
    for place in records_of::<false>(region) {
        end = place.end();
    }
    end
}

// The number of records.
pub fn count(region: &[u8]) -> usize
    ensures { result ≡ length (items region.now) }
{
    let mut n: usize = 0;
    for _ in records_of::<false>(region) {
        n += 1;
    }
    n
}

// What the region holds, in one walk.
pub fn space(region: &[u8]) -> Space
    ensures { result ≡ space_of region.now }
{
    let mut used: usize = 0;
    let mut takes: usize = 0;
    for place in records_of::<false>(region) {
        used = place.end();
        takes += marks::user_count(place.key(region));
    }
    let free = region.len() - used;
    Space { used, free, takes }
}

// The same, where a walk over a whole region has come to a place and has counted so many user records.
fn space_from(region: &[u8], from: usize, counted: usize) -> Space
    requires { Counted region.now from counted }
    ensures { result ≡ space_of region.now }
{
    let mut used = from;
    let mut takes = counted;
    for place in whole_records(region, from) {
        used = place.end();
        takes += marks::user_count(place.key(region));
    }
    let free = region.len() - used;
    Space { used, free, takes }
}

// What the region holds, and where the record with a key stands: one walk for both, which compares no key behind it.
fn survey(region: &[u8], key: &[u8]) -> Seen
    requires { whole region.now ≡ true }
    ensures { Surveyed region.now key.now result }
{
    let mut used: usize = 0;
    let mut takes: usize = 0;
    for place in records_of::<true>(region) {
        used = place.end();
        takes += marks::user_count(place.key(region));
        if slices::same(place.key(region), key) {
            return Seen {
                space: space_from(region, used, takes),
                found: Some(place),
            };
        }
    }
    let free = region.len() - used;
    Seen {
        space: Space { used, free, takes },
        found: None,
    }
}

// ---- the journal's keys

// Whether a key is a journal key.
pub fn is_journal(key: &[u8]) -> bool
    ensures { result ≡ is_journal key.now }
{
    if key.len() != JOURNAL_KEY_LEN {
        return false;
    }
    if key[0] != RESERVED_PREFIX {
        return false;
    }
    key[1] == JOURNAL_TAG
}

// The first journal key.
pub fn first_journal(region: &[u8]) -> Option<&[u8]>
    requires { good region.now ≡ true }
    ensures key { option_map (λ k. k.now) result ≡ first_of (journal_keys (items region.now)) }
    ensures four { IfSome result (λ k. length k.now ≡ 4) }
{
    for place in records_of::<true>(region) {
        let key = place.key(region);
        if is_journal(key) {
            return Some(key);
        }
    }
    None
}

// ---- the item calls that write

// The room of the record that was looked for, or 0 if there is none.
fn old_span(found: Option<Place>) -> usize
    requires { Short found }
    ensures { result ≡ span_found found }
{
    match found {
        Some(place) => span(place.klen, place.vlen),
        None => 0,
    }
}

// The room rule, in one place: "Full exactly if used bytes, less the old record, plus the new one exceed L." No sum,
// so that none wraps.
fn has_room(used: usize, old: usize, new: usize, len: usize) -> bool
    requires { (old ≤ used) × (used ≤ len) }
    ensures { result ≡ leb (used - old + new) len }
{
    let end = used - old;
    new <= len - end
}

// Drops the record that was found under a key and closes the gap; none found changes nothing. What the region then
// holds is reckoned from what it held, so that no walk is made for it.
fn drop_found(region: &mut [u8], key: &[u8], before: Space, found: Option<Place>) -> Space
    requires region_value { good region.old ≡ true }
    requires before_value { before ≡ space_of region.old }
    requires found_value { found ≡ place_of 0 key.now (items region.old) }
    ensures { Removes key.now region.old region.new result }
{
    let Some(place) = found else {
        return before;
    };
    let old = span(place.klen, place.vlen);
    let used = before.used;
    records::cut(region, place.at, old, used);
    let end = used - old;
    Space {
        used: end,
        free: region.len() - end,
        takes: before.takes - marks::user_count(key),
    }
}

// Drops the record with a key, and says what the region then holds. Where it is known what it held, the walk ends at
// the record.
pub fn remove(region: &mut [u8], key: &[u8], held: Option<Space>) -> Space
    requires region_value { good region.old ≡ true }
    requires held_value { IfSome held (λ n. n ≡ space_of region.old) }
    ensures { Removes key.now region.old region.new result }
{
    let Seen { space, found } = match held {
        Some(space) => Seen {
            space,
            found: find(region, key),
        },
        None => survey(region, key),
    };
    drop_found(region, key, space, found)
}

// Drops the record with the key, closes the gap and appends the new one, if there is room for it then; and says what
// the region then holds.
pub fn store(region: &mut [u8], key: &[u8], value: &[u8]) -> Option<Space>
    requires region_value { good region.old ≡ true }
    requires value_value { allowed (length key.now) (length value.now) ≡ true }
    ensures { Stores (item key.now value.now) region.old region.new
        result }
{
    let Seen { space, found } = survey(region, key);
    let old = old_span(found);
    let new = span(key.len(), value.len());
    if !has_room(space.used, old, new, region.len()) {
        return None;
    }
    let kept = drop_found(region, key, space, found);
    let end = kept.used;
    put_record(region, end, key, value);
    let used = end + new;
    Some(Space {
        used,
        free: region.len() - used,
        takes: kept.takes + marks::user_count(key),
    })
}
