// The window of a scan (document 01, "Calls"): the eight smallest matching keys above the last one written, by their
// places, and the record at a place written out. Inner: a place must hold a record. Every function is equal to its
// definition in `definition/specs/Scan`.
#![tactic(auto)]

ghost use Rattle.std.specs.Prelude.{◌≡◌, ◌+◌, ◌≤◌, length, take};
ghost use Rattle.definition.specs.Region.{record_of};
ghost use Rattle.definition.specs.Scan;
ghost use Rattle.definition.specs.Scan.{rising, insert};
ghost use Rattle.codec.specs.Forms.{checked_of};
ghost use Rattle.slices.specs.Written.{written};
ghost use Rattle.windows.specs.Forms.{put, filled, Parts, place_key, place_item, Held, Lasts, LastHeld, last_key, window_items, Sane, Holds};

use codec::Key;
use definition::{CapacityKind, Fault, MAX_VALUE_LEN, SCAN_WINDOW};
use region::Place;

// What a pass keeps: the first `len` places, in key order.
#[derive(Clone, Copy)]
pub struct ScanWindow {
    pub places: [Place; SCAN_WINDOW],
    pub len: usize,
}

// ---- the tests of a key

// Whether one key comes before another in the scan's direction, which is rising.
#[tactic(auto, using(crate::proofs::Windows::rising_is))]
fn before(a: &[u8], b: &[u8]) -> bool
    ensures { result ≡ rising a.now b.now }
{
    Key::order(a, b).is_lt()
}

fn begins(prefix: &[u8], key: &[u8]) -> bool
    ensures { result ≡ Scan.begins prefix.now key.now }
{
    // The first byte mostly decides, and is compared without a call.
    if prefix.is_empty() {
        return true;
    }
    if key.is_empty() {
        return false;
    }
    if prefix[0] != key[0] {
        return false;
    }
    key.starts_with(prefix)
}

// Whether the scan is to see a record: bookkeeping and other prefixes are skipped.
fn matches(region: &[u8], prefix: &[u8], place: Place) -> bool
    requires { Held region.now place }
    ensures { result ≡ Scan.matches prefix.now (place_item region.now place) }
{
    let key = place.key(region);
    if codec::reserved(key) {
        return false;
    }
    begins(prefix, key)
}

// Why a matching record may not be handed out.
#[tactic(auto, using(crate::proofs::Windows::long_refused))]
pub fn overlong(region: &[u8], prefix: &[u8], place: Place) -> Result<(), Fault>
    requires { Held region.now place }
    ensures { result ≡ checked_of (Scan.overlong prefix.now (place_item region.now place)) }
{
    if !matches(region, prefix, place) {
        return Ok(());
    }
    if MAX_VALUE_LEN < place.vlen {
        return Err(Fault::CapacityExceeded(CapacityKind::Value, place.vlen, MAX_VALUE_LEN));
    }
    Ok(())
}

// Whether a key is still to come after the last one written.
fn beyond(region: &[u8], last: Option<Place>, key: &[u8]) -> bool
    requires { LastHeld region.now last }
    ensures { result ≡ Scan.beyond rising (last_key region.now last) key.now }
{
    match last {
        Some(place) => before(place.key(region), key),
        None => true,
    }
}

// ---- the window

impl ScanWindow {
    pub fn new() -> Self
        ensures { (length result.places ≡ Scan.window_size) × (result.len ≡ 0) }
    {
        ScanWindow {
            places: [Place {
                at: 0,
                klen: 0,
                vlen: 0,
            }; SCAN_WINDOW],
            len: 0,
        }
    }

    // Where a key belongs: behind the keys that come before it.
    fn position(self, region: &[u8], key: &[u8]) -> usize
        requires { Sane region.now self }
        ensures { Parts rising key.now (window_items region.now self) result }
    {
        for (i, place) in self.places[..self.len].iter().enumerate() {
            if !before(place.key(region), key) {
                return i;
            }
        }
        self.len
    }

    // Puts a place at an index; those from there on move up, and of nine the last drops out.
    fn insert_at(self, at: usize, place: Place) -> Self
        requires { (length self.places ≡ Scan.window_size) × (self.len ≤ Scan.window_size) × (at ≤ self.len) }
        ensures { (length result.places ≡ Scan.window_size) × (result.len ≤ Scan.window_size) × (filled result
            ≡ take Scan.window_size (put at place (filled self))) }
    {
        // No copy_within, which asks a host of the library for `memmove`: each place drops the one that it takes over.
        let mut places = self.places;
        let mut carried = place;
        for i in at..self.len {
            let held = places[i];
            places[i] = carried;
            carried = held;
        }
        let mut len = self.len;
        if len < SCAN_WINDOW {
            places[len] = carried;
            len += 1;
        }
        ScanWindow { places, len }
    }

    // Puts a place where its key belongs.
    fn offer(self, region: &[u8], place: Place) -> Self
        requires sane { Sane region.now self }
        requires held { Held region.now place }
        ensures { Holds region.now (take Scan.window_size (insert rising (place_item
            region.now place) (window_items region.now self))) result }
    {
        let at = self.position(region, place.key(region));
        self.insert_at(at, place)
    }

    // The last record of the window, or what was the last before it.
    pub fn last_of(self, region: &[u8], last: Option<Place>) -> Option<Place>
        requires sane { Sane region.now self }
        requires last_held { LastHeld region.now last }
        ensures { Lasts region.now (Scan.last_of (last_key region.now last) (window_items
            region.now self)) result }
    {
        if self.len == 0 {
            return last;
        }
        Some(self.places[self.len - 1])
    }

    // Whether the window goes on beyond the last record written.
    pub fn advances(self, region: &[u8], last: Option<Place>) -> bool
        requires sane { Sane region.now self }
        requires last_held { LastHeld region.now last }
        ensures { result ≡ Scan.advances rising (last_key region.now last)
            (window_items region.now self) }
    {
        match self.last_of(region, None) {
            Some(place) => beyond(region, last, place.key(region)),
            None => true,
        }
    }
}

// ---- a record that was met

// The window with a record that was met.
pub fn keep(
    region: &[u8],
    prefix: &[u8],
    last: Option<Place>,
    window: ScanWindow,
    place: Place,
) -> ScanWindow
    requires last_held { LastHeld region.now last }
    requires sane { Sane region.now window }
    requires held { Held region.now place }
    ensures { Holds region.now (Scan.keep rising prefix.now (last_key
        region.now last) (place_item region.now place) (window_items region.now
        window)) result }
{
    if !matches(region, prefix, place) {
        return window;
    }
    if !beyond(region, last, place.key(region)) {
        return window;
    }
    window.offer(region, place)
}

// Writes the record at a place of the region to the output.
pub fn put_place(region: &[u8], place: Place, out: &mut [u8], at: usize)
    requires held { Held region.now place }
    requires place_in_bounds { at + length (record_of (place_item region.now place)) ≤ length out.old }
    ensures { out.new ≡ written out.old at
        (record_of (place_item region.now place)) }
{
    region::put_record(out, at, place.key(region), place.value(region));
}
