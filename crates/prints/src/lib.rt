// Which keys a walk has passed, in a table of fixed size: a key leaves a print, one byte of its hash, and the table
// says of another key that it is new, or that it may have been passed. The contracts say no more of a table than the
// image test needs: what was noted stays noted. Its numbers decide only how long a test takes; docs/DECISIONS.md,
// "The image test", says why they are these.
#![tactic(auto)]

ghost use Rattle.std.specs.Prelude.{◌≡◌, ◌<◌, ◌≤◌, length};
ghost use Rattle.prints.specs.Prints.{word, mixed, finished, hash_from, hash_of};
ghost use Rattle.prints.specs.Prints.{most_classes, class_of, table_size, Notes};

// A hash is below this.
const WORD: usize = 4294967296;
// 2^32 by the golden ratio: an odd number that spreads what is near.
const SPREAD: usize = 2654435769;
// The most classes.
const CLASSES: usize = 4096;
// The keys of a class: as many as fill half of a table.
const PER_CLASS: usize = 4096;
// How many places a look goes along.
const LOOK: usize = 16;
// How many hashes share a first place, so that there are 8192.
const PER_PLACE: usize = 524288;
// The bytes of a table: the first places and those behind the last, so that no look wraps around.
pub const TABLE: usize = 8208;

// ---- a key's hash

// Two bytes more. The middle of the product is kept: its low end is a sum of multiples, by which keys that differ
// alike get hashes that differ alike.
#[tactic(auto, unfolding(crate::specs::Prints::mixed))]
fn mix(h: usize, x: usize) -> usize
    requires { (h < word) × (x < 65536) }
    ensures { (result ≡ mixed h x) × (result < word) }
{
    (h + x) * SPREAD / 256 % WORD
}

// The last step, in which the high half counts for the low one.
#[tactic(auto, unfolding(crate::specs::Prints::finished))]
fn finish(h: usize) -> usize
    requires { h < word }
    ensures { (result ≡ finished h) × (result < word) }
{
    (h + h / 32768) * SPREAD % WORD
}

// A key's hash.
#[tactic(auto, unfolding(crate::specs::Prints::hash_of, crate::specs::Prints::hash_from))]
pub fn hash(key: &[u8]) -> usize
    ensures { (result ≡ hash_of key.now) × (result < word) }
{
    let mut h = key.len() % WORD;
    let mut left = key;
    while let [low, high, further @ ..] = left {
        h = mix(h, usize::from(u16::from_le_bytes([*low, *high])));
        left = further;
    }
    match left {
        [last] => finish(mix(h, slices::wide(*last))),
        _ => finish(h),
    }
}

// ---- classes

// How many classes so many keys are parted into.
pub fn classes(keys: usize) -> usize
    ensures { (0 < result) × (result ≤ most_classes) }
{
    (keys / PER_CLASS + 1).min(CLASSES)
}

// The class of a hash, of so many.
#[tactic(auto, using(crate::proofs::Hashes::class_fits), unfolding(crate::specs::Prints::class_of))]
pub fn class_of(h: usize, n: usize) -> usize
    requires { n ≤ most_classes }
    ensures { result ≡ class_of n h }
{
    h % CLASSES * n / CLASSES
}

// ---- a table

// Notes a hash, and says whether it may have been noted before: its print stands at its first place or behind it with
// no gap between, or a look found no gap. Only a gap is written to, so that no print is lost.
pub fn note(table: &mut [u8; TABLE], h: usize) -> bool
    requires { (h < word) × (length table.old ≡ table_size) }
    ensures { Notes table.old h table.new result }
{
    let print = (h / 4096 % 255 + 1) as u8;
    let first = h / PER_PLACE;
    for i in first..first + LOOK {
        let there = table[i];
        if there == 0 {
            table[i] = print;
            return false;
        }
        if there == print {
            return true;
        }
    }
    true
}
