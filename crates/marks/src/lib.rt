// The bookkeeping keys and the marker: document 01, "Codecs", and of "Recovery and health" the test of a marker's
// count. Every function takes any input and equals its definition in `definition/specs/Codec` and `Recovery`; `codec`
// passes the codecs on.
#![tactic(auto)]

ghost use Rattle.std.specs.Prelude.{◌≡◌};
ghost use Rattle.definition.specs.Codec;
ghost use Rattle.definition.specs.Codec.{journal_key, marker, marker_key};
ghost use Rattle.definition.specs.Recovery.{too_many};
ghost use Rattle.definition.specs.Space.{user_count};
ghost use Rattle.marks.specs.Forms.{MarkerReads};

use definition::{JOURNAL_ITEM_MIN_BYTES, JOURNAL_TAG, MARKER_TAG, RESERVED_PREFIX};

// Whether a key is a bookkeeping key.
pub fn reserved(key: &[u8]) -> bool
    ensures { result ≡ Codec.reserved key.now }
{
    key.first() == Some(&RESERVED_PREFIX)
}

// How many user records a record with this key is: request C-11 counts them.
#[tactic(auto, using(crate::proofs::Marks::counts))]
pub fn user_count(key: &[u8]) -> usize
    ensures { result ≡ user_count key.now }
{
    if reserved(key) { 0 } else { 1 }
}

#[tactic(auto, unfolding(definition::specs::Codec::marker_key))]
pub fn marker_key() -> [u8; 2]
    ensures { result ≡ marker_key }
{
    [RESERVED_PREFIX, MARKER_TAG]
}

#[tactic(auto, using(crate::proofs::Marks::journal_bytes))]
pub fn journal_key(index: u16) -> [u8; 4]
    ensures { result ≡ journal_key index }
{
    let [high, low] = index.to_be_bytes();
    [RESERVED_PREFIX, JOURNAL_TAG, high, low]
}

// What a marker's two numbers add up to.
const MARKER_SUM: u16 = 65535;

// A marker: the count, and what it lacks of 65535, so that a torn one does not agree with itself.
#[tactic(auto, using(crate::proofs::Marks::marker_bytes))]
pub fn encode_marker(count: u16) -> [u8; 4]
    ensures { result ≡ marker count }
{
    let [high, low] = count.to_be_bytes();
    let complement = MARKER_SUM - count;
    let [check_high, check_low] = complement.to_be_bytes();
    [high, low, check_high, check_low]
}

// The count that a marker's bytes say, if they are a marker.
#[tactic(auto, using(crate::proofs::Marks::marker_reads))]
pub fn decode_marker(bytes: &[u8]) -> Option<usize>
    ensures { MarkerReads bytes.now result }
{
    if bytes.len() != 4 {
        return None;
    }
    let count = slices::be16_at(bytes, 0);
    let check = slices::be16_at(bytes, 2);
    let sum = count + check;
    if sum != MARKER_SUM as usize {
        return None;
    }
    Some(count)
}

// Whether a marker's count cannot be a batch's: the erased pattern, which is the likeliest garbage and which no batch
// therefore has, or more entries than the region could hold, each of which a mount would look for in vain.
#[tactic(auto, using(crate::proofs::Marks::many_tests))]
pub fn too_many(len: usize, count: usize) -> bool
    ensures { result ≡ too_many len count }
{
    count == 65535 || len / JOURNAL_ITEM_MIN_BYTES < count
}
