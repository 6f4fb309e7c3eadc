// What a call refuses by a look at its arguments, and whether a put is tried again: the tests of document 01's
// "Calls" that read no region. Apart from the calls, so that a limit is proved, and a wrong one refused, by itself.
#![tactic(auto)]

ghost use Rattle.std.specs.Prelude.{◌≡◌};
ghost use Rattle.definition.specs.Calls;
ghost use Rattle.definition.specs.Calls.{put_fault, region_fault};
ghost use Rattle.codec.specs.Forms.{checked_of, Checks};
ghost use Rattle.limits.specs.Forms.{retried};

use codec::Key;
use definition::{
    ADDRESS_END, CapacityKind, Fault, Health, MAX_VALUE_LEN, MIN_REGION, PAGE_SIZE, RegionKind,
};

// The tests of a put, in their order: the value's length, the reserved byte, the key's length.
#[tactic(auto, using(crate::proofs::Testing::put_tests))]
pub fn check_put(key: &[u8], value: &[u8]) -> Result<(), Fault>
    ensures { Checks (put_fault key.now value.now) key.now value.now
        result }
{
    if MAX_VALUE_LEN < value.len() {
        return Err(Fault::CapacityExceeded(CapacityKind::Value, value.len(), MAX_VALUE_LEN));
    }
    if codec::reserved(key) {
        return Err(Fault::ReservedKey);
    }
    if Key::MAX_LEN < key.len() {
        return Err(Fault::CapacityExceeded(CapacityKind::Key, key.len(), Key::MAX_LEN));
    }
    Ok(())
}

// Whether a refused store is tried again: a full region in Debris, which a recovery may clear.
#[tactic(auto, using(crate::proofs::Testing::retry_tests))]
pub fn retries(health: Health, fault: Fault) -> bool
    ensures { result ≡ retried health fault }
{
    match health {
        Health::Debris => matches!(fault, Fault::FullStorage),
        Health::Clean | Health::Pending => false,
    }
}

// Whether a key cannot be in the store: such a key is absent, and no item call is made for it.
#[tactic(auto, using(crate::proofs::Testing::unstorable_reserved, crate::proofs::Testing::unstorable_long))]
pub fn unstorable(key: &[u8]) -> bool
    ensures { result ≡ Calls.unstorable key.now }
{
    codec::reserved(key) || Key::MAX_LEN < key.len()
}

// The tests of a region, in their order; an end that has no place in 64 bits is too high too.
#[tactic(auto, using(crate::proofs::Testing::region_tests))]
pub fn check_region(start: u32, len: usize) -> Result<(), Fault>
    ensures { result ≡ checked_of (region_fault start len) }
{
    let start = start as usize;
    let end = start.saturating_add(len);
    if ADDRESS_END <= end {
        return Err(Fault::BadRegion(RegionKind::TooHigh));
    }
    if start % PAGE_SIZE != 0 {
        return Err(Fault::BadRegion(RegionKind::StartNotPageAligned));
    }
    if end % PAGE_SIZE != 0 {
        return Err(Fault::BadRegion(RegionKind::EndNotPageAligned));
    }
    if len < MIN_REGION {
        return Err(Fault::BadRegion(RegionKind::TooSmall));
    }
    Ok(())
}
