// Document 01, "Recovery and health": a committed batch is finished from its journal, and what is left of any other
// is dropped.
#![tactic(auto)]

ghost use Rattle.std.specs.Prelude.{◌≡◌, true, suc, ◌≤◌, length, take};
ghost use Rattle.definition.specs.Region.{good, items};
ghost use Rattle.definition.specs.Program.{flat};
ghost use Rattle.definition.specs.Recovery;
ghost use Rattle.definition.specs.Recovery.{redo_entry, iterate, drop_each, journal_keys, recover_by};
ghost use Rattle.marks.specs.Forms.{Short};
ghost use Rattle.codec.specs.Forms.{op_as};
ghost use Rattle.items.specs.Forms.{Ran};
ghost use Rattle.recovery.specs.Forms.{op_fits};

use codec::OpKind;
use definition::{Entry, Fault, ITEM_BUFFER_LEN, JOURNAL_KEY_LEN, JournalPart, Step};
use items::Failure;

// Iterates all items: a call opens, one is for each, one more says that there is none.
fn iterate_all(region: &[u8], script: &[u8], step: Step) -> Result<Step, Failure>
    requires { good region.now ≡ true }
    ensures { Ran (iterate flat (suc (suc (length (items region.now))))) region.now
        script.now step region.now result }
{
    let mut step = items::iterate_open(region, script, step)?;
    let mut at: usize = 0;
    // No iterator: each turn is an item call, which may fail and leaves the step for what follows.
    loop {
        let (met, next) = items::iterate_next(region, script, at, step)?;
        step = next;
        let Some(place) = met else {
            return Ok(step);
        };
        at = place.end();
    }
}

// Bytes of the region, copied so that the region can be written.
fn copied<const N: usize>(bytes: &[u8]) -> [u8; N]
    requires { length bytes.now ≤ N }
    ensures front { take (length bytes.now) result ≡ bytes.now }
    ensures long { length result ≡ N }
{
    let mut copy = [0u8; N];
    slices::copy_in(&mut copy, 0, bytes);
    copy
}

// ---- one operation of a batch, from its list or from its journal entry

// What the operation does.
fn act(
    region: &mut [u8],
    script: &[u8],
    kind: OpKind,
    key: &[u8],
    value: &[u8],
    step: Step,
) -> Result<Step, Failure>
    requires region_value { good region.old ≡ true }
    requires value_value { op_fits kind key.now value.now ≡ true }
    ensures { Ran (Recovery.act flat (op_as kind key.now value.now)) region.old
        script.now step region.new result }
{
    match kind {
        OpKind::Put => items::store(region, script, key, value, step),
        OpKind::Delete => items::remove(region, script, key, None, step),
    }
}

// Does the operation, and removes its journal item after it: a cut in between does it twice, never not at all. The
// item goes as soon as its operation is done, so that the room it took serves what is still to come.
pub fn land(
    region: &mut [u8],
    script: &[u8],
    index: u16,
    kind: OpKind,
    key: &[u8],
    value: &[u8],
    step: Step,
) -> Result<Step, Failure>
    requires region_value { good region.old ≡ true }
    requires value_value { op_fits kind key.now value.now ≡ true }
    ensures { Ran (Recovery.land flat index (op_as kind key.now value.now))
        region.old script.now step region.new result }
{
    let next = act(region, script, kind, key, value, step)?;
    // A write that is done has counted; the journal item mostly stands near the front, and no walk goes on behind it.
    let held = Some(next.space);
    items::remove(region, script, &codec::journal_key(index), held, next)
}

// Does what a journal entry says.
fn redo_entry(
    region: &mut [u8],
    script: &[u8],
    index: u16,
    entry: &[u8],
    step: Step,
) -> Result<Step, Failure>
    requires { good region.old ≡ true }
    ensures { Ran (redo_entry flat index entry.now) region.old script.now step
        region.new result }
{
    let key = codec::key_part(entry);
    let value = codec::value_part(entry);
    match codec::decode_entry(entry) {
        Entry::Put(_) => land(region, script, index, OpKind::Put, key, value, step),
        Entry::Delete(_) => land(region, script, index, OpKind::Delete, key, value, step),
        Entry::Corrupt => {
            let part = JournalPart::Entry(index as usize);
            let fault = Fault::JournalCorrupted(part);
            Err(Failure { fault, step })
        }
    }
}

// One journal entry, if it is there: one that is not there was done before.
fn redo(region: &mut [u8], script: &[u8], index: u16, step: Step) -> Result<Step, Failure>
    requires { good region.old ≡ true }
    ensures { Ran (Recovery.redo flat index) region.old script.now step
        region.new result }
{
    let journal_key = codec::journal_key(index);
    let (fetched, next) = items::fetch(region, script, &journal_key, step)?;
    let Some(entry) = fetched else {
        return Ok(next);
    };
    let len = entry.len();
    let entry: [u8; ITEM_BUFFER_LEN] = copied(entry);
    redo_entry(region, script, index, &entry[..len], next)
}

// The whole journal in its order, and the marker last. The marker's count says how far to go: a replay that ended at
// the first entry it missed would take a batch that was cut half way for done.
fn replay(region: &mut [u8], script: &[u8], count: u16, step: Step) -> Result<Step, Failure>
    requires { good region.old ≡ true }
    ensures { Ran (Recovery.replay flat count 0) region.old script.now step
        region.new result }
{
    let mut step = step;
    for index in 0..count {
        step = redo(region, script, index, step)?;
    }
    items::remove(region, script, &codec::marker_key(), None, step)
}

// Drops the first journal item left, until there is none.
fn drop_each(region: &mut [u8], script: &[u8], step: Step) -> Result<Step, Failure>
    requires { good region.old ≡ true }
    ensures { Ran (drop_each flat (journal_keys (items region.old))) region.old
        script.now step region.new result }
{
    let mut held = region::space(region);
    let mut step = step;
    // No iterator over the keys: each turn writes the region that they stand in.
    while let Some(key) = region::first_journal(region) {
        let key: [u8; JOURNAL_KEY_LEN] = copied(key);
        step = items::remove(region, script, &key, Some(held), step)?;
        held = step.space;
    }
    Ok(step)
}

// What is left of a journal that was not committed.
fn discard(region: &mut [u8], script: &[u8], step: Step) -> Result<Step, Failure>
    requires { good region.old ≡ true }
    ensures { Ran (Recovery.discard flat) region.old script.now step region.new
        result }
{
    let next = iterate_all(region, script, step)?;
    drop_each(region, script, next)
}

// Recovery by the marker that was read.
fn recover_by(
    region: &mut [u8],
    script: &[u8],
    marker: Option<usize>,
    step: Step,
) -> Result<Step, Failure>
    requires region_value { good region.old ≡ true }
    requires short { Short marker }
    ensures { Ran (recover_by flat marker) region.old script.now step region.new
        result }
{
    let Some(count) = marker else {
        let next = discard(region, script, step)?;
        return items::remove(region, script, &codec::marker_key(), None, next);
    };
    if marks::too_many(region.len(), count) {
        let fault = Fault::JournalCorrupted(JournalPart::MarkerCount(count));
        return Err(Failure { fault, step });
    }
    replay(region, script, count as u16, step)
}

// Recovers: by the marker, if there is one.
pub fn recover(region: &mut [u8], script: &[u8], step: Step) -> Result<Step, Failure>
    requires { good region.old ≡ true }
    ensures { Ran (Recovery.recover flat) region.old script.now step region.new
        result }
{
    let (fetched, next) = items::fetch(region, script, &codec::marker_key(), step)?;
    let Some(marker) = fetched else {
        return discard(region, script, next);
    };
    let marker = codec::decode_marker(marker);
    recover_by(region, script, marker, next)
}
