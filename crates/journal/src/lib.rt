// A batch's journal: the entry of one operation, the marker that commits, and what follows a fault from then on.
// Document 01 defines them in "Calls", under batch. What a batch's operations are read from is no matter here.
#![tactic(auto)]

ghost use Rattle.std.specs.Prelude.{◌≡◌, true, [], None};
ghost use Rattle.definition.specs.Codec.{op_fault, encode, marker_key, journal_key};
ghost use Rattle.definition.specs.Codec;
ghost use Rattle.definition.specs.Region.{item, good};
ghost use Rattle.definition.specs.Program.{flat, store, remove};
ghost use Rattle.definition.specs.Recovery;
ghost use Rattle.definition.specs.Calls;
ghost use Rattle.definition.specs.Calls.{is_marker, read_back};
ghost use Rattle.codec.specs.Forms.{op_as};
ghost use Rattle.items.specs.Forms.{value_of, Ran};
ghost use Rattle.gate.specs.Forms.{Says};

use codec::OpKind;
use definition::{Answer, Fault, Health, JOURNAL_ENTRY_MAX, Reply, Step};
use items::Failure;

// ---- one operation that passed the batch's tests

// Stores the operation's entry under its journal key.
pub fn write_entry(
    region: &mut [u8],
    script: &[u8],
    index: u16,
    kind: OpKind,
    key: &[u8],
    value: &[u8],
    step: Step,
) -> Result<Step, Failure>
    requires region_value { good region.old ≡ true }
    requires value_value { op_fault (op_as kind key.now value.now) ≡ None }
    ensures { Ran (store flat (item (journal_key index) (encode (op_as kind key.now
        value.now)))) region.old script.now step region.new result }
{
    let mut entry = [0u8; JOURNAL_ENTRY_MAX];
    let n = match codec::encode_op(kind, key, value, &mut entry) {
        Ok(n) => n,
        // Not reached: what passed the tests fits.
        Err(fault) => return Err(Failure { fault, step }),
    };
    items::store(
        region,
        script,
        &codec::journal_key(index),
        &entry[..n],
        step,
    )
}

// ---- the marker

pub fn write_marker(
    region: &mut [u8],
    script: &[u8],
    count: u16,
    step: Step,
) -> Result<Step, Failure>
    requires { good region.old ≡ true }
    ensures { Ran (store flat (item marker_key (Codec.marker count))) region.old
        script.now step region.new result }
{
    let marker = codec::encode_marker(count);
    items::store(region, script, &codec::marker_key(), &marker, step)
}

pub fn remove_marker(region: &mut [u8], script: &[u8], step: Step) -> Result<Step, Failure>
    requires { good region.old ≡ true }
    ensures { Ran (remove flat marker_key) region.old script.now step region.new
        result }
{
    items::remove(region, script, &codec::marker_key(), None, step)
}

// Whether the marker of so many operations was fetched.
fn is_marker(fetched: Option<&[u8]>, count: u16) -> bool
    ensures { result ≡ is_marker count (value_of fetched.entry) }
{
    match fetched {
        Some(value) => slices::same(value, &codec::encode_marker(count)),
        None => false,
    }
}

// ---- from the commit point on

// What a fault after the commit point is to the caller: the batch stands all the same.
fn settled(fault: Fault) -> Fault
    ensures { result ≡ Calls.settled fault }
{
    match fault {
        Fault::JournalCorrupted(_) => fault,
        _ => Fault::BatchCommitted,
    }
}

// Finishes a batch that is committed by recovery.
pub fn finish(region: &mut [u8], script: &[u8], step: Step) -> Reply<Answer>
    requires { good region.old ≡ true }
    ensures { Says (Calls.finish flat) region.old script.now step region.new
        result.answer result.state result.calls [] }
{
    match recovery::recover(region, script, step) {
        Ok(next) => gate::reply(Ok(()), Health::Clean, next),
        Err(failed) => gate::reply(Err(settled(failed.fault)), Health::Pending, failed.step),
    }
}

// After a fault in the marker's write: only what stands there says whether the batch is committed. A store that once
// took the failed write for a rollback told its caller "failed", and the next mount landed the batch: so the marker
// is read back, and where that fails too, nobody knows.
pub fn read_back(
    region: &mut [u8],
    script: &[u8],
    count: u16,
    fault: Fault,
    step: Step,
) -> Reply<Answer>
    requires { good region.old ≡ true }
    ensures { Says (read_back flat count fault) region.old script.now step
        region.new result.answer result.state result.calls [] }
{
    let (fetched, next) = match items::fetch(region, script, &codec::marker_key(), step) {
        Ok(found) => found,
        Err(failed) => {
            let uncertain = Err(Fault::CommitUncertain);
            return gate::reply(uncertain, Health::Pending, failed.step);
        }
    };
    if is_marker(fetched, count) {
        return finish(region, script, next);
    }
    gate::reply(Err(fault), Health::Debris, next)
}
