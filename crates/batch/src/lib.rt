// A batch of operations, from wherever they are lent, and apply_batch over a lent operation list. Document 01 defines
// it in "Calls", under batch: tests, recovery, journal, marker, application. The functions are split where the
// definition's programs are; each goes along the operations anew.
#![tactic(auto)]

ghost use Rattle.std.specs.Prelude.{◌≡◌, ◌∷◌, Ok, None, true, ℕ, suc, List, [], length};
ghost use Rattle.definition.specs.Tools.{Bytes};
ghost use Rattle.definition.specs.Codec.{Op, op_fault};
ghost use Rattle.definition.specs.Region.{good};
ghost use Rattle.definition.specs.Program.{Prog, ◌▷◌, flat};
ghost use Rattle.definition.specs.Recovery;
ghost use Rattle.definition.specs.Calls;
ghost use Rattle.definition.specs.Calls.{ops_fault, batch_fault, apply_all, journal_all, batch_of};
ghost use Rattle.definition.specs.Public.{outcome, apply_batch};
ghost use Rattle.codec.specs.Forms.{op_as, checked_of};
ghost use Rattle.items.specs.Forms.{Ran};
ghost use Rattle.gate.specs.Forms.{Says};
ghost use Rattle.oplist.specs.Places.{Listed, those};
ghost use Rattle.batch.specs.Forms.{Tested, Passes, entered, journal_turn, apply_turn};

use definition::{Answer, BATCH_MAX, CapacityKind, Fault, Health, Reply, State, Step};
use items::Failure;
use oplist::OpList;
pub use oplist::{ListOp, OpSource};

// ---- the tests

// The tests of each operation, in order.
fn check_all<S: OpSource>(source: &S) -> Result<(), Fault>
    requires { Listed (S.left source.now 0) }
    ensures { result ≡ checked_of (ops_fault (those (S.left source.now 0))) }
{
    for op in oplist::ops(source) {
        codec::check_op(op.key, op.value)?;
    }
    Ok(())
}

// The count, then each operation.
#[tactic(auto, using(crate::proofs::Walking::check_many))]
fn check_batch<S: OpSource>(source: &S, count: usize) -> Result<(), Fault>
    requires listed { Listed (S.left source.now 0) }
    requires count_value { count ≡ length (those (S.left source.now 0)) }
    ensures { result ≡ checked_of (batch_fault (those (S.left source.now 0))) }
{
    if BATCH_MAX < count {
        return Err(Fault::CapacityExceeded(CapacityKind::BatchOperations, count, BATCH_MAX));
    }
    check_all(source)
}

// The shape of what is lent, before anything of its operations; then their tests. How many they are.
pub fn tested<S: OpSource>(source: &S) -> Result<usize, Fault>
    ensures { Passes (S.left source.now 0) result }
{
    let Some(count) = oplist::shape_of(source) else {
        return Err(Fault::BadList);
    };
    check_batch(source, count)?;
    Ok(count)
}

// ---- the two passes that write

// A pass over a batch's operations: what is done with each, and behind the last. `run` is the definition's program,
// which does the first and then runs on the rest.
trait Pass {
    ghost does: { ℕ → Op → Prog Bytes (Unit {0}) };

    ghost run: { ℕ → List Op → Prog Bytes (Unit {0}) };

    fn turn(
        region: &mut [u8],
        script: &[u8],
        index: u16,
        op: ListOp<'_>,
        step: Step,
    ) -> Result<Step, Failure>
        requires region_value { good region.old ≡ true }
        requires tested { op_fault (op_as op.kind op.key.now op.value.now) ≡ None }
        ensures { Ran (does index (op_as op.entry.kind op.entry.key.now op.entry.value.now))
            region.old script.now step region.new result };

    fn end(region: &mut [u8], script: &[u8], step: Step) -> Result<Step, Failure>
        requires { good region.old ≡ true }
        ensures { (i : ℕ) → Ran (run i []) region.old script.now step region.new result };

    ghost turns: { (i : ℕ) (op : Op) (ops : List Op) → run i (op ∷ ops)
        ≡ (does i op ▷ λ x. run (suc i) ops) };
}

// Stores each operation's entry.
struct Journal;

impl Pass for Journal {
    ghost does = { entered };

    ghost run = { Calls.journal flat };

    ghost turns = { journal_turn };

    fn turn(
        region: &mut [u8],
        script: &[u8],
        index: u16,
        op: ListOp<'_>,
        step: Step,
    ) -> Result<Step, Failure> {
        journal::write_entry(region, script, index, op.kind, op.key, op.value, step)
    }

    #[tactic(auto, using(crate::proofs::Walking::journal_over))]
    fn end(_region: &mut [u8], _script: &[u8], step: Step) -> Result<Step, Failure> {
        Ok(step)
    }
}

// Lands each operation, and removes the marker last.
struct Landing;

impl Pass for Landing {
    ghost does = { Recovery.land flat };

    ghost run = { Calls.apply flat };

    ghost turns = { apply_turn };

    fn turn(
        region: &mut [u8],
        script: &[u8],
        index: u16,
        op: ListOp<'_>,
        step: Step,
    ) -> Result<Step, Failure> {
        recovery::land(region, script, index, op.kind, op.key, op.value, step)
    }

    #[tactic(auto, using(crate::proofs::Walking::apply_over))]
    fn end(region: &mut [u8], script: &[u8], step: Step) -> Result<Step, Failure> {
        journal::remove_marker(region, script, step)
    }
}

// Makes a pass over the operations.
fn go_over<P: Pass, S: OpSource>(
    region: &mut [u8],
    script: &[u8],
    source: &S,
    step: Step,
) -> Result<Step, Failure>
    requires region_value { good region.old ≡ true }
    requires tested { Tested (S.left source.now 0) 0 }
    ensures { Ran (P.run 0 (those (S.left source.now 0))) region.old script.now
        step region.new result }
{
    let mut step = step;
    let mut index: u16 = 0;
    for op in oplist::ops(source) {
        step = P::turn(region, script, index, op, step)?;
        index += 1;
    }
    P::end(region, script, step)
}

// ---- from the journal to the reply

// Applies a committed batch; a fault leaves the rest to recovery.
fn apply_all<S: OpSource>(region: &mut [u8], script: &[u8], source: &S, step: Step) -> Reply<Answer>
    requires region_value { good region.old ≡ true }
    requires tested { Tested (S.left source.now 0) 0 }
    ensures { Says (apply_all flat (those (S.left source.now 0))) region.old script.now step
        region.new result.answer result.state result.calls [] }
{
    match go_over::<Landing, S>(region, script, source, step) {
        Ok(next) => gate::reply(Ok(()), Health::Clean, next),
        Err(failed) => journal::finish(region, script, failed.step),
    }
}

// Writes the marker: the commit point.
fn commit<S: OpSource>(
    region: &mut [u8],
    script: &[u8],
    source: &S,
    count: u16,
    step: Step,
) -> Reply<Answer>
    requires region_value { good region.old ≡ true }
    requires tested { Tested (S.left source.now 0) 0 }
    requires count_value { count ≡ length (those (S.left source.now 0)) }
    ensures { Says (Calls.commit flat (those (S.left source.now 0))) region.old script.now
        step region.new result.answer result.state result.calls [] }
{
    match journal::write_marker(region, script, count, step) {
        Ok(next) => apply_all(region, script, source, next),
        Err(failed) => journal::read_back(region, script, count, failed.fault, failed.step),
    }
}

// Journals the batch; before the marker a fault leaves only what a later recovery drops.
fn journal_all<S: OpSource>(
    region: &mut [u8],
    script: &[u8],
    source: &S,
    count: u16,
    step: Step,
) -> Reply<Answer>
    requires region_value { good region.old ≡ true }
    requires tested { Tested (S.left source.now 0) 0 }
    requires count_value { count ≡ length (those (S.left source.now 0)) }
    ensures { Says (journal_all flat (those (S.left source.now 0))) region.old script.now
        step region.new result.answer result.state result.calls [] }
{
    match go_over::<Journal, S>(region, script, source, step) {
        Ok(next) => commit(region, script, source, count, next),
        Err(failed) => gate::refused(failed, Health::Debris),
    }
}

// A batch of so many operations that passed their tests: none is done at once; else the recovery unless Clean, and
// the journal.
#[tactic(auto, using(crate::proofs::Batching::batch_empty))]
fn batch<S: OpSource>(
    region: &mut [u8],
    script: &[u8],
    source: &S,
    count: usize,
    health: Health,
    step: Step,
) -> Reply<Answer>
    requires region_value { good region.old ≡ true }
    requires passes { Passes (S.left source.now 0) (Ok count) }
    ensures { Says (Calls.batch flat (those (S.left source.now 0)) health) region.old
        script.now step region.new result.answer result.state result.calls [] }
{
    if count == 0 {
        return gate::reply(Ok(()), health, step);
    }
    match gate::converge(region, script, gate::is_unclean(health), health, step) {
        Ok((_, next)) => journal_all(region, script, source, count as u16, next),
        Err(failed) => gate::refused(failed, health),
    }
}

// A batch by what its tests said: a refusal of theirs makes no item call.
pub fn batch_of<S: OpSource>(
    region: &mut [u8],
    script: &[u8],
    source: &S,
    tested: Result<usize, Fault>,
    health: Health,
    step: Step,
) -> Reply<Answer>
    requires region_value { good region.old ≡ true }
    requires passes { Passes (S.left source.now 0) tested }
    ensures { Says (batch_of flat (S.left source.now 0) health) region.old
        script.now step region.new result.answer result.state result.calls [] }
{
    match tested {
        Ok(count) => batch(region, script, source, count, health, step),
        Err(fault) => gate::reply(Err(fault), health, step),
    }
}

// ---- over a list

// Does the operations of a list, all or none. Refusals, in order: 7 for a bad image and 17 for a list that is none; 2
// for more than 65534 operations, and for each operation 2 for its key's length, 3 for a reserved key and 2 for its
// value's length: none of these makes an item call. Then a recovery's fault, unless the store was Clean; a fault
// while journalling, which leaves Debris and the batch out; 16 where nobody knows whether the marker stands, which
// leaves Pending; and from the commit point on 15, which means that the batch is in and the next call lands it. An
// empty list is Ok at once. On the console: `batch put a 2; del b` says `batch ok 8 clean`.
pub fn apply_batch(region: &mut [u8], script: &[u8], state: State, list: &[u8]) -> Reply<Answer>
    ensures { outcome result.answer result.state result.calls region.new []
        ≡ apply_batch region.old script.now state list.now }
{
    if !region::is_good(region) {
        return gate::unchanged(Err(Fault::Corrupted), state);
    }
    let source = OpList(list);
    batch_of(
        region,
        script,
        &source,
        tested(&source),
        state.health,
        gate::begin(state),
    )
}
