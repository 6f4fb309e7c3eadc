// apply_ops: a batch given as a lent list of operation structs that name parts of one byte pool. Document 01 has it
// in "Shapes that must change"; what it answers is the batch of "Calls", which `batch` does for every source of
// operations. This crate reads the structs as one.
#![tactic(auto)]

ghost use Rattle.std.specs.Prelude.{◌≡◌, [], length, drop};
ghost use Rattle.definition.specs.OperationList.{ops_over};
ghost use Rattle.definition.specs.Public.{outcome, apply_ops};

use batch::{ListOp, OpSource};
use definition::{Answer, BatchOp, Fault, Reply, State};

// The structs, and the pool whose parts they name.
#[derive(Clone, Copy)]
struct PooledOps<'a> {
    ops: &'a [BatchOp],
    pool: &'a [u8],
}

impl<'a> OpSource for PooledOps<'a> {
    ghost left = { λ p at. ops_over p.pool.now (drop at p.ops.now) };

    ghost size = { λ p. length p.ops.now };

    // A struct's place is its number in the list; where one is no operation, none stands.
    fn op_at(&self, at: usize) -> Option<ListOp<'_>> {
        let op = *self.ops.get(at)?;
        if !pooled::is_op(self.pool, op) {
            return None;
        }
        Some(ListOp {
            kind: pooled::kind_of(op),
            key: pooled::key_of(self.pool, op),
            value: pooled::value_of(self.pool, op),
            next: at + 1,
        })
    }

    fn end(&self) -> usize {
        self.ops.len()
    }
}

// Does the operations of a list of structs, all or none: refusals and what stands after each are those of
// `batch::apply_batch`, with 17 for a part outside the pool, another kind, or a delete with a value.
pub fn apply_ops(
    region: &mut [u8],
    script: &[u8],
    state: State,
    ops: &[BatchOp],
    pool: &[u8],
) -> Reply<Answer>
    ensures { outcome result.answer result.state result.calls region.new []
        ≡ apply_ops region.old script.now state ops.now pool.now }
{
    if !region::is_good(region) {
        return gate::unchanged(Err(Fault::Corrupted), state);
    }
    let source = PooledOps { ops, pool };
    let tested = batch::tested(&source);
    batch::batch_of(
        region,
        script,
        &source,
        tested,
        state.health,
        gate::begin(state),
    )
}
