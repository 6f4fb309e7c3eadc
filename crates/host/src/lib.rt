// The calls for a host that keeps its state record in one place: the record is lent, and each call leaves in it what
// its reply says. Every function is its call by value, with the record copied in and the reply's written back; what
// the call answers, and what it does to the region and to the output, is its definition's in
// `definition/specs/Public`.
#![tactic(auto)]

ghost use Rattle.std.specs.Prelude.{◌≡◌, []};
ghost use Rattle.definition.specs.Public;
ghost use Rattle.definition.specs.Public.{outcome};

use definition::{Answer, BatchOp, GetAnswer, Reply, Scanned, State, TruthAnswer};

// Leaves in the lent record the state that a reply says to keep.
fn keep<A>(state: &mut State, reply: Reply<A>) -> Reply<A>
    ensures { (result ≡ reply) × (state.new ≡ reply.state) }
{
    *state = reply.state;
    reply
}

// Mounts the region, which stands at `start`, with the script at the record's place; a refused mount leaves Pending,
// the place reached and the cut.
pub fn mount(state: &mut State, region: &mut [u8], script: &[u8], start: u32) -> Reply<Answer>
    ensures { (outcome result.answer result.state result.calls region.new []
        ≡ Public.mount region.old script.now start state.old.at)
        × (state.new ≡ result.state) }
{
    let reply = store::mount(region, script, start, state.at);
    keep(state, reply)
}

// Stores a value under a key.
pub fn put(
    state: &mut State,
    region: &mut [u8],
    script: &[u8],
    key: &[u8],
    value: &[u8],
) -> Reply<Answer>
    ensures { (outcome result.answer result.state result.calls region.new []
        ≡ Public.put region.old script.now state.old key.now
        value.now) × (state.new ≡ result.state) }
{
    let reply = store::put(region, script, *state, key, value);
    keep(state, reply)
}

// Hands out the value under a key, to the front of `out`.
pub fn get(
    state: &mut State,
    region: &mut [u8],
    script: &[u8],
    key: &[u8],
    out: &mut [u8],
) -> Reply<GetAnswer>
    ensures { (outcome result.answer result.state result.calls region.new out.new
        ≡ Public.get region.old script.now state.old key.now
        out.old) × (state.new ≡ result.state) }
{
    let reply = store::get(region, script, *state, key, out);
    keep(state, reply)
}

// Whether a key has a value.
pub fn contains(
    state: &mut State,
    region: &mut [u8],
    script: &[u8],
    key: &[u8],
) -> Reply<TruthAnswer>
    ensures { (outcome result.answer result.state result.calls region.new []
        ≡ Public.contains region.old script.now state.old key.now)
        × (state.new ≡ result.state) }
{
    let reply = store::contains(region, script, *state, key);
    keep(state, reply)
}

// Removes the value under a key, and says whether there was one.
pub fn delete(state: &mut State, region: &mut [u8], script: &[u8], key: &[u8]) -> Reply<TruthAnswer>
    ensures { (outcome result.answer result.state result.calls region.new []
        ≡ Public.delete region.old script.now state.old key.now)
        × (state.new ≡ result.state) }
{
    let reply = store::delete(region, script, *state, key);
    keep(state, reply)
}

// Does the operations of a list, all or none.
pub fn apply_batch(
    state: &mut State,
    region: &mut [u8],
    script: &[u8],
    list: &[u8],
) -> Reply<Answer>
    ensures { (outcome result.answer result.state result.calls region.new []
        ≡ Public.apply_batch region.old script.now state.old list.now)
        × (state.new ≡ result.state) }
{
    let reply = batch::apply_batch(region, script, *state, list);
    keep(state, reply)
}

// The same with the operations as structs that name parts of one byte pool.
pub fn apply_ops(
    state: &mut State,
    region: &mut [u8],
    script: &[u8],
    ops: &[BatchOp],
    pool: &[u8],
) -> Reply<Answer>
    ensures { (outcome result.answer result.state result.calls region.new []
        ≡ Public.apply_ops region.old script.now state.old ops.now
        pool.now) × (state.new ≡ result.state) }
{
    let reply = operations::apply_ops(region, script, *state, ops, pool);
    keep(state, reply)
}

// Lists the records under a prefix in rising key order, at most `most` of them, as records at the front of `out`.
pub fn scan_prefix(
    state: &mut State,
    region: &mut [u8],
    script: &[u8],
    prefix: &[u8],
    most: usize,
    out: &mut [u8],
) -> Reply<Scanned>
    ensures { (outcome result.answer result.state result.calls region.new out.new
        ≡ Public.scan_prefix region.old script.now state.old prefix.now
        most out.old) × (state.new ≡ result.state) }
{
    let reply = listing::scan_prefix(region, script, *state, prefix, most, out);
    keep(state, reply)
}
