// The calls of document 01 over single keys, mount, and the display's question. Public: none requires anything, and
// each is equal to its definition in `definition/specs/Public`: answer, state, item calls and every lent byte.
#![tactic(auto)]

ghost use Rattle.std.specs.Prelude.{◌≡◌, []};
ghost use Rattle.definition.specs.Public;
ghost use Rattle.definition.specs.Public.{outcome};

use codec::Key;
use definition::{Answer, Fault, GetAnswer, Health, Reply, Space, State, TruthAnswer};

// ---- put

// Stores a value under a key. Refusals, in order: 7 for a bad image, with nothing changed and no item call; a
// recovery's fault, if the store was Pending; 2 for the value's length, 3 for a reserved key, 2 for the key's length,
// none of which changes anything of its own; then the store's own fault (4 to 12), after which the value may be in or
// not. A full region in Debris is recovered and tried once more. On the console: `put a 1` says `put ok 1 clean`.
pub fn put(
    region: &mut [u8],
    script: &[u8],
    state: State,
    key: &[u8],
    value: &[u8],
) -> Reply<Answer>
    ensures { outcome result.answer result.state result.calls region.new []
        ≡ Public.put region.old script.now state key.now value.now }
{
    if !region::is_good(region) {
        return gate::unchanged(Err(Fault::Corrupted), state);
    }
    let (health, step) = match gate::ready(region, script, state) {
        Ok(ready) => ready,
        Err(failed) => return gate::refused(failed, state.health),
    };
    putting::put_ready(region, script, key, value, health, step)
}

// ---- get

// Hands out the value under a key, to the front of `out`. Refusals, in order: 7 for a bad image, with nothing changed
// and no item call; a recovery's fault, if the store was Pending; the fetch's own fault; 18 with the length that is
// needed. Each leaves the output as it was. A key that is reserved or too long is absent, and is not fetched. On the
// console: `get a` says `get found 1 1 clean`, or `get absent 1 clean`.
pub fn get(
    region: &mut [u8],
    script: &[u8],
    state: State,
    key: &[u8],
    out: &mut [u8],
) -> Reply<GetAnswer>
    ensures { outcome result.answer result.state result.calls region.new out.new
        ≡ Public.get region.old script.now state key.now out.old }
{
    if !region::is_good(region) {
        return gate::unchanged(Err(Fault::Corrupted), state);
    }
    let (health, step) = match gate::ready(region, script, state) {
        Ok(ready) => ready,
        Err(failed) => return gate::refused(failed, state.health),
    };
    if limits::unstorable(key) {
        return gate::reply(Ok(None), health, step);
    }
    gate::told(finding::get_key(region, script, key, step, out), health)
}

// ---- contains

// Whether a key has a value. Refusals, in order: 7 for a bad image, with nothing changed and no item call; a
// recovery's fault, if the store was Pending; the fetch's own fault. A key that is reserved or too long is not there,
// and is not fetched. On the console: `has a` says `has yes 1 clean`.
pub fn contains(region: &mut [u8], script: &[u8], state: State, key: &[u8]) -> Reply<TruthAnswer>
    ensures { outcome result.answer result.state result.calls region.new []
        ≡ Public.contains region.old script.now state key.now }
{
    if !region::is_good(region) {
        return gate::unchanged(Err(Fault::Corrupted), state);
    }
    let (health, step) = match gate::ready(region, script, state) {
        Ok(ready) => ready,
        Err(failed) => return gate::refused(failed, state.health),
    };
    if limits::unstorable(key) {
        return gate::reply(Ok(false), health, step);
    }
    gate::told(finding::contains_key(region, script, key, step), health)
}

// ---- delete

// Removes the value under a key, and says whether there was one. Refusals, in order: 7 for a bad image, with nothing
// changed and no item call; 3 for a reserved key, before any recovery; a recovery's fault, if the store was Pending;
// the fetch's fault, and then the removal's, after which the value may be gone or not. A key that is too long was
// never there. On the console: `del a` says `del yes 2 clean`.
pub fn delete(region: &mut [u8], script: &[u8], state: State, key: &[u8]) -> Reply<TruthAnswer>
    ensures { outcome result.answer result.state result.calls region.new []
        ≡ Public.delete region.old script.now state key.now }
{
    if !region::is_good(region) {
        return gate::unchanged(Err(Fault::Corrupted), state);
    }
    if codec::reserved(key) {
        return gate::unchanged(Err(Fault::ReservedKey), state);
    }
    let (health, step) = match gate::ready(region, script, state) {
        Ok(ready) => ready,
        Err(failed) => return gate::refused(failed, state.health),
    };
    if Key::MAX_LEN < key.len() {
        return gate::reply(Ok(false), health, step);
    }
    gate::told(finding::delete_key(region, script, key, step), health)
}

// ---- mount

// Mounts the region, which stands at `start`, with the script at `at` and no cut, and leaves it Clean. What the region
// holds is worked out here, and every call keeps it. Refusals, in order: 1 for an end at 2^32 or above, a start or an
// end that is no page's, fewer than two pages, and 7 for a bad image, with nothing changed and no item call; then
// recovery's fault, with what it did so far. After a refused mount the health is Pending, the place in the script the
// one reached, and no call should be made but a mount. On the console: `mount 8192` says `mount ok 3 clean`.
pub fn mount(region: &mut [u8], script: &[u8], start: u32, at: usize) -> Reply<Answer>
    ensures { outcome result.answer result.state result.calls region.new []
        ≡ Public.mount region.old script.now start at }
{
    let state = State {
        health: Health::Pending,
        at,
        cut: false,
        space: region::space(region),
    };
    if let Err(fault) = limits::check_region(start, region.len()) {
        return gate::unchanged(Err(fault), state);
    }
    if !region::is_good(region) {
        return gate::unchanged(Err(Fault::Corrupted), state);
    }
    match recovery::recover(region, script, gate::begin(state)) {
        Ok(next) => gate::reply(Ok(()), Health::Clean, next),
        Err(failed) => gate::refused(failed, Health::Pending),
    }
}

// ---- the display's question

// The bytes used and free, and the number of takes: read off the state, with no look at the region.
pub fn space(state: State) -> Space
    ensures { result ≡ Public.space state }
{
    state.space
}
