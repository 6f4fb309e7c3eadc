// The calls for a host in C or Rust: one exported function a call, over structs of plain numbers by value and lent
// slices. Only numbers cross; the conversions are proved, and each function is its call of document 01 between them.
#![tactic(auto)]

mod codecs;

ghost use Rattle.std.specs.Prelude.{◌≡◌, []};
ghost use Rattle.definition.specs.Public;
ghost use Rattle.exports.specs.Forms.{health_of, state_in, space_out, says, refuses, answer_out, get_out, truth_out, scan_out, built, Hears};

use definition::{
    Answer, BatchOp, Fault, GetAnswer, Health, ScanEnd, Scanned, Space, State, TruthAnswer,
};
use numbers::Three;

// What a host keeps: health 0 Clean, 1 Debris, 2 Pending; the place in the script; whether the power is cut; the
// bytes used and free, and the takes. Every number has a meaning: any other health is Pending, which recovers before
// anything is read, and any cut but 0 is a cut that stands.
#[repr(C)]
#[derive(Clone, Copy)]
pub struct CState {
    pub health: u64,
    pub at: u64,
    pub cut: u64,
    pub used: u64,
    pub free: u64,
    pub takes: u64,
}

// What a host hears. answer: 0 refused, with document 01's number and values; 1 Ok, found, yes or finished; 2 absent,
// no or stopped; 3 no room. length: bytes in the output; count: records in it. The six numbers from health to takes
// are the state to keep: handed back as a CState they are the very state that the call left (proofs/HandedBack), so
// that what is promised of the calls is promised to a host.
#[repr(C)]
#[derive(Clone, Copy)]
pub struct CReply {
    pub answer: u64,
    pub number: u64,
    pub v0: u64,
    pub v1: u64,
    pub v2: u64,
    pub count: u64,
    pub length: u64,
    pub health: u64,
    pub at: u64,
    pub cut: u64,
    pub used: u64,
    pub free: u64,
    pub takes: u64,
    pub calls: u64,
}

// What a display shows: the bytes used and free, and the takes.
#[repr(C)]
#[derive(Clone, Copy)]
pub struct CSpace {
    pub used: u64,
    pub free: u64,
    pub takes: u64,
}

// A number that is no health is taken for Pending, which recovers before anything is read.
fn health_of(number: u64) -> Health
    ensures { result ≡ health_of number }
{
    if number == 0 {
        return Health::Clean;
    }
    if number == 1 {
        return Health::Debris;
    }
    Health::Pending
}

impl From<CState> for State {
    ghost from_gives = { λ c r. r ≡ state_in c };

    fn from(state: CState) -> State {
        State {
            health: health_of(state.health),
            at: state.at as usize,
            cut: state.cut != 0,
            space: Space {
                used: state.used as usize,
                free: state.free as usize,
                takes: state.takes as usize,
            },
        }
    }
}

impl From<Space> for CSpace {
    ghost from_gives = { λ n r. r ≡ space_out n };

    fn from(space: Space) -> CSpace {
        CSpace {
            used: space.used as u64,
            free: space.free as u64,
            takes: space.takes as u64,
        }
    }
}

// ---- answers

// What a host hears of an answer: its number, a refusal's number and values, and what stands in the output.
#[derive(Clone, Copy)]
struct Word {
    answer: u64,
    number: u64,
    values: Three,
    count: u64,
    length: u64,
}

impl Word {
    fn says(answer: u64, count: u64, length: u64) -> Word
        ensures { result ≡ says answer count length }
    {
        Word {
            answer,
            number: 0,
            values: Three(0, 0, 0),
            count,
            length,
        }
    }

    fn refuses(fault: Fault, count: u64, length: u64) -> Word
        ensures { result ≡ refuses fault count length }
    {
        Word {
            answer: 0,
            number: numbers::number(fault) as u64,
            values: numbers::values(fault),
            count,
            length,
        }
    }
}

impl From<Answer> for Word {
    ghost from_gives = { λ a r. r ≡ answer_out a };

    fn from(answer: Answer) -> Word {
        match answer {
            Ok(()) => Word::says(1, 0, 0),
            Err(fault) => Word::refuses(fault, 0, 0),
        }
    }
}

impl From<GetAnswer> for Word {
    ghost from_gives = { λ a r. r ≡ get_out a };

    fn from(answer: GetAnswer) -> Word {
        match answer {
            Ok(Some(len)) => Word::says(1, 0, len as u64),
            Ok(None) => Word::says(2, 0, 0),
            Err(fault) => Word::refuses(fault, 0, 0),
        }
    }
}

impl From<TruthAnswer> for Word {
    ghost from_gives = { λ a r. r ≡ truth_out a };

    fn from(answer: TruthAnswer) -> Word {
        match answer {
            Ok(true) => Word::says(1, 0, 0),
            Ok(false) => Word::says(2, 0, 0),
            Err(fault) => Word::refuses(fault, 0, 0),
        }
    }
}

// A refused scan keeps the count and the length of the records that stand.
impl From<Scanned> for Word {
    ghost from_gives = { λ a r. r ≡ scan_out a };

    fn from(scanned: Scanned) -> Word {
        let count = scanned.count as u64;
        let length = scanned.length as u64;
        match scanned.end {
            Ok(ScanEnd::Finished) => Word::says(1, count, length),
            Ok(ScanEnd::Stopped) => Word::says(2, count, length),
            Ok(ScanEnd::NoRoom) => Word::says(3, count, length),
            Err(fault) => Word::refuses(fault, count, length),
        }
    }
}

#[tactic(auto, using(crate::proofs::HandedBack::health_place), unfolding(crate::specs::Forms::flag_number))]
fn built(word: Word, state: State, calls: u64) -> CReply
    ensures { result ≡ built word state calls }
{
    CReply {
        answer: word.answer,
        number: word.number,
        v0: word.values.0 as u64,
        v1: word.values.1 as u64,
        v2: word.values.2 as u64,
        count: word.count,
        length: word.length,
        health: state.health as u64,
        at: state.at as u64,
        cut: state.cut as u64,
        used: state.space.used as u64,
        free: state.space.free as u64,
        takes: state.space.takes as u64,
        calls,
    }
}

#[unsafe(no_mangle)]
pub extern "C" fn takes_mount(region: &mut [u8], script: &[u8], start: u32, at: u64) -> CReply
    ensures { Hears answer_out result region.new [] (Public.mount region.old script.now start
        at) }
{
    let reply = store::mount(region, script, start, at as usize);
    built(Word::from(reply.answer), reply.state, reply.calls)
}

#[unsafe(no_mangle)]
pub extern "C" fn takes_get(
    region: &mut [u8],
    script: &[u8],
    state: CState,
    key: &[u8],
    out: &mut [u8],
) -> CReply
    ensures { Hears get_out result region.new out.new
        (Public.get region.old script.now (state_in state) key.now out.old) }
{
    let reply = store::get(region, script, State::from(state), key, out);
    built(Word::from(reply.answer), reply.state, reply.calls)
}

#[unsafe(no_mangle)]
pub extern "C" fn takes_contains(
    region: &mut [u8],
    script: &[u8],
    state: CState,
    key: &[u8],
) -> CReply
    ensures { Hears truth_out result region.new [] (Public.contains region.old script.now
        (state_in state) key.now) }
{
    let reply = store::contains(region, script, State::from(state), key);
    built(Word::from(reply.answer), reply.state, reply.calls)
}

#[unsafe(no_mangle)]
pub extern "C" fn takes_put(
    region: &mut [u8],
    script: &[u8],
    state: CState,
    key: &[u8],
    value: &[u8],
) -> CReply
    ensures { Hears answer_out result region.new [] (Public.put region.old script.now (state_in
        state) key.now value.now) }
{
    let reply = store::put(region, script, State::from(state), key, value);
    built(Word::from(reply.answer), reply.state, reply.calls)
}

#[unsafe(no_mangle)]
pub extern "C" fn takes_delete(
    region: &mut [u8],
    script: &[u8],
    state: CState,
    key: &[u8],
) -> CReply
    ensures { Hears truth_out result region.new [] (Public.delete region.old script.now (state_in
        state) key.now) }
{
    let reply = store::delete(region, script, State::from(state), key);
    built(Word::from(reply.answer), reply.state, reply.calls)
}

#[unsafe(no_mangle)]
pub extern "C" fn takes_batch(
    region: &mut [u8],
    script: &[u8],
    state: CState,
    list: &[u8],
) -> CReply
    ensures { Hears answer_out result region.new [] (Public.apply_batch region.old script.now
        (state_in state) list.now) }
{
    let reply = batch::apply_batch(region, script, State::from(state), list);
    built(Word::from(reply.answer), reply.state, reply.calls)
}

#[unsafe(no_mangle)]
pub extern "C" fn takes_ops(
    region: &mut [u8],
    script: &[u8],
    state: CState,
    ops: &[BatchOp],
    pool: &[u8],
) -> CReply
    ensures { Hears answer_out result region.new [] (Public.apply_ops region.old script.now
        (state_in state) ops.now pool.now) }
{
    let reply = operations::apply_ops(region, script, State::from(state), ops, pool);
    built(Word::from(reply.answer), reply.state, reply.calls)
}

#[unsafe(no_mangle)]
pub extern "C" fn takes_scan(
    region: &mut [u8],
    script: &[u8],
    state: CState,
    prefix: &[u8],
    most: u64,
    out: &mut [u8],
) -> CReply
    ensures { Hears scan_out result region.new out.new
        (Public.scan_prefix region.old script.now (state_in state) prefix.now most
        out.old) }
{
    let reply = listing::scan_prefix(
        region,
        script,
        State::from(state),
        prefix,
        most as usize,
        out,
    );
    built(Word::from(reply.answer), reply.state, reply.calls)
}

#[unsafe(no_mangle)]
pub extern "C" fn takes_space(state: CState) -> CSpace
    ensures { result ≡ space_out (Public.space (state_in state)) }
{
    CSpace::from(store::space(State::from(state)))
}
