// Document 01's console: each line of standard input is a call on a store in memory, and each answer is a line of
// standard output.
#![tactic(auto)]

ghost use Rattle.std.specs.Prelude.{◌≡◌, ◌≤◌, length, None, IfSome, IfNone};

use definition::{
    Answer, DELETE_KIND, Fault, GetAnswer, Health, PUT_KIND, Reply, ScanAnswer, ScanEnd, Scanned,
    Space, State, TruthAnswer,
};
use output::Output;
use std::io;
use std::io::{Read, Stdout};
use std::marker::Model;
use text::{Input, Line};

// The largest region.
const REGION_SIZE: usize = 65536;
// A longer line is a bad one. What a region of the largest size can take is shorter, a batch's journal too.
const LINE_SIZE: usize = 69632;
// A line of script codes has three bytes for each.
const SCRIPT_SIZE: usize = 32768;
// What is on its way: a value, a scan's records, script codes, or a batch's list, in which six bytes of a line may
// become ten.
const WORK_SIZE: usize = 131072;
// The bytes that are read at once, and those that wait to be written.
const IN_SIZE: usize = 4096;

const OUT_SIZE: usize = 4096;

// The longest key and the longest value that a list's record has fields for.
const LIST_KEY_LIMIT: usize = 255;

const LIST_VALUE_LIMIT: usize = 65535;

type Answers = Output<Stdout, OUT_SIZE>;

// ---- reading

// What a line asks for, with the words that it has behind the command.
#[derive(Clone, Copy)]
enum Command<'a> {
    Mount(usize),
    Script(&'a [u8]),
    Put(&'a [u8], &'a [u8]),
    Get(&'a [u8]),
    Has(&'a [u8]),
    Del(&'a [u8]),
    Batch(&'a [u8]),
    Scan(&'a [u8], usize),
    Free,
}

// A line's command, if it is one.
fn command_of(line: &[u8]) -> Option<Command<'_>> {
    let (name, words) = text::next_word(line);
    match name {
        b"script" => Some(Command::Script(words)),
        b"batch" => Some(Command::Batch(words)),
        _ => {
            let (first, second) = text::two_words(words)?;
            short_command_of(name, first, second)
        }
    }
}

// A command with two words at most; one that it has not is empty.
fn short_command_of<'a>(name: &[u8], first: &'a [u8], second: &'a [u8]) -> Option<Command<'a>> {
    match (name, first, second) {
        (b"free", [], []) => Some(Command::Free),
        (_, [], _) => None,
        (b"scan", prefix, []) => Some(Command::Scan(prefix_of(prefix), usize::MAX)),
        (b"scan", prefix, most) => Some(Command::Scan(
            prefix_of(prefix),
            text::read_numeral(most)? as usize,
        )),
        (b"put", _, []) => None,
        (b"put", key, value) => Some(Command::Put(key, value)),
        (b"mount", size, []) => Some(Command::Mount(text::read_numeral(size)? as usize)),
        (b"get", key, []) => Some(Command::Get(key)),
        (b"has", key, []) => Some(Command::Has(key)),
        (b"del", key, []) => Some(Command::Del(key)),
        _ => None,
    }
}

// `-` stands for the empty prefix.
fn prefix_of(word: &[u8]) -> &[u8] {
    match word {
        b"-" => &word[..0],
        _ => word,
    }
}

// Script codes: words of two hex digits.
fn read_codes(words: &[u8], codes: &mut [u8]) -> Option<usize>
    ensures { IfSome result (λ n. n ≤ length codes.new) }
{
    let mut rest = words;
    let mut count = 0;
    loop {
        let (word, behind) = text::next_word(rest);
        if word.is_empty() {
            return Some(count);
        }
        count = text::append(codes, count, &[text::read_hex(word)?])?;
        rest = behind;
    }
}

// A record of an operation list, behind the `used` bytes of it.
fn add_record(list: &mut [u8], used: usize, kind: usize, key: &[u8], value: &[u8]) -> Option<usize>
    requires { used ≤ length list.old }
    ensures { IfSome result (λ n. n ≤ length list.new) }
{
    if LIST_KEY_LIMIT < key.len() || LIST_VALUE_LIMIT < value.len() {
        return None;
    }
    let head = region::header(kind, key.len(), value.len());
    let used = text::append(list, used, &head)?;
    let used = text::append(list, used, key)?;
    text::append(list, used, value)
}

// One operation of a batch: `put` with a key and a value, or `del` with a key.
fn add_operation(list: &mut [u8], used: usize, words: &[u8]) -> Option<usize>
    requires { used ≤ length list.old }
    ensures { IfSome result (λ n. n ≤ length list.new) }
{
    let (name, words) = text::next_word(words);
    let (key, value) = text::two_words(words)?;
    match (name, key, value) {
        (_, [], _) => None,
        (b"del", _, []) => add_record(list, used, DELETE_KIND, key, value),
        (b"put", _, [_, ..]) => add_record(list, used, PUT_KIND, key, value),
        _ => None,
    }
}

// The operations of a batch as document 01's list. Semicolons part them wherever they stand.
fn read_operations(words: &[u8], list: &mut [u8]) -> Option<usize>
    ensures { IfSome result (λ n. n ≤ length list.new) }
{
    let mut used = 0;
    for operation in words.split(|byte| *byte == b';') {
        used = add_operation(list, used, operation)?;
    }
    Some(used)
}

// ---- writing

fn put_refused(out: &mut Answers, fault: Fault) {
    out.put_count(b"refused ", numbers::number(fault) as u64);
}

// An answer that needs nothing beside it to be shown.
trait Shown {
    fn put(self, out: &mut Answers);
}

impl Shown for Answer {
    fn put(self, out: &mut Answers) {
        match self {
            Ok(()) => out.put(b"ok"),
            Err(fault) => put_refused(out, fault),
        }
    }
}

impl Shown for TruthAnswer {
    fn put(self, out: &mut Answers) {
        match self {
            Ok(truth) => out.put_truth(truth),
            Err(fault) => put_refused(out, fault),
        }
    }
}

// A value's length, and its bytes in front of what was lent for them.
fn put_got(out: &mut Answers, answer: GetAnswer, value: &[u8]) {
    match answer {
        Ok(Some(len)) => {
            out.put(b"found ");
            out.put(front(value, len));
        }
        Ok(None) => out.put(b"absent"),
        Err(fault) => put_refused(out, fault),
    }
}

fn put_end(out: &mut Answers, end: ScanAnswer, count: usize) {
    match end {
        Ok(ScanEnd::Finished) => out.put_count(b"finished ", count as u64),
        Ok(ScanEnd::Stopped) => out.put_count(b"stopped ", count as u64),
        Ok(ScanEnd::NoRoom) => out.put_count(b"noroom ", count as u64),
        Err(fault) => put_refused(out, fault),
    }
}

// A line for each record.
fn put_items(out: &mut Answers, records: &[u8]) {
    for place in region::records_of::<false>(records) {
        out.put(b"item ");
        out.put_hex(&records[place.at..place.end()]);
        out.put(b"\n");
    }
}

// How an answer's line ends: the item calls, and the health of a mounted store.
fn put_close(out: &mut Answers, calls: u64, health: Option<Health>) {
    out.put_count(b" ", calls);
    match health {
        Some(Health::Clean) => out.put(b" clean\n"),
        Some(Health::Debris) => out.put(b" debris\n"),
        Some(Health::Pending) => out.put(b" pending\n"),
        None => out.put(b" -\n"),
    }
}

// The first bytes of a buffer, as many as an answer says: it says no more than there are.
fn front(bytes: &[u8], len: usize) -> &[u8] {
    bytes.get(..len).unwrap_or(bytes)
}

// The line of a call's answer; it hands back the state to keep.
fn say<A: Shown + Copy>(out: &mut Answers, name: &[u8], reply: Reply<A>) -> State {
    out.put(name);
    reply.answer.put(out);
    close(out, reply)
}

// The two that show what was lent to the call besides.
fn say_got(out: &mut Answers, reply: Reply<GetAnswer>, value: &[u8]) -> State {
    out.put(b"get ");
    put_got(out, reply.answer, value);
    close(out, reply)
}

fn say_scanned(out: &mut Answers, reply: Reply<Scanned>, records: &[u8]) -> State {
    let scanned = reply.answer;
    out.put(b"scan ");
    put_end(out, scanned.end, scanned.count);
    let state = close(out, reply);
    put_items(out, front(records, scanned.length));
    state
}

// The end of a call's line, whatever was answered.
fn close<A: Copy>(out: &mut Answers, reply: Reply<A>) -> State {
    put_close(out, reply.calls, Some(reply.state.health));
    reply.state
}

// The display's question: free bytes, used bytes and takes, as the state has them. No item call is made for it.
fn say_space(out: &mut Answers, state: State) -> State {
    let space = store::space(state);
    out.put_count(b"free ", space.free as u64);
    out.put_count(b" ", space.used as u64);
    out.put_count(b" ", space.takes as u64);
    put_close(out, 0, Some(state.health));
    state
}

// ---- calls

// What is kept from line to line: the answers that wait, the buffers, the region's size where a store is mounted, how
// many codes the script has, and the store's state.
#[derive(Drop)]
struct Console {
    out: Answers,
    region: [u8; REGION_SIZE],
    script: [u8; SCRIPT_SIZE],
    work: [u8; WORK_SIZE],
    mounted: Option<usize>,
    codes: usize,
    state: State,
}

// The region and the script that are in use lie in the buffers for them. Clauses see the size of the region, where a
// store is mounted, and the number of codes.
impl Model for Console {
    ghost use Rattle.std.specs.Prelude.{Option, ℕ, ◌≤◌, IfSome};
    ghost use Rattle.takes.specs.declared.TheConstants.{REGION_SIZE, SCRIPT_SIZE};

    ghost Value = { Option ℕ × ℕ };

    ghost view = { λ c. (c.mounted, c.codes) };

    ghost invariant = { λ c. IfSome c.mounted (λ size. size ≤ REGION_SIZE) × (c.codes ≤ SCRIPT_SIZE) };
}

impl Console {
    // Before the first line: nothing is mounted, and the script is empty.
    fn new(to: Stdout) -> Self
        ensures { result ≡ (None, 0) }
    {
        let space = Space {
            used: 0,
            free: 0,
            takes: 0,
        };
        Console {
            out: Output::new(to),
            region: [255; REGION_SIZE],
            script: [0; SCRIPT_SIZE],
            work: [0; WORK_SIZE],
            mounted: None,
            codes: 0,
            state: State {
                health: Health::Pending,
                at: 0,
                cut: false,
                space,
            },
        }
    }

    // Mounts erased bytes at address 0; the script goes on where it stands.
    fn mount(&mut self, size: usize) -> Option<()>
        ensures none { IfNone result (self.new ≡ self.old) }
        ensures codes { self.new.1 ≡ self.old.1 }
    {
        if REGION_SIZE < size {
            return None;
        }
        let Console {
            region,
            script,
            codes,
            state,
            ..
        } = self;
        let (region, _) = region.split_at_mut(size);
        region.fill(255);
        let reply = store::mount(region, &script[..*codes], 0, state.at);
        self.out.put(b"mount ");
        reply.answer.put(&mut self.out);
        self.state = reply.state;
        if reply.answer.is_ok() {
            self.mounted = Some(size);
            put_close(&mut self.out, reply.calls, Some(reply.state.health));
        } else {
            self.mounted = None;
            put_close(&mut self.out, reply.calls, None);
        }
        Some(())
    }

    // A new script, whose place is its start. A cut stands until a mount.
    fn set_script(&mut self, words: &[u8]) -> Option<()>
        ensures none { IfNone result (self.new ≡ self.old) }
        ensures region { self.new.0 ≡ self.old.0 }
    {
        let Console { script, work, .. } = self;
        let count = read_codes(words, work)?;
        script.get_mut(..count)?.copy_from_slice(&work[..count]);
        self.codes = count;
        self.state.at = 0;
        Some(())
    }

    // A call on the store that is mounted.
    fn call(&mut self, command: Command<'_>) -> Option<()>
        ensures { self.new ≡ self.old }
    {
        let size = self.mounted?;
        let Console {
            out,
            region,
            script,
            work,
            codes,
            state,
            ..
        } = self;
        let (region, _) = region.split_at_mut(size);
        let script = &script[..*codes];
        *state = match command {
            Command::Put(key, value) => {
                say(out, b"put ", store::put(region, script, *state, key, value))
            }
            Command::Get(key) => say_got(out, store::get(region, script, *state, key, work), work),
            Command::Has(key) => { say(out, b"has ", store::contains(region, script, *state, key)) }
            Command::Del(key) => { say(out, b"del ", store::delete(region, script, *state, key)) }
            Command::Batch(words) => {
                let count = read_operations(words, work)?;
                let list = &work[..count];
                say(
                    out,
                    b"batch ",
                    batch::apply_batch(region, script, *state, list),
                )
            }
            Command::Scan(prefix, most) => {
                let reply = listing::scan_prefix(region, script, *state, prefix, most, work);
                say_scanned(out, reply, work)
            }
            _ => say_space(out, *state),
        };
        Some(())
    }

    // A line, if it can be run: None is a bad line, of which nothing was done.
    fn run(&mut self, line: &[u8]) -> Option<()>
        ensures { IfNone result (self.new ≡ self.old) }
    {
        match command_of(line)? {
            Command::Mount(size) => self.mount(size),
            Command::Script(words) => self.set_script(words),
            command => self.call(command),
        }
    }

    // The answer to a line that cannot be run.
    fn bad_line(&mut self)
        ensures { self.new ≡ self.old }
    {
        self.out.put(b"bad line\n");
    }

    // Writes what waits. The error is the write's and no other, and changes no more than a write that is done.
    fn show(&mut self) -> io::Result<()>
        ensures { self.new ≡ self.old }
    {
        self.out.show()
    }

    // A line as it came, and its answer written at once: whoever typed it, or sent it through a pipe, may wait for that
    // before the next line. An error is that of the write at the line's end and no other: the line's call is done by
    // then, and all but the answers is as it left them.
    fn answer(&mut self, line: Option<&[u8]>) -> io::Result<()> {
        if line.and_then(|line| self.run(line)).is_none() {
            self.bad_line();
        }
        self.show()
    }
}

// All lines, or those up to one whose answer cannot be written: that write's error, and no other. A line that is too
// long is a bad one.
fn run_lines(
    console: &mut Console,
    input: &mut Input<impl Read, IN_SIZE>,
    line: &mut [u8],
) -> io::Result<()> {
    // A proved loop has to end: no run has so many lines.
    for _ in 0..u64::MAX {
        match input.read_line(line) {
            Line::Whole(len) => console.answer(Some(&line[..len]))?,
            Line::TooLong => console.answer(None)?,
            Line::Over => return Ok(()),
        }
    }
    Ok(())
}

fn main(rt: HostRuntime) -> io::Result<()> {
    let mut console = Console::new(rt.stdout());
    let mut input = Input::new(rt.reader());
    let mut line = [0; LINE_SIZE];
    run_lines(&mut console, &mut input, &mut line)
}
