// Runs item-level cases. Each line is a region, a script, a look at the region or an item call; the answers are lines
// too. Bytes stand in hex, and `-` stands for none.
#![tactic(auto)]

ghost use Rattle.std.specs.Prelude.{◌≡◌, true, [], ◌≤◌, length, IfSome, IfNone, Ok};
ghost use Rattle.definition.specs.Region.{good};
ghost use Rattle.region.specs.Places.{Visit};

use definition::{Fault, Space, Step};
use items::Failure;
use output::Output;
use region::Place;
use std::io::{Read, Stdout};
use std::marker::Model;
use text::{Input, Line};

// The largest region of a case, and the largest script: a line holds no more of them.
const REGION_SIZE: usize = 2048;

const SCRIPT_SIZE: usize = 4096;

const LINE_SIZE: usize = 8192;
// The longest key and the longest value that an item call is tried with.
const KEY_SIZE: usize = 96;

const VALUE_SIZE: usize = 481;
// The bytes that are read at once, and those that wait to be written.
const IN_SIZE: usize = 4096;

const OUT_SIZE: usize = 4096;

type Answers = Output<Stdout, OUT_SIZE>;

// ---- reading

// What a line asks for, with the words that it has behind the command.
#[derive(Clone, Copy)]
enum Command<'a> {
    Region(&'a [u8], &'a [u8]),
    Script(&'a [u8]),
    Good,
    Bytes,
    Used,
    Store(&'a [u8], &'a [u8]),
    Remove(&'a [u8]),
    Fetch(&'a [u8]),
    Open,
    Next,
}

// A line's command, if it is one. A word that the line has not is empty.
fn command_of<'a>(name: &[u8], first: &'a [u8], second: &'a [u8]) -> Option<Command<'a>> {
    match (name, first, second) {
        (b"good", [], []) => Some(Command::Good),
        (b"bytes", [], []) => Some(Command::Bytes),
        (b"used", [], []) => Some(Command::Used),
        (b"open", [], []) => Some(Command::Open),
        (b"next", [], []) => Some(Command::Next),
        (_, [], _) => None,
        (b"script", given, []) => Some(Command::Script(given)),
        (b"remove", key, []) => Some(Command::Remove(key)),
        (b"fetch", key, []) => Some(Command::Fetch(key)),
        (_, _, []) => None,
        (b"region", size, given) => Some(Command::Region(size, given)),
        (b"store", key, value) => Some(Command::Store(key, value)),
        _ => None,
    }
}

// The bytes of a word in hex, to the front of a buffer: hands back how many.
fn unhex(word: &[u8], out: &mut [u8]) -> Option<usize>
    ensures { IfSome result (λ n. n ≤ length out.new) }
{
    let mut count = 0;
    if let b"-" = word {
        return Some(count);
    }
    for digits in word.chunks(2) {
        count = text::append(out, count, &[text::read_hex(digits)?])?;
    }
    Some(count)
}

// ---- writing

fn put_bytes(out: &mut Answers, bytes: &[u8]) {
    if bytes.is_empty() {
        out.put(b"-");
    } else {
        out.put_hex(bytes);
    }
}

fn put_refused(out: &mut Answers, fault: Fault) {
    out.put_count(b"refused ", numbers::number(fault) as u64);
}

// A fetch's value, if the key has one.
fn put_found(out: &mut Answers, value: Option<&[u8]>) {
    match value {
        Some(value) => {
            out.put(b"found ");
            put_bytes(out, value);
        }
        None => out.put(b"absent"),
    }
}

// What an iteration met at its place: hands back where it goes on, since an item moves it.
fn put_met(out: &mut Answers, region: &[u8], at: usize, met: Option<Place>) -> usize
    requires { Visit region.now at met }
{
    match met {
        Some(place) => {
            out.put(b"item ");
            put_bytes(out, place.key(region));
            out.put(b" ");
            put_bytes(out, place.value(region));
            place.end()
        }
        None => {
            out.put(b"none");
            at
        }
    }
}

// How an item call's line ends.
fn put_step(out: &mut Answers, step: Step) {
    out.put_count(b" calls ", step.calls);
    out.put_count(b" at ", step.at as u64);
    out.put(b" cut ");
    out.put_truth(step.cut);
    out.put(b"\n");
}

// What an item call handed out, unless it failed, which is written at once; and where the item calls stand then.
fn settled<T: Copy>(out: &mut Answers, answer: Result<(T, Step), Failure>) -> (Option<T>, Step)
    ensures { IfSome result.0 (λ t. answer ≡ Ok (t, result.1)) }
{
    match answer {
        Ok((handed, step)) => (Some(handed), step),
        Err(Failure { fault, step }) => {
            put_refused(out, fault);
            (None, step)
        }
    }
}

// A store's, a removal's or an opening's answer: hands back where the item calls stand then.
fn say_item(out: &mut Answers, name: &[u8], answer: Result<Step, Failure>) -> Step {
    out.put(name);
    let (done, step) = settled(out, answer.map(|step| ((), step)));
    if done.is_some() {
        out.put(b"ok");
    }
    put_step(out, step);
    step
}

// ---- item calls on a good image

fn store(
    region: &mut [u8],
    script: &[u8],
    key: &[u8],
    value: &[u8],
    step: Step,
) -> Option<Result<Step, Failure>>
    requires { good region.old ≡ true }
    ensures { IfNone result (region.new ≡ region.old) }
{
    let mut key_bytes = [0; KEY_SIZE];
    let key_len = unhex(key, &mut key_bytes)?;
    let mut value_bytes = [0; VALUE_SIZE];
    let value_len = unhex(value, &mut value_bytes)?;
    if !region::is_allowed(key_len, value_len) {
        return None;
    }
    let key = &key_bytes[..key_len];
    let value = &value_bytes[..value_len];
    Some(items::store(region, script, key, value, step))
}

fn remove(region: &mut [u8], script: &[u8], key: &[u8], step: Step) -> Option<Result<Step, Failure>>
    requires { good region.old ≡ true }
    ensures { IfNone result (region.new ≡ region.old) }
{
    let mut key_bytes = [0; KEY_SIZE];
    let key_len = unhex(key, &mut key_bytes)?;
    Some(items::remove(region, script, &key_bytes[..key_len], None, step))
}

fn say_fetched(
    out: &mut Answers,
    region: &[u8],
    script: &[u8],
    key: &[u8],
    step: Step,
) -> Option<Step>
    requires { good region.now ≡ true }
{
    let mut key_bytes = [0; KEY_SIZE];
    let key_len = unhex(key, &mut key_bytes)?;
    out.put(b"fetch ");
    let (value, step) = settled(
        out,
        items::fetch(region, script, &key_bytes[..key_len], step),
    );
    if let Some(value) = value {
        put_found(out, value);
    }
    put_step(out, step);
    Some(step)
}

// An opened iteration begins at the first place.
fn say_opened(
    out: &mut Answers,
    region: &[u8],
    script: &[u8],
    place: &mut usize,
    step: Step,
) -> Step
    requires { good region.now ≡ true }
{
    let answer = items::iterate_open(region, script, step);
    if answer.is_ok() {
        *place = 0;
    }
    say_item(out, b"open ", answer)
}

// An iteration goes on at its place.
fn say_next(
    out: &mut Answers,
    region: &[u8],
    script: &[u8],
    place: &mut usize,
    step: Step,
) -> Step {
    out.put(b"next ");
    let (met, step) = settled(out, items::iterate_next(region, script, *place, step));
    if let Some(met) = met {
        *place = put_met(out, region, *place, met);
    }
    put_step(out, step);
    step
}

// ---- a case

// Where a case's item calls start. What its region holds is asked of the region; the numbers kept are not looked at
// here.
fn first_step() -> Step {
    let space = Space {
        used: 0,
        free: 0,
        takes: 0,
    };
    Step {
        at: 0,
        cut: false,
        calls: 0,
        space,
    }
}

// The bytes up to the last that is not erased.
fn written(region: &[u8]) -> &[u8] {
    match region.iter().rposition(|byte| *byte != 255) {
        Some(at) => &region[..=at],
        None => &region[..0],
    }
}

// What is kept from line to line: the answers that wait, the region and the script with their lengths, and where the
// case stands, its item calls and the place of its iteration.
#[derive(Drop)]
struct Bench {
    out: Answers,
    region: [u8; REGION_SIZE],
    size: usize,
    script: [u8; SCRIPT_SIZE],
    codes: usize,
    step: Step,
    place: usize,
}

// Clauses see the region of the case, and how many codes its script has.
impl Model for Bench {
    ghost use Rattle.std.specs.Prelude.{List, ℕ, ◌≤◌, take};
    ghost use Rattle.probe.specs.declared.TheConstants.{REGION_SIZE, SCRIPT_SIZE};

    ghost Value = { List ℕ × ℕ };

    ghost view = { λ b. (take b.size b.region, b.codes) };

    ghost invariant = { λ b. (b.size ≤ REGION_SIZE) × (b.codes ≤ SCRIPT_SIZE) };
}

impl Bench {
    // Before the first line: an empty region and an empty script.
    fn new(to: Stdout) -> Self
        ensures { result ≡ ([], 0) }
    {
        Bench {
            out: Output::new(to),
            region: [255; REGION_SIZE],
            size: 0,
            script: [0; SCRIPT_SIZE],
            codes: 0,
            step: first_step(),
            place: 0,
        }
    }

    // A region of so many bytes: the given ones, and then 0xFF. The case starts anew, with an empty script.
    fn set_region(&mut self, size: &[u8], given: &[u8]) -> Option<()>
        ensures none { IfNone result (self.new ≡ self.old) }
        ensures script { IfSome result (λ _. self.new.1 ≡ 0) }
    {
        let size = text::read_numeral(size)? as usize;
        let mut bytes = [0; REGION_SIZE];
        let count = unhex(given, &mut bytes)?;
        if REGION_SIZE < size || size < count {
            return None;
        }
        self.region.fill(255);
        self.region[..count].copy_from_slice(&bytes[..count]);
        self.size = size;
        self.codes = 0;
        self.step = first_step();
        self.place = 0;
        Some(())
    }

    // A new script: the cut is lifted, and the count of calls starts again.
    fn set_script(&mut self, given: &[u8]) -> Option<()>
        ensures none { IfNone result (self.new ≡ self.old) }
        ensures region { self.new.0 ≡ self.old.0 }
    {
        let mut bytes = [0; SCRIPT_SIZE];
        self.codes = unhex(given, &mut bytes)?;
        self.script = bytes;
        self.step = first_step();
        Some(())
    }

    // ---- looks at the region

    fn is_good(&self) -> bool
        ensures { result ≡ good self.now.0 }
    {
        region::is_good(&self.region[..self.size])
    }

    fn say_good(&mut self) {
        let good = self.is_good();
        self.out.put(b"good ");
        self.out.put_truth(good);
        self.out.put(b"\n");
    }

    fn say_bytes(&mut self) {
        let Bench {
            out,
            region,
            size,
            ..
        } = self;
        out.put(b"bytes ");
        put_bytes(out, written(&region[..*size]));
        out.put(b"\n");
    }

    // ---- lines

    // What asks for a good image.
    fn run_on_image(&mut self, command: Command<'_>) -> Option<()>
        requires { good self.old.0 ≡ true }
        ensures none { IfNone result (self.new ≡ self.old) }
        ensures script { self.new.1 ≡ self.old.1 }
    {
        let Bench {
            out,
            region,
            size,
            script,
            codes,
            step,
            place,
        } = self;
        let (region, _) = region.split_at_mut(*size);
        let script = &script[..*codes];
        *step = match command {
            Command::Store(key, value) => {
                say_item(out, b"store ", store(region, script, key, value, *step)?)
            }
            Command::Remove(key) => {
                say_item(out, b"remove ", remove(region, script, key, *step)?)
            }
            Command::Fetch(key) => say_fetched(out, region, script, key, *step)?,
            Command::Open => say_opened(out, region, script, place, *step),
            Command::Next => say_next(out, region, script, place, *step),
            _ => {
                out.put_count(b"used ", region::used(region) as u64);
                out.put(b"\n");
                *step
            }
        };
        Some(())
    }

    // A line, if it can be run: None is a bad line, of which nothing was done.
    fn run(&mut self, line: &[u8]) -> Option<()>
        ensures { IfNone result (self.new ≡ self.old) }
    {
        let (name, words) = text::next_word(line);
        let (first, second) = text::two_words(words)?;
        let command = command_of(name, first, second)?;
        match command {
            Command::Region(size, given) => return self.set_region(size, given),
            Command::Script(given) => return self.set_script(given),
            Command::Good => self.say_good(),
            Command::Bytes => self.say_bytes(),
            _ => {
                if self.is_good() {
                    return self.run_on_image(command);
                }
                self.out.put(name);
                self.out.put(b" bad image\n");
            }
        }
        Some(())
    }

    // The answer to a line that cannot be run.
    fn bad_line(&mut self)
        ensures { self.new ≡ self.old }
    {
        self.out.put(b"bad line\n");
    }

    fn answer(&mut self, line: Option<&[u8]>) {
        if line.and_then(|line| self.run(line)).is_none() {
            self.bad_line();
        }
    }
}

// All lines. One that is too long is a bad one.
fn run_lines(bench: &mut Bench, input: &mut Input<impl Read, IN_SIZE>, line: &mut [u8]) {
    // A proved loop has to end: no run has so many lines.
    for _ in 0..u64::MAX {
        match input.read_line(line) {
            Line::Whole(len) => bench.answer(Some(&line[..len])),
            Line::TooLong => bench.answer(None),
            Line::Over => return,
        }
    }
}

fn main(rt: HostRuntime) {
    let mut bench = Bench::new(rt.stdout());
    let mut input = Input::new(rt.reader());
    let mut line = [0; LINE_SIZE];
    run_lines(&mut bench, &mut input, &mut line);
    bench.out.flush();
}
