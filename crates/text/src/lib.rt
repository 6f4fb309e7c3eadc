// What the console programs read: the lines of standard input, the words of a line, and numbers in text.
#![tactic(auto)]

ghost use Rattle.std.specs.Prelude.{◌≡◌, ◌+◌, ◌-◌, ◌≤◌, ◌<◌, ◌==◌, [], length, not, position, MatchOption, IfSome};
ghost use Rattle.text.specs.Words.{word_of, rest_of, IsNextWord, IsTwoWords};
ghost use Rattle.text.specs.Numerals.{numeral_of, Digit, pair_of};
ghost use Rattle.text.specs.Lines.{Appends, Holds, whole, last_of, InLine};

use std::io::Read;
use std::marker::Model;

const SPACE: u8 = b' ';

const LINE_END: u8 = b'\n';

// ---- the words of a line

// The first place of a byte.
pub fn find(bytes: &[u8], byte: u8) -> Option<usize>
    ensures { result ≡ position (λ x. x == byte) bytes.now }
{
    bytes.iter().position(|here| *here == byte)
}

// The first place of any other byte.
fn find_other(bytes: &[u8], byte: u8) -> Option<usize>
    ensures { result ≡ position (λ x. not (x == byte)) bytes.now }
{
    bytes.iter().position(|here| *here != byte)
}

// The next word and what stands behind it; it is empty where the line has no word left. Only spaces part words: every
// other byte belongs to one.
#[tactic(auto, using(crate::proofs::Laws::place, crate::proofs::Laws::next_is))]
pub fn next_word(line: &[u8]) -> (&[u8], &[u8])
    ensures { IsNextWord line.now result.0.now result.1.now }
{
    let start = find_other(line, SPACE).unwrap_or(line.len());
    let (_, line) = line.split_at(start);
    let end = find(line, SPACE).unwrap_or(line.len());
    line.split_at(end)
}

// The words of a line that has two at most: one that it has not is empty.
pub fn two_words(line: &[u8]) -> Option<(&[u8], &[u8])>
    ensures { MatchOption result (0 < length (word_of (rest_of (rest_of line.now))))
        (λ words. IsTwoWords line.now words.0.now words.1.now) }
{
    let (first, rest) = next_word(line);
    let (second, rest) = next_word(rest);
    let (third, _) = next_word(rest);
    if third.is_empty() {
        Some((first, second))
    } else {
        None
    }
}

// ---- numbers in text

// A decimal number of at most 64 bits. Leading zeros are fine; a sign, another byte or a larger number is not.
#[tactic(auto, using(crate::proofs::Laws::no_digits, crate::proofs::Laws::reading_none, crate::proofs::Laws::reading_other, crate::proofs::Laws::reading_large, crate::proofs::Laws::reading_more, crate::proofs::Laws::reading_over))]
pub fn read_numeral(word: &[u8]) -> Option<u64>
    ensures { result ≡ numeral_of word.now }
{
    if word.is_empty() {
        return None;
    }
    let mut value: u64 = 0;
    for byte in word {
        if !byte.is_ascii_digit() {
            return None;
        }
        value = value.checked_mul(10)?.checked_add(u64::from(*byte - b'0'))?;
    }
    Some(value)
}

// A hex digit of either case.
#[tactic(auto, using(crate::proofs::Laws::digit_decimal, crate::proofs::Laws::digit_capital, crate::proofs::Laws::digit_letter, crate::proofs::Laws::digit_low, crate::proofs::Laws::digit_colon, crate::proofs::Laws::digit_bracket, crate::proofs::Laws::digit_high))]
fn digit(byte: u8) -> Option<u8>
    ensures { Digit byte result }
{
    match byte {
        b'0'..=b'9' => Some(byte - b'0'),
        b'A'..=b'F' => Some(byte - b'A' + 10),
        b'a'..=b'f' => Some(byte - b'a' + 10),
        _ => None,
    }
}

// Two hex digits, and nothing else.
#[tactic(auto, using(crate::proofs::Laws::pair_other, crate::proofs::Laws::pair_no_high, crate::proofs::Laws::pair_no_low, crate::proofs::Laws::pair_both))]
pub fn read_hex(word: &[u8]) -> Option<u8>
    ensures { result ≡ pair_of word.now }
{
    let [high, low] = word else {
        return None;
    };
    Some(digit(*high)? * 16 + digit(*low)?)
}

// ---- buffers

// Appends bytes to those of a buffer that are in use, if they fit: hands back how many are in use then.
pub fn append(buffer: &mut [u8], used: usize, bytes: &[u8]) -> Option<usize>
    requires { used ≤ length buffer.old }
    ensures { Appends buffer.old used bytes.now buffer.new result }
{
    if buffer.len() - used < bytes.len() {
        return None;
    }
    let end = used + bytes.len();
    buffer[used..end].copy_from_slice(bytes);
    Some(end)
}

// ---- the input in lines

// Holds some more bytes of a line, if they fit behind those that are held: a line that was once too long stays so.
fn hold(line: &mut [u8], held: Option<usize>, part: &[u8]) -> Option<usize>
    requires { IfSome held (λ len. len ≤ length line.old) }
    ensures { Holds line.old held part.now line.new result }
{
    append(line, held?, part)
}

// How a line came: whole, as so many bytes; longer than the line buffer, and then all of it is read and none is kept;
// or not at all, since the input is over.
#[derive(Clone, Copy)]
pub enum Line {
    Whole(usize),
    TooLong,
    Over,
}

// The line that a newline ended, or a line too long of which nothing is held.
fn ended(held: Option<usize>) -> Line
    ensures { result ≡ whole held }
{
    match held {
        Some(len) => Line::Whole(len),
        None => Line::TooLong,
    }
}

// The line that the end of the input ended: one without a newline, if there is a byte of it.
fn last(held: Option<usize>) -> Line
    ensures { result ≡ last_of held }
{
    match held {
        Some(0) => Line::Over,
        _ => ended(held),
    }
}

// The part of an input buffer that is read and not yet handed out.
#[derive(Clone, Copy, Debug, PartialEq, Eq)]
pub struct Unread {
    pub from: usize,
    pub to: usize,
}

// Reads more bytes to the front of the input buffer, and hands back how many came: none at the end of the input, as
// which a read that fails counts too.
fn fill(reader: &mut impl Read, input: &mut [u8]) -> usize
    ensures { result ≤ length input.new }
{
    reader.read(input).unwrap_or(0)
}

// The next line of the input, without its newline, and the part that is unread behind it. Any byte but a newline may
// stand in it. A read that fails counts as the end of the input.
pub fn read_line(
    reader: &mut impl Read,
    input: &mut [u8],
    unread: Unread,
    line: &mut [u8],
) -> (Line, Unread)
    requires { (unread.from ≤ unread.to) × (unread.to ≤ length input.old) }
    ensures inside { InLine line.new result.0 }
    ensures order { result.1.from ≤ result.1.to }
    ensures within { result.1.to ≤ length input.new }
{
    let mut unread = unread;
    let mut held = Some(0);
    // A proved loop has to end, and nothing says that the input does: no run takes so many turns.
    for _ in 0..u64::MAX {
        let waiting = &input[unread.from..unread.to];
        let end = find(waiting, LINE_END);
        let part = &waiting[..end.unwrap_or(waiting.len())];
        held = hold(line, held, part);
        if let Some(end) = end {
            unread.from += end + 1;
            return (ended(held), unread);
        }
        unread = Unread {
            from: 0,
            to: fill(reader, input),
        };
        if unread.to == 0 {
            return (last(held), unread);
        }
    }
    (last(held), unread)
}

// An input, and the bytes of it that are read and not yet handed out: a part of a buffer.
#[derive(Drop)]
pub struct Input<R, const N: usize> {
    reader: R,
    bytes: [u8; N],
    unread: Unread,
}

// Clauses see the bytes that wait.
impl<R, const N: usize> Model for Input<R, N> {
    ghost use Rattle.std.specs.Prelude.{List, ℕ, ◌-◌, ◌≤◌, take, drop};

    ghost Value = { List ℕ };

    ghost view = { λ i. take (i.unread.to - i.unread.from) (drop i.unread.from i.bytes) };

    ghost invariant = { λ i. (i.unread.from ≤ i.unread.to) × (i.unread.to ≤ N) };
}

impl<R: Read, const N: usize> Input<R, N> {
    // With nothing read yet.
    pub fn new(reader: R) -> Self
        ensures { result ≡ [] }
    {
        Input {
            reader,
            bytes: [0; N],
            unread: Unread { from: 0, to: 0 },
        }
    }

    // The next line of the input, without its newline. Any byte but that may stand in it. A read that fails
    // counts as the end of the input.
    pub fn read_line(&mut self, line: &mut [u8]) -> Line
        ensures { InLine line.new result }
    {
        let (line, unread) = read_line(&mut self.reader, &mut self.bytes, self.unread, line);
        self.unread = unread;
        line
    }
}
