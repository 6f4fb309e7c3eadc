// Standard output through a buffer, for the console programs: bytes as they are, numbers in decimal, bytes in hex.
#![tactic(auto)]

ghost use Rattle.std.specs.Prelude.{◌≡◌, ◌<◌, ◌≤◌, drop, replicate, IfOk, OnErr};
ghost use Rattle.output.specs.Digits.{hex_digit_ascii, last_digits};
ghost use Rattle.output.specs.Waiting.{waits, add_byte, add_bytes, decimal_of, truth_of, hex_of};

use std::io;
use std::marker::Model;

// The digits of the largest number in decimal.
const MOST_DIGITS: usize = 20;

// ---- over a buffer that is lent: the first `used` bytes of `out` wait

// Writes the bytes that wait, and hands back how many wait then: none. An error is the write's alone, and leaves the
// buffer as it was.
pub fn show(rt: &impl Print, out: &[u8], used: usize) -> io::Result<usize>
    ensures { IfOk result (λ left. left ≡ 0) }
{
    if let Some(waiting) = out.get(..used) {
        rt.write_all(waiting)?;
    }
    Ok(0)
}

// Writes the bytes that wait, and hands back how many wait then. Nothing is left to do where a write fails, so its
// answer is dropped.
pub fn flush(rt: &impl Print, out: &[u8], used: usize) -> usize
    ensures { result ≡ 0 }
{
    let _ = show(rt, out, used);
    0
}

// Puts a byte behind those that wait, and hands back how many wait then. Where there is no room all are written, and
// none waits. The error of a write is dropped.
pub fn put_byte(rt: &impl Print, out: &mut [u8], used: usize, byte: u8) -> usize
    ensures { waits out.new result ≡ add_byte (waits out.old used) byte }
{
    if used < out.len() {
        out[used] = byte;
        return used + 1;
    }
    let used = flush(rt, out, used);
    let _ = rt.write_all(&[byte]);
    used
}

// Puts bytes as they are, each as `put_byte` does.
pub fn put(rt: &impl Print, out: &mut [u8], used: usize, text: &[u8]) -> usize
    ensures { waits out.new result ≡ add_bytes (waits out.old used) text.now }
{
    let mut used = used;
    for byte in text {
        used = put_byte(rt, out, used, *byte);
    }
    used
}

// Puts a number in decimal, byte by byte as `put_byte` does.
pub fn put_decimal(rt: &impl Print, out: &mut [u8], used: usize, n: u64) -> usize
    ensures { waits out.new result ≡ add_bytes (waits out.old used) (decimal_of n) }
{
    let mut text = [0u8; MOST_DIGITS];
    let from = decimal(n, &mut text);
    put(rt, out, used, &text[from..])
}

// Puts bytes in hex, byte by byte as `put_byte` does.
pub fn put_hex(rt: &impl Print, out: &mut [u8], used: usize, bytes: &[u8]) -> usize
    ensures { waits out.new result ≡ add_bytes (waits out.old used) (hex_of bytes.now) }
{
    let mut used = used;
    for byte in bytes {
        used = put(rt, out, used, &spelled(*byte));
    }
    used
}

// A number's decimal digits, at the end of `text`: hands back where they begin.
fn decimal(n: u64, text: &mut [u8; MOST_DIGITS]) -> usize
    ensures within { result ≤ MOST_DIGITS }
    ensures digits { drop result text.new ≡ decimal_of n }
{
    let mut rest = n;
    for at in (0..MOST_DIGITS).rev() {
        text[at] = glyph((rest % 10) as u8);
        rest /= 10;
        if rest == 0 {
            return at;
        }
    }
    // Not reached: so many digits have room for any number.
    0
}

// A hex digit in ASCII, in lower case.
fn glyph(digit: u8) -> u8
    requires { digit < 16 }
    ensures { result ≡ hex_digit_ascii digit }
{
    if digit < 10 { 48 + digit } else { 87 + digit }
}

// A byte's two hex digits.
fn spelled(byte: u8) -> [u8; 2]
    ensures { result ≡ last_digits 16 2 byte }
{
    [glyph(byte / 16), glyph(byte % 16)]
}

// ---- over a buffer of its own

// Where the bytes go, a buffer for those that wait, and how many wait.
#[derive(Drop)]
pub struct Output<P, const N: usize> {
    to: P,
    bytes: [u8; N],
    used: usize,
}

// Clauses see what waits.
impl<P, const N: usize> Model for Output<P, N> {
    ghost use Rattle.output.specs.Waiting.{Waiting, waits};

    ghost Value = { Waiting };

    ghost view = { λ o. waits o.bytes o.used };
}

impl<P: Print, const N: usize> Output<P, N> {
    // With a buffer of which no byte waits.
    pub fn new(to: P) -> Self
        ensures { result ≡ waits (replicate N 0) 0 }
    {
        Output {
            to,
            bytes: [0; N],
            used: 0,
        }
    }

    // Writes the bytes that wait, and none waits then. An error is the write's alone, and leaves the buffer as it was.
    pub fn show(&mut self) -> io::Result<()>
        ensures shown { IfOk result (λ _. self.new ≡ waits self.old.buffer 0) }
        ensures kept { OnErr result (self.new ≡ self.old) }
    {
        self.used = show(&self.to, &self.bytes, self.used)?;
        Ok(())
    }

    // Writes the bytes that wait, and none waits then. Nothing is left to do where a write fails, so its answer is
    // dropped.
    pub fn flush(&mut self)
        ensures { self.new ≡ waits self.old.buffer 0 }
    {
        self.used = flush(&self.to, &self.bytes, self.used);
    }

    // Puts a byte behind those that wait. Where there is no room all are written, and none waits. The error of a write
    // is dropped, as in all that puts.
    pub fn put_byte(&mut self, byte: u8)
        ensures { self.new ≡ add_byte self.old byte }
    {
        self.used = put_byte(&self.to, &mut self.bytes, self.used, byte);
    }

    // Puts bytes as they are.
    pub fn put(&mut self, text: &[u8])
        ensures { self.new ≡ add_bytes self.old text.now }
    {
        self.used = put(&self.to, &mut self.bytes, self.used, text);
    }

    // Puts a number in decimal.
    pub fn put_decimal(&mut self, n: u64)
        ensures { self.new ≡ add_bytes self.old (decimal_of n) }
    {
        self.used = put_decimal(&self.to, &mut self.bytes, self.used, n);
    }

    // Puts bytes as they are, and a number in decimal behind them.
    pub fn put_count(&mut self, name: &[u8], count: u64)
        ensures { self.new ≡ add_bytes (add_bytes self.old name.now) (decimal_of count) }
    {
        self.put(name);
        self.put_decimal(count);
    }

    // Puts `yes` or `no`.
    pub fn put_truth(&mut self, truth: bool)
        ensures { self.new ≡ add_bytes self.old (truth_of truth) }
    {
        if truth {
            self.put(b"yes");
        } else {
            self.put(b"no");
        }
    }

    // Puts bytes in hex.
    pub fn put_hex(&mut self, bytes: &[u8])
        ensures { self.new ≡ add_bytes self.old (hex_of bytes.now) }
    {
        self.used = put_hex(&self.to, &mut self.bytes, self.used, bytes);
    }
}
