// The cases of a test program, one to a line of its input: a label, and after the last colon the numbers. Words are passed over.
ghost use Rattle.std.specs.Prelude.{◌≤◌, ◌<◌, length, take, IfSome, OnOk};
ghost use Rattle.std.specs.Io.KnownBytes.{Consumes, IsAtEnd};

use std::io;
use std::io::Read;

/// How many bytes of its input a program reads at most.
pub const ROOM: usize = 65536;

// What a number has added to it where a minus sign stands before it: 2^40.
const MINUS: u64 = 1099511627776;

// Reads until the buffer is full, the input ends or a read fails: how many bytes stand at its start, and the failure.
fn fill<R: Read>(input: &mut R, buffer: &mut [u8]) -> (usize, io::Result<()>)
    ensures bound { result.0 ≤ length buffer.new }
    ensures bytes { Consumes (R.remaining input.old) (R.remaining input.new) (take result.0 buffer.new) }
    ensures end { OnOk result.1 (result.0 < length buffer.new → IsAtEnd (R.remaining input.new)) }
{
    let mut done: usize = 0;
    // A while: a read gives as many bytes as it likes.
    while done < buffer.len() {
        match input.read(&mut buffer[done..]) {
            Ok(0) => return (done, Ok(())),
            Ok(n) => done += n,
            Err(e) => return (done, Err(e)),
        }
    }
    (done, Ok(()))
}

/// Reads until the buffer is full, the input ends or a read fails, and says how many bytes stand at its start: the next ones that the
/// reader had.
pub fn read_full<R: Read>(input: &mut R, buffer: &mut [u8]) -> usize
    ensures bound { result ≤ length buffer.new }
    ensures bytes { Consumes (R.remaining input.old) (R.remaining input.new) (take result buffer.new) }
{
    fill(input, buffer).0
}

/// The end of the line that begins at an index.
pub fn line_end(text: &[u8], from: usize) -> usize
    requires { from ≤ length text.now }
    ensures low { from ≤ result }
    ensures high { result ≤ length text.now }
{
    // On the rest of the text: a `skip` would step over what lies before it, at each line anew.
    let rest = &text[from..];
    from + rest.iter().position(|c| *c == b'\n').unwrap_or(rest.len())
}

/// Runs each case, a line of the input, in order. It ends after the last line, and hands on the first failure.
pub fn each_line<F: Fn(&[u8]) -> io::Result<()>>(text: &[u8], case: F) -> io::Result<()>
    requires { F.IsAlwaysCallable case }
{
    let mut at = 0;
    // A while: it goes on where a line ends.
    while at < text.len() {
        let end = line_end(text, at);
        case(&text[at..end])?;
        at = end + 1;
    }
    Ok(())
}

/// The first byte of a line, or 0.
pub fn first(line: &[u8]) -> u8 {
    line.first().copied().unwrap_or(0)
}

// A digit, if it is one; a to f are digits where the base is 16.
fn digit(c: u8, base: u64) -> Option<u64>
    ensures { IfSome result (λ d. d < 16) }
{
    match c {
        b'0'..=b'9' => Some(u64::from(c - b'0')),
        b'a'..=b'f' if base == 16 => Some(u64::from(c - b'a') + 10),
        _ => None,
    }
}

// A number with a digit more.
fn with_digit(x: u64, base: u64, d: u64) -> u64
    requires { (base ≤ 16) × (d < 16) }
{
    let sign = x / MINUS % 2 * MINUS;
    let size = x % MINUS;
    sign + (base * size + d) % MINUS
}

// The place of the number that a byte belongs to: the next one, after a number's last digit.
fn next_place(k: usize, inside: bool, d: Option<u64>) -> usize
    requires { k ≤ 31 }
    ensures { result ≤ 31 }
{
    if inside && d.is_none() && k < 31 {
        k + 1
    } else {
        k
    }
}

fn next_value(x: u64, base: u64, d: Option<u64>, c: u8) -> u64
    requires { (base ≤ 16) × IfSome d (λ n. n < 16) }
{
    match d {
        Some(d) => with_digit(x, base, d),
        None if c == b'-' => MINUS,
        None => x,
    }
}

fn next_base(base: u64, d: Option<u64>, c: u8) -> u64
    requires { base ≤ 16 }
    ensures { result ≤ 16 }
{
    match d {
        Some(_) => base,
        None if c == b'x' => 16,
        None => 10,
    }
}

// Where the numbers of a line begin.
fn start(line: &[u8]) -> usize
    ensures { result ≤ length line.now }
{
    line.iter().rposition(|c| *c == b':').unwrap_or(0)
}

/// The numbers of a line, at most 32; x before one says that it is hexadecimal.
pub fn numbers(line: &[u8]) -> [u64; 32] {
    // A sign is in bit 40: programs keep what they do on every input, and a sign beside the number would turn each row into two
    // arrays.
    let mut out = [0u64; 32];
    let mut k: usize = 0;
    let mut inside = false;
    let mut base: u64 = 10;
    for c in &line[start(line)..] {
        let d = digit(*c, base);
        k = next_place(k, inside, d);
        out[k] = next_value(out[k], base, d, *c);
        base = next_base(base, d, *c);
        inside = d.is_some();
    }
    out
}

/// A number as one of 32 bits with its sign. Of -2147483648 the size is 0 here.
pub fn signed(x: u64) -> i32 {
    let size = (x % 2147483648) as i32;
    if x < MINUS {
        return size;
    }
    if size == 0 { i32::MIN } else { -size }
}

/// The last eight bits of a number.
pub fn byte(x: u64) -> u8 {
    (x % 256) as u8
}

/// A number, or the limit where it is above that.
pub fn at_most(limit: usize, x: u64) -> usize
    ensures { result ≤ limit }
{
    limit.min(x as usize)
}

/// The first n entries, or all where there are fewer.
pub fn front<T>(s: &[T], n: u64) -> &[T] {
    &s[..at_most(s.len(), n)]
}

/// The first n entries of a buffer, lent for writing, or all where there are fewer.
pub fn room<T>(s: &mut [T], n: u64) -> &mut [T] {
    let k = at_most(s.len(), n);
    &mut s[..k]
}
