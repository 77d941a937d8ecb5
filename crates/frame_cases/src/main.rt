// Frame encode, frame undo, the payload part and the information mask at their edges, for one, two and three layers: every refusal and
// which of two comes first, the places that are named, and what lies past a written part. Buffers hold 5a before a job. The requests are
// the lines of the input: the layers, three kernels, which mask (see `mask_byte`), the lengths of mask, payload (or word, or lent bytes)
// and buffer, and the two phases whose symbols are 1; 9999 in place of them stands for a text. Then 1 if the word to undo was made with
// the first two kernels exchanged, 2 if the text is the word. A kernel's request has its number and a word, an information mask's the
// number of bytes and the room.
#![tactic(auto)]

use answer::Refusal;
use plan::Plan;
use report::rows;
use std::{array, io};

const TEXT: [u8; 12] = [78, 111, 115, 112, 114, 105, 100, 100, 97, 0, 255, 129];

const POWERS: [u8; 8] = [128, 64, 32, 16, 8, 4, 2, 1];

const THIRDS: [u8; 3] = [36, 146, 73];

// Byte i of the mask of a kind: it marks 0 none, 1 all, 2 the last 8 phases, 3 the last 12, 4 all but the first 8, 5 all but the first 4,
// 6 every third phase or so. `left` bytes come after it.
fn mask_byte(kind: u64, i: usize, left: usize) -> u8 {
    match kind {
        0 => 0,
        1 => 255,
        2 | 3 if left == 0 => 255,
        3 if left == 1 => 15,
        2 | 3 => 0,
        4 | 5 if i > 0 => 255,
        4 => 0,
        5 => 15,
        _ if left < 2 => 255,
        _ => THIRDS[i % 3],
    }
}

// The mask of a kind and of n bytes.
fn mask_of(kind: u64, n: u64) -> [u8; 513] {
    let mut out = [0u8; 513];
    let k = rows::at_most(513, n);
    for i in 0..k {
        out[i] = mask_byte(kind, i, k - i - 1);
    }
    out
}

// The text, again and again.
fn text_of() -> [u8; 513] {
    array::from_fn(|i| TEXT[i % 12])
}

// Bits 1 at two places, or the text.
fn bits_of(a: u64, b: u64) -> [u8; 513] {
    if a == 9999 {
        return text_of();
    }
    let mut out = [0u8; 513];
    let p = rows::at_most(4095, a);
    let q = rows::at_most(4095, b);
    out[p / 8] = POWERS[p % 8];
    out[q / 8] ^= POWERS[q % 8];
    out
}

fn plan_of(m: u64, inner: u64, middle: u64, outer: u64) -> Plan {
    Plan {
        layers: rows::byte(m),
        kernels: [rows::byte(inner), rows::byte(middle), rows::byte(outer)],
    }
}

// The plan that a word to undo was made with.
fn made_with(c: [u64; 32]) -> Plan {
    if c[10] == 1 {
        return plan_of(c[0], c[2], c[1], c[3]);
    }
    plan_of(c[0], c[1], c[2], c[3])
}

// The word of symbols that are 1 at two phases.
fn encoded(plan: Plan, symbols: [u8; 513]) -> [u8; 513] {
    let all = [255u8; 513];
    let mut word = [0u8; 513];
    let n = plan::bytes(plan) as u64;
    let _ = frame::frame_encode(
        plan,
        rows::front(&all, n),
        rows::front(&symbols, n),
        &mut word,
    );
    word
}

fn word_of(c: [u64; 32]) -> [u8; 513] {
    let symbols = bits_of(c[8], c[9]);
    if c[10] == 2 {
        return symbols;
    }
    encoded(made_with(c), symbols)
}

// An answer, and the room where it is accepted, or whether the buffer was kept.
fn say(
    rt: &impl Print,
    line: &[u8],
    a: Result<(), Refusal>,
    buffer: [u8; 516],
    room: u64,
) -> io::Result<()> {
    report::say_answer(rt, line, a.err())?;
    if a.is_ok() {
        print!(rt; ", ")?;
        report::say_bytes(rt, rows::front(&buffer, room))?;
        println!(rt)
    } else {
        report::say_kept(rt, report::all_are(&buffer, 0x5a))
    }
}

fn encode_case(rt: &impl Print, line: &[u8], c: [u64; 32], mask: &[u8]) -> io::Result<()> {
    let payload = bits_of(c[8], c[9]);
    let mut word = [0x5au8; 516];
    let a = frame::frame_encode(
        plan_of(c[0], c[1], c[2], c[3]),
        mask,
        rows::front(&payload, c[6]),
        rows::room(&mut word, c[7]),
    );
    say(rt, line, a, word, c[7])
}

fn undo_case(rt: &impl Print, line: &[u8], c: [u64; 32], mask: &[u8]) -> io::Result<()> {
    let word = word_of(c);
    let mut payload = [0x5au8; 516];
    let a = frame::frame_undo(
        plan_of(c[0], c[1], c[2], c[3]),
        mask,
        rows::front(&word, c[6]),
        rows::room(&mut payload, c[7]),
    );
    say(rt, line, a, payload, c[7])
}

// A line and two numbers.
fn say_two(rt: &impl Print, line: &[u8], a: u64, b: u64) -> io::Result<()> {
    rt.write_all(line)?;
    print!(rt; ": {a} {b}")
}

// The payload part: its length, twice, and its bytes.
fn part_case(rt: &impl Print, line: &[u8], c: [u64; 32], mask: &[u8]) -> io::Result<()> {
    let bytes = [0xa5u8; 513];
    let lent = rows::front(&bytes, c[6]);
    let plan = plan_of(c[0], c[1], c[2], c[3]);
    let length = part::part_length(plan, mask, lent.len());
    let found = part::payload_part(plan, mask, lent);
    say_two(rt, line, length as u64, found.len() as u64)?;
    print!(rt; ", ")?;
    report::say_bytes(rt, found)?;
    println!(rt)
}

fn frame_case(rt: &impl Print, line: &[u8], c: [u64; 32]) -> io::Result<()> {
    let bytes = mask_of(c[4], c[5]);
    let mask = rows::front(&bytes, c[5]);
    match rows::first(line) {
        b'e' => encode_case(rt, line, c, mask),
        b'u' => undo_case(rt, line, c, mask),
        b'p' => part_case(rt, line, c, mask),
        _ => Ok(()),
    }
}

// The word of some symbols and the symbols of the same word, by a kernel: frames of one layer are kernels.
fn kernel_case(rt: &impl Print, line: &[u8], c: [u64; 32]) -> io::Result<()> {
    let kernel = rows::byte(c[0]);
    let word = (c[1] % 65536) as u16;
    let encoded = kernel::kernel_encode(kernel, word).unwrap_or(0);
    let undone = kernel::kernel_undo(kernel, word).unwrap_or(0);
    say_two(rt, line, u64::from(encoded), u64::from(undone))?;
    println!(rt)
}

fn information_case(rt: &impl Print, line: &[u8], c: [u64; 32]) -> io::Result<()> {
    let mut mask = [0x5au8; 516];
    let p = rows::at_most(9999, c[0]);
    let a = order::information_mask(p, rows::room(&mut mask, c[1]));
    say(rt, line, a, mask, c[1])
}

fn run(rt: &impl Print, line: &[u8]) -> io::Result<()> {
    let c = rows::numbers(line);
    match rows::first(line) {
        b'k' => kernel_case(rt, line, c),
        b'i' => information_case(rt, line, c),
        _ => frame_case(rt, line, c),
    }
}

fn main(rt: HostRuntime) -> io::Result<()> {
    let mut text = [0u8; rows::ROOM];
    let n = rows::read_full(&mut rt.reader(), &mut text);
    rows::each_line(&text[..n], |line| run(&rt, line))
}
