// List decoding at its edges: lists of one and of eight, paths that agree late, together or not at all, every refusal and which of two comes
// first, the places that are named, and what lies past the written parts. Scratch holds a5 and payload 5a before a job. The requests are the
// lines of the input: the layers, the three kernels, the list size, the word that was heard, its blank places, the mask, whether two values
// lie outside, how many values and bytes of the mask there are, and the room in scratch and payload. Words and masks are numbers in `WORDS`.
#![tactic(auto)]

ghost use Rattle.std.specs.Prelude.{◌≡◌, ◌<◌, length};

use answer::Refusal;
use plan::Plan;
use report::rows;
use std::io;

// The masks and words of the cases, by number.
const WORDS: [[u64; 4]; 21] = [
    // 0 to 3, information masks: of no phase, of 24, 64 and 96,
    [0, 0, 0, 0],
    [0, 0, 0x0001000100010001, 0x00000017003713ff],
    [1, 0x10001, 0x00f700f700f700f7, 0x000100f703ff7fff],
    [
        0x0000000000010037,
        0x0001000100370037,
        0x00f700f713ff13ff,
        0x003713ff13ff7fff,
    ],
    // 4: of 40 phases, the last of them being 231,
    [1, 0x10001, 0x00f700f700f700f7, 0x000100f701000000],
    // 5 to 7: of the last 16, 12 and 8 phases,
    [0, 0, 0, 0xffff],
    [0, 0, 0, 0xfff],
    [0, 0, 0, 0xff],
    // 8: of all.
    [
        0xffffffffffffffff,
        0xffffffffffffffff,
        0xffffffffffffffff,
        0xffffffffffffffff,
    ],
    // 9, the first of the words that were heard, with their errors. Kernels 1 and 2, 96 phases: of a list of two the first path fails the
    // checksum and the second passes.
    [
        0x105729bd2fe53b89,
        0x0dc7d4fdb01cc676,
        0xa5f5eeac717e714d,
        0x553ce6fc2eb7a19d,
    ],
    // 10: the same, where the third path agrees.
    [
        0x99a23f2c9fa83532,
        0xda2d780f2f6bacd4,
        0xa0aac9e58c8da54b,
        0xa46c53183440c3d2,
    ],
    // 11. Kernels 2 and 0, 64 phases: a list of four has a path that agrees, one of two has none.
    [
        0x7d28c7925a0de2b3,
        0x451eb2e5b4e5b4e1,
        0x93ce5f027022bee7,
        0x550122178acb1746,
    ],
    // 12. Kernels 0 and 1, 24 phases: the first path agrees, also in a list of one.
    [
        0x5b1d542e7b1d0a2e,
        0x84ef682e84e0b5db,
        0x7b0d880e7b5c086e,
        0x96e2e82e04a2b7c3,
    ],
    // 13 and 14. Kernels 2 and 1, all phases: no error, and one error, where the seventh path agrees.
    [
        0x058340a547a28f82,
        0x1cee9b4fc3a177f3,
        0x8118b044ae5681e9,
        0x1c4c3def4fea3d0b,
    ],
    [
        0x058340a547a28f02,
        0x1cee9b4fc3a177f3,
        0x8118b044ae5681e9,
        0x1c4c3def4fea3d0b,
    ],
    // 15. Kernels 1 and 1, the mask of 40 phases.
    [
        0x08260ac6f5c20c6a,
        0x0000950c8888a6c0,
        0x8e24f9acd1481dc4,
        0x2ca0cccc06a81d84,
    ],
    // 16. Kernels 2 and 2, 24 phases: the checksum that was sent is wrong.
    [
        0xaf9c360536055063,
        0xc9faaf9c5063c9fa,
        0x50633605c9fa5063,
        0xc9fa506350633605,
    ],
    // 17 and 18. Kernels 0 and 2, the mask of 40 phases: the words of two payloads whose checksums agree, 84ac326504 and 84ac766d44, the first with 1
    // at phase 232; they differ at these places only, whose values are 0. Neither pays as long as that phase is free; at the end the first
    // pays 248.
    [
        0x7dbe1bd8b4441428,
        0x1d7478881d747888,
        0x7dbe1bd8b4441428,
        0x1d7478881d747888,
    ],
    [
        0x9696c33c00000000,
        0x0ff00ff000000000,
        0x9696c33c00000000,
        0x0ff00ff000000000,
    ],
    // 19 and 20. Kernels 2 and 2, 24 phases: the words of two payloads whose checksums agree, 358706 and 37a744; they differ at these places only,
    // whose values are 0, so that both pay 0.
    [
        0x5aa5a55a69969669,
        0x5aa5a55a96696996,
        0xf00f0ff03cc3c33c,
        0x0ff0f00f3cc3c33c,
    ],
    [
        0x99995555cccc0000,
        0x6666555533330000,
        0x6666aaaacccc0000,
        0x9999aaaa33330000,
    ],
];

// The values of a place where 0 was heard, and where 1 was heard.
const HIGH: [i8; 16] = [31, 9, 20, 3, 44, 12, 27, 6, 52, 16, 23, 1, 37, 5, 63, 14];

const LOW: [i8; 16] = [
    -31, -9, -20, -3, -44, -12, -27, -6, -52, -16, -23, -1, -37, -5, -63, -14,
];

// The bytes of a word, and one more.
fn bytes_of(words: [u64; 4]) -> [u8; 33] {
    let mut out = [0u8; 33];
    for (i, w) in words.iter().enumerate() {
        out[8 * i..8 * i + 8].copy_from_slice(&w.to_be_bytes());
    }
    out
}

// The value of place i: 0 where it is blank.
fn value_at(heard: &[u8], blank: &[u8], i: usize) -> i8
    requires place { i < 256 }
    requires heard { length heard.now ≡ 33 }
    requires blank { length blank.now ≡ 33 }
{
    let k = (5 * i + i / 16) % 16;
    if bits::bit(blank, i) {
        return 0;
    }
    if bits::bit(heard, i) {
        return LOW[k];
    }
    HIGH[k]
}

// The values of a word and one more, and -128 at two places where they lie outside.
fn values_of(heard: [u64; 4], blank: [u64; 4], outside: u64) -> [i8; 257] {
    let h = bytes_of(heard);
    let b = bytes_of(blank);
    let mut values = [0i8; 257];
    for i in 0..256 {
        values[i] = value_at(&h, &b, i);
    }
    if outside == 1 {
        values[30] = -128;
        values[200] = -128;
    }
    values
}

// The first index from `from` on where a buffer has another byte than x, or its length.
fn run_of(s: &[u8], from: usize, x: u8) -> usize {
    s.iter()
        .skip(from)
        .position(|y| *y != x)
        .map_or(s.len(), |n| from + n)
}

// Whether scratch was kept, or cleared in its first 8,192 bytes and kept past them.
fn say_scratch(rt: &impl Print, scratch: &[u8]) -> io::Result<()> {
    if run_of(scratch, 0, 0xa5) == scratch.len() {
        print!(rt; ", scratch kept")
    } else if run_of(scratch, 0, 0) == 8192 && run_of(scratch, 8192, 0xa5) == scratch.len() {
        print!(rt; ", scratch cleared")
    } else {
        print!(rt; ", scratch changed")
    }
}

// An answer with its penalty, and the buffers after it.
fn say(
    rt: &impl Print,
    label: &[u8],
    a: Result<u32, Refusal>,
    scratch: &[u8],
    payload: &[u8],
) -> io::Result<()> {
    report::say_answer(rt, label, a.err())?;
    say_penalty(rt, a.unwrap_or(0))?;
    say_scratch(rt, scratch)?;
    print!(rt; "\n  payload ")?;
    report::say_bytes(rt, payload)?;
    println!(rt)
}

fn say_penalty(rt: &impl Print, x: u32) -> io::Result<()> {
    print!(rt; ", penalty {x}")
}

// Frame decode beside a list of one: its last penalty, and whether its payload is the same.
fn beside(
    rt: &impl Print,
    plan: Plan,
    values: &[i8],
    mask: &[u8],
    payload: &[u8],
) -> io::Result<()> {
    let mut scores = [0i32; 256];
    let mut penalties = [0u32; 256];
    let mut other = [0x5au8; 36];
    let b = decode::frame_decode(plan, values, mask, &mut scores, &mut penalties, &mut other);
    report::say_answer(rt, b"  frame decode", b.err())?;
    say_penalty(rt, penalties[255])?;
    if payload == &other[..] {
        println!(rt; ", same payload")
    } else {
        println!(rt; ", another payload")
    }
}

// As in `decode_cases`: a crate for both would stand on `plan` and be longer.
fn plan_of(row: [u64; 32]) -> Plan {
    Plan {
        layers: rows::byte(row[0]),
        kernels: [rows::byte(row[1]), rows::byte(row[2]), rows::byte(row[3])],
    }
}

// The word of a number.
fn word_of(n: u64) -> [u64; 4] {
    WORDS[rows::at_most(20, n)]
}

// One job with as much of the buffers as it asks for, what it answers and what it leaves.
fn decoded(
    rt: &impl Print,
    line: &[u8],
    row: [u64; 32],
    values: &[i8],
    mask: &[u8],
) -> io::Result<()> {
    let mut scratch = [0xa5u8; 8200];
    let mut payload = [0x5au8; 36];
    let plan = plan_of(row);
    let list = rows::at_most(9999, row[4]);
    let a = list_decode::list_decode(
        plan,
        list,
        values,
        mask,
        rows::room(&mut scratch, row[11]),
        rows::room(&mut payload, row[12]),
    );
    let left = rows::front(&payload, row[12]);
    say(rt, line, a, rows::front(&scratch, row[11]), left)?;
    if list == 1 {
        beside(rt, plan, values, mask, left)?;
    }
    Ok(())
}

fn run(rt: &impl Print, line: &[u8]) -> io::Result<()> {
    let row = rows::numbers(line);
    let values = values_of(word_of(row[5]), word_of(row[6]), row[8]);
    let mask = bytes_of(word_of(row[7]));
    decoded(
        rt,
        line,
        row,
        rows::front(&values, row[9]),
        rows::front(&mask, row[10]),
    )
}

fn main(rt: HostRuntime) -> io::Result<()> {
    let mut text = [0u8; rows::ROOM];
    let n = rows::read_full(&mut rt.reader(), &mut text);
    rows::each_line(&text[..n], |line| run(&rt, line))
}
