// Values from marks at its edges: the ends of the range, halves, scales and products of all sizes, amplitudes that are
// not finite, every refusal and which of two comes first, the places that are named, and what lies past the written
// part. Buffers hold -128 before a job, which is never a value. The requests are the lines of the input: the scale, how many
// amplitudes, most of them, another and its place, another and its place, how many bytes of the mask, most of them, the first,
// the one of index 15, and the room. Scale and amplitudes are bit patterns of f32.
#![tactic(auto)]

use answer::Refusal;
use report::rows;
use std::io;
use std::num::f32_from_bits_with_nan;

// The indices of the values of marks 0, 1 and 127.
const SHOWN: [u64; 6] = [0, 1, 2, 3, 254, 255];

// The number of a pattern.
fn float_of(x: u64) -> f32 {
    f32_from_bits_with_nan((x % 4294967296) as u32)
}

fn say_value(rt: &impl Print, x: i8) -> io::Result<()> {
    report::say_score(rt, i32::from(x))
}

fn say_values(rt: &impl Print, values: [i8; 300]) -> io::Result<()> {
    print!(rt; ", values")?;
    for i in SHOWN {
        say_value(rt, values[rows::at_most(299, i)])?;
    }
    Ok(())
}

fn amplitudes_of(row: [u64; 32]) -> [f32; 257] {
    let mut amplitudes = [float_of(row[2]); 257];
    amplitudes[rows::at_most(256, row[4])] = float_of(row[3]);
    amplitudes[rows::at_most(256, row[6])] = float_of(row[5]);
    amplitudes
}

fn mask_of(row: [u64; 32]) -> [u8; 17] {
    let mut mask = [rows::byte(row[8]); 17];
    mask[0] = rows::byte(row[9]);
    mask[15] = rows::byte(row[10]);
    mask
}

// Accepted some values, and whether what lies past the last stays; refused whether the buffer was kept.
fn say(rt: &impl Print, line: &[u8], a: Result<(), Refusal>, values: [i8; 300]) -> io::Result<()> {
    report::say_answer(rt, line, a.err())?;
    // Two calls: where the compiler sees how many values there are, it looks at several a turn.
    let kept = if a.is_ok() {
        say_values(rt, values)?;
        report::all_are(&values[256..], -128)
    } else {
        report::all_are(&values, -128)
    };
    report::say_kept(rt, kept)
}

fn run(rt: &impl Print, line: &[u8]) -> io::Result<()> {
    let row = rows::numbers(line);
    let amplitudes = amplitudes_of(row);
    let mask = mask_of(row);
    let mut values = [-128i8; 300];
    let a = quantiser::values_from_marks(
        float_of(row[0]),
        rows::front(&amplitudes, row[1]),
        rows::front(&mask, row[7]),
        rows::room(&mut values, row[11]),
    );
    say(rt, line, a, values)
}

fn main(rt: HostRuntime) -> io::Result<()> {
    let mut text = [0u8; rows::ROOM];
    let n = rows::read_full(&mut rt.reader(), &mut text);
    rows::each_line(&text[..n], |line| run(&rt, line))
}
