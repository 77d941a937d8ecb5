// Kernel follow at its edges, by both engines: the ends of the range, every refusal and which of two comes first, and the traps
// of the paper. The requests are the lines of the input: the kernel, how many values, the room for scores, the symbols, and the
// values.
#![tactic(auto)]

use answer::Refusal;
use report::rows;
use std::{array, io};

// What a buffer of twenty scores holds before a job: -901 to -920.
fn before() -> [i32; 20] {
    [
        -901, -902, -903, -904, -905, -906, -907, -908, -909, -910, -911, -912, -913, -914, -915,
        -916, -917, -918, -919, -920,
    ]
}

// Whether the engines answer alike and leave the same.
fn say_engines(
    rt: &impl Print,
    a: Result<(), Refusal>,
    b: Result<(), Refusal>,
    same_scores: bool,
) -> io::Result<()> {
    if a.map_err(|e| e.number()) != b.map_err(|e| e.number()) {
        print!(rt; " (the engines answer differently)")?;
    }
    if a.map_err(|e| e.place()) != b.map_err(|e| e.place()) {
        print!(rt; " (the engines name different places)")?;
    }
    if !same_scores {
        print!(rt; " (the engines leave different scores)")?;
    }
    Ok(())
}

fn say_scores(rt: &impl Print, scores: [i32; 20]) -> io::Result<()> {
    print!(rt; ", scores")?;
    for x in scores.iter().take(16) {
        report::say_score(rt, *x)?;
    }
    Ok(())
}

// Accepted the scores, and whether what lies past them stays; refused whether the buffer was kept.
fn say_buffer(rt: &impl Print, a: Result<(), Refusal>, scores: [i32; 20]) -> io::Result<()> {
    if a.is_ok() {
        say_scores(rt, scores)?;
        return report::say_kept(rt, scores[16..] == before()[16..]);
    }
    report::say_kept(rt, scores == before())
}

fn values_of(row: [u64; 32]) -> [i32; 17] {
    array::from_fn(|i| rows::signed(row[4 + i]))
}

fn symbols_of(x: u64) -> u16 {
    (x % 65536) as u16
}

// Both engines on one request, each with a buffer of its own; the answer is the first one's.
fn followed(rt: &impl Print, line: &[u8], row: [u64; 32], values: &[i32]) -> io::Result<()> {
    let mut scores = before();
    let mut second = before();
    let kernel = rows::byte(row[0]);
    let symbols = symbols_of(row[3]);
    let a = follow::kernel_follow(kernel, values, symbols, rows::room(&mut scores, row[2]));
    let b = follow::kernel_follow_hadamard(
        kernel,
        values,
        symbols,
        rows::room(&mut second, row[2]),
    );
    report::say_answer(rt, line, a.err())?;
    say_engines(rt, a, b, scores == second)?;
    say_buffer(rt, a, scores)
}

fn run(rt: &impl Print, line: &[u8]) -> io::Result<()> {
    let row = rows::numbers(line);
    let values = values_of(row);
    followed(rt, line, row, rows::front(&values, row[1]))
}

fn main(rt: HostRuntime) -> io::Result<()> {
    let mut text = [0u8; rows::ROOM];
    let n = rows::read_full(&mut rt.reader(), &mut text);
    rows::each_line(&text[..n], |line| run(&rt, line))
}
