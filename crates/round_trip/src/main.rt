// Kernel encode and kernel undo over all 65,536 symbol words of each kernel: whether each comes back, whether its word made bit
// by bit is the same, and a digest of the words.
#![tactic(auto)]

use answer::Refusal;
use std::io;

// Whether all symbols so far came back, and a digest of their words.
#[derive(Clone, Copy, Debug, PartialEq, Eq)]
struct Tally {
    whole: bool,
    digest: u64,
}

// The word of a result, or 0 where there is none.
fn word_of(word: Result<u16, Refusal>) -> u16 {
    word.unwrap_or(0)
}

// One symbol word more.
fn with_word(t: Tally, kernel: u8, symbols: u16) -> Tally {
    let word = word_of(kernel::kernel_encode(kernel, symbols));
    let back = word_of(kernel::kernel_undo(kernel, word));
    let digest = (t.digest % 2147483647 * 65599 + u64::from(word)) % 2147483647;
    Tally {
        whole: t.whole && back == symbols,
        digest,
    }
}

fn all_words(kernel: u8) -> Tally {
    let mut t = Tally {
        whole: true,
        digest: 0,
    };
    for symbols in 0..=u16::MAX {
        t = with_word(t, kernel, symbols);
    }
    t
}

fn same_word(kernel: u8, symbols: u16) -> bool {
    kernel::kernel_encode(kernel, symbols) == bitwise::encode_by_bits(kernel, symbols)
}

// Whether every word is the same made bit by bit.
fn same_words(kernel: u8) -> bool {
    (0..=u16::MAX).all(|symbols| same_word(kernel, symbols))
}

fn say_all(rt: &impl Print, all: bool, what: &str) -> io::Result<()> {
    let not = if all { "" } else { "not " };
    print!(rt; "{not}all {what}")
}

fn report(rt: &impl Print, kernel: u8) -> io::Result<()> {
    let t = all_words(kernel);
    print!(rt; "kernel {kernel}: ")?;
    say_all(rt, t.whole, "came back, ")?;
    say_all(rt, same_words(kernel), "the same bit by bit, digest ")?;
    println!(rt; "{}", t.digest)
}

fn say_result(rt: &impl Print, word: Result<u16, Refusal>) -> io::Result<()> {
    match word {
        Ok(word) => print!(rt; " 0 0 {word}"),
        Err(e) => print!(rt; " {} {} 0", e.number(), e.place()),
    }
}

// Number, place and word of both jobs with a number that no kernel has.
fn refuse(rt: &impl Print, kernel: u8) -> io::Result<()> {
    print!(rt; "kernel {kernel}: encode")?;
    say_result(rt, kernel::kernel_encode(kernel, 65535))?;
    print!(rt; ", undo")?;
    say_result(rt, kernel::kernel_undo(kernel, 65535))?;
    println!(rt)
}

fn main(rt: HostRuntime) -> io::Result<()> {
    report(&rt, 0)?;
    report(&rt, 1)?;
    report(&rt, 2)?;
    refuse(&rt, 3)?;
    refuse(&rt, 255)
}
