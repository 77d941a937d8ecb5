// What the test programs read and print: rows of cases, answers, bytes, and whether a buffer was kept.
#![tactic(auto)]

ghost use Rattle.std.specs.Prelude.{◌≡◌};
ghost use Rattle.std.specs.List.{list_all};

pub mod rows;

use answer::Refusal;
use std::io;

/// A label, the number and the place: of a refusal, or 0 and 0 where there is none.
pub fn say_answer(rt: &impl Print, label: &[u8], refusal: Option<Refusal>) -> io::Result<()> {
    let (number, place) = refusal.map_or((0, 0), |e| (e.number(), e.place()));
    rt.write_all(label)?;
    print!(rt; ": {number} {place}")
}

/// Whether a buffer was kept, after a comma, and the end of the line.
pub fn say_kept(rt: &impl Print, kept: bool) -> io::Result<()> {
    let word = if kept { "kept" } else { "changed" };
    println!(rt; ", {word}")
}

fn say_byte(rt: &impl Print, x: u8) -> io::Result<()> {
    print!(rt; "{x:02x}")
}

/// Bytes in hexadecimal.
pub fn say_bytes(rt: &impl Print, s: &[u8]) -> io::Result<()> {
    for x in s {
        say_byte(rt, *x)?;
    }
    Ok(())
}

/// Whether all entries of a buffer are the one that it was filled with.
pub fn all_are<T: PartialEq + Copy>(s: &[T], x: T) -> bool
    ensures { result ≡ list_all (λ y. T.eq y x) s.now }
{
    s.iter().all(|y| *y == x)
}

/// A number with its sign, after a space.
pub fn say_score(rt: &impl Print, x: i32) -> io::Result<()> {
    print!(rt; " {x}")
}
