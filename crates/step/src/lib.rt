// One phase of a kernel by its decoding window: the best scores of all paths, from the rows of the phase before or folded anew.
// A kernel is its number, below 3: public functions take it so, and it indexes tables as it stands.
#![tactic(auto)]

ghost use Rattle.std.specs.Prelude.{◌≡◌, Bool, true, false, [], ℕ, ◌+◌, ◌-◌, ◌*◌, ◌/◌, ◌%◌, ◌^◌, ◌≤◌, ◌<◌, take, get_or, pos, neg_ℤ, nat_abs};
ghost use Rattle.std.specs.Int.Bits.{bit_xor};
ghost use Rattle.base.specs.Bit;
ghost use Rattle.bits.specs.Packed.{bits};
ghost use Rattle.polar.specs.Fold.{level};
ghost use Rattle.folds.specs.Range.{value_limit};
ghost use Rattle.folds.specs.Rows.{row_of, cell, costs_of, Within, Pays};
ghost use Rattle.windows.specs.Tables.{shape_table, path_table, path_rows};
ghost use Rattle.windows.specs.Paths.{Kept, Held, Choice, path_word_of, FourOf, last_least, path_least, IsDifference};

use place_folds::{FirstKnown, PlaceCosts, SecondFree, place};

mod phases;

// The symbols before a phase, 0 for the phase's own, and the window's bits, as the tables take them.
fn choice(symbols: u16, phase: usize, window: usize, high: usize) -> u32
    requires { (phase ≤ high) × (high < 16) × (window < 2 ^ (high - phase)) }
    ensures { (result < 65536)
        × Choice (take phase (bits 16 symbols)) false (bits (high - phase) window) result }
{
    let before = (symbols as u32 >> (16 - phase)) << (16 - phase);
    let rest = (window as u32) << (15 - high);
    before + rest
}

// What a phase's table makes of a path with symbol 0: the sum of the rows that the symbols and the window choose.
fn path_word(table: &[u16; 16], symbols: u16, phase: usize, window: usize, high: usize) -> u32
    requires { (phase ≤ high) × (high < 16) × (window < 2 ^ (high - phase)) }
    ensures { result ≡ path_word_of table.now symbols phase high false window }
{
    let x = choice(symbols, phase, window, high);
    kernel::row_sum(*table, x as u16) as u32
}

// The same with symbol 1: the phase's own row is added. With its result the row is known to be below 65,536; a number copied
// out of a lent table is not.
fn with_own(word: u32, row: u16) -> u32
    ensures { (result ≡ bit_xor word row) × (row < 65536) }
{
    word ^ (row as u32)
}

// The first two folds of a path, by whether the first half is known at the one and at the other. The compiler makes vectors of
// all four as long as no test has two of them as its arms that begin alike.
fn two_folds(costs: &[[u32; 16]; 2], high: usize, word: u32) -> [[u32; 4]; 2]
    requires { (high < 16) × Within value_limit costs.now }
    ensures { FourOf costs.now high result word }
{
    let known = FirstKnown { word, from: 0 };
    if high < 4 {
        return place_folds::two_folds(&SecondFree, &SecondFree, costs);
    }
    if 12 <= high {
        return place_folds::two_folds(&known, &FirstKnown { word, from: 8 }, costs);
    }
    if high < 8 {
        return place_folds::two_folds(&SecondFree, &known, costs);
    }
    place_folds::two_folds(&known, &SecondFree, costs)
}

// The best score that belongs to a least total.
fn minus(x: u32) -> i32
    requires { x ≤ 16777216 }
    ensures { result ≡ neg_ℤ (pos x) }
{
    0 - (x as i32)
}

// The best scores of one path, for symbol 0 and for symbol 1.
#[derive(Clone, Copy, Debug, PartialEq, Eq)]
struct Best {
    zero: i32,
    one: i32,
}

// The least totals of a path where its last v is 0 and where it is 1, by the last two folds.
fn last_two(four: &[[u32; 4]; 2], high: usize, word: u32) -> PlaceCosts
    requires { (high < 16) × ((j : ℕ) (b : Bool) → j < 4
        → costs_of four.now j b ≤ 4 * value_limit) }
    ensures { Pays (level 1 (high % 2) (λ i. Bit.bit (bits 16 word) (high / 2 * 2 + i)) (level 2 (high % 4) (λ i. Bit.bit (bits 16 word) (high / 4 * 4 + i)) (costs_of four.now))) 0 result.zero result.one }
{
    let half_known = 2 <= high % 4;
    let from = high / 4 * 4;
    let first = half_known.then_some(bits::word_bit(word, from));
    let p = place_folds::fold_pair(first, place(four, 0), place(four, 2));
    let second = half_known.then_some(bits::word_bit(word, from + 1));
    let q = place_folds::fold_pair(second, place(four, 1), place(four, 3));
    let last = (1 <= high % 2).then_some(bits::word_bit(word, high / 2 * 2));
    place_folds::fold_pair(last, p, q)
}

// The best scores of a path, by what its first two folds left.
fn best_of(four: &[[u32; 4]; 2], high: usize, word: u32) -> Best
    requires { (high < 16) × ((j : ℕ) (b : Bool) → j < 4
        → costs_of four.now j b ≤ 4 * value_limit) }
    ensures { (result.zero ≡ neg_ℤ (pos (last_least four.now high word false)))
        × (result.one ≡ neg_ℤ (pos (last_least four.now high word true))) }
{
    let last = last_two(four, high, word);
    let zero = minus(last.zero);
    let one = minus(last.one);
    if bits::word_bit(word, high) {
        Best {
            zero: one,
            one: zero,
        }
    } else {
        Best { zero, one }
    }
}

// The rows of a phase with a single path, folded from the costs.
fn one_path(
    table: &[u16; 16],
    symbols: u16,
    phase: usize,
    high: usize,
    costs: &[[u32; 16]; 2],
) -> [[i32; 16]; 2]
    requires phase_value { (phase ≡ high) × (high < 16) }
    requires within { Within value_limit costs.now }
    ensures { (w : ℕ) (b : Bool) → w < 2 ^ (high - phase)
        → cell (pos 0) result w b
        ≡ neg_ℤ (pos (path_least costs.now high (path_word_of table.now symbols phase high false w) b)) }
{
    let word = path_word(table, symbols, phase, high - phase, high);
    let four = two_folds(costs, high, word);
    let best = best_of(&four, high, word);
    let mut out = [[0i32; 16]; 2];
    out[0][0] = best.zero;
    out[1][0] = best.one;
    out
}

// The rows of a phase whose relations reach further, folded from the costs path by path.
fn fresh_rows(
    table: &[u16; 16],
    symbols: u16,
    phase: usize,
    high: usize,
    costs: &[[u32; 16]; 2],
) -> [[i32; 16]; 2]
    requires phase_le_high { (phase ≤ high) × (high < 16) × (high - phase ≤ 4) }
    requires within { Within value_limit costs.now }
    ensures { (w : ℕ) (b : Bool) → w < 2 ^ (high - phase)
        → cell (pos 0) result w b
        ≡ neg_ℤ (pos (path_least costs.now high (path_word_of table.now symbols phase high false w) b)) }
{
    let paths: usize = 1 << (high - phase);
    let mut out = [[0i32; 16]; 2];
    for w in 0..paths {
        let word = path_word(table, symbols, phase, w, high);
        let four = two_folds(costs, high, word);
        let best = best_of(&four, high, word);
        out[0][w] = best.zero;
        out[1][w] = best.one;
    }
    out
}

// The scores of path w with symbol 0 and with symbol 1, found in a row of the phase before.
fn again_at(
    table: &[u16; 16],
    symbols: u16,
    phase: usize,
    high: usize,
    row: &[i32; 16],
    w: usize,
) -> Best
    requires phase_le_high { (phase ≤ high) × (high < 16) × (w < 2 ^ (high - phase)) }
    requires w_bound { (b : Bool) → path_word_of table.now symbols phase high b w < 16 }
    ensures { (result.zero ≡ get_or row.now (path_word_of table.now symbols phase high false w) (pos 0)) × (result.one ≡ get_or row.now (path_word_of table.now symbols phase high true w) (pos 0)) }
{
    let first = path_word(table, symbols, phase, w, high);
    let second = with_own(first, table[phase]);
    Best {
        zero: row[first as usize],
        one: row[second as usize],
    }
}

// The rows of a phase whose relations reach no further: each path was one of the phase before, in the row of
// the symbol that was chosen.
fn again_rows(
    table: &[u16; 16],
    symbols: u16,
    phase: usize,
    high: usize,
    rows: [[i32; 16]; 2],
    chosen: bool,
) -> [[i32; 16]; 2]
    requires phase_le_high { (phase ≤ high) × (high < 16) × (high - phase ≤ 4) }
    requires by_index { (w : ℕ) (b : Bool) → w < 2 ^ (high - phase)
        → path_word_of table.now symbols phase high b w < 16 }
    ensures { (w : ℕ) (b : Bool) → w < 2 ^ (high - phase)
        → cell (pos 0) result w b
        ≡ get_or (row_of rows chosen) (path_word_of table.now symbols phase high b w) (pos 0) }
{
    let paths: usize = 1 << (high - phase);
    let mut out = [[0i32; 16]; 2];
    for w in 0..paths {
        let best = again_at(table, symbols, phase, high, &rows[chosen as usize], w);
        out[0][w] = best.zero;
        out[1][w] = best.one;
    }
    out
}

/// The best scores of all paths with symbol 0 and with symbol 1 after a phase, from the two rows of the phase before and the
/// symbol that was chosen there.
pub fn step(
    kernel: usize,
    phase: usize,
    shape: [u8; 2],
    table: &[u16; 16],
    costs: &[[u32; 16]; 2],
    symbols: u16,
    rows: [[i32; 16]; 2],
    chosen: bool,
) -> [[i32; 16]; 2]
    requires kernel_bound { (kernel < 3) × (phase < 16) }
    requires shape_value { (shape ≡ get_or (get_or shape_table kernel []) phase [])
        × (table.now ≡ path_rows kernel phase) }
    requires within { Within value_limit costs.now }
    requires kept { 0 < phase
        → Kept kernel (costs_of costs.now) (take phase (bits 16 symbols)) (row_of rows chosen) }
    ensures { Held kernel (costs_of costs.now) (take phase (bits 16 symbols)) result }
{
    // Its parameters stay: docs/ARCHITECTURE.md names it.
    let high = shape[0] as usize;
    // No enum of the three: it would have a contract of three clauses to hand on what the tests say. Each returns by itself: as
    // one expression the rows would be copied.
    if shape[1] != 0 {
        return again_rows(table, symbols, phase, high, rows, chosen);
    }
    if high == phase {
        return one_path(table, symbols, phase, high, costs);
    }
    fresh_rows(table, symbols, phase, high, costs)
}

/// The number of paths of a phase with this shape.
pub fn path_count(shape: [u8; 2], phase: usize) -> usize
    requires { (phase ≤ get_or shape 0 0) × (get_or shape 0 0 < 16)
        × (get_or shape 0 0 - phase ≤ 4) }
    ensures { result ≡ 2 ^ (get_or shape 0 0 - phase) }
{
    1 << (shape[0] as usize - phase)
}

/// The greatest of the first n entries of row 0, less that of row 1.
pub fn difference(rows: &[[i32; 16]; 2], n: usize) -> i32
    requires n_nonzero { (0 < n) × (n ≤ 16) }
    requires by_index { (w : ℕ) (b : Bool) → w < n
        → nat_abs (cell (pos 0) rows.now w b) ≤ 16777216 }
    ensures { IsDifference rows.now n result }
{
    // A count beside the rows: a phase has room for sixteen paths.
    folds::greatest(&rows[0], n) - folds::greatest(&rows[1], n)
}

/// The numbers of a kernel's phases.
pub fn shapes_of(kernel: usize) -> [[u8; 2]; 16]
    requires { kernel < 3 }
    ensures { result ≡ get_or shape_table kernel [] }
{
    phases::SHAPES[kernel]
}

/// The rows of a kernel's phases.
pub fn tables_of(kernel: usize) -> [[u16; 16]; 16]
    requires { kernel < 3 }
    ensures { result ≡ get_or path_table kernel [] }
{
    phases::PATHS[kernel]
}
