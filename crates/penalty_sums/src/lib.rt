// The penalties of a run: what its phases pay, added up from the first one on.
#![tactic(auto)]

ghost use Rattle.std.specs.Prelude.{◌≡◌, [], ◌++◌, ℕ, suc, ◌+◌, ◌*◌, ◌≤◌, ◌<◌, pos, length, get_or, drop};
ghost use Rattle.std.proofs.Math.Seq.{paste};
ghost use Rattle.base.specs.Bit.{bit, tabulate};
ghost use Rattle.bits.specs.Packed.{bits};
ghost use Rattle.polar.specs.Code.{pay, sum};
ghost use Rattle.lane.specs.Lanes.{lane_bits};
ghost use Rattle.penalty_sums.specs.Paid.{paid_at, RowPaid, Addable, Added};

// What each score of a row pays for its symbol. Each bit is looked at by its own mask, so that the compiler makes vectors of it.
fn payments(flags: &[u16; 16], scores: &[i32], at: usize, symbols: u16) -> [u32; 16]
    requires { (flags.now ≡ lane_bits) × (at + 16 ≤ length scores.now) }
    ensures { (s : ℕ) → s < 16 → get_or result s 0 ≡ pay (get_or scores.now (at + s) (pos 0)) (bit (bits 16 symbols) s) }
{
    arrays::filled(
        0,
        |s| run::paid(scores[at + s], lane::has(symbols, flags[s])),
    )
}

// Adds up what the phases of a row pay, counted on from start, writes each sum from a place on, and hands back the last one.
fn add_row(paid: &[u32; 16], start: u32, at: usize, out: &mut [u32]) -> u32
    requires { (at + 16 ≤ length out.old) × (start + sum 16 (λ j. get_or paid.now j 0) < 4294967296) }
    ensures sums { out.new ≡ paste out.old at (tabulate 16 (λ i. start + sum (suc i) (λ j. get_or paid.now j 0))) 16 }
    ensures last { result ≡ start + sum 16 (λ j. get_or paid.now j 0) }
{
    let mut penalty = start;
    for (i, p) in paid.iter().enumerate() {
        penalty += p;
        out[at + i] = penalty;
    }
    penalty
}

// What the phases of at most sixteen rows pay. All these rows stand there before one is added up: the compiler then keeps each in
// memory, made by vectors, and not in sixteen variables.
fn rows_paid(first: usize, scores: &[i32], symbols: &[u16; 256], out: &mut [[u32; 16]])
    requires { (first + length out.old ≤ 256) × ((first + length out.old) * 16 ≤ length scores.now) }
    ensures { (i : ℕ) → i < length out.old → RowPaid scores.now symbols.now (first + i) (get_or out.new i []) }
{
    let flags = lane::flags();
    for (i, row) in out.iter_mut().enumerate() {
        let r = first + i;
        *row = payments(&flags, scores, r * 16, symbols[r]);
    }
}

// Writes the penalties of these rows, counted on from start, and hands back the last one. Scores and symbols come apart, as
// `add_up`, which is public, takes them.
fn add_rows(
    n: usize,
    first: usize,
    start: u32,
    scores: &[i32],
    symbols: &[u16; 256],
    out: &mut [u32],
) -> u32
    requires { (n ≤ 16) × Addable n first start scores.now symbols.now (length out.old) }
    ensures { Added n first scores.now symbols.now out.old out.new × (result ≡ sum ((first + n) * 16) (paid_at scores.now symbols.now)) }
{
    let mut paid = [[0u32; 16]; 16];
    let paid = &mut paid[..n];
    rows_paid(first, scores, symbols, paid);
    let mut penalty = start;
    for (i, row) in paid.iter().enumerate() {
        penalty = add_row(row, penalty, (first + i) * 16, out);
    }
    penalty
}

// The same of any number of rows, sixteen at a time.
fn add_from(
    n: usize,
    first: usize,
    start: u32,
    scores: &[i32],
    symbols: &[u16; 256],
    out: &mut [u32],
)
    requires { Addable n first start scores.now symbols.now (length out.old) }
    ensures { Added n first scores.now symbols.now out.old out.new }
{
    if n <= 16 {
        add_rows(n, first, start, scores, symbols, out);
        return;
    }
    let next = add_rows(16, first, start, scores, symbols, out);
    // A self call and no loop: the compiler then keeps this function apart, and the table of `add_rows` takes no stack in a run.
    add_from(n - 16, first + 16, next, scores, symbols, out);
}

/// Writes the penalty of each phase of n rows: what all phases up to it pay, added up row by row.
pub fn add_up(n: usize, scores: &[i32], symbols: &[u16; 256], out: &mut [u32])
    requires { (n ≤ 256) × (n * 16 ≤ length scores.now) × (n * 16 ≤ length out.old) × (sum (n * 16) (paid_at scores.now symbols.now) < 4294967296) }
    ensures { out.new ≡ tabulate (n * 16) (λ i. sum (suc i) (paid_at scores.now symbols.now)) ++ drop (n * 16) out.old }
{
    add_from(n, 0, 0, scores, symbols, out);
}
