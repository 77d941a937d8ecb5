// Rows of sixteen kernels side by side, by path, symbol and lane: the ones that symbols keep, and the scores.
#![tactic(auto)]

ghost use Rattle.std.specs.Prelude.{◌≡◌, Bool, true, false, [], ℕ, ◌+◌, ◌-◌, ◌%◌, ◌≤◌, ◌<◌, min, pos, get_or};
ghost use Rattle.std.specs.Int.Bits.{bit_xor};
ghost use Rattle.std.proofs.Math.IntN.{sub_ℕ};
ghost use Rattle.folds.specs.Rows.{cell, least_to};
ghost use Rattle.lane.specs.Lanes.{lane_bits, lane_bit, lane_costs};

// A row of the symbols that a plane has.
// The masks of the lanes are lent: see `lane::flags`.
fn kept_row(flags: &[u16; 16], plane: u16, pair: &[[u16; 16]; 2]) -> [u16; 16]
    requires { flags.now ≡ lane_bits }
    ensures { (l : ℕ) → l < 16 → get_or result l 0 ≡ cell 0 pair.now l (lane_bit plane l) }
{
    let mut out = [0u16; 16];
    for (l, o) in out.iter_mut().enumerate() {
        let both = lane::at(pair, l);
        let one = lane::has(plane, flags[l]);
        *o = if one { both.one } else { both.zero };
    }
    out
}

/// The rows of the symbols that were chosen at the phase before, which has n paths.
pub fn kept_rows(
    flags: &[u16; 16],
    plane: u16,
    n: usize,
    rows: &[[[u16; 16]; 2]; 16],
) -> [[u16; 16]; 16]
    requires { (flags.now ≡ lane_bits) × (n ≤ 16) }
    ensures { (w l : ℕ) → w < n → l < 16 → get_or (get_or result w []) l 0 ≡ lane_costs rows.now l w (lane_bit plane l) }
{
    let mut out = [[0u16; 16]; 16];
    // A count beside the rows: a phase has room for sixteen paths, and uses as many as it has.
    for w in 0..n {
        out[w] = kept_row(flags, plane, &rows[w]);
    }
    out
}

/// In each lane the entry of the path whose number is the lane's and c.
pub fn gathered(numbers: &[u16; 16], c: u16, kept: &[[u16; 16]; 16]) -> [u16; 16]
    ensures { (l : ℕ) → l < 16 → get_or result l 0 ≡ get_or (get_or kept.now (bit_xor (get_or numbers.now l 0) c % 16) []) l 0 }
{
    arrays::filled(0, |l| kept[usize::from((numbers[l] ^ c) % 16)][l])
}

// The least of three entries in each lane, for symbol 0 and for symbol 1. With two entries the loop is so short that the compiler
// unrolls it, and loses its vectors.
fn least_three(found: &[[u16; 16]; 2], p: &[[u16; 16]; 2], q: &[[u16; 16]; 2]) -> [[u16; 16]; 2]
    ensures { (l : ℕ) (b : Bool) → l < 16 → cell 0 result l b ≡ min (min (cell 0 found.now l b) (cell 0 p.now l b)) (cell 0 q.now l b) }
{
    let mut out = [[0u16; 16]; 2];
    for l in 0..16 {
        out[0][l] = found[0][l].min(p[0][l]).min(q[0][l]);
        out[1][l] = found[1][l].min(p[1][l]).min(q[1][l]);
    }
    out
}

// The path after path w, or w where it is the last of n.
fn path_after(w: usize, n: usize) -> usize
    requires { w < n }
    ensures { result ≡ min (w + 1) (n - 1) }
{
    (w + 1).min(n - 1)
}

/// The least of n paths in each lane, for symbol 0 and for symbol 1.
pub fn least_pair(rows: &[[[u16; 16]; 2]; 16], n: usize) -> [[u16; 16]; 2]
    requires { (0 < n) × (n ≤ 16) }
    ensures { (l : ℕ) (b : Bool) → l < 16 → cell 0 result l b ≡ least_to (λ w. lane_costs rows.now l w b) (n - 1) }
{
    // A count beside the rows, as in `kept_rows`.
    let mut found = rows[0];
    for w in (1..n).step_by(2) {
        // By a local first: the checker does not take a call's result that is stored into an array the call reads.
        let next = least_three(&found, &rows[w], &rows[path_after(w, n)]);
        found = next;
    }
    found
}

// The difference of two numbers.
fn less(a: u16, b: u16) -> i32
    ensures { result ≡ sub_ℕ a b }
{
    i32::from(a) - i32::from(b)
}

/// The scores of a phase with n paths: in each lane the least for symbol 1 less that for symbol 0.
pub fn scores(rows: &[[[u16; 16]; 2]; 16], n: usize) -> [i32; 16]
    requires { (0 < n) × (n ≤ 16) }
    ensures { (l : ℕ) → l < 16 → get_or result l (pos 0) ≡ sub_ℕ (least_to (λ w. lane_costs rows.now l w true) (n - 1)) (least_to (λ w. lane_costs rows.now l w false) (n - 1)) }
{
    // A count beside the rows, as in `kept_rows`.
    let least = least_pair(rows, n);
    arrays::filled(0, |l| less(least[1][l], least[0][l]))
}
