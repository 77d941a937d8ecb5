// Folds of the costs of sixteen places onto four, and of two places onto one.
#![tactic(auto)]

ghost use Rattle.std.specs.Prelude.{◌≡◌, Bool, ℕ, ◌+◌, ◌≤◌, ◌<◌, min};
ghost use Rattle.base.specs.Bit;
ghost use Rattle.bits.specs.Packed.{bits};
ghost use Rattle.polar.specs.Code.{Costs};
ghost use Rattle.polar.specs.Fold.{free_fold, known_fold};
ghost use Rattle.folds.proofs.Pairs.{free-le, known-le};
ghost use Rattle.place_folds.specs.Folds.{bit_fold};
ghost use Rattle.folds.specs.Range.{value_limit};
ghost use Rattle.folds.specs.Rows.{costs_of, Within, select, Pays};

/// What a place pays for bit 0 and for bit 1.
#[derive(Clone, Copy, Debug, PartialEq, Eq)]
pub struct PlaceCosts {
    pub zero: u32,
    pub one: u32,
}

// What a place pays for the bit and 0, and for the bit and 1.
fn turned(bit: bool, p: PlaceCosts) -> PlaceCosts
    ensures { (result.zero ≡ select p.zero p.one bit) × (result.one ≡ select p.one p.zero bit) }
{
    if bit {
        PlaceCosts {
            zero: p.one,
            one: p.zero,
        }
    } else {
        p
    }
}

// Two places folded onto one, the first one's bit being known.
fn known(bit: bool, p: PlaceCosts, q: PlaceCosts) -> PlaceCosts
    requires { (p.zero ≤ 16777216) × (p.one ≤ 16777216) × (q.zero ≤ 16777216) × (q.one ≤ 16777216) }
    ensures { (result.zero ≡ select p.zero p.one bit + q.zero)
        × (result.one ≡ select p.one p.zero bit + q.one) }
{
    let first = turned(bit, p);
    PlaceCosts {
        zero: first.zero + q.zero,
        one: first.one + q.one,
    }
}

// Two places folded onto one, the second one's bit being free.
fn free(p: PlaceCosts, q: PlaceCosts) -> PlaceCosts
    requires { (p.zero ≤ 16777216) × (p.one ≤ 16777216) × (q.zero ≤ 16777216) × (q.one ≤ 16777216) }
    ensures { (result.zero ≡ min (p.zero + q.zero) (p.one + q.one))
        × (result.one ≡ min (p.one + q.zero) (p.zero + q.one)) }
{
    PlaceCosts {
        zero: (p.zero + q.zero).min(p.one + q.one),
        one: (p.one + q.zero).min(p.zero + q.one),
    }
}

/// Two places folded onto one, where the first one's bit may be known.
pub fn fold_pair(bit: Option<bool>, p: PlaceCosts, q: PlaceCosts) -> PlaceCosts
    requires { (p.zero ≤ 16777216) × (p.one ≤ 16777216) × (q.zero ≤ 16777216) × (q.one ≤ 16777216) }
    ensures { (n i : ℕ) (c : Costs) → Pays c i p.zero p.one → Pays c (n + i) q.zero q.one
        → Pays (bit_fold bit n c) i result.zero result.one }
{
    match bit {
        Some(bit) => known(bit, p, q),
        None => free(p, q),
    }
}

/// A place of two rows.
pub fn place<const N: usize>(rows: &[[u32; N]; 2], i: usize) -> PlaceCosts
    requires { i < N }
    ensures { Pays (costs_of rows.now) i result.zero result.one }
{
    PlaceCosts {
        zero: rows[0][i],
        one: rows[1][i],
    }
}

/// One fold of places onto half as many, place i of the first half with place i of the second.
pub trait Fold {
    // What is left on n places of the costs of 2n.
    ghost folded: { Self → ℕ → Costs → Costs };

    // The bit of place i of the first half, where it is known.
    fn bit(&self, i: usize) -> Option<bool>
        requires { i < 8 }
        ensures { (n : ℕ) (c : Costs) (b : Bool)
            → bit_fold result n c i b ≡ folded self.now n c i b };

    // A fold at most doubles a bound.
    ghost doubles: { (s : Self) (n : ℕ) (c : Costs) (m : ℕ)
        → ((j : ℕ) (b : Bool) → j < n + n → c j b ≤ m) → (j : ℕ) (b : Bool) → j < n
        → folded s n c j b ≤ m + m };
}

/// The second half is free.
#[derive(Clone, Copy, Debug, PartialEq, Eq)]
pub struct SecondFree;

impl Fold for SecondFree {
    ghost folded = { λ s. free_fold };

    ghost doubles = { λ s. free-le };

    fn bit(&self, i: usize) -> Option<bool> {
        None
    }
}

/// The first half is known: its word's bits stand in word, from bit `from` on.
#[derive(Clone, Copy, Debug, PartialEq, Eq)]
pub struct FirstKnown {
    pub word: u32,
    pub from: usize,
    ghost within: { from ≤ 8 },
}

impl Fold for FirstKnown {
    ghost folded = { λ s n. known_fold n (λ j. Bit.bit (bits 16 s.word) (s.from + j)) };

    ghost doubles = { λ s n. known-le n (λ j. Bit.bit (bits 16 s.word) (s.from + j)) };

    fn bit(&self, i: usize) -> Option<bool> {
        Some(bits::word_bit(self.word, self.from + i))
    }
}

// Place i of the eight that a fold of sixteen leaves.
fn half<A: Fold>(first: &A, rows: &[[u32; 16]; 2], i: usize) -> PlaceCosts
    requires { (i < 8) × Within value_limit rows.now }
    ensures { Pays (A.folded first.now 8 (costs_of rows.now)) i result.zero result.one }
{
    fold_pair(first.bit(i), place(rows, i), place(rows, 8 + i))
}

/// The four places that two folds of sixteen leave.
pub fn two_folds<A: Fold, B: Fold>(first: &A, second: &B, rows: &[[u32; 16]; 2]) -> [[u32; 4]; 2]
    requires { Within value_limit rows.now }
    ensures { (j : ℕ) (b : Bool) → j < 4
        → costs_of result j b
        ≡ B.folded second.now 4 (A.folded first.now 8 (costs_of rows.now)) j b }
{
    let mut out = [[0u32; 4]; 2];
    for i in 0..4 {
        let p = half(first, rows, i);
        let q = half(first, rows, 4 + i);
        // The bit last: where two pairs of folds begin alike, the compiler joins their beginnings and makes no vectors.
        let folded = fold_pair(second.bit(i), p, q);
        out[0][i] = folded.zero;
        out[1][i] = folded.one;
    }
    out
}
