// The least totals of a path in sixteen kernels side by side, folded from eight places in all lanes at once.
#![tactic(auto)]

ghost use Rattle.std.specs.Prelude.{◌≡◌, Bool, true, false, ℕ, ◌+◌, ◌*◌, ◌/◌, ◌%◌, ◌≤◌, ◌<◌, get_or};
ghost use Rattle.base.specs.Bit;
ghost use Rattle.base.specs.Bit.{◌⊕◌};
ghost use Rattle.bits.specs.Packed.{bits};
ghost use Rattle.polar.specs.Code.{Costs};
ghost use Rattle.polar.specs.Fold.{free_fold, known_fold, level, folded};
ghost use Rattle.folds.specs.Rows.{cell, Pays};
ghost use Rattle.folds.proofs.Pairs.{free-le, known-le};
ghost use Rattle.place_folds.specs.Folds.{bit_fold};
ghost use Rattle.lane.specs.Lanes.{lane_bits, lane_bit, word_at, node_costs, LanesWithin};
ghost use Rattle.lane_paths.specs.Places.{two_costs};

use lane::{Pair, at, free, has, known, turned};

// The node of place j for a path.
fn node(other: u16, j: usize) -> usize
    requires { j < 8 }
    ensures { result ≡ 8 * Bit.digit (Bit.bit (bits 16 other) j) + j }
{
    if bits::word_bit(other as u32, j) {
        8 + j
    } else {
        j
    }
}

// Two places folded onto one, where the first one's bit may be known. It stands beside that of place_folds, with numbers of sixteen
// bits here and of 32 there: a generic sum would ask for a bound of its type in each clause.
fn fold_pair(bit: Option<bool>, p: Pair, q: Pair) -> Pair
    requires { (p.zero ≤ 16383) × (p.one ≤ 16383) × (q.zero ≤ 16383) × (q.one ≤ 16383) }
    ensures { (n i : ℕ) (c : Costs) → Pays c i p.zero p.one → Pays c (n + i) q.zero q.one
        → Pays (bit_fold bit n c) i result.zero result.one }
{
    match bit {
        Some(bit) => known(bit, p, q),
        None => free(p, q),
    }
}

// One fold of places onto half as many, place i of the first half with place i of the second, in each lane. It stands beside that of
// place_folds, which has no lanes, for the reason that `fold_pair` gives.
trait Fold {
    // What is left in a lane on n places of the costs of 2n.
    ghost onto: { Self → ℕ → ℕ → Costs → Costs };

    // The bit of place i of the first half in lane l, where it is known.
    fn bit(&self, i: usize, l: usize) -> Option<bool>
        requires { (i < 4) × (l < 16) }
        ensures { (n : ℕ) (c : Costs) (b : Bool)
            → bit_fold result n c i b ≡ onto self.now l n c i b };

    // A fold at most doubles a bound.
    ghost doubles: { (s : Self) (l n : ℕ) (c : Costs) (m : ℕ)
        → ((j : ℕ) (b : Bool) → j < n + n → c j b ≤ m) → (j : ℕ) (b : Bool) → j < n
        → onto s l n c j b ≤ m + m };
}

// The second half is free.
#[derive(Clone, Copy, Debug, PartialEq, Eq)]
struct SecondFree;

impl Fold for SecondFree {
    ghost onto = { λ s l. free_fold };

    ghost doubles = { λ s l. free-le };

    fn bit(&self, i: usize, l: usize) -> Option<bool> {
        None
    }
}

// The first half is known: planes have its words' bits.
#[derive(Clone, Copy, Debug, PartialEq, Eq)]
struct FirstKnown<'a> {
    flags: &'a [u16; 16],
    planes: [u16; 4],
    ghost lanes: { flags.now ≡ lane_bits },
}

impl<'a> Fold for FirstKnown<'a> {
    ghost onto = { λ s l n. known_fold n (word_at s.planes l) };

    ghost doubles = { λ s l n. known-le n (word_at s.planes l) };

    fn bit(&self, i: usize, l: usize) -> Option<bool> {
        Some(has(self.planes[i], self.flags[l]))
    }
}

// Place i of the four that a fold of a path's eight leaves, in lane l.
fn half<A: Fold>(first: &A, nodes: &[[[u16; 16]; 2]; 16], other: u16, i: usize, l: usize) -> Pair
    requires index { (i < 4) × (l < 16) }
    requires small { LanesWithin 4095 nodes.now }
    ensures { Pays (A.onto first.now l 4 (node_costs nodes.now (Bit.bit (bits 16 other)) l)) i result.zero result.one }
{
    let bit = first.bit(i, l);
    let p = at(&nodes[node(other, i)], l);
    let q = at(&nodes[node(other, 4 + i)], l);
    fold_pair(bit, p, q)
}

// The two places that two folds of a path's eight leave.
fn two_folds<A: Fold, B: Fold>(
    first: &A,
    second: &B,
    nodes: &[[[u16; 16]; 2]; 16],
    other: u16,
) -> [[u16; 16]; 4]
    requires { LanesWithin 4095 nodes.now }
    ensures { (i l : ℕ) (b : Bool) → i < 2 → l < 16
        → two_costs result l i b
        ≡ B.onto second.now l 2 (A.onto first.now l 4 (node_costs nodes.now (Bit.bit (bits 16 other)) l)) i b }
{
    let mut out = [[0u16; 16]; 4];
    for l in 0..16 {
        let p = half(first, nodes, other, 0, l);
        let q = half(first, nodes, other, 2, l);
        let even = fold_pair(second.bit(0, l), p, q);
        out[0][l] = even.zero;
        out[1][l] = even.one;
        let r = half(first, nodes, other, 1, l);
        let s = half(first, nodes, other, 3, l);
        let odd = fold_pair(second.bit(1, l), r, s);
        out[2][l] = odd.zero;
        out[3][l] = odd.one;
    }
    out
}

// Four planes, from plane `from` on.
fn four_from(words: &[u16; 16], from: usize) -> [u16; 4]
    requires { from ≤ 12 }
    ensures { (j : ℕ) → j < 4 → get_or result j 0 ≡ get_or words.now (from + j) 0 }
{
    [
        words[from],
        words[from + 1],
        words[from + 2],
        words[from + 3],
    ]
}

// The eight places of a path folded onto two, by whether the first halves are known.
fn onto_two(
    flags: &[u16; 16],
    nodes: &[[[u16; 16]; 2]; 16],
    other: u16,
    high: usize,
    words: &[u16; 16],
) -> [[u16; 16]; 4]
    requires { (flags.now ≡ lane_bits) × (high < 16) × LanesWithin 4095 nodes.now }
    ensures { (i l : ℕ) (b : Bool) → i < 2 → l < 16
        → two_costs result l i b
        ≡ level 2 (high % 4) (λ j. word_at words.now l (high / 4 * 4 + j)) (level 4 (high % 8) (λ j. word_at words.now l (high / 8 * 8 + j)) (node_costs nodes.now (Bit.bit (bits 16 other)) l)) i b }
{
    if high % 8 < 2 {
        return two_folds(&SecondFree, &SecondFree, nodes, other);
    }
    if high % 8 < 4 {
        let planes = four_from(words, high / 4 * 4);
        return two_folds(&SecondFree, &FirstKnown { flags, planes }, nodes, other);
    }
    let planes = four_from(words, high / 8 * 8);
    let first = FirstKnown { flags, planes };
    if high % 8 < 6 {
        return two_folds(&first, &SecondFree, nodes, other);
    }
    let planes = four_from(words, high / 4 * 4);
    two_folds(&first, &FirstKnown { flags, planes }, nodes, other)
}

// Place i of the two, in lane l.
fn of_two(two: &[[u16; 16]; 4], i: usize, l: usize) -> Pair
    requires { (i < 2) × (l < 16) }
    ensures { (result.zero ≡ two_costs two.now l i false)
        × (result.one ≡ two_costs two.now l i true) }
{
    Pair {
        zero: two[2 * i][l],
        one: two[2 * i + 1][l],
    }
}

// The two places folded onto one under a path's last v.
fn last_fold<A: Fold>(fold: &A, flags: &[u16; 16], own: u16, two: &[[u16; 16]; 4]) -> [[u16; 16]; 2]
    requires lanes { flags.now ≡ lane_bits }
    requires small { (i l : ℕ) (b : Bool) → i < 2 → l < 16 → two_costs two.now l i b ≤ 16383 }
    ensures { (l : ℕ) (b : Bool) → l < 16
        → cell 0 result l b ≡ A.onto fold.now l 1 (two_costs two.now l) 0 (lane_bit own l ⊕ b) }
{
    let mut out = [[0u16; 16]; 2];
    for l in 0..16 {
        let last = fold_pair(fold.bit(0, l), of_two(two, 0, l), of_two(two, 1, l));
        let r = turned(has(own, flags[l]), last);
        out[0][l] = r.zero;
        out[1][l] = r.one;
    }
    out
}

/// The least totals of a path with symbol 0 and with symbol 1, from the nodes that it chooses: its words are those of the planes,
/// and the last v that it uses is v high.
pub fn path_pair(
    flags: &[u16; 16],
    nodes: &[[[u16; 16]; 2]; 16],
    other: u16,
    high: usize,
    words: &[u16; 16],
) -> [[u16; 16]; 2]
    requires { (flags.now ≡ lane_bits) × (high < 16) × LanesWithin 4095 nodes.now }
    ensures { (l : ℕ) (b : Bool) → l < 16
        → cell 0 result l b ≡ folded 3 (high % 8) (λ j. word_at words.now l (high / 8 * 8 + j)) (node_costs nodes.now (Bit.bit (bits 16 other)) l) 0 (word_at words.now l high ⊕ b) }
{
    let two = onto_two(flags, nodes, other, high, words);
    if high % 2 == 0 {
        return last_fold(&SecondFree, flags, words[high], &two);
    }
    let planes = [words[high - 1], 0, 0, 0];
    last_fold(&FirstKnown { flags, planes }, flags, words[high], &two)
}
