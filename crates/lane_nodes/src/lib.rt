// Sixteen places of sixteen kernels side by side folded onto eight, in all lanes at once. A loop of lanes has exactly sixteen
// turns and no branch, and the compiler makes vectors of it.
#![tactic(auto)]

ghost use Rattle.std.specs.Prelude.{◌≡◌, Bool, true, false, not, ℕ, ◌+◌, ◌<◌, min};
ghost use Rattle.base.specs.Bit.{◌⊕◌};
ghost use Rattle.polar.specs.Fold.{free_fold, known_fold};
ghost use Rattle.folds.specs.Rows.{cell};
ghost use Rattle.lane.specs.Lanes.{lane_bits, lane_bit, word_at, lane_costs, PairWithin, LanesWithin};

// Two places folded onto one in each lane, the second one's bits being free.
fn free_place(p: &[[u16; 16]; 2], q: &[[u16; 16]; 2]) -> [[u16; 16]; 2]
    requires { PairWithin 16383 p.now × PairWithin 16383 q.now }
    ensures { (l : ℕ) (b : Bool) → l < 16
        → cell 0 result l b ≡ min (cell 0 p.now l b + cell 0 q.now l false) (cell 0 p.now l (not b) + cell 0 q.now l true) }
{
    let mut out = [[0u16; 16]; 2];
    for l in 0..16 {
        let r = lane::free(lane::at(p, l), lane::at(q, l));
        out[0][l] = r.zero;
        out[1][l] = r.one;
    }
    out
}

// The same, the first one's bits being those of a plane. Two functions of one loop: a trait and two types for their two callers,
// as in lane_paths, would be longer.
fn known_place(
    flags: &[u16; 16],
    plane: u16,
    p: &[[u16; 16]; 2],
    q: &[[u16; 16]; 2],
) -> [[u16; 16]; 2]
    requires { (flags.now ≡ lane_bits) × PairWithin 16383 p.now × PairWithin 16383 q.now }
    ensures { (l : ℕ) (b : Bool) → l < 16
        → cell 0 result l b ≡ cell 0 p.now l (lane_bit plane l ⊕ b) + cell 0 q.now l b }
{
    let mut out = [[0u16; 16]; 2];
    for l in 0..16 {
        let r = lane::known(lane::has(plane, flags[l]), lane::at(p, l), lane::at(q, l));
        out[0][l] = r.zero;
        out[1][l] = r.one;
    }
    out
}

/// Sixteen places folded onto eight, the second ones free.
pub fn free_eight(costs: &[[[u16; 16]; 2]; 16]) -> [[[u16; 16]; 2]; 16]
    requires { LanesWithin 16383 costs.now }
    ensures nodes { (j l : ℕ) (b : Bool) → j < 8 → l < 16
        → lane_costs result l j b ≡ free_fold 8 (lane_costs costs.now l) j b }
    ensures within { (n : ℕ) → LanesWithin n costs.now → LanesWithin (n + n) result }
{
    let mut out = [[[0u16; 16]; 2]; 16];
    for j in 0..8 {
        out[j] = free_place(&costs[j], &costs[8 + j]);
    }
    out
}

/// Sixteen places folded onto eight, the first ones known; and again with each bit of these the other one, where both are asked
/// for. They are left in an array that is lent.
pub fn known_eight(
    flags: &[u16; 16],
    words: &[u16; 16],
    both: bool,
    costs: &[[[u16; 16]; 2]; 16],
    out: &mut [[[u16; 16]; 2]; 16],
)
    requires { (flags.now ≡ lane_bits) × LanesWithin 16383 costs.now }
    ensures nodes { (j l : ℕ) (b : Bool) → j < 8 → l < 16
        → lane_costs out.new l j b
        ≡ known_fold 8 (word_at words.now l) (lane_costs costs.now l) j b }
    ensures others { both ≡ true → (j l : ℕ) (b : Bool) → j < 8 → l < 16
        → lane_costs out.new l (8 + j) b
        ≡ known_fold 8 (λ i. not (word_at words.now l i)) (lane_costs costs.now l) j b }
    ensures within { (n : ℕ) → LanesWithin n costs.now → LanesWithin (n + n) out.old
        → LanesWithin (n + n) out.new }
{
    // The array is lent, since the compiler copies one that is handed back. Both is a bool: it is the same for all lanes and places,
    // and the compiler tests it once.
    for j in 0..8 {
        out[j] = known_place(flags, words[j], &costs[j], &costs[8 + j]);
        if both {
            out[8 + j] = known_place(flags, words[j] ^ 65535, &costs[j], &costs[8 + j]);
        }
    }
}
