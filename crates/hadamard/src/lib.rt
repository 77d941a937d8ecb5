// The fast Hadamard transform of four values and of eight.
#![tactic(auto)]

ghost use Rattle.std.specs.Prelude.{◌≡◌, [], ℕ, ◌+◌, ◌<◌, pos, get_or};
ghost use Rattle.values.specs.Value.{Small};
ghost use Rattle.hadamard.specs.Transform.{transform};

// Two functions: a size computed from another cannot be written, and pages name both.

/// Four values: sums and differences of places that differ in the highest bit, then of those that differ in the lowest.
pub fn hadamard4(values: &[i32; 4]) -> [i32; 4]
    requires { Small 16777216 4 values.now }
    ensures { (w : ℕ) → w < 4 → get_or result w (pos 0)
        ≡ transform 2 (λ x. get_or values.now x (pos 0)) w }
{
    let s = values[0] + values[2];
    let t = values[1] + values[3];
    let u = values[0] - values[2];
    let v = values[1] - values[3];
    [s + t, s - t, u + v, u - v]
}

/// Eight values: sums and differences of places that differ in the highest bit, then four of either; row 0 has places 0 to 3.
pub fn hadamard8(values: &[i32; 8]) -> [[i32; 4]; 2]
    requires { Small 8388608 8 values.now }
    ensures { (w : ℕ) → w < 4
        → (get_or (get_or result 0 []) w (pos 0) ≡ transform 3 (λ x. get_or values.now x (pos 0)) w)
        × (get_or (get_or result 1 []) w (pos 0) ≡ transform 3 (λ x. get_or values.now x (pos 0))
        (4 + w)) }
{
    let mut sums = [0i32; 4];
    let mut differences = [0i32; 4];
    for i in 0..4 {
        sums[i] = values[i] + values[4 + i];
        differences[i] = values[i] - values[4 + i];
    }
    let first = hadamard4(&sums);
    let second = hadamard4(&differences);
    [first, second]
}
