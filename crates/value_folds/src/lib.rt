// Folds of channel values: two onto one, the second one's bit free or the first one's known.
#![tactic(auto)]

ghost use Rattle.std.specs.Prelude.{◌≡◌, false, ℕ, ◌+◌, ◌≤◌, ◌<◌, pos, nat_abs, length, get_or};
ghost use Rattle.values.specs.Value;
ghost use Rattle.values.specs.Value.{free_value, known_value, gain, Small};

// A number where it is positive, else 0.
fn above(x: i32) -> i32
    ensures { result ≡ Value.greater x (pos 0) }
{
    x.max(0)
}

/// What a value adds to a best score for bit 0.
pub fn below(x: i32) -> i32
    ensures { result ≡ gain x false }
{
    x.min(0)
}

/// A value, turned round where the bit is 1.
pub fn turned(bit: bool, x: i32) -> i32
    requires { nat_abs x ≤ 33554432 }
    ensures { result ≡ Value.turned bit x }
{
    if bit { -x } else { x }
}

/// Two values folded onto one, the first one's bit being known.
pub fn known(bit: bool, p: i32, q: i32) -> i32
    requires { (nat_abs p ≤ 16777216) × (nat_abs q ≤ 16777216) }
    ensures { result ≡ known_value bit p q }
{
    q + turned(bit, p)
}

/// Two values folded onto one, the second one's bit being free. The greater of two is here the second and what the first has
/// above it, since that becomes vectors.
pub fn free(p: i32, q: i32) -> i32
    requires { (nat_abs p ≤ 16777216) × (nat_abs q ≤ 16777216) }
    ensures { result ≡ free_value p q }
{
    above(p + q) - above(p - q) - q
}

/// Twice N values folded onto N, the second half being free.
pub fn free_half<const N: usize>(values: &[i32]) -> [i32; N]
    requires { (length values.now ≡ N + N) × Small 16777216 (N + N) values.now }
    ensures { (i : ℕ) → i < N → get_or result i (pos 0)
        ≡ free_value (get_or values.now i (pos 0)) (get_or values.now (N + i) (pos 0)) }
{
    let (first, second) = values.split_at(N);
    // A `for`: `arrays::filled` was tried, and its closure over lent values did not prove.
    let mut out = [0i32; N];
    for i in 0..N {
        out[i] = free(first[i], second[i]);
    }
    out
}

/// The same, the first half's word being known.
pub fn known_half<const N: usize>(values: &[i32], word: &[bool; N]) -> [i32; N]
    requires { (length values.now ≡ N + N) × Small 16777216 (N + N) values.now }
    ensures { (i : ℕ) → i < N → get_or result i (pos 0)
        ≡ known_value (get_or word.now i false) (get_or values.now i (pos 0))
        (get_or values.now (N + i) (pos 0)) }
{
    let (first, second) = values.split_at(N);
    // A `for`: `arrays::filled` was tried, and its closure over a lent word did not prove.
    let mut out = [0i32; N];
    for i in 0..N {
        out[i] = known(word[i], first[i], second[i]);
    }
    out
}
