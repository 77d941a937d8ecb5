// The first row of a wide window: the best scores of its paths, drawn from a Hadamard transform.
#![tactic(auto)]

ghost use Rattle.std.specs.Prelude.{◌≡◌, Bool, false, ℕ, ◌+◌, ◌*◌, ◌/◌, ◌≤◌, ◌<◌, T, pos, nat_abs, ◌+ℤ◌, ◌-ℤ◌, get_or};
ghost use Rattle.std.specs.Int.Signed.{non_neg};
ghost use Rattle.base.specs.Bit.{◌⊕◌, digit};
ghost use Rattle.polar.specs.Code.{sum};
ghost use Rattle.folds.specs.Rows.{cell};
ghost use Rattle.values.specs.Value;
ghost use Rattle.values.specs.Value.{gain, Small};
ghost use Rattle.hadamard.specs.Transform.{int_sum};
ghost use Rattle.values.specs.Path.{path_number, path_bit, path_bits};

// The sum of the sizes of N values.
fn sizes<const N: usize>(values: &[i32; N]) -> i32
    requires { (N ≤ 8) × Small 4194304 N values.now }
    ensures { result ≡ pos (sum N (λ i. nat_abs (get_or values.now i (pos 0)))) }
{
    let mut sum: u32 = 0;
    for x in values {
        sum += folds::size(*x);
    }
    sum as i32
}

// N values, turned where the word's bits are 1.
fn turned<const N: usize>(values: &[i32; N], word: &[bool; N]) -> [i32; N]
    requires { Small 16777216 N values.now }
    ensures { (i : ℕ) → i < N → get_or result i (pos 0)
        ≡ Value.turned (get_or word.now i false) (get_or values.now i (pos 0)) }
{
    // A `for`: `arrays::filled` was tried, and for any N its closure does not require what the call in it requires.
    let mut out = [0i32; N];
    for i in 0..N {
        out[i] = value_folds::turned(word[i], values[i]);
    }
    out
}

// The transform at a path's place, with the path's sign.
fn by_sign(h: &[i32; 4]) -> [i32; 8]
    requires { Small 16777216 4 h.now }
    ensures { (d g a : Bool) → get_or result (path_number d g a) (pos 0)
        ≡ Value.turned a (get_or h.now (2 * digit g + digit d) (pos 0)) }
{
    let d = h[1];
    let g = h[2];
    [h[0], -h[0], g, -g, d, -d, h[3], -h[3]]
}

// Half of a number that is not negative.
fn half(x: i32) -> i32
    requires { T (non_neg x) }
    ensures { result ≡ pos (nat_abs x / 2) }
{
    (x as u32 / 2) as i32
}

// The best scores of eight paths, counted on from base: half of what the transform, with the path's sign, lacks of the sum of
// sizes is paid.
fn path_row(h: &[i32; 4], sizes: i32, base: i32) -> [i32; 8]
    requires small { Small 16777216 4 h.now × (nat_abs sizes ≤ 16777216)
        × (nat_abs base ≤ 16777216) }
    requires t { (d g a : Bool)
        → T (non_neg (sizes -ℤ Value.turned a (get_or h.now (2 * digit g + digit d) (pos 0)))) }
    ensures { (d g a : Bool) → get_or result (path_number d g a) (pos 0) ≡ base
        -ℤ pos (nat_abs (sizes
        -ℤ Value.turned a (get_or h.now (2 * digit g + digit d) (pos 0))) / 2) }
{
    let signed = by_sign(h);
    // A `for`: `arrays::filled` was tried, and what its closure requires over all paths did not prove.
    let mut out = [0i32; 8];
    for n in 0..8 {
        out[n] = base - half(sizes - signed[n]);
    }
    out
}

/// The first row of eight paths over four values: base, and what the values add under the word and the path's bits.
pub fn first_row(values: &[i32; 4], word: &[bool; 4], base: i32) -> [i32; 8]
    requires { Small 4194304 4 values.now × (nat_abs base ≤ 16777216) }
    ensures { (d g a : Bool) → get_or result (path_number d g a) (pos 0) ≡ base
        +ℤ int_sum 4 (λ i. gain (get_or values.now i (pos 0)) (get_or word.now i false
        ⊕ path_bit d g a i)) }
{
    let h = hadamard::hadamard4(&turned(values, word));
    path_row(&h, sizes(values), base)
}

/// The first rows of sixteen paths over eight values: one row for v3 = 0 and one for v3 = 1.
pub fn first_rows(values: &[i32; 8], word: &[bool; 8]) -> [[i32; 8]; 2]
    requires { Small 2097152 8 values.now }
    ensures { (o d g a : Bool) → cell (pos 0) result (path_number d g a) o
        ≡ int_sum 8 (λ i. gain (get_or values.now i (pos 0)) (get_or word.now i false
        ⊕ path_bits o d g a i)) }
{
    let h = hadamard::hadamard8(&turned(values, word));
    let sizes = sizes(values);
    let zero = path_row(&h[0], sizes, 0);
    let one = path_row(&h[1], sizes, 0);
    [zero, one]
}
