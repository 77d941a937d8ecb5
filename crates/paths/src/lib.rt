// The paths of a wide window, eight side by side: what each further v adds to their best scores.
#![tactic(auto)]

ghost use Rattle.std.specs.Prelude.{◌≡◌, Bool, false, [], ℕ, ◌+◌, ◌*◌, ◌%◌, ◌<◌, leb, pos, ◌+ℤ◌, ◌-ℤ◌, length, get_or, set};
ghost use Rattle.base.specs.Bit.{◌⊕◌, digit};
ghost use Rattle.folds.specs.Rows.{row_of, cell};
ghost use Rattle.values.specs.Value;
ghost use Rattle.values.specs.Value.{free_value, known_value, gain, Small};
ghost use Rattle.values.specs.Path.{path_number, place_at, value8, value9, value10, value11, after_at, value12, row_best};

/// Places 0 to 3 under bit 0 and under bit 1, the first half's word known and the second half free; row 1: where the bit of
/// the second of two places is the other one, as with v3 = 1.
pub fn places(values: &[i32], word: &[bool; 8]) -> [[i32; 8]; 2]
    requires { (length values.now ≡ 16) × Small 4194304 16 values.now }
    ensures { (o b : Bool) (i : ℕ) → i < 4 → place_at (row_of result o) i b
        ≡ free_value (known_value (get_or word.now i false ⊕ b) (get_or values.now i (pos 0))
        (get_or values.now (8 + i) (pos 0))) (known_value (get_or word.now (4 + i) false ⊕ (b ⊕ o))
        (get_or values.now (4 + i) (pos 0)) (get_or values.now (12 + i) (pos 0))) }
{
    let mut x = [[0i32; 8]; 2];
    for i in 0..4 {
        let p = value_folds::turned(word[i], values[i]);
        let q = value_folds::turned(word[4 + i], values[4 + i]);
        let a = values[8 + i] + p;
        let b = values[8 + i] - p;
        let c = values[12 + i] + q;
        let d = values[12 + i] - q;
        x[0][i] = value_folds::free(a, c);
        x[0][4 + i] = value_folds::free(b, d);
        x[1][i] = value_folds::free(a, d);
        x[1][4 + i] = value_folds::free(b, c);
    }
    x
}

// Of places 0 and 2, or 1 and 3, what paths with this v5 and this bit at the first one have.
fn seen(x: &[i32; 8], odd: usize) -> [i32; 8]
    requires { odd < 2 }
    ensures { (g a : Bool) → (get_or result (2 * digit g + digit a) (pos 0) ≡ place_at x.now odd a)
        × (get_or result (4 + (2 * digit g + digit a)) (pos 0) ≡ place_at x.now (2 + odd) (a ⊕ g)) }
{
    [
        x[odd],
        x[4 + odd],
        x[odd],
        x[4 + odd],
        x[2 + odd],
        x[6 + odd],
        x[6 + odd],
        x[2 + odd],
    ]
}

// Four values as the eight paths have them: where v6 is 1 the bit at place 1 is the other one.
fn by_path(o: &[i32; 4]) -> [i32; 8]
    ensures { (d g a : Bool) → get_or result (path_number d g a) (pos 0)
        ≡ get_or o.now (2 * digit g + digit (a ⊕ d)) (pos 0) }
{
    [o[0], o[1], o[2], o[3], o[1], o[0], o[3], o[2]]
}

// Eight of them, four for each v6.
fn crossed(o: &[i32; 8]) -> [i32; 8]
    ensures { (d g a : Bool) → get_or result (path_number d g a) (pos 0)
        ≡ get_or o.now (path_number d g (a ⊕ d)) (pos 0) }
{
    [o[0], o[1], o[2], o[3], o[5], o[4], o[7], o[6]]
}

// The values of v8.
fn values8(even: &[i32; 4], odd: &[i32; 8]) -> [i32; 8]
    requires { Small 16777216 4 even.now × Small 16777216 8 odd.now }
    ensures { (i : ℕ) → i < 8 → get_or result i (pos 0)
        ≡ free_value (get_or even.now (i % 4) (pos 0)) (get_or odd.now i (pos 0)) }
{
    arrays::filled(0, |i| value_folds::free(even[i % 4], odd[i]))
}

// The values of v6 + v9.
fn values9(even: &[i32; 4], odd: &[i32; 8], v8: bool) -> [i32; 8]
    requires { Small 16777216 4 even.now × Small 16777216 8 odd.now }
    ensures { (i : ℕ) → i < 8 → get_or result i (pos 0)
        ≡ Value.turned (leb 4 i) (known_value v8 (get_or even.now (i % 4) (pos 0))
        (get_or odd.now i (pos 0))) }
{
    arrays::filled(0, |i| {
        value_folds::turned(4 <= i, value_folds::known(v8, even[i % 4], odd[i]))
    })
}

// Four places onto two with the first one's bit known, for v6 = 0 and for v6 = 1, where it is the other one.
fn both_known(p: &[i32; 8], bit: bool) -> [i32; 8]
    requires { Small 16777216 8 p.now }
    ensures { (d : Bool) (i : ℕ) → i < 4 → get_or result (4 * digit d + i) (pos 0)
        ≡ known_value (bit ⊕ d) (get_or p.now i (pos 0)) (get_or p.now (4 + i) (pos 0)) }
{
    let mut out = [0i32; 8];
    for i in 0..4 {
        let n = value_folds::turned(bit, p[i]);
        out[i] = p[4 + i] + n;
        out[4 + i] = p[4 + i] - n;
    }
    out
}

// v5 + v6 of each path.
const V5_AND_V6: [bool; 8] = [false, false, true, true, true, true, false, false];

// The values of v5 + v6 + v10.
fn values10(even: &[i32; 8], odd: &[i32; 8]) -> [i32; 8]
    requires { Small 16777216 8 even.now × Small 16777216 8 odd.now }
    ensures { (d g a : Bool) → get_or result (path_number d g a) (pos 0)
        ≡ Value.turned (g ⊕ d) (free_value (get_or even.now (path_number d g a) (pos 0))
        (get_or odd.now (path_number d g a) (pos 0))) }
{
    arrays::filled(
        0,
        |i| value_folds::turned(V5_AND_V6[i], value_folds::free(even[i], odd[i])),
    )
}

// The values of v11 after t = v5 + v6 + v10.
fn values11(even: &[i32; 8], odd: &[i32; 8], t: bool) -> [i32; 8]
    requires { Small 16777216 8 even.now × Small 16777216 8 odd.now }
    ensures { (d g a : Bool) → get_or result (path_number d g a) (pos 0)
        ≡ known_value (t ⊕ (g ⊕ d)) (get_or even.now (path_number d g a) (pos 0))
        (get_or odd.now (path_number d g a) (pos 0)) }
{
    arrays::filled(
        0,
        |i| value_folds::known(t != V5_AND_V6[i], even[i], odd[i]),
    )
}

// Place i of the four fours of a row,
fn put_four(row: [i32; 16], i: usize, a: i32, b: i32, c: i32, d: i32) -> [i32; 16]
    requires { i < 4 }
    ensures { result ≡ set (set (set (set row i a) (4 + i) b) (8 + i) c) (12 + i) d }
{
    let mut t = row;
    t[i] = a;
    t[4 + i] = b;
    t[8 + i] = c;
    t[12 + i] = d;
    t
}

// and of two rows; the second has the halves exchanged.
fn put_fours(rows: [[i32; 16]; 2], i: usize, a: i32, b: i32, c: i32, d: i32) -> [[i32; 16]; 2]
    requires { i < 4 }
    ensures two { length result ≡ 2 }
    ensures first { get_or result 0 []
        ≡ set (set (set (set (get_or rows 0 []) i a) (4 + i) b) (8 + i) c) (12 + i) d }
    ensures second { get_or result 1 []
        ≡ set (set (set (set (get_or rows 1 []) i c) (4 + i) d) (8 + i) a) (12 + i) b }
{
    let first = rows[0];
    let second = rows[1];
    [
        put_four(first, i, a, b, c, d),
        put_four(second, i, c, d, a, b),
    ]
}

/// Place i of four, under bit b of the first half's word and bit c of the word of v8 to v11: for v11 = 0, and for v11 = 1,
/// where c is the other one.
pub fn places_after(values: &[i32], word: &[bool; 8], v3: bool, next: &[bool; 4]) -> [[i32; 16]; 2]
    requires { (length values.now ≡ 16) × Small 4194304 16 values.now }
    ensures { (q c b : Bool) (i : ℕ) → i < 4 → after_at (row_of result q) i c b
        ≡ known_value (get_or next.now i false ⊕ (c ⊕ q))
        (known_value (get_or word.now i false ⊕ b) (get_or values.now i (pos 0))
        (get_or values.now (8 + i) (pos 0))) (known_value (get_or word.now (4 + i) false ⊕ (b ⊕ v3))
        (get_or values.now (4 + i) (pos 0)) (get_or values.now (12 + i) (pos 0))) }
{
    let mut t = [[0i32; 16]; 2];
    for i in 0..4 {
        let p = value_folds::turned(word[i], values[i]);
        let q = value_folds::turned(word[4 + i] != v3, values[4 + i]);
        let zero = value_folds::turned(next[i], values[8 + i] + p);
        let one = value_folds::turned(next[i], values[8 + i] - p);
        let a = values[12 + i] + q + zero;
        let b = values[12 + i] - q + one;
        let c = values[12 + i] + q - zero;
        let d = values[12 + i] - q - one;
        // By a local first: the checker does not take a call's result that is stored into an array the call reads.
        let filled = put_fours(t, i, a, b, c, d);
        t = filled;
    }
    t
}

// Place 0 of each path (a function for each place, since each is a table of its own),
fn place0(t: &[i32; 16]) -> [i32; 8]
    ensures { (d g a : Bool) → get_or result (path_number d g a) (pos 0) ≡ after_at t.now 0 g a }
{
    [t[0], t[4], t[8], t[12], t[0], t[4], t[8], t[12]]
}

// place 1,
fn place1(t: &[i32; 16]) -> [i32; 8]
    ensures { (d g a : Bool) → get_or result (path_number d g a) (pos 0)
        ≡ after_at t.now 1 d (a ⊕ d) }
{
    [t[1], t[5], t[1], t[5], t[13], t[9], t[13], t[9]]
}

// place 2
fn place2(t: &[i32; 16]) -> [i32; 8]
    ensures { (d g a : Bool) → get_or result (path_number d g a) (pos 0)
        ≡ after_at t.now 2 (g ⊕ d) (a ⊕ g) }
{
    [t[2], t[6], t[14], t[10], t[10], t[14], t[6], t[2]]
}

// and place 3.
fn place3(t: &[i32; 16]) -> [i32; 8]
    ensures { (d g a : Bool) → get_or result (path_number d g a) (pos 0)
        ≡ after_at t.now 3 false ((a ⊕ d) ⊕ g) }
{
    [t[3], t[7], t[7], t[3], t[7], t[3], t[3], t[7]]
}

// The four places of each path.
fn fours(t: &[i32; 16]) -> [[i32; 8]; 4]
    ensures { (d g a : Bool) → (get_or (get_or result 0 []) (path_number d g a) (pos 0)
        ≡ after_at t.now 0 g a) × (get_or (get_or result 1 []) (path_number d g a) (pos 0)
        ≡ after_at t.now 1 d (a ⊕ d)) × (get_or (get_or result 2 []) (path_number d g a) (pos 0)
        ≡ after_at t.now 2 (g ⊕ d) (a ⊕ g))
        × (get_or (get_or result 3 []) (path_number d g a) (pos 0)
        ≡ after_at t.now 3 false ((a ⊕ d) ⊕ g)) }
{
    [place0(t), place1(t), place2(t), place3(t)]
}

// The values of v12. A `for`, and not `filled`: for a closure the prover does not find what the inner folds require.
fn values12(x: &[[i32; 8]; 4]) -> [i32; 8]
    requires { Small 16777216 8 (get_or x.now 0 []) × Small 16777216 8 (get_or x.now 1 [])
        × Small 16777216 8 (get_or x.now 2 []) × Small 16777216 8 (get_or x.now 3 []) }
    ensures { (i : ℕ) → i < 8 → get_or result i (pos 0)
        ≡ free_value (free_value (get_or (get_or x.now 0 []) i (pos 0))
        (get_or (get_or x.now 2 []) i (pos 0))) (free_value (get_or (get_or x.now 1 []) i (pos 0))
        (get_or (get_or x.now 3 []) i (pos 0))) }
{
    let mut s = [0i32; 8];
    for i in 0..8 {
        s[i] = value_folds::free(
            value_folds::free(x[0][i], x[2][i]),
            value_folds::free(x[1][i], x[3][i]),
        );
    }
    s
}

// The rows of a phase: what its values add to the kept row, for symbol 0 and for symbol 1.
fn added(kept: &[i32; 8], values: &[i32; 8]) -> [[i32; 8]; 2]
    requires { Small 16777216 8 kept.now × Small 16777216 8 values.now }
    ensures { (i : ℕ) (b : Bool) → i < 8 → cell (pos 0) result i b ≡ get_or kept.now i (pos 0)
        +ℤ gain (get_or values.now i (pos 0)) b }
{
    let mut rows = [[0i32; 8]; 2];
    for i in 0..8 {
        let s = values[i];
        let zero = kept[i] + value_folds::below(s);
        rows[0][i] = zero;
        rows[1][i] = zero - s;
    }
    rows
}

// `step8` to `step11` are no twins: each phase has its own rule for the values, and they share the places and `added`.

/// The phase of v8.
pub fn step8(kept: &[i32; 8], x: &[i32; 8]) -> [[i32; 8]; 2]
    requires { Small 16777216 8 kept.now × Small 8388608 8 x.now }
    ensures { (b d g a : Bool) → cell (pos 0) result (path_number d g a) b
        ≡ get_or kept.now (path_number d g a) (pos 0) +ℤ gain (value8 x.now d g a) b }
{
    let even = value_folds::free_half(&seen(x, 0));
    let odd = value_folds::free_half(&seen(x, 1));
    added(kept, &values8(&even, &by_path(&odd)))
}

/// The phase of v6 + v9.
pub fn step9(kept: &[i32; 8], x: &[i32; 8], v8: bool) -> [[i32; 8]; 2]
    requires { Small 16777216 8 kept.now × Small 4194304 8 x.now }
    ensures { (b d g a : Bool) → cell (pos 0) result (path_number d g a) b
        ≡ get_or kept.now (path_number d g a) (pos 0) +ℤ gain (value9 x.now v8 d g a) b }
{
    let even = value_folds::free_half(&seen(x, 0));
    let odd = value_folds::free_half(&seen(x, 1));
    added(kept, &values9(&even, &by_path(&odd), v8))
}

/// The phase of v5 + v6 + v10, after u = v6 + v9.
pub fn step10(kept: &[i32; 8], x: &[i32; 8], v8: bool, u: bool) -> [[i32; 8]; 2]
    requires { Small 16777216 8 kept.now × Small 4194304 8 x.now }
    ensures { (b d g a : Bool) → cell (pos 0) result (path_number d g a) b
        ≡ get_or kept.now (path_number d g a) (pos 0) +ℤ gain (value10 x.now v8 u d g a) b }
{
    let even = both_known(&seen(x, 0), v8 != u);
    let odd = crossed(&both_known(&seen(x, 1), u));
    added(kept, &values10(&even, &odd))
}

/// The phase of v11, which the window keeps: one row for v11 = 0 and one for v11 = 1.
pub fn step11(kept: &[i32; 8], x: &[i32; 8], v8: bool, u: bool, t: bool) -> [[i32; 8]; 2]
    requires { Small 16777216 8 kept.now × Small 4194304 8 x.now }
    ensures { (b d g a : Bool) → cell (pos 0) result (path_number d g a) b
        ≡ get_or kept.now (path_number d g a) (pos 0) +ℤ gain (value11 x.now v8 u t d g a) b }
{
    let even = both_known(&seen(x, 0), v8 != u);
    let odd = crossed(&both_known(&seen(x, 1), u));
    added(kept, &values11(&even, &odd, t))
}

/// The phase of v12 for one v11.
pub fn step12(kept: &[i32; 8], t: &[i32; 16]) -> [[i32; 8]; 2]
    requires { Small 16777216 8 kept.now × Small 4194304 16 t.now }
    ensures { (b d g a : Bool) → cell (pos 0) result (path_number d g a) b
        ≡ get_or kept.now (path_number d g a) (pos 0) +ℤ gain (value12 t.now d g a) b }
{
    added(kept, &values12(&fours(t)))
}

// The greatest of four.
fn best4(row: &[i32; 4]) -> i32
    ensures { result
        ≡ Value.greater (Value.greater (get_or row.now 0 (pos 0)) (get_or row.now 1 (pos 0)))
        (Value.greater (get_or row.now 2 (pos 0)) (get_or row.now 3 (pos 0))) }
{
    row[0].max(row[1]).max(row[2].max(row[3]))
}

/// Of two rows the greater entry, path by path.
pub fn best_each(a: &[i32; 8], b: &[i32; 8]) -> [i32; 8]
    ensures { (i : ℕ) → i < 8 → get_or result i (pos 0)
        ≡ Value.greater (get_or a.now i (pos 0)) (get_or b.now i (pos 0)) }
{
    arrays::filled(0, |i| a[i].max(b[i]))
}

/// The greatest of eight.
pub fn best8(row: &[i32; 8]) -> i32
    ensures { result ≡ row_best row.now }
{
    best4(&arrays::filled(0, |i| row[i].max(row[4 + i])))
}

/// The greatest of row 0, less that of row 1.
pub fn lead(rows: &[[i32; 8]; 2]) -> i32
    requires { Small 16777216 8 (get_or rows.now 0 []) × Small 16777216 8 (get_or rows.now 1 []) }
    ensures { result ≡ row_best (get_or rows.now 0 []) -ℤ row_best (get_or rows.now 1 []) }
{
    let zero = best8(&rows[0]);
    let one = best8(&rows[1]);
    zero - one
}

/// The same over two blocks of eight.
pub fn lead_of_two(a: &[[i32; 8]; 2], b: &[[i32; 8]; 2]) -> i32
    requires { Small 16777216 8 (get_or a.now 0 []) × Small 16777216 8 (get_or a.now 1 [])
        × Small 16777216 8 (get_or b.now 0 []) × Small 16777216 8 (get_or b.now 1 []) }
    ensures { result ≡ Value.greater (row_best (get_or a.now 0 [])) (row_best (get_or b.now 0 []))
        -ℤ Value.greater (row_best (get_or a.now 1 [])) (row_best (get_or b.now 1 [])) }
{
    lead(&[best_each(&a[0], &b[0]), best_each(&a[1], &b[1])])
}
