// What the values of sixteen kernels side by side pay, a lane for each kernel.
#![tactic(auto)]

ghost use Rattle.std.specs.Prelude.{◌≡◌, Bool, true, false, ℕ, ◌+◌, ◌*◌, ◌≤◌, ◌<◌, pos, nat_abs, length, get_or};
ghost use Rattle.polar.specs.Code.{pay, channel};
ghost use Rattle.folds.specs.Range.{first_outside};
ghost use Rattle.folds.specs.Rows.{cell};
ghost use Rattle.lane.specs.Lanes.{lane_costs, LanesWithin};

// Channel values 256g to 256g + 255.
fn wide_values(values: &[i8], g: usize) -> [i32; 256]
    requires { (256 * g + 256 ≤ length values.now) × (length values.now ≤ 4096) }
    ensures { (i : ℕ) → i < 256 → get_or result i (pos 0) ≡ get_or values.now (256 * g + i) (pos 0) }
{
    arrays::filled(0, |i| i32::from(values[256 * g + i]))
}

// What a value pays for bit 1,
fn above(y: i16) -> u16
    requires { nat_abs y ≤ 2047 }
    ensures { result ≡ pay y true }
{
    y.max(0) as u16
}

// and for bit 0: as the negative pays for bit 1, so that both are vector maxima.
fn below(y: i16) -> u16
    requires { nat_abs y ≤ 2047 }
    ensures { result ≡ pay y false }
{
    above(0 - y)
}

// The values at place t of the kernels, in sixteen bits, for which the processor has a vector maximum.
fn lane_values(values: &[i32; 256], t: usize) -> [i16; 16]
    requires { ((i : ℕ) → i < 256 → nat_abs (get_or values.now i (pos 0)) ≤ 2047) × (t < 16) }
    ensures { (j : ℕ) → j < 16 → get_or result j (pos 0) ≡ get_or values.now (16 * j + t) (pos 0) }
{
    arrays::filled(0, |j| values[16 * j + t] as i16)
}

// What the values at place t of the kernels pay for bit 0 and for bit 1.
fn place_costs(values: &[i32; 256], t: usize) -> [[u16; 16]; 2]
    requires { ((i : ℕ) → i < 256 → nat_abs (get_or values.now i (pos 0)) ≤ 2047) × (t < 16) }
    ensures { (j : ℕ) (b : Bool) → j < 16 → cell 0 result j b ≡ channel values.now (16 * j + t) b }
{
    let ys = lane_values(values, t);
    let mut out = [[0u16; 16]; 2];
    for j in 0..16 {
        out[0][j] = below(ys[j]);
        out[1][j] = above(ys[j]);
    }
    out
}

/// What each value pays, by place, bit and lane; kernel j has values 16j to 16j + 15.
pub fn value_costs(values: &[i32; 256]) -> [[[u16; 16]; 2]; 16]
    requires { (i : ℕ) → i < 256 → nat_abs (get_or values.now i (pos 0)) ≤ 2047 }
    ensures costs { (j t : ℕ) (c : Bool) → j < 16 → t < 16 → lane_costs result j t c ≡ channel values.now (16 * j + t) c }
    ensures within { (n : ℕ) → ((i : ℕ) → i < 256 → nat_abs (get_or values.now i (pos 0)) ≤ n) → LanesWithin n result }
{
    let mut out = [[[0u16; 16]; 2]; 16];
    for (t, o) in out.iter_mut().enumerate() {
        *o = place_costs(values, t);
    }
    out
}

/// The same of channel values 256g to 256g + 255.
pub fn outer_costs(values: &[i8], g: usize) -> [[[u16; 16]; 2]; 16]
    requires { (256 * g + 256 ≤ length values.now) × (length values.now ≤ 4096) × (first_outside 127 values.now ≡ length values.now) }
    ensures { ((j t : ℕ) (c : Bool) → j < 16 → t < 16 → lane_costs result j t c ≡ channel values.now (256 * g + (16 * j + t)) c) × LanesWithin 127 result }
{
    let wide = wide_values(values, g);
    value_costs(&wide)
}
