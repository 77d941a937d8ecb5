// Costs of sixteen values, and the greatest of a row of best scores.
#![tactic(auto)]

ghost use Rattle.std.specs.Prelude.{◌≡◌, Bool, ℕ, ◌≤◌, ◌<◌, nat_abs, length};
ghost use Rattle.base.specs.Place.{FoundBelow};
ghost use Rattle.polar.specs.Code.{channel};
ghost use Rattle.folds.specs.Range.{first_outside};
ghost use Rattle.folds.specs.Rows.{costs_of, Within, IsGreatest};

/// The size of a number.
pub fn size(y: i32) -> u32
    ensures { result ≡ nat_abs y }
{
    y.unsigned_abs()
}

/// The lowest index whose value lies outside -limit to limit, if there is one.
pub fn first_outside(values: &[i32], limit: u32) -> Option<usize>
    ensures { FoundBelow (length values.now) (first_outside limit values.now) result }
{
    values.iter().position(|&y| limit < size(y))
}

/// What each of sixteen channel values pays for bit 0 and for bit 1.
pub fn cost_rows(values: &[i32]) -> [[u32; 16]; 2]
    requires { length values.now ≡ 16 }
    ensures costs { (j : ℕ) (b : Bool) → j < 16 → costs_of result j b ≡ channel values.now j b }
    ensures within { (n : ℕ) → first_outside n values.now ≡ 16 → Within n result }
{
    let mut out = [[0u32; 16]; 2];
    for i in 0..16 {
        let y = values[i];
        let paid = size(y);
        if y < 0 {
            out[0][i] = paid;
        } else {
            out[1][i] = paid;
        }
    }
    out
}

/// The greatest of the first n scores.
pub fn greatest(row: &[i32; 16], n: usize) -> i32
    requires { (0 < n) × (n ≤ 16) }
    ensures { IsGreatest row.now n result }
{
    // A count beside the row: a phase has room for sixteen paths.
    let mut m = row[0];
    for i in 1..n {
        m = m.max(row[i]);
    }
    m
}
