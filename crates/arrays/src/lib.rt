// Fixed arrays whose entries are told by their index.
#![tactic(auto)]

ghost use Rattle.std.specs.Prelude.{ℕ, ◌<◌, get_or};

/// An array of N entries, entry i being what `entry` makes of i. The array is first filled with `first`.
pub fn filled<T: Copy, const N: usize, F: Fn(usize) -> T>(first: T, entry: F) -> [T; N]
    requires { (i : ℕ) → i < N → F.pre entry i }
    ensures { (i : ℕ) (d : T) → i < N → F.post entry i (get_or result i d) }
{
    // Not std's `array::from_fn`: its contract does not reach a clause that names the entries.
    let mut out = [first; N];
    for i in 0..N {
        out[i] = entry(i);
    }
    out
}
