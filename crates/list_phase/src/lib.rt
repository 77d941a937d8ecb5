// The next list of paths, in the records: after a marked phase the chosen candidates, after unmarked phases the same paths.
#![tactic(auto)]

ghost use Rattle.std.specs.Prelude.{◌≡◌, ℕ, ◌≤◌, ◌<◌, length, drop, get_or};
ghost use Rattle.path.specs.Path.{path_at};
ghost use Rattle.list_phase.specs.Next.{Candidate, Frozen, no_path};

use path::Path;

// Candidate c: its parent with its symbol and its penalty.
fn candidate(scratch: &[u8], at: usize, c: usize, penalty: u16) -> Path
    requires { (at < 256) × (c < 16) × (4096 ≤ length scratch.now) }
    ensures { Candidate at c penalty scratch.now result }
{
    let parent = path::load(scratch, c / 2);
    let longer = parent.extend(at, c % 2 == 1);
    longer.penalty(u32::from(penalty))
}

// The next list: entry j is candidate order[j]. The order and the penalties stand apart: the penalties are ranked as one vector.
fn new_list(
    scratch: &[u8],
    keep: usize,
    at: usize,
    order: &[usize; 16],
    pens: &[u16; 16],
) -> [Path; 8]
    requires { (keep ≤ 8) × (at < 256) × (4096 ≤ length scratch.now) × ((j : ℕ) → j < keep → get_or order.now j 0 < 16) }
    ensures { (j : ℕ) → j < keep → Candidate at (get_or order.now j 0) (get_or pens.now (get_or order.now j 0) 0) scratch.now (get_or result j no_path) }
{
    let mut list = [Path {
        symbols: [0u8; 32],
        penalty: 0,
    }; 8];
    for j in 0..keep {
        let c = order[j];
        list[j] = candidate(scratch, at, c, pens[c]);
    }
    list
}

// Stores the first paths of a list, each as its record.
fn store_list(scratch: &mut [u8], keep: usize, list: [Path; 8])
    requires { (keep ≤ 8) × (4096 ≤ length scratch.old) }
    ensures { (length scratch.new ≡ length scratch.old) × (drop 4096 scratch.new ≡ drop 4096 scratch.old) × ((j : ℕ) → j < keep → path_at j scratch.new ≡ get_or list j no_path) }
{
    for j in 0..keep {
        path::store(scratch, j, list[j]);
    }
}

/// The next list: entry j is the parent of candidate order[j], with that candidate's symbol and penalty. It is made whole
/// before any record is overwritten.
pub fn next_list(scratch: &mut [u8], keep: usize, at: usize, order: &[usize; 16], pens: &[u16; 16])
    requires { (keep ≤ 8) × (at < 256) × (4096 ≤ length scratch.old) × ((j : ℕ) → j < keep → get_or order.now j 0 < 16) }
    ensures { (length scratch.new ≡ length scratch.old) × (drop 4096 scratch.new ≡ drop 4096 scratch.old) × ((j : ℕ) → j < keep → Candidate at (get_or order.now j 0) (get_or pens.now (get_or order.now j 0) 0) scratch.old (path_at j scratch.new)) }
{
    let list = new_list(scratch, keep, at, order, pens);
    store_list(scratch, keep, list);
}

// The path after unmarked phases.
fn frozen(p: Path, penalty: u16) -> Path
    ensures { Frozen penalty p result }
{
    p.freeze(u32::from(penalty))
}

/// The list after unmarked phases: each path's penalty is the one given.
pub fn freeze_list(scratch: &mut [u8], n: usize, pens: &[u16; 16])
    requires { (n ≤ 8) × (4096 ≤ length scratch.old) }
    ensures { (length scratch.new ≡ length scratch.old) × (drop 4096 scratch.new ≡ drop 4096 scratch.old) × ((i : ℕ) → i < n → Frozen (get_or pens.now i 0) (path_at i scratch.old) (path_at i scratch.new)) }
{
    // A count: the records lie in one buffer.
    for i in 0..n {
        let before = path::load(scratch, i);
        let after = frozen(before, pens[i]);
        path::store(scratch, i, after);
    }
}
