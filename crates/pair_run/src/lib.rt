// The run of two layers: row after row, sixteen outer kernels side by side and the inner one over their scores.
// A kernel is its number, below 3: public functions take it so, and it indexes tables as it stands.
#![tactic(auto)]

ghost use Rattle.std.specs.Prelude.{◌≡◌, ◌+◌, ◌≤◌, ◌<◌, length};
ghost use Rattle.std.proofs.Math.Seq.{paste};
ghost use Rattle.lane.specs.Lanes.{LanesWithin};
ghost use Rattle.pair_run.specs.Run.{PairRun};

/// Writes sixteen scores from a place on. A loop: they come in registers, where `copy_from_slice` would have them in memory.
pub fn store_scores(found: [i32; 16], at: usize, out: &mut [i32])
    requires { at + 16 ≤ length out.old }
    ensures { out.new ≡ paste out.old at found 16 }
{
    for i in 0..16 {
        out[at + i] = found[i];
    }
}

/// The symbols of a run, and those of its outer kernels as planes.
#[derive(Clone, Copy, Debug, PartialEq, Eq)]
pub struct Pair {
    pub symbols: [u16; 16],
    pub planes: [u16; 16],
}

/// At each row the outer kernels' scores are the inner kernel's values, and the word of its symbols goes back to them. A symbol is
/// the sign of its score where it is free, else the one that is given. Scores are written from a place on.
pub fn pair_run(
    inner: usize,
    outer: usize,
    costs: &[[[u16; 16]; 2]; 16],
    free: [u16; 16],
    given: [u16; 16],
    at: usize,
    scores: &mut [i32],
) -> Pair
    requires { (inner < 3) × (outer < 3) × LanesWithin 2032 costs.now × (at + 256 ≤ length scores.old) }
    ensures { PairRun inner outer costs.now free given result.symbols result.planes at scores.new scores.old }
{
    // Its parameters stay: docs/ARCHITECTURE.md names it.
    let shapes = step::shapes_of(outer);
    let tables = step::tables_of(outer);
    let matrix = kernel::kernel_rows(inner as u8);
    let flags = lane::flags();
    let halves = lane_nodes::free_eight(costs);
    let mut symbols = [0u16; 16];
    let mut planes = [0u16; 16];
    let mut rows = [[[0u16; 16]; 2]; 16];
    for r in 0..16 {
        let found = lane_step::step(
            outer, r, shapes[r], &flags, &tables[r], costs, &halves, &planes, &mut rows,
        );
        let row = hadamard_run::hadamard_run(inner, &found, free[r], given[r]);
        store_scores(row.scores, at + r * 16, scores);
        symbols[r] = row.symbols;
        planes[r] = kernel::row_sum(matrix, row.symbols);
    }
    Pair { symbols, planes }
}
