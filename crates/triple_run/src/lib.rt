// The run of three layers: row after row, 256 outer kernels in sixteen groups side by side, and a run of two layers over their scores.
// A kernel is its number, below 3: public functions take it so, and it indexes tables as it stands.
#![tactic(auto)]

ghost use Rattle.std.specs.Prelude.{◌≡◌, [], ℕ, ◌+◌, ◌*◌, ◌≤◌, ◌<◌, length, get_or, set, pos, nat_abs};
ghost use Rattle.folds.specs.Range.{first_outside};
ghost use Rattle.kernel.specs.Kernels.{kernel_code};
ghost use Rattle.windows.specs.Tables.{shape_table, path_rows};
ghost use Rattle.lane.specs.Lanes.{lane_bits};
ghost use Rattle.triple_run.specs.Groups.{Room, Groups, Loaded, KeptGroups, HeldGroups, ScoresOf};
ghost use Rattle.triple_run.specs.Run.{Inside, TripleRun};

use pair_run::Pair;

// What the values of each group pay, and its fold onto eight places.
fn load_groups(
    values: &[i8],
    costs: &mut [[[[u16; 16]; 2]; 16]; 16],
    halves: &mut [[[[u16; 16]; 2]; 16]; 16],
)
    requires { (length values.now ≡ 4096) × (first_outside 127 values.now ≡ 4096) }
    ensures { Loaded values.now costs.new halves.new }
{
    for g in 0..16 {
        let found = lane_costs::outer_costs(values, g);
        halves[g] = lane_nodes::free_eight(&found);
        costs[g] = found;
    }
}

// One phase of all groups: it leaves their rows, and hands back the score of each kernel. Its parameters are those of
// `lane_step::step`, by group: a struct of them would be made to be taken apart.
fn stage(
    outer: usize,
    r: usize,
    shape: [u8; 2],
    flags: &[u16; 16],
    table: &[u16; 16],
    costs: &[[[[u16; 16]; 2]; 16]; 16],
    halves: &[[[[u16; 16]; 2]; 16]; 16],
    planes: &[[u16; 16]; 16],
    rows: &mut [[[[u16; 16]; 2]; 16]; 16],
) -> [i32; 256]
    requires outer_bound { (outer < 3) × (r < 16) × (flags.now ≡ lane_bits) }
    requires shape_value { (shape ≡ get_or (get_or shape_table outer []) r []) × (table.now ≡ path_rows outer r) }
    requires groups { Groups costs.now halves.now × Room rows.old × (0 < r → KeptGroups outer costs.now planes.now r rows.old) }
    ensures room { Room rows.new }
    ensures held { HeldGroups outer costs.now planes.now r rows.new }
    ensures scores { ScoresOf outer costs.now planes.now r 256 result }
{
    let mut out = [0i32; 256];
    for g in 0..16 {
        let found = lane_step::step(
            outer,
            r,
            shape,
            flags,
            table,
            &costs[g],
            &halves[g],
            &planes[g],
            &mut rows[g],
        );
        out[16 * g..16 * g + 16].copy_from_slice(&found);
    }
    out
}

/// Rows 16r to 16r + 15.
pub fn rows_at(rows: &[u16; 256], r: usize) -> [u16; 16]
    requires { r < 16 }
    ensures { (i : ℕ) → i < 16 → get_or result i 0 ≡ get_or rows.now (16 * r + i) 0 }
{
    arrays::filled(0, |i| rows[16 * r + i])
}

// Row g of the inner word is plane r of group g.
fn feed(word: [u16; 16], r: usize, planes: &mut [[u16; 16]; 16])
    requires { r < 16 }
    ensures { (g : ℕ) → g < 16 → get_or planes.new g [] ≡ set (get_or planes.old g []) r (get_or word g 0) }
{
    for g in 0..16 {
        planes[g][r] = word[g];
    }
}

// Row r of the two layers inside: a run over the scores of the outer kernels. Its parameters are those of `pair_run::pair_run`.
fn inside(
    inner: usize,
    middle: usize,
    found: &[i32; 256],
    free: &[u16; 256],
    given: &[u16; 256],
    r: usize,
    scores: &mut [i32],
) -> Pair
    requires inner_bound { (inner < 3) × (middle < 3) × (r < 16) × (256 * r + 256 ≤ length scores.old) }
    requires by_index { (i : ℕ) → i < 256 → nat_abs (get_or found.now i (pos 0)) ≤ 2032 }
    ensures { Inside inner middle found.now free.now given.now r result.symbols result.planes scores.new scores.old }
{
    let within = lane_costs::value_costs(found);
    pair_run::pair_run(
        inner,
        middle,
        &within,
        rows_at(free, r),
        rows_at(given, r),
        256 * r,
        scores,
    )
}

/// At each row the outer kernels' scores are the values of a run of the two layers inside them, and the word of its symbols goes
/// back to them. A symbol is the sign of its score where it is free, else the one that is given.
pub fn triple_run(
    kernels: [u8; 3],
    values: &[i8],
    free: &[u16; 256],
    given: &[u16; 256],
    scores: &mut [i32],
) -> [u16; 256]
    requires by_index { (i : ℕ) → i < 3 → get_or kernels i 0 < 3 }
    requires values_len { (length values.now ≡ 4096) × (first_outside 127 values.now ≡ 4096) × (4096 ≤ length scores.old) }
    ensures { TripleRun kernels values.now free.now given.now result scores.new scores.old }
{
    let inner = kernels[0] as usize;
    let middle = kernels[1] as usize;
    let outer = kernels[2] as usize;
    let shapes = step::shapes_of(outer);
    let tables = step::tables_of(outer);
    let matrix = kernel::kernel_rows(kernels[1]);
    let flags = lane::flags();
    let mut costs = [[[[0u16; 16]; 2]; 16]; 16];
    let mut halves = [[[[0u16; 16]; 2]; 16]; 16];
    load_groups(values, &mut costs, &mut halves);
    let mut symbols = [0u16; 256];
    let mut planes = [[0u16; 16]; 16];
    let mut rows = [[[[0u16; 16]; 2]; 16]; 16];
    for r in 0..16 {
        let found = stage(
            outer, r, shapes[r], &flags, &tables[r], &costs, &halves, &planes, &mut rows,
        );
        let row = inside(inner, middle, &found, free, given, r, scores);
        symbols[16 * r..16 * r + 16].copy_from_slice(&row.symbols);
        let word = grid::column_sums(matrix, row.planes);
        feed(word, r, &mut planes);
    }
    symbols
}
