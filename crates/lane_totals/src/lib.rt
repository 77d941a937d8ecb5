// The least totals of a phase of sixteen kernels side by side, lane by lane. A lane that lacks the rows of the phase before, where
// these are asked for, gets no totals, and the others get theirs.
// A kernel is its number, below 3: public functions take it so, and it indexes tables as it stands.
#![tactic(auto)]

ghost use Rattle.std.specs.Prelude.{◌≡◌, true, false, [], ℕ, ◌-◌, ◌^◌, ◌≤◌, ◌<◌, get_or, length};
ghost use Rattle.windows.specs.Tables.{shape_table, shape_at};
ghost use Rattle.lane.specs.Lanes.{LanesWithin};
ghost use Rattle.lane_phases.specs.Rows.{HeldLane, KeptLane};
ghost use Rattle.lane_step.specs.Step.{Halves};
ghost use Rattle.lane_totals.specs.Totals.{Again, TablesOf, LeastLane};

// One phase of each lane: it leaves the rows of this phase, and hands back the number of its paths.
// Its parameters are those of `totals` and of `lane_step::next_rows`, which keep theirs: a struct would be made to be taken apart.
fn stepped(
    kernel: usize,
    phase: usize,
    shapes: &[[u8; 2]; 16],
    tables: &[[u16; 16]; 16],
    costs: &[[[u16; 16]; 2]; 16],
    halves: &[[[u16; 16]; 2]; 16],
    planes: &[u16; 16],
    rows: &mut [[[u16; 16]; 2]; 16],
) -> usize
    requires kernel_bound { (kernel < 3) × (phase < 16) }
    requires tables_of { TablesOf kernel shapes.now tables.now }
    requires lanes_within { LanesWithin 2047 costs.now × LanesWithin 4095 halves.now × Halves costs.now halves.now }
    ensures paths { result ≡ 2 ^ (shape_at kernel phase 0 - phase) }
    ensures held { (l : ℕ) → l < 16 → (0 < phase → Again kernel phase → KeptLane kernel costs.now planes.now phase rows.old l) → HeldLane kernel costs.now planes.now phase rows.new l }
{
    let shape = shapes[phase];
    let flags = lane::flags();
    lane_step::next_rows(
        kernel,
        phase,
        shape,
        &flags,
        &tables[phase],
        costs,
        halves,
        planes,
        rows,
    );
    step::path_count(shape, phase)
}

/// The least totals of a phase in each lane, with symbol 0 and with symbol 1; it leaves the rows of this phase.
// Its parameters stay: docs/ARCHITECTURE.md names it.
pub fn totals(
    kernel: usize,
    phase: usize,
    shapes: &[[u8; 2]; 16],
    tables: &[[u16; 16]; 16],
    costs: &[[[u16; 16]; 2]; 16],
    halves: &[[[u16; 16]; 2]; 16],
    planes: &[u16; 16],
    rows: &mut [[[u16; 16]; 2]; 16],
) -> [[u16; 16]; 2]
    requires kernel_bound { (kernel < 3) × (phase < 16) }
    requires tables_of { TablesOf kernel shapes.now tables.now }
    requires lanes_within { LanesWithin 2047 costs.now × LanesWithin 4095 halves.now × Halves costs.now halves.now }
    ensures room { length rows.new ≡ 16 }
    ensures lanes { (l : ℕ) → l < 16 → (0 < phase → Again kernel phase → KeptLane kernel costs.now planes.now phase rows.old l) → HeldLane kernel costs.now planes.now phase rows.new l × LeastLane kernel costs.now planes.now phase result l }
{
    let paths = stepped(kernel, phase, shapes, tables, costs, halves, planes, rows);
    lane_rows::least_pair(rows, paths)
}

/// Whether the relations of a phase reach no further than before. Never so at phase 0.
pub fn again(kernel: usize, shapes: &[[u8; 2]; 16], phase: usize) -> bool
    requires { (kernel < 3) × (phase < 16) × (shapes.now ≡ get_or shape_table kernel []) }
    ensures { (result ≡ true → (0 < phase) × Again kernel phase) × (result ≡ false → shape_at kernel phase 1 ≡ 0) }
{
    shapes[phase][1] != 0
}

/// The last phase up to this one whose relations reach further than those before it: rows can be made anew from there.
pub fn opening(kernel: usize, shapes: &[[u8; 2]; 16], phase: usize) -> usize
    requires { (kernel < 3) × (phase < 16) × (shapes.now ≡ get_or shape_table kernel []) }
    ensures { (result ≤ phase) × (shape_at kernel result 1 ≡ 0) × ((q : ℕ) → result < q → q ≤ phase → Again kernel q) }
{
    let mut q = phase;
    // A while: phase 0 ends it at the latest, and a search backwards would need an answer for none.
    while again(kernel, shapes, q) {
        q -= 1;
    }
    q
}

/// The totals of a phase, with the phases from `first` on stepped before it over the same symbols.
// Its parameters are those of `totals`, and the first phase.
pub fn totals_from(
    kernel: usize,
    first: usize,
    phase: usize,
    shapes: &[[u8; 2]; 16],
    tables: &[[u16; 16]; 16],
    costs: &[[[u16; 16]; 2]; 16],
    halves: &[[[u16; 16]; 2]; 16],
    planes: &[u16; 16],
    rows: &mut [[[u16; 16]; 2]; 16],
) -> [[u16; 16]; 2]
    requires kernel_bound { (kernel < 3) × (phase < 16) × (first ≤ phase) }
    requires tables_of { TablesOf kernel shapes.now tables.now }
    requires lanes_within { LanesWithin 2047 costs.now × LanesWithin 4095 halves.now × Halves costs.now halves.now }
    ensures room { length rows.new ≡ 16 }
    ensures lanes { (l : ℕ) → l < 16 → (0 < first → Again kernel first → KeptLane kernel costs.now planes.now first rows.old l) → HeldLane kernel costs.now planes.now phase rows.new l × LeastLane kernel costs.now planes.now phase result l }
{
    for q in first..phase {
        stepped(kernel, q, shapes, tables, costs, halves, planes, rows);
    }
    totals(kernel, phase, shapes, tables, costs, halves, planes, rows)
}
