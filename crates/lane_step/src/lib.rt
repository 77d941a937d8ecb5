// One phase of sixteen kernels side by side: the least totals of all paths in each lane, from those of the phase before or folded
// anew. Between two phases it needs the values, the planes of the symbols and these rows.
// A kernel is its number, below 3: public functions take it so, and it indexes tables as it stands.
#![tactic(auto)]

ghost use Rattle.std.specs.Prelude.{◌≡◌, Bool, [], ℕ, ◌-◌, ◌*◌, ◌^◌, ◌≤◌, ◌<◌, pos, get_or, length};
ghost use Rattle.polar.specs.Code.{score};
ghost use Rattle.folds.specs.Rows.{cell};
ghost use Rattle.kernel.specs.Kernels.{kernel_code};
ghost use Rattle.kernel.specs.Rows.{chosen_bit};
ghost use Rattle.windows.specs.Tables.{shape_table, path_rows};
ghost use Rattle.lane.specs.Lanes.{lane_bits, lane_bit, word_at, lane_costs, LanesWithin};
ghost use Rattle.lane_phases.specs.Rows.{column, HeldLane, HeldLanes, KeptLane, KeptLanes};
ghost use Rattle.lane_step.specs.Step.{path_total, number_before, Halves};

use lane_words::Phase;

// The least totals of path w.
// The masks of the lanes are lent: see `lane::flags`.
fn path_totals(
    flags: &[u16; 16],
    phase: &Phase,
    nodes: &[[[u16; 16]; 2]; 16],
    words: [u16; 16],
    w: usize,
) -> [[u16; 16]; 2]
    requires { (flags.now ≡ lane_bits) × LanesWithin 4095 nodes.now × (w < 16) }
    ensures { (l : ℕ) (b : Bool) → l < 16 → cell 0 result l b ≡ path_total phase.now.table.now phase.now.number phase.now.high words nodes.now w l b }
{
    let c = phase.word(false, w);
    let mine = lane_words::with_plane(flags, words, c, 65535);
    let other = if phase.high < 8 { 0 } else { c };
    lane_paths::path_pair(flags, nodes, other, phase.high, &mine)
}

// The rows of a phase whose relations reach further, path by path.
fn all_paths(
    flags: &[u16; 16],
    phase: &Phase,
    nodes: &[[[u16; 16]; 2]; 16],
    words: [u16; 16],
    rows: &mut [[[u16; 16]; 2]; 16],
)
    requires { (flags.now ≡ lane_bits) × LanesWithin 4095 nodes.now }
    ensures { (w l : ℕ) (b : Bool) → w < 2 ^ (phase.now.high - phase.now.number) → l < 16 → lane_costs rows.new l w b ≡ path_total phase.now.table.now phase.now.number phase.now.high words nodes.now w l b }
{
    for w in 0..phase.paths() {
        rows[w] = path_totals(flags, phase, nodes, words, w);
    }
}

// The rows of a phase whose relations reach no further: in each lane a path was one of the phase before, in the row of the symbol
// that was chosen there.
fn again(
    flags: &[u16; 16],
    phase: &Phase,
    planes: &[u16; 16],
    words: [u16; 16],
    rows: &mut [[[u16; 16]; 2]; 16],
)
    requires flags_value { (flags.now ≡ lane_bits) × (0 < phase.now.number) × (phase.now.high - phase.now.number ≤ 3) }
    requires words_made { (j l : ℕ) → j < 16 → word_at words l j ≡ chosen_bit phase.now.table.now (λ s. lane_bit (get_or planes.now s 0) l) phase.now.number j }
    requires by_index { (w l : ℕ) (b : Bool) → w < 2 ^ (phase.now.high - phase.now.number) → number_before phase.now.table.now phase.now.number phase.now.high planes.now w l b < 2 * 2 ^ (phase.now.high - phase.now.number) }
    ensures { (w l : ℕ) (b : Bool) → w < 2 ^ (phase.now.high - phase.now.number) → l < 16 → lane_costs rows.new l w b ≡ lane_costs rows.old l (number_before phase.now.table.now phase.now.number phase.now.high planes.now w l b) (lane_bit (get_or planes.now (phase.now.number - 1) 0) l) }
{
    let numbers = lane_words::numbers_of(&words);
    let paths = phase.paths();
    let kept = lane_rows::kept_rows(flags, planes[phase.number - 1], 2 * paths, rows);
    for w in 0..paths {
        let first = phase.word(false, w);
        let second = phase.word(true, w);
        let zero = lane_rows::gathered(&numbers, first, &kept);
        let one = lane_rows::gathered(&numbers, second, &kept);
        rows[w] = [zero, one];
    }
}

/// The least totals of all paths with symbol 0 and with symbol 1 after a phase, in each lane: from those of the phase before and
/// the last plane, or folded from what the places pay and its fold onto eight. Lanes never mix: a lane whose rows before were not
/// kept has no sensible rows after, and the others have theirs.
// Its parameters are those of `step`. That the rows stay sixteen is said: see `lane_moves::rearrange`.
pub fn next_rows(
    kernel: usize,
    phase: usize,
    shape: [u8; 2],
    flags: &[u16; 16],
    table: &[u16; 16],
    costs: &[[[u16; 16]; 2]; 16],
    halves: &[[[u16; 16]; 2]; 16],
    planes: &[u16; 16],
    rows: &mut [[[u16; 16]; 2]; 16],
)
    requires kernel_bound { (kernel < 3) × (phase < 16) × (flags.now ≡ lane_bits) }
    requires shape_value { (shape ≡ get_or (get_or shape_table kernel []) phase []) × (table.now ≡ path_rows kernel phase) }
    requires lanes_within { LanesWithin 2047 costs.now × (get_or shape 0 0 < 8 → LanesWithin 4095 halves.now × Halves costs.now halves.now) }
    ensures room { length rows.new ≡ 16 }
    ensures held { (l : ℕ) → l < 16 → (0 < phase → (get_or shape 1 0 ≡ 0 → ⊥) → KeptLane kernel costs.now planes.now phase rows.old l) → HeldLane kernel costs.now planes.now phase rows.new l }
{
    let high = shape[0] as usize;
    let this_phase = Phase {
        table,
        number: phase,
        high,
    };
    // Tests in turn, and two calls of words_of: one alone is merged into this function, where the compiler sees the lanes' masks,
    // and then takes 33 instructions for a symbol in place of 20.
    if shape[1] != 0 {
        let words_before = lane_words::words_of(flags, table, planes, phase);
        again(flags, &this_phase, planes, words_before, rows);
        return;
    }
    let words = lane_words::words_of(flags, table, planes, phase);
    if high < 8 {
        all_paths(flags, &this_phase, halves, words, rows);
        return;
    }
    let mut nodes = [[[0u16; 16]; 2]; 16];
    lane_nodes::known_eight(flags, &words, phase < high, costs, &mut nodes);
    all_paths(flags, &this_phase, &nodes, words, rows);
}

/// One phase of all sixteen: it leaves the rows of this phase, and hands back the score of each lane. Rows of the phase before are
/// asked for where the phase's relations reach no further; any other phase makes its own, whatever stood there.
// Its parameters stay: docs/ARCHITECTURE.md names it.
pub fn step(
    kernel: usize,
    phase: usize,
    shape: [u8; 2],
    flags: &[u16; 16],
    table: &[u16; 16],
    costs: &[[[u16; 16]; 2]; 16],
    halves: &[[[u16; 16]; 2]; 16],
    planes: &[u16; 16],
    rows: &mut [[[u16; 16]; 2]; 16],
) -> [i32; 16]
    requires kernel_bound { (kernel < 3) × (phase < 16) × (flags.now ≡ lane_bits) }
    requires shape_value { (shape ≡ get_or (get_or shape_table kernel []) phase []) × (table.now ≡ path_rows kernel phase) }
    requires lanes_within { LanesWithin 2047 costs.now × LanesWithin 4095 halves.now × Halves costs.now halves.now }
    requires kept { 0 < phase → (get_or shape 1 0 ≡ 0 → ⊥) → KeptLanes kernel costs.now planes.now phase rows.old }
    ensures room { length rows.new ≡ 16 }
    ensures held { HeldLanes kernel costs.now planes.now phase rows.new }
    ensures scores { (l : ℕ) → l < 16 → get_or result l (pos 0) ≡ score (kernel_code kernel) (lane_costs costs.now l) (column planes.now phase l) }
{
    next_rows(
        kernel, phase, shape, flags, table, costs, halves, planes, rows,
    );
    let high = shape[0] as usize;
    lane_rows::scores(rows, 1 << (high - phase))
}
