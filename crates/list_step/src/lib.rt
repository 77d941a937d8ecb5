// One phase of a row for all paths of the list: the least totals of the inner kernel on each path, and the paths that stay.
// A kernel is its number, below 3: public functions take it so, and it indexes tables as it stands.
#![tactic(auto)]

ghost use Rattle.std.specs.Prelude.{◌≡◌, Bool, true, false, [], ◌∷◌, ◌++◌, ℕ, ◌+◌, ◌*◌, ◌/◌, ◌%◌, ◌≤◌, ◌<◌, min, length, get_or, drop};
ghost use Rattle.bits.specs.Packed.{bits};
ghost use Rattle.polar.specs.Code.{least};
ghost use Rattle.folds.specs.Rows.{cell};
ghost use Rattle.kernel.specs.Kernels.{kernel_code};
ghost use Rattle.windows.specs.Tables.{shape_table, path_table, shape_at};
ghost use Rattle.windows.specs.Paths.{Held};
ghost use Rattle.lane.specs.Lanes.{lane_costs};
ghost use Rattle.lane_phases.specs.Rows.{score_rows};
ghost use Rattle.list_step.specs.Step.{row_symbols, KeptRow, PlacesPay, Lanes, PhaseStep, TwoSteps};
ghost use Rattle.list_step.specs.Marked.{Clean, Penalties, Marked};
ghost use Rattle.list_step.specs.Two.{lane_of, Settled, SettledTwo};

// The symbols of row r on each of n paths.
fn row_words(scratch: &[u8], n: usize, r: usize) -> [u16; 16]
    requires { (n ≤ 8) × (r < 16) × (4096 ≤ length scratch.now) }
    ensures { (i : ℕ) → i < n → bits 16 (get_or result i 0) ≡ row_symbols scratch.now r 16 i }
{
    let mut words = [0u16; 16];
    for i in 0..n {
        words[i] = path::row_word(scratch, i, r);
    }
    words
}

// A phase of a row: the inner kernel, the row, the phase's number, and the kernel's tables.
#[derive(Clone, Copy)]
struct RowPhase<'a> {
    kernel: usize,
    row: usize,
    number: usize,
    shapes: &'a [[u8; 2]; 16],
    tables: &'a [[u16; 16]; 16],
    ghost within: { (kernel < 3) × (row < 16) × (number < 16) },
    ghost tables_of: { (shapes.now ≡ get_or shape_table kernel []) × (tables.now ≡ get_or path_table kernel []) },
}

impl<'a> RowPhase<'a> {
    // The least totals of the phase on each of n paths, with symbol 0 and with symbol 1. Where the phase before was stepped its rows
    // are there; else they are made from the last phase on that needs none. What it takes but the phase is what
    // `lane_totals::totals_from` takes.
    fn totals(
        &self,
        stepped: bool,
        n: usize,
        scratch: &[u8],
        costs: &[[[u16; 16]; 2]; 16],
        halves: &[[[u16; 16]; 2]; 16],
        rows: &mut [[[u16; 16]; 2]; 16],
    ) -> [[u16; 16]; 2]
        requires n_bound { (n ≤ 8) × (4096 ≤ length scratch.now) }
        requires lanes { Lanes costs.now halves.now rows.old }
        requires s_nonzero { stepped ≡ true → (0 < self.now.number) × ((i : ℕ) → i < n → KeptRow self.now.kernel costs.now rows.old scratch.now self.now.row self.now.number i) }
        ensures held { (i : ℕ) → i < n → Held self.now.kernel (lane_costs costs.now i) (row_symbols scratch.now self.now.row self.now.number i) (score_rows rows.new i) }
        ensures totals { (i : ℕ) (b : Bool) → i < n → cell 0 result i b ≡ least (kernel_code self.now.kernel) (lane_costs costs.now i) (row_symbols scratch.now self.now.row self.now.number i ++ (b ∷ [])) }
    {
        let words = row_words(scratch, n, self.row);
        let planes = lane_moves::planes_of(&words);
        let first = if stepped {
            self.number
        } else {
            lane_totals::opening(self.kernel, self.shapes, self.number)
        };
        lane_totals::totals_from(
            self.kernel,
            first,
            self.number,
            self.shapes,
            self.tables,
            costs,
            halves,
            &planes,
            rows,
        )
    }

    // The least totals of the next phase: in lane i of path i with symbol 0 at this one, in lane 8 + i of the same path with symbol 1.
    // The next phase makes its own rows.
    fn next_totals(
        &self,
        n: usize,
        scratch: &[u8],
        costs: &[[[u16; 16]; 2]; 16],
        halves: &[[[u16; 16]; 2]; 16],
        rows: &mut [[[u16; 16]; 2]; 16],
    ) -> [[u16; 16]; 2]
        requires next_bound { (self.now.number < 15) × (shape_at self.now.kernel (self.now.number + 1) 1 ≡ 0) × (n ≤ 8) × (4096 ≤ length scratch.now) }
        requires lanes { Lanes costs.now halves.now rows.old }
        ensures held { (i : ℕ) (b : Bool) → i < n → Held self.now.kernel (lane_costs costs.now (lane_of i b)) (row_symbols scratch.now self.now.row self.now.number i ++ (b ∷ [])) (score_rows rows.new (lane_of i b)) }
        ensures totals { (i : ℕ) (b c : Bool) → i < n → cell 0 result (lane_of i b) c ≡ least (kernel_code self.now.kernel) (lane_costs costs.now (lane_of i b)) ((row_symbols scratch.now self.now.row self.now.number i ++ (b ∷ [])) ++ (c ∷ [])) }
    {
        let words = row_words(scratch, n, self.row);
        let single = lane_moves::planes_of(&words);
        let planes = lane_moves::twin_planes(&single, self.number);
        lane_totals::totals(
            self.kernel,
            self.number + 1,
            self.shapes,
            self.tables,
            costs,
            halves,
            &planes,
            rows,
        )
    }
}

// The penalties of the candidates, path after path, with symbol 0 and with symbol 1. Of those that there are not it is no less than
// any penalty.
fn candidate_penalties(pair: &[[u16; 16]; 2], n: usize) -> [u16; 16]
    requires { n ≤ 8 }
    ensures { Penalties pair.now n result }
{
    let mut out = [32766u16; 16];
    for i in 0..n {
        out[2 * i] = pair[0][i];
        out[2 * i + 1] = pair[1][i];
    }
    out
}

// The path that each of the first eight candidates goes on from.
fn parents(order: &[usize; 16]) -> [usize; 16]
    ensures { (j : ℕ) → j < 8 → get_or result j 0 ≡ get_or order.now j 0 / 2 }
{
    arrays::filled(0, |j| order[j] / 2)
}

// Whether one of n paths goes on from another position. It looks at all of them: mostly none has moved. A count beside the array
// here and below, as `lane_moves::rearrange` takes both.
fn is_moved(from: &[usize; 16], n: usize) -> bool
    requires { n ≤ 8 }
    ensures { result ≡ false → (j : ℕ) → j < n → get_or from.now j 0 ≡ j }
{
    let mut moved = false;
    for j in 0..n {
        moved |= from[j] != j;
    }
    moved
}

// Each path's home is that of the path it goes on from.
fn moved_home(home: [usize; 8], from: &[usize; 16]) -> [usize; 8]
    requires { (j : ℕ) → j < 8 → get_or from.now j 0 < 8 }
    ensures { (j : ℕ) → j < 8 → get_or result j 0 ≡ get_or home (get_or from.now j 0) 0 }
{
    arrays::filled(0, |j| home[from[j]])
}

// The rows of so many paths in a window: each of n lanes takes over those of the lane it goes on from.
fn move_rows(from: &[usize; 16], n: usize, paths: usize, rows: &mut [[[u16; 16]; 2]; 16])
    requires { (n ≤ 8) × (paths ≤ 16) × ((j : ℕ) → j < 8 → get_or from.now j 0 < 16) }
    ensures { (j t : ℕ) (c : Bool) → j < n → t < paths → lane_costs rows.new j t c ≡ lane_costs rows.old (get_or from.now j 0) t c }
{
    if !is_moved(from, n) {
        return;
    }
    lane_moves::rearrange(rows, paths, from);
}

// What the places pay, and homes, where each of n paths takes over those of the path it goes on from.
fn move_costs(
    from: &[usize; 16],
    n: usize,
    costs: &mut [[[u16; 16]; 2]; 16],
    halves: &mut [[[u16; 16]; 2]; 16],
    home: &mut [usize; 8],
)
    requires { (n ≤ 8) × ((j : ℕ) → j < 8 → get_or from.now j 0 < 8) × PlacesPay costs.old halves.old }
    ensures lanes { PlacesPay costs.new halves.new }
    ensures costs { (j t : ℕ) (c : Bool) → j < n → t < 16 → lane_costs costs.new j t c ≡ lane_costs costs.old (get_or from.now j 0) t c }
    ensures home { (j : ℕ) → j < n → get_or home.new j 0 ≡ get_or home.old (get_or from.now j 0) 0 }
{
    if !is_moved(from, n) {
        return;
    }
    lane_moves::rearrange(costs, 16, from);
    *halves = lane_nodes::free_eight(costs);
    let old = *home;
    *home = moved_home(old, from);
}

// The lanes after a phase of so many paths in its window: each of n paths takes over the lane of the path it goes on from.
// They are lent one by one, as in `marked_phase`.
fn follow_parents(
    from: &[usize; 16],
    n: usize,
    paths: usize,
    costs: &mut [[[u16; 16]; 2]; 16],
    halves: &mut [[[u16; 16]; 2]; 16],
    rows: &mut [[[u16; 16]; 2]; 16],
    home: &mut [usize; 8],
)
    requires { (n ≤ 8) × (paths ≤ 16) × ((j : ℕ) → j < 8 → get_or from.now j 0 < 8) × Lanes costs.old halves.old rows.old }
    ensures lanes { Lanes costs.new halves.new rows.new }
    ensures costs { (j t : ℕ) (c : Bool) → j < n → t < 16 → lane_costs costs.new j t c ≡ lane_costs costs.old (get_or from.now j 0) t c }
    ensures rows { (j t : ℕ) (c : Bool) → j < n → t < paths → lane_costs rows.new j t c ≡ lane_costs rows.old (get_or from.now j 0) t c }
    ensures home { (j : ℕ) → j < n → get_or home.new j 0 ≡ get_or home.old (get_or from.now j 0) 0 }
{
    move_rows(from, n, paths, rows);
    move_costs(from, n, costs, halves, home);
}

// The records after a marked phase, from the least totals on its paths. Answers the order of the candidates.
fn settle(
    at: usize,
    list: usize,
    n: usize,
    pair: &[[u16; 16]; 2],
    scratch: &mut [u8],
) -> [usize; 16]
    requires at_bound { (at < 256) × (1 ≤ list) × (list ≤ 8) × (1 ≤ n) × (n ≤ 8) × (4096 ≤ length scratch.old) }
    requires by_index { (i : ℕ) (b : Bool) → i < n → cell 0 pair.now i b ≤ 32766 }
    ensures rest { (length scratch.new ≡ length scratch.old) × (drop 4096 scratch.new ≡ drop 4096 scratch.old) }
    ensures settled { Settled at list n pair.now scratch.old result scratch.new }
{
    let pens = candidate_penalties(pair, n);
    let order = ranking::in_order(&pens);
    list_phase::next_list(scratch, ranking::kept(list, n), at, &order, &pens);
    order
}

// A marked phase, from the least totals on its paths: every path splits in two, and those that stay take over lanes and homes.
// Lent one by one: with a struct made from parameters, what they hold at its end could not be proved.
fn marked_phase(
    at: usize,
    list: usize,
    n: usize,
    paths: usize,
    pair: &[[u16; 16]; 2],
    scratch: &mut [u8],
    costs: &mut [[[u16; 16]; 2]; 16],
    halves: &mut [[[u16; 16]; 2]; 16],
    rows: &mut [[[u16; 16]; 2]; 16],
    home: &mut [usize; 8],
) -> usize
    requires at_bound { (at < 256) × (1 ≤ list) × (list ≤ 8) × (1 ≤ n) × (n ≤ 8) × (paths ≤ 16) × (4096 ≤ length scratch.old) }
    requires by_index { (i : ℕ) (b : Bool) → i < n → cell 0 pair.now i b ≤ 32766 }
    requires lanes_2 { Lanes costs.old halves.old rows.old }
    ensures lanes { Lanes costs.new halves.new rows.new }
    ensures rest { (length scratch.new ≡ length scratch.old) × (drop 4096 scratch.new ≡ drop 4096 scratch.old) }
    ensures marked { Marked at list n paths pair.now scratch.old costs.old rows.old home.old result scratch.new costs.new rows.new home.new }
{
    let order = settle(at, list, n, pair, scratch);
    let from = parents(&order);
    let keep = ranking::kept(list, n);
    follow_parents(&from, keep, paths, costs, halves, rows, home);
    keep
}

/// Phase s of row r: the paths of the list go on, at a marked phase with both symbols, else with 0. Answers how many there are then.
// Its parameters stay, flags too: docs/ARCHITECTURE.md names it. The length of `home` is said, since a run of the list builds its
// state from it.
pub fn one_phase(
    inner: usize,
    r: usize,
    s: usize,
    marked: bool,
    stepped: bool,
    list: usize,
    n: usize,
    shapes: &[[u8; 2]; 16],
    tables: &[[u16; 16]; 16],
    scratch: &mut [u8],
    costs: &mut [[[u16; 16]; 2]; 16],
    halves: &mut [[[u16; 16]; 2]; 16],
    rows: &mut [[[u16; 16]; 2]; 16],
    home: &mut [usize; 8],
) -> usize
    requires inner_bound { (inner < 3) × (r < 16) × (s < 16) × (1 ≤ list) × (list ≤ 8) × (1 ≤ n) × (n ≤ 8) × (4096 ≤ length scratch.old) }
    requires shapes_value { (shapes.now ≡ get_or shape_table inner []) × (tables.now ≡ get_or path_table inner []) }
    requires lanes_2 { Lanes costs.old halves.old rows.old }
    requires s_nonzero { stepped ≡ true → (0 < s) × ((i : ℕ) → i < n → KeptRow inner costs.old rows.old scratch.old r s i) }
    requires clean_2 { Clean (16 * r + s) n scratch.old }
    ensures lanes { Lanes costs.new halves.new rows.new × (length home.new ≡ 8) }
    ensures rest { (length scratch.new ≡ length scratch.old) × (drop 4096 scratch.new ≡ drop 4096 scratch.old) }
    ensures clean { Clean (16 * r + (s + 1)) result scratch.new }
    ensures phase { PhaseStep inner r s list marked n scratch.old costs.old home.old result scratch.new costs.new rows.new home.new }
{
    let phase = RowPhase {
        kernel: inner,
        row: r,
        number: s,
        shapes,
        tables,
    };
    let pair = phase.totals(stepped, n, scratch, costs, halves, rows);
    if !marked {
        list_phase::freeze_list(scratch, n, &pair[0]);
        return n;
    }
    let high = shapes[s][0] as usize;
    marked_phase(
        16 * r + s,
        list,
        n,
        1 << (high - s),
        &pair,
        scratch,
        costs,
        halves,
        rows,
        home,
    )
}

// Of eight lanes from `first` on the lesser total of the two symbols.
fn lesser_totals(pair: &[[u16; 16]; 2], first: usize) -> [u16; 16]
    requires { first ≤ 8 }
    ensures { (i : ℕ) → i < 8 → get_or result i 0 ≡ min (cell 0 pair.now (first + i) false) (cell 0 pair.now (first + i) true) }
{
    let mut out = [0u16; 16];
    for i in 0..8 {
        out[i] = pair[0][first + i].min(pair[1][first + i]);
    }
    out
}

// The lane of each of the first eight candidates.
fn chosen_lanes(order: &[usize; 16]) -> [usize; 16]
    ensures { (j : ℕ) → j < 8 → get_or result j 0 ≡ get_or order.now j 0 % 2 * 8 + get_or order.now j 0 / 2 }
{
    arrays::filled(0, |j| order[j] % 2 * 8 + order[j] / 2)
}

// The lane of the path that each of the first eight candidates goes on from.
fn parent_lanes(order: &[usize; 16], lanes: &[usize; 16]) -> [usize; 16]
    requires { (j : ℕ) → j < 8 → get_or order.now j 0 < 16 }
    ensures { (j : ℕ) → j < 8 → get_or result j 0 ≡ get_or lanes.now (get_or order.now j 0 / 2) 0 }
{
    let mut out = [0usize; 16];
    for j in 0..8 {
        out[j] = lanes[order[j] / 2];
    }
    out
}

// The records after two marked phases, from the least totals of the second one. Answers the lane of each path that stays.
fn settle_two(
    at: usize,
    list: usize,
    n: usize,
    pair: &[[u16; 16]; 2],
    scratch: &mut [u8],
) -> [usize; 16]
    requires at_bound { (at < 255) × (1 ≤ list) × (list ≤ 8) × (1 ≤ n) × (n ≤ 8) × (4096 ≤ length scratch.old) }
    requires by_index { (i : ℕ) (b c : Bool) → i < n → cell 0 pair.now (lane_of i b) c ≤ 32766 }
    ensures rest { (length scratch.new ≡ length scratch.old) × (drop 4096 scratch.new ≡ drop 4096 scratch.old) }
    ensures below { (j : ℕ) → j < 8 → get_or result j 0 < 16 }
    ensures settled { SettledTwo at list n pair.now scratch.old result scratch.new }
{
    let one = [lesser_totals(pair, 0), lesser_totals(pair, 8)];
    let first = settle(at, list, n, &one, scratch);
    let lanes = chosen_lanes(&first);
    let two = [
        lane_moves::moved_row(&pair[0], &lanes),
        lane_moves::moved_row(&pair[1], &lanes),
    ];
    let second = settle(at + 1, list, ranking::kept(list, n), &two, scratch);
    parent_lanes(&second, &lanes)
}

// The lane below eight that has the same path.
fn lower_lanes(from: &[usize; 16]) -> [usize; 16]
    ensures { (j : ℕ) → j < 8 → get_or result j 0 ≡ get_or from.now j 0 % 8 }
{
    arrays::filled(0, |j| from[j] % 8)
}

/// Phases s and s + 1 of row r, both marked, the second of which makes its own rows: only that one is stepped, for each path with
/// either symbol at phase s. Answers how many paths there are then.
// Its parameters stay: docs/ARCHITECTURE.md names it. No twin of `one_phase`: it steps the second phase alone, for both symbols of
// the first.
pub fn two_phases(
    inner: usize,
    r: usize,
    s: usize,
    list: usize,
    n: usize,
    shapes: &[[u8; 2]; 16],
    tables: &[[u16; 16]; 16],
    scratch: &mut [u8],
    costs: &mut [[[u16; 16]; 2]; 16],
    halves: &mut [[[u16; 16]; 2]; 16],
    rows: &mut [[[u16; 16]; 2]; 16],
    home: &mut [usize; 8],
) -> usize
    requires inner_bound { (inner < 3) × (r < 16) × (s < 15) × (1 ≤ list) × (list ≤ 8) × (1 ≤ n) × (n ≤ 8) × (4096 ≤ length scratch.old) × (shape_at inner (s + 1) 1 ≡ 0) }
    requires shapes_value { (shapes.now ≡ get_or shape_table inner []) × (tables.now ≡ get_or path_table inner []) }
    requires lanes_2 { Lanes costs.old halves.old rows.old }
    requires clean_2 { Clean (16 * r + s) n scratch.old }
    ensures lanes { Lanes costs.new halves.new rows.new × (length home.new ≡ 8) }
    ensures rest { (length scratch.new ≡ length scratch.old) × (drop 4096 scratch.new ≡ drop 4096 scratch.old) }
    ensures clean { Clean (16 * r + (s + 2)) result scratch.new }
    ensures phases { TwoSteps inner r s list n scratch.old costs.old home.old result scratch.new costs.new rows.new home.new }
{
    let phase = RowPhase {
        kernel: inner,
        row: r,
        number: s,
        shapes,
        tables,
    };
    let pair = phase.next_totals(n, scratch, costs, halves, rows);
    let from = settle_two(16 * r + s, list, n, &pair, scratch);
    let count = ranking::kept(list, ranking::kept(list, n));
    let high = shapes[s + 1][0] as usize;
    move_rows(&from, count, 1 << (high - (s + 1)), rows);
    let below = lower_lanes(&from);
    move_costs(&below, count, costs, halves, home);
    count
}
