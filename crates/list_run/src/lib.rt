// The run of a list of paths over a frame: row after row, the outer kernels of each path, and the inner kernels of all paths over
// their least totals. Between two phases the paths stand in the records of the scratch bytes.
// A kernel is its number, below 3: public functions take it so, and it indexes tables as it stands.
#![tactic(auto)]

ghost use Rattle.std.specs.Prelude.{◌≡◌, [], ℕ, ◌+◌, ◌*◌, ◌≤◌, ◌<◌, length, get_or, drop, set, true, false};
ghost use Rattle.base.specs.Bit;
ghost use Rattle.bits.specs.Packed.{bits};
ghost use Rattle.folds.specs.Range.{first_outside};
ghost use Rattle.folds.specs.Rows.{select};
ghost use Rattle.path.specs.Path.{HasSymbols, path_at};
ghost use Rattle.windows.specs.Tables.{shape_at};
ghost use Rattle.lane.specs.Lanes.{LanesWithin};
ghost use Rattle.lane_phases.specs.Rows.{HeldLane, KeptLane};
ghost use Rattle.lane_step.specs.Step.{Halves};
ghost use Rattle.lane_totals.specs.Totals.{Again, TablesOf, LeastLane};
ghost use Rattle.lane_moves.specs.Moves.{Twins};
ghost use Rattle.list_step.specs.Step.{KeptRow, Lanes};
ghost use Rattle.list_step.specs.Marked.{Clean};
ghost use Rattle.list_run.specs.Run.{marked_of, pair_of, RowCosts, Advanced, RowDone, NextPlanes, ListRun};
ghost use Rattle.list_run.specs.declared.Turn.TheVariants.{Skip};

use path::Path;

// The outer kernels of a run: their tables, and what the values pay, by kernel, with its fold onto eight.
#[derive(Clone, Copy)]
struct OuterKernels<'a> {
    kernel: usize,
    shapes: &'a [[u8; 2]; 16],
    tables: &'a [[u16; 16]; 16],
    costs: &'a [[[u16; 16]; 2]; 16],
    halves: &'a [[[u16; 16]; 2]; 16],
    ghost tables_of: { (kernel < 3) × TablesOf kernel shapes.now tables.now },
    ghost pays: { (length costs.now ≡ 16) × LanesWithin 127 costs.now × LanesWithin 4095 halves.now × Halves costs.now halves.now },
}

impl<'a> OuterKernels<'a> {
    // The least totals of phase r of the sixteen kernels over a path's planes. It leaves their rows.
    fn totals(
        &self,
        r: usize,
        planes: &[u16; 16],
        rows: &mut [[[u16; 16]; 2]; 16],
    ) -> [[u16; 16]; 2]
        requires { r < 16 }
        ensures room { length rows.new ≡ 16 }
        ensures lanes { (l : ℕ) → l < 16 → (0 < r → Again self.now.kernel r → KeptLane self.now.kernel self.now.costs.now planes.now r rows.old l) → HeldLane self.now.kernel self.now.costs.now planes.now r rows.new l × LeastLane self.now.kernel self.now.costs.now planes.now r result l }
    {
        lane_totals::totals(
            self.kernel,
            r,
            self.shapes,
            self.tables,
            self.costs,
            self.halves,
            planes,
            rows,
        )
    }
}

// The lanes of row r: of each path the least totals of its sixteen outer kernels. It leaves their rows. A clause gives the
// length of the rows in `held`: the type of a lent array of arrays gives that of the outer one alone. Here and below planes and held
// stand apart, as each is lent by itself.
fn row_costs(
    outer: &OuterKernels,
    r: usize,
    n: usize,
    planes: &[[u16; 16]; 8],
    held: &mut [[[[u16; 16]; 2]; 16]; 8],
) -> [[[u16; 16]; 2]; 16]
    requires r_bound { (r < 16) × (n ≤ 8) }
    requires held_len { (i : ℕ) → i < 8 → length (get_or held.old i []) ≡ 16 }
    requires kept_lane { 0 < r → Again outer.now.kernel r → (i j : ℕ) → i < n → j < 16 → KeptLane outer.now.kernel outer.now.costs.now (get_or planes.now i []) r (get_or held.old i []) j }
    ensures { RowCosts outer.now.kernel outer.now.costs.now r n planes.now held.new result }
{
    let mut pairs = [[[0u16; 16]; 2]; 8];
    for i in 0..n {
        pairs[i] = outer.totals(r, &planes[i], &mut held[i]);
    }
    lane_moves::lanes_of(&pairs)
}

// A row of the inner kernel: the kernel, its tables, the row, and how many paths the list may have.
#[derive(Clone, Copy)]
struct InnerRow<'a> {
    kernel: usize,
    number: usize,
    list: usize,
    shapes: &'a [[u8; 2]; 16],
    tables: &'a [[u16; 16]; 16],
    ghost within: { (kernel < 3) × (number < 16) × (1 ≤ list) × (list ≤ 8) },
    ghost tables_of: { TablesOf kernel shapes.now tables.now },
}

// The list between two phases of a row: the lanes of its paths, the path at the row's beginning that each one went on from, how many
// paths there are, and whether the phase before was stepped.
#[derive(Drop)]
struct RowState<'a> {
    costs: &'a mut [[[u16; 16]; 2]; 16],
    halves: &'a mut [[[u16; 16]; 2]; 16],
    rows: &'a mut [[[u16; 16]; 2]; 16],
    home: [usize; 8],
    count: usize,
    stepped: bool,
    ghost lanes: { Lanes costs.now halves.now rows.now },
    ghost few: { (1 ≤ count) × (count ≤ 8) },
    ghost homes: { length home ≡ 8 },
}

// What is done at a phase: nothing; all paths go on with 0; every path splits in two; or this is done at two phases at once.
#[derive(Clone, Copy, Debug, PartialEq, Eq)]
enum Turn {
    Skip,
    Freeze,
    Split,
    SplitTwice,
}

impl Turn {
    // Whether the phase is marked.
    fn is_marked(self) -> bool
        ensures { result ≡ marked_of self }
    {
        match self {
            Turn::Skip | Turn::Freeze => false,
            Turn::Split | Turn::SplitTwice => true,
        }
    }

    // How many phases are taken at once.
    fn phase_count(self) -> usize
        ensures { (result ≡ select 1 2 (pair_of self)) × (1 ≤ result) × (result ≤ 2) }
    {
        match self {
            Turn::Skip | Turn::Freeze | Turn::Split => 1,
            Turn::SplitTwice => 2,
        }
    }
}

impl<'a> InnerRow<'a> {
    // Whether phases s and s + 1 are both marked and the second one makes its own rows.
    fn paired(&self, marks: u16, s: usize) -> bool
        requires { s < 16 }
        ensures { result ≡ true → (s < 15) × (Bit.bit (bits 16 marks) s ≡ true) × (Bit.bit (bits 16 marks) (s + 1) ≡ true) × (shape_at self.now.kernel (s + 1) 1 ≡ 0) }
    {
        if 14 < s {
            return false;
        }
        let here = bits::word_bit(u32::from(marks), s);
        let next = bits::word_bit(u32::from(marks), s + 1);
        here & next & !lane_totals::again(self.kernel, self.shapes, s + 1)
    }

    // What is done at phase s. An unmarked one is skipped before the last, and frozen there: so penalties are there at the row's end.
    fn turn_at(&self, marks: u16, s: usize) -> Turn
        requires { s < 16 }
        ensures marked { marked_of result ≡ Bit.bit (bits 16 marks) s }
        ensures pair { pair_of result ≡ true → (s < 15) × (Bit.bit (bits 16 marks) s ≡ true) × (Bit.bit (bits 16 marks) (s + 1) ≡ true) × (shape_at self.now.kernel (s + 1) 1 ≡ 0) }
        ensures skip { result ≡ Skip → s < 15 }
    {
        if self.paired(marks, s) {
            return Turn::SplitTwice;
        }
        if bits::word_bit(u32::from(marks), s) {
            return Turn::Split;
        }
        if s < 15 { Turn::Skip } else { Turn::Freeze }
    }

    // Takes phase s, or two phases from s on. The symbols of a skipped phase are 0 already.
    fn take(&self, s: usize, turn: Turn, scratch: &mut [u8], state: &mut RowState)
        requires s_bound { (s < 16) × (4096 ≤ length scratch.old) × (turn ≡ Skip → s < 15) × (pair_of turn ≡ true → (s < 15) × (shape_at self.now.kernel (s + 1) 1 ≡ 0)) }
        requires s_nonzero { state.old.stepped ≡ true → (0 < s) × ((i : ℕ) → i < state.old.count → KeptRow self.now.kernel state.old.costs.now state.old.rows.now scratch.old self.now.number s i) }
        requires clean_2 { Clean (16 * self.now.number + s) state.old.count scratch.old }
        ensures rest { (length scratch.new ≡ length scratch.old) × (drop 4096 scratch.new ≡ drop 4096 scratch.old) }
        ensures clean { Clean (16 * self.now.number + (s + select 1 2 (pair_of turn))) state.new.count scratch.new }
        ensures advanced { Advanced self.now.kernel self.now.number s self.now.list (marked_of turn) (pair_of turn) state.old.count scratch.old state.old.costs.now state.old.halves.now state.old.rows.now state.old.home state.new.count scratch.new state.new.costs.now state.new.halves.now state.new.rows.now state.new.home }
    {
        match turn {
            Turn::Skip => {}
            Turn::Freeze | Turn::Split => {
                state.count = list_step::one_phase(
                    self.kernel,
                    self.number,
                    s,
                    turn.is_marked(),
                    state.stepped,
                    self.list,
                    state.count,
                    self.shapes,
                    self.tables,
                    scratch,
                    state.costs,
                    state.halves,
                    state.rows,
                    &mut state.home,
                );
            }
            Turn::SplitTwice => {
                state.count = list_step::two_phases(
                    self.kernel,
                    self.number,
                    s,
                    self.list,
                    state.count,
                    self.shapes,
                    self.tables,
                    scratch,
                    state.costs,
                    state.halves,
                    state.rows,
                    &mut state.home,
                );
            }
        }
    }

    // The phases of the row, with each path as its own home at first.
    fn phases(&self, marks: u16, scratch: &mut [u8], state: &mut RowState)
        requires begins { (state.old.stepped ≡ false) × ((i : ℕ) → i < 8 → get_or state.old.home i 0 ≡ i) }
        requires clean_2 { (4096 ≤ length scratch.old) × Clean (16 * self.now.number) state.old.count scratch.old }
        ensures { RowDone self.now.kernel self.now.number self.now.list (λ s. Bit.bit (bits 16 marks) s) state.old.count scratch.old state.old.costs.now state.new.count scratch.new state.new.home }
    {
        let mut s: usize = 0;
        // A while: it takes one phase or two at a turn.
        while s < 16 {
            let turn = self.turn_at(marks, s);
            self.take(s, turn, scratch, state);
            state.stepped = turn.is_marked();
            s += turn.phase_count();
        }
    }
}

// The phases of a row, over the lanes of its paths. Answers how many paths there are then, and leaves the home of each: the path at the
// row's beginning that it went on from.
fn row_phases(
    row: &InnerRow,
    marks: u16,
    n: usize,
    lanes: [[[u16; 16]; 2]; 16],
    scratch: &mut [u8],
    home: &mut [usize; 8],
) -> usize
    requires n_bound { (1 ≤ n) × (n ≤ 8) × (4096 ≤ length scratch.old) }
    requires lanes_within { LanesWithin 2047 lanes × ((i : ℕ) → i < 8 → get_or home.old i 0 ≡ i) × Clean (16 * row.now.number) n scratch.old × Twins 16 lanes }
    ensures { RowDone row.now.kernel row.now.number row.now.list (λ s. Bit.bit (bits 16 marks) s) n scratch.old lanes result scratch.new home.new }
{
    let mut costs = lanes;
    let mut halves = lane_nodes::free_eight(&costs);
    let mut rows = [[[0u16; 16]; 2]; 16];
    let mut state = RowState {
        costs: &mut costs,
        halves: &mut halves,
        rows: &mut rows,
        home: *home,
        count: n,
        stepped: false,
    };
    row.phases(marks, scratch, &mut state);
    *home = state.home;
    state.count
}

// The list before the first phase: one path, with no symbol.
fn first_path(scratch: &mut [u8])
    requires { 4096 ≤ length scratch.old }
    ensures path { HasSymbols [] (path_at 0 scratch.new) }
    ensures rest { (length scratch.new ≡ length scratch.old) × (drop 4096 scratch.new ≡ drop 4096 scratch.old) }
{
    let none = Path {
        symbols: [0u8; 32],
        penalty: 0,
    };
    path::store(scratch, 0, none);
}

// The planes with the word of row r.
fn with_word(planes: [u16; 16], r: usize, word: u16) -> [u16; 16]
    requires { r < 16 }
    ensures { result ≡ set planes r word }
{
    let mut out = planes;
    out[r] = word;
    out
}

// The planes of each path with the word of row r, after those of its home. A count beside the arrays, here and below: a list has
// room for eight paths, and n of them now.
fn next_planes(
    matrix: [u16; 16],
    r: usize,
    n: usize,
    scratch: &[u8],
    home: &[usize; 8],
    planes: &[[u16; 16]; 8],
) -> [[u16; 16]; 8]
    requires r_bound { (r < 16) × (n ≤ 8) × (4096 ≤ length scratch.now) × ((i : ℕ) → i < n → get_or home.now i 0 < 8) }
    requires by_index { (i : ℕ) → i < 8 → length (get_or planes.now i []) ≡ 16 }
    ensures next { NextPlanes matrix r n scratch.now home.now planes.now result }
    ensures room { (i : ℕ) → i < 8 → length (get_or result i []) ≡ 16 }
{
    let mut out = [[0u16; 16]; 8];
    for i in 0..n {
        let word = kernel::row_sum(matrix, path::row_word(scratch, i, r));
        out[i] = with_word(planes[home[i]], r, word);
    }
    out
}

// The outer kernels' rows of each path are those of its home.
fn move_held(n: usize, home: &[usize; 8], held: &mut [[[[u16; 16]; 2]; 16]; 8])
    requires { (n ≤ 8) × ((i : ℕ) → i < n → get_or home.now i 0 < 8) × ((i : ℕ) → i < 8 → length (get_or held.old i []) ≡ 16) }
    ensures room { (i : ℕ) → i < 8 → length (get_or held.new i []) ≡ 16 }
    ensures moved { (i : ℕ) → i < n → get_or held.new i [] ≡ get_or held.old (get_or home.now i 0) [] }
{
    let old = *held;
    for i in 0..n {
        held[i] = old[home[i]];
    }
}

// The same where the phase after r asks for them.
fn next_held(
    outer: &OuterKernels,
    r: usize,
    n: usize,
    home: &[usize; 8],
    held: &mut [[[[u16; 16]; 2]; 16]; 8],
)
    requires r_bound { (r < 16) × (n ≤ 8) × ((i : ℕ) → i < n → get_or home.now i 0 < 8) × ((i : ℕ) → i < 8 → length (get_or held.old i []) ≡ 16) }
    ensures room { (i : ℕ) → i < 8 → length (get_or held.new i []) ≡ 16 }
    ensures moved { r < 15 → Again outer.now.kernel (r + 1) → (i : ℕ) → i < n → get_or held.new i [] ≡ get_or held.old (get_or home.now i 0) [] }
{
    if r < 15 && lane_totals::again(outer.kernel, outer.shapes, r + 1) {
        move_held(n, home, held);
    }
}

/// The run: up to `list` paths over 256 values, with a mask of sixteen rows. Answers how many paths there are at the end; record i has
/// path i, with its penalty.
pub fn list_run(
    inner: usize,
    outer: usize,
    list: usize,
    values: &[i8],
    marks: [u16; 16],
    scratch: &mut [u8],
) -> usize
    requires inner_bound { (inner < 3) × (outer < 3) × (1 ≤ list) × (list ≤ 8) × (4096 ≤ length scratch.old) }
    requires values_len { (length values.now ≡ 256) × (first_outside 127 values.now ≡ 256) }
    ensures rest { (length scratch.new ≡ length scratch.old) × (drop 4096 scratch.new ≡ drop 4096 scratch.old) }
    ensures list { ListRun inner outer list values.now marks result scratch.new }
{
    let matrix = kernel::kernel_rows(inner as u8);
    let costs = lane_costs::outer_costs(values, 0);
    let kernels = OuterKernels {
        kernel: outer,
        shapes: &step::shapes_of(outer),
        tables: &step::tables_of(outer),
        costs: &costs,
        halves: &lane_nodes::free_eight(&costs),
    };
    let shapes = step::shapes_of(inner);
    let tables = step::tables_of(inner);
    first_path(scratch);
    let mut planes = [[0u16; 16]; 8];
    let mut held = [[[[0u16; 16]; 2]; 16]; 8];
    let mut n: usize = 1;
    for r in 0..16 {
        let lanes = row_costs(&kernels, r, n, &planes, &mut held);
        let mut home: [usize; 8] = [0, 1, 2, 3, 4, 5, 6, 7];
        let row = InnerRow {
            kernel: inner,
            number: r,
            list,
            shapes: &shapes,
            tables: &tables,
        };
        n = row_phases(&row, marks[r], n, lanes, scratch, &mut home);
        // By a local first: the checker does not take a call's result that is stored into an array the call reads.
        let next = next_planes(matrix, r, n, scratch, &home, &planes);
        planes = next;
        next_held(&kernels, r, n, &home, &mut held);
    }
    n
}
