// One run of a kernel: its sixteen phases in order, each symbol given or free.
// A kernel is its number, below 3: public functions take it so, and it indexes tables as it stands.
#![tactic(auto)]

ghost use Rattle.std.specs.Prelude.{◌≡◌, [], ◌<◌, length, get_or};
ghost use Rattle.base.specs.Bit;
ghost use Rattle.bits.specs.Packed.{bits};
ghost use Rattle.polar.specs.Code.{pay};
ghost use Rattle.folds.specs.Range.{value_limit, first_outside};
ghost use Rattle.windows.specs.Tables.{shape_table, path_table};
ghost use Rattle.run.specs.Run.{with_bit, symbol_by, KernelRun};

/// Sixteen bits with bit i set where b says so.
pub fn with_bit(x: u16, i: usize, b: bool) -> u16
    requires { i < 16 }
    ensures { bits 16 result ≡ with_bit (bits 16 x) i b }
{
    if b { bits::with_word_bit(x, i) } else { x }
}

/// What a score pays for a symbol.
pub fn paid(score: i32, symbol: bool) -> u32
    ensures { result ≡ pay score symbol }
{
    if symbol == (score < 0) {
        0
    } else {
        folds::size(score)
    }
}

/// Symbol i by its source: the sign of the score where it is free, else the one that is given.
pub fn symbol_of(free: u16, given: u16, i: usize, score: i32) -> bool
    requires { i < 16 }
    ensures { result ≡ symbol_by (Bit.bit (bits 16 free) i) (Bit.bit (bits 16 given) i) score }
{
    if bits::word_bit(free as u32, i) {
        score < 0
    } else {
        bits::word_bit(given as u32, i)
    }
}

/// The symbols and scores of a run.
#[derive(Clone, Copy, Debug, PartialEq, Eq)]
pub struct Run {
    pub symbols: u16,
    pub scores: [i32; 16],
}

/// A kernel's run over sixteen channel values: at each phase the two rows of best scores, their difference as the score, and the
/// symbol by its source.
pub fn kernel_run(
    kernel: usize,
    shapes: &[[u8; 2]; 16],
    tables: &[[u16; 16]; 16],
    values: &[i32],
    free: u16,
    given: u16,
) -> Run
    requires kernel_bound { kernel < 3 }
    requires shapes_value { (shapes.now ≡ get_or shape_table kernel [])
        × (tables.now ≡ get_or path_table kernel []) }
    requires values_len { (length values.now ≡ 16) × (first_outside value_limit values.now ≡ 16) }
    ensures { KernelRun kernel values.now free given result.symbols result.scores }
{
    let costs = folds::cost_rows(values);
    let mut symbols: u16 = 0;
    let mut scores = [0i32; 16];
    let mut rows = [[0i32; 16]; 2];
    let mut own = false;
    for s in 0..16 {
        let shape = shapes[s];
        let next = step::step(kernel, s, shape, &tables[s], &costs, symbols, rows, own);
        let score = step::difference(&next, step::path_count(shape, s));
        own = symbol_of(free, given, s, score);
        scores[s] = score;
        symbols = with_bit(symbols, s, own);
        rows = next;
    }
    Run { symbols, scores }
}
