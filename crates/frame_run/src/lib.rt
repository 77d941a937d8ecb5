// The run of a frame of any number of layers: symbols and scores, and penalties added up from what the phases pay.
#![tactic(auto)]

ghost use Rattle.std.specs.Prelude.{◌≡◌, ℕ, ◌^◌, ◌≤◌, ◌<◌, pos, length, get_or};
ghost use Rattle.folds.specs.Range.{first_outside};
ghost use Rattle.frame_run.specs.Run.{Ready, Scored, FrameRun};

use plan::Plan;

// Sixteen channel values, as a kernel takes them.
fn kernel_values(values: &[i8]) -> [i32; 16]
    requires { length values.now ≡ 16 }
    ensures { (i : ℕ) → i < 16 → get_or result i (pos 0) ≡ get_or values.now i (pos 0) }
{
    arrays::filled(0, |i| i32::from(values[i]))
}

// One layer: the kernel's own run. Each run takes the parameters of `triple_run`, which is public: so no struct gathers them.
fn single_run(
    kernels: [u8; 3],
    values: &[i8],
    free: &[u16; 256],
    given: &[u16; 256],
    scores: &mut [i32],
) -> [u16; 256]
    requires { (get_or kernels 0 0 < 3) × (length values.now ≡ 16) × (first_outside 127 values.now ≡ 16) × (16 ≤ length scores.old) }
    ensures { Scored kernels 1 values.now free.now given.now result scores.new scores.old }
{
    let wide = kernel_values(values);
    let row = hadamard_run::hadamard_run(kernels[0] as usize, &wide, free[0], given[0]);
    scores[..16].copy_from_slice(&row.scores);
    let mut symbols = [0u16; 256];
    symbols[0] = row.symbols;
    symbols
}

// Two layers: sixteen outer kernels side by side around the inner one.
fn double_run(
    kernels: [u8; 3],
    values: &[i8],
    free: &[u16; 256],
    given: &[u16; 256],
    scores: &mut [i32],
) -> [u16; 256]
    requires { (get_or kernels 0 0 < 3) × (get_or kernels 1 0 < 3) × (length values.now ≡ 256) × (first_outside 127 values.now ≡ 256) × (256 ≤ length scores.old) }
    ensures { Scored kernels 2 values.now free.now given.now result scores.new scores.old }
{
    let costs = lane_costs::outer_costs(values, 0);
    let run = pair_run::pair_run(
        kernels[0] as usize,
        kernels[1] as usize,
        &costs,
        triple_run::rows_at(free, 0),
        triple_run::rows_at(given, 0),
        0,
        scores,
    );
    let mut symbols = [0u16; 256];
    symbols[..16].copy_from_slice(&run.symbols);
    symbols
}

// The run of m layers.
fn layers_run(
    m: usize,
    kernels: [u8; 3],
    values: &[i8],
    free: &[u16; 256],
    given: &[u16; 256],
    scores: &mut [i32],
) -> [u16; 256]
    requires le_m { (1 ≤ m) × (m ≤ 3) × ((i : ℕ) → i < m → get_or kernels i 0 < 3) }
    requires values_len { (length values.now ≡ 16 ^ m) × (first_outside 127 values.now ≡ 16 ^ m) × (16 ^ m ≤ length scores.old) }
    ensures { Scored kernels m values.now free.now given.now result scores.new scores.old }
{
    match m {
        1 => single_run(kernels, values, free, given, scores),
        2 => double_run(kernels, values, free, given, scores),
        3 => triple_run::triple_run(kernels, values, free, given, scores),
        // Not reached: the compiler does not merge a function that calls itself with callees that have large arrays, and so
        // a frame of few layers does not take the stack of the largest.
        _ => layers_run(m - 1, kernels, values, free, given, scores),
    }
}

/// The run of a frame: a symbol is the sign of its score where it is free, else the one that is given.
pub fn frame_run(
    plan: Plan,
    values: &[i8],
    free: &[u16; 256],
    given: &[u16; 256],
    scores: &mut [i32],
    penalties: &mut [u32],
) -> [u16; 256]
    requires { Ready plan values.now (length scores.old) (length penalties.old) }
    ensures { FrameRun plan values.now free.now given.now result scores.new scores.old penalties.new penalties.old }
{
    let symbols = layers_run(
        plan.layers as usize,
        plan.kernels,
        values,
        free,
        given,
        scores,
    );
    let n = plan::symbols(plan) / 16;
    penalty_sums::add_up(n, scores, &symbols, penalties);
    symbols
}
