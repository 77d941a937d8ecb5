// Kernel follow: the scores of a kernel's symbols.
// A kernel is its number, as requests name it.
#![tactic(auto)]

ghost use Rattle.std.specs.Prelude.{◌≡◌, ◌++◌, ◌≤◌, length, drop};
ghost use Rattle.answer.specs.Verdict.{verdict, done, settle};
ghost use Rattle.follow.specs.Jobs.{kernel_follow_checks, kernel_follow};

use answer::Refusal;

// The checks, in checking order.
#[tactic(auto, unfolding(crate::specs::Jobs::kernel_follow_checks, folds::specs::Range::value_limit))]
fn follow_check(kernel: u8, values: &[i32], room: usize) -> Result<(), Refusal>
    ensures { verdict result ≡ settle (kernel_follow_checks kernel values.now room) done }
{
    if !kernel::is_kernel(kernel) {
        return Err(Refusal::NoKernel);
    }
    if values.len() != 16 {
        return Err(Refusal::WrongLength);
    }
    if room < 16 {
        return Err(Refusal::ShortOutput);
    }
    match folds::first_outside(values, 32767) {
        Some(place) => Err(Refusal::ValueOutOfRange(place)),
        None => Ok(()),
    }
}

// Writes sixteen scores, as `pair_run::store_scores` does above this crate. A loop: with `copy_from_slice` the job took 40 instructions more, of 2,520.
fn store_scores(found: [i32; 16], out: &mut [i32])
    requires { 16 ≤ length out.old }
    ensures { out.new ≡ found ++ drop 16 out.old }
{
    for i in 0..16 {
        out[i] = found[i];
    }
}

/// Kernel follow: the scores of sixteen symbols over sixteen channel values.
#[tactic(auto, unfolding(crate::specs::Jobs::kernel_follow, crate::specs::Jobs::kernel_follow_checks))]
pub fn kernel_follow(
    kernel: u8,
    values: &[i32],
    symbols: u16,
    scores: &mut [i32],
) -> Result<(), Refusal>
    ensures { kernel_follow kernel values.now symbols scores.old ≡ (verdict result, scores.new) }
{
    follow_check(kernel, values, scores.len())?;
    let shapes = step::shapes_of(kernel as usize);
    let tables = step::tables_of(kernel as usize);
    let found = run::kernel_run(kernel as usize, &shapes, &tables, values, 0, symbols);
    store_scores(found.scores, scores);
    Ok(())
}

/// The same job by the Hadamard engine.
#[tactic(auto, unfolding(crate::specs::Jobs::kernel_follow, crate::specs::Jobs::kernel_follow_checks))]
pub fn kernel_follow_hadamard(
    kernel: u8,
    values: &[i32],
    symbols: u16,
    scores: &mut [i32],
) -> Result<(), Refusal>
    ensures { kernel_follow kernel values.now symbols scores.old ≡ (verdict result, scores.new) }
{
    // No closure over the engine that both jobs share: its contract would be longer than the two lines.
    follow_check(kernel, values, scores.len())?;
    let found = hadamard_run::straight(kernel as usize, values, 0, symbols);
    store_scores(found.scores, scores);
    Ok(())
}
