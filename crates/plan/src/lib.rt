// The plan of a frame: how many layers it has, and a kernel for each.
#![tactic(auto)]

ghost use Rattle.std.specs.Prelude.{◌≡◌, false, not, ◌≤◌};
ghost use Rattle.answer.specs.Verdict.{verdict, done, settle};
ghost use Rattle.plan.specs.Plan.{bad_layers, bad_kernels, plan_checks, symbol_count, byte_count};

use answer::Refusal;

/// One record for a frame: the number of layers m, 1 to 3, and the kernels of the layers, innermost first. Those of layers past m are
/// not looked at.
#[repr(C)]
#[derive(Clone, Copy, Debug, PartialEq, Eq)]
pub struct Plan {
    pub layers: u8,
    pub kernels: [u8; 3],
}

/// Whether there are 1, 2 or 3 layers.
#[tactic(auto, unfolding(crate::specs::Plan::bad_layers))]
pub fn has_layers(plan: Plan) -> bool
    ensures { result ≡ not (bad_layers plan) }
{
    1 <= plan.layers && plan.layers <= 3
}

/// Whether there is a kernel for each of the m layers.
pub fn has_kernels(plan: Plan) -> bool
    requires { bad_layers plan ≡ false }
    ensures { result ≡ not (bad_kernels plan) }
{
    let m = usize::from(plan.layers);
    plan.kernels[..m]
        .iter()
        .all(|&kernel| kernel::is_kernel(kernel))
}

/// The checks of a plan, in checking order: first the layers, then their kernels.
pub fn check(plan: Plan) -> Result<(), Refusal>
    ensures { verdict result ≡ settle (plan_checks plan) done }
{
    if !has_layers(plan) {
        return Err(Refusal::BadLayers);
    }
    if !has_kernels(plan) {
        return Err(Refusal::NoKernel);
    }
    Ok(())
}

/// How many symbols a frame has, 16 to the power m.
pub fn symbols(plan: Plan) -> usize
    requires { bad_layers plan ≡ false }
    ensures { result ≡ symbol_count plan }
{
    1 << (4 * usize::from(plan.layers))
}

/// How many bytes hold a bit for each of them; some number up to 512 where the layers are refused.
pub fn bytes(plan: Plan) -> usize
    ensures { (bad_layers plan ≡ false → result ≡ byte_count plan) × (result ≤ 512) }
{
    if has_layers(plan) {
        symbols(plan) / 8
    } else {
        0
    }
}
