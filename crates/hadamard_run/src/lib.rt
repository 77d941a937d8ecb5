// One run of a kernel straight through its phases: by the kernel's number, and as frames take it, with packed symbols.
// A kernel is its number, below 3: public functions take it so, and it indexes tables as it stands.
#![tactic(auto)]

ghost use Rattle.std.specs.Prelude.{◌≡◌, ◌<◌, length};
ghost use Rattle.base.specs.Bit.{bit, tabulate};
ghost use Rattle.bits.specs.Packed.{bits};
ghost use Rattle.polar.specs.Code.{channel, score};
ghost use Rattle.folds.specs.Range.{value_limit, first_outside};
ghost use Rattle.kernel.specs.Kernels.{kernel_code};
ghost use Rattle.run.specs.Run.{KernelRun};
ghost use Rattle.quarters.specs.Part.{Follows};

use quarters::Phases;
use run::Run;

/// A kernel's sixteen phases.
pub fn straight(kernel: usize, values: &[i32], free: u16, given: u16) -> Phases<16>
    requires { (kernel < 3) × (length values.now ≡ 16)
        × (first_outside value_limit values.now ≡ 16) }
    ensures { Follows (score (kernel_code kernel) (channel values.now)) (bit (bits 16 free))
        (bit (bits 16 given)) 16 result.scores result.symbols }
{
    match kernel {
        0 => straight_rest::kernel0(values, free, given),
        1 => straight_one::kernel1(values, free, given),
        _ => straight_rest::kernel2(values, free, given),
    }
}

// Sixteen symbols as a number.
fn packed(symbols: &[bool; 16]) -> u16
    ensures { bits 16 result ≡ tabulate 16 (bit symbols.now) }
{
    let mut out: u16 = 0;
    for s in 0..16 {
        out = run::with_bit(out, s, symbols[s]);
    }
    out
}

/// The run of a kernel over sixteen channel values.
pub fn hadamard_run(kernel: usize, values: &[i32], free: u16, given: u16) -> Run
    requires { (kernel < 3) × (length values.now ≡ 16)
        × (first_outside value_limit values.now ≡ 16) }
    ensures { KernelRun kernel values.now free given result.symbols result.scores }
{
    let found = straight(kernel, values, free, given);
    Run {
        symbols: packed(&found.symbols),
        scores: found.scores,
    }
}
