// A kernel's word a second time, bit by bit, for tests alone: it and its time are compared with the sum of whole rows.
// A kernel is its number, as requests name it.
#![tactic(auto)]

ghost use Rattle.std.specs.Prelude.{◌≡◌, ◌<◌};
ghost use Rattle.base.specs.Bit;
ghost use Rattle.bits.specs.Packed.{bits};
ghost use Rattle.answer.specs.Verdict.{word_verdict};
ghost use Rattle.kernel.specs.Rows.{chosen_bit, row_sum};
ghost use Rattle.kernel.specs.Jobs.{kernel_encode};

use answer::Refusal;

// Bit j of the sum: that bit of each row that the bits of x choose, added.
fn sum_bit(rows: [u16; 16], x: u16, j: usize) -> bool
    requires { j < 16 }
    ensures { result ≡ chosen_bit rows (Bit.bit (bits 16 x)) 16 j }
{
    let mut sum = false;
    for s in 0..16 {
        let chosen = bits::word_bit(u32::from(x), s);
        let bit = bits::word_bit(u32::from(rows[s]), j);
        sum = sum != (chosen && bit);
    }
    sum
}

// The sum of the rows that the bits of x choose, each bit below those before it.
fn row_sum_by_bits(rows: [u16; 16], x: u16) -> u16
    ensures { result ≡ row_sum rows x }
{
    let mut c: u16 = 0;
    for j in 0..16 {
        c = 2 * c + u16::from(sum_bit(rows, x, j));
    }
    c
}

/// Kernel encode, bit by bit.
#[tactic(auto, unfolding(kernel::specs::Jobs::checks, kernel::specs::Jobs::is_kernel))]
pub fn encode_by_bits(kernel: u8, symbols: u16) -> Result<u16, Refusal>
    ensures { word_verdict result ≡ kernel_encode kernel symbols }
{
    if !kernel::is_kernel(kernel) {
        return Err(Refusal::NoKernel);
    }
    Ok(row_sum_by_bits(kernel::kernel_rows(kernel), symbols))
}
