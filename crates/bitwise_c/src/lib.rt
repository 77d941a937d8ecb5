// For tests alone, as C functions: a kernel's word both ways, so that they and their times are compared.
#![tactic(auto)]

ghost use Rattle.std.specs.Prelude.{◌≡◌};
ghost use Rattle.answer.specs.Verdict.{word_of};
ghost use Rattle.kernel.specs.Jobs.{kernel_encode};

/// The word of kernel encode by whole rows, 0 if refused.
#[unsafe(no_mangle)]
pub extern "C" fn nospridda_test_word_by_rows(kernel: u8, symbols: u16) -> u16
    ensures { result ≡ word_of (kernel_encode kernel symbols) }
{
    kernel::kernel_encode(kernel, symbols).unwrap_or(0)
}

/// The word of kernel encode bit by bit, 0 if refused.
#[unsafe(no_mangle)]
pub extern "C" fn nospridda_test_word_by_bits(kernel: u8, symbols: u16) -> u16
    ensures { result ≡ word_of (kernel_encode kernel symbols) }
{
    bitwise::encode_by_bits(kernel, symbols).unwrap_or(0)
}
