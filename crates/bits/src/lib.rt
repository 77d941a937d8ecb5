// Packed bits: eight to a byte, the lowest index in the most significant bit; sixteen to a u16 likewise.
#![tactic(auto)]

ghost use Rattle.std.specs.Prelude.{◌≡◌, true, ◌*◌, ◌<◌, length, set};
ghost use Rattle.base.specs.Bit;
ghost use Rattle.bits.specs.Packed.{bits, unpack};

/// Bit i of sixteen.
pub fn word_bit(x: u32, i: usize) -> bool
    requires { i < 16 }
    ensures { result ≡ Bit.bit (bits 16 x) i }
{
    (x >> (15 - i)) % 2 == 1
}

/// The sixteen bits with bit i set.
pub fn with_word_bit(x: u16, i: usize) -> u16
    requires { i < 16 }
    ensures { bits 16 result ≡ set (bits 16 x) i true }
{
    x | (1u16 << (15 - i))
}

/// Bit i of packed bytes.
pub fn bit(s: &[u8], i: usize) -> bool
    requires { i < 8 * length s.now }
    ensures { result ≡ Bit.bit (unpack s.now) i }
{
    let b = s[i / 8];
    (b >> (7 - i % 8)) % 2 == 1
}

/// Sets bit i of packed bytes.
pub fn set_bit(s: &mut [u8], i: usize)
    requires { i < 8 * length s.old }
    ensures { unpack s.new ≡ set (unpack s.old) i true }
{
    s[i / 8] |= 1u8 << (7 - i % 8);
}
