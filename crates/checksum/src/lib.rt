// The checksum of a payload: CRC-16, polynomial 1021 hexadecimal, start FFFF, most significant bit first, no final inversion.
#![tactic(auto)]

ghost use Rattle.std.specs.Prelude.{◌≡◌, ◌≤◌, length};
ghost use Rattle.bits.specs.Packed.{bits};
ghost use Rattle.checksum.specs.Checksum.{shift_in, crc};
ghost use Rattle.checksum.specs.Checksum;

/// The register after one more bit.
pub fn crc_bit(register: u16, b: bool) -> u16
    ensures { bits 16 result ≡ shift_in (bits 16 register) b }
{
    let up = register % 32768 * 2;
    if b == (register < 32768) {
        return up ^ 0x1021;
    }
    up
}

/// The checksum of bytes.
pub fn checksum(bytes: &[u8]) -> u16
    requires { length bytes.now ≤ 32 }
    ensures { bits 16 result ≡ crc bytes.now }
{
    let mut register: u16 = 0xffff;
    for i in 0..8 * bytes.len() {
        register = crc_bit(register, bits::bit(bytes, i));
    }
    register
}

/// Whether the last two bytes of a payload are the checksum of the others, the high byte first.
pub fn agrees(payload: &[u8]) -> bool
    requires { (2 ≤ length payload.now) × (length payload.now ≤ 32) }
    ensures { result ≡ Checksum.agrees payload.now }
{
    let n = payload.len() - 2;
    let sum = checksum(&payload[..n]);
    sum == u16::from_be_bytes([payload[n], payload[n + 1]])
}
