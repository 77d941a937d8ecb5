// The information order, and the job information mask.
#![tactic(auto)]

ghost use Rattle.std.specs.Prelude.{◌≡◌, ◌≤◌};
ghost use Rattle.bits.specs.Packed.{unpack};
ghost use Rattle.answer.specs.Verdict.{verdict};
ghost use Rattle.order.specs.Order.{order, information_bits};
ghost use Rattle.order.specs.Jobs.{information_mask};

use answer::Refusal;

// The 256 phases by falling product of their rows' partial distances, equal products by falling phase.
static ORDER: [u8; 256] = [
    // product 256
    255,
    // product 128
    254, 253, 251, 250, 239, 223, 191, 175,
    // product 96
    249, 248, 159, 143,
    // product 64
    252, 247, 246, 243, 238, 237, 235, 234, 222, 221, 219, 218, 207, 190, 189, 187, 186, 174, 173,
    171, 170, 127, 111, 63,
    // product 48
    233, 232, 217, 216, 185, 184, 169, 168, 158, 157, 155, 154, 142, 141, 139, 138,
    // product 36
    153, 152, 137, 136,
    // product 32
    245, 244, 242, 241, 236, 231, 230, 227, 220, 215, 214, 211, 206, 205, 203, 202, 188, 183, 182,
    179, 172, 167, 166, 163, 126, 125, 123, 122, 110, 109, 107, 106, 95, 79, 62, 61, 59, 58, 47,
    31,
    // product 24
    201, 200, 156, 151, 150, 147, 140, 135, 134, 131, 121, 120, 105, 104, 57, 56,
    // product 16
    240, 229, 228, 226, 225, 213, 212, 210, 209, 204, 199, 198, 195, 181, 180, 178, 177, 165, 164,
    162, 161, 124, 119, 118, 115, 108, 103, 102, 99, 94, 93, 91, 90, 78, 77, 75, 74, 60, 55, 54,
    51, 46, 45, 43, 42, 30, 29, 27, 26, 15,
    // product 12
    149, 148, 146, 145, 133, 132, 130, 129, 89, 88, 73, 72, 41, 40, 25, 24,
    // product 8
    224, 208, 197, 196, 194, 193, 176, 160, 117, 116, 114, 113, 101, 100, 98, 97, 92, 87, 86, 83,
    76, 71, 70, 67, 53, 52, 50, 49, 44, 39, 38, 35, 28, 23, 22, 19, 14, 13, 11, 10,
    // product 6
    144, 128, 9, 8,
    // product 4
    192, 112, 96, 85, 84, 82, 81, 69, 68, 66, 65, 48, 37, 36, 34, 33, 21, 20, 18, 17, 12, 7, 6, 3,
    // product 2
    80, 64, 32, 16, 5, 4, 2, 1,
    // product 1
    0,
];

// The information order.
#[tactic(auto, unfolding(crate::specs::Order::order))]
fn information_order() -> &'static [u8; 256]
    ensures { result.now ≡ order }
{
    &ORDER
}

// The mask of the first 8p phases of the information order.
fn information_bits(p: usize) -> [u8; 32]
    requires { p ≤ 32 }
    ensures { unpack result ≡ information_bits p }
{
    let mut mask = [0u8; 32];
    for &phase in &information_order()[..8 * p] {
        bits::set_bit(&mut mask, phase as usize);
    }
    mask
}

/// Information mask: the mask for p bytes of payload.
#[tactic(auto, unfolding(crate::specs::Jobs::information_mask, crate::specs::Jobs::information_checks))]
pub fn information_mask(p: usize, out: &mut [u8]) -> Result<(), Refusal>
    ensures { information_mask p out.old ≡ (verdict result, out.new) }
{
    if out.len() < 32 {
        return Err(Refusal::ShortOutput);
    }
    if p < 1 || 32 < p {
        return Err(Refusal::WrongSize);
    }
    out[..32].copy_from_slice(&information_bits(p));
    Ok(())
}
