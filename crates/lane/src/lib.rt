// One lane of sixteen kernels side by side: its bit in a plane, and the folds of its places.
#![tactic(auto)]

ghost use Rattle.std.specs.Prelude.{◌≡◌, true, false, ℕ, ◌+◌, ◌≤◌, ◌<◌, min, get_or};
ghost use Rattle.folds.specs.Rows.{select, cell};
ghost use Rattle.lane.specs.Lanes.{lane_bits, lane_bit};

/// The bit of each lane in a plane, lane 0 in the most significant.
// They are lent to what tests them: where the compiler sees them as constants, a fold takes 44 instructions in place of 37.
pub fn flags() -> [u16; 16]
    ensures { result ≡ lane_bits }
{
    [
        0x8000, 0x4000, 0x2000, 0x1000, 0x0800, 0x0400, 0x0200, 0x0100, 0x0080, 0x0040, 0x0020,
        0x0010, 0x0008, 0x0004, 0x0002, 0x0001,
    ]
}

/// Whether a plane has a lane's bit.
pub fn has(plane: u16, bit: u16) -> bool
    ensures { (l : ℕ) → l < 16 → bit ≡ get_or lane_bits l 0 → result ≡ lane_bit plane l }
{
    plane & bit != 0
}

/// What a place pays for bit 0 and for bit 1, in one lane.
// Folds of its own beside those of place_folds, numbers of sixteen bits here and of 32 there: a generic sum would ask for a bound of
// its type in each clause.
#[derive(Clone, Copy, Debug, PartialEq, Eq)]
pub struct Pair {
    pub zero: u16,
    pub one: u16,
}

/// A place in lane l.
pub fn at(place: &[[u16; 16]; 2], l: usize) -> Pair
    requires { l < 16 }
    ensures { (result.zero ≡ cell 0 place.now l false) × (result.one ≡ cell 0 place.now l true) }
{
    Pair {
        zero: place[0][l],
        one: place[1][l],
    }
}

/// Two places folded onto one, the second one's bit being free.
pub fn free(p: Pair, q: Pair) -> Pair
    requires { (p.zero ≤ 16383) × (p.one ≤ 16383) × (q.zero ≤ 16383) × (q.one ≤ 16383) }
    ensures { (result.zero ≡ min (p.zero + q.zero) (p.one + q.one))
        × (result.one ≡ min (p.one + q.zero) (p.zero + q.one)) }
{
    Pair {
        zero: (p.zero + q.zero).min(p.one + q.one),
        one: (p.one + q.zero).min(p.zero + q.one),
    }
}

/// Two places folded onto one, the first one's bit being known.
pub fn known(bit: bool, p: Pair, q: Pair) -> Pair
    requires { (p.zero ≤ 16383) × (p.one ≤ 16383) × (q.zero ≤ 16383) × (q.one ≤ 16383) }
    ensures { (result.zero ≡ select p.zero p.one bit + q.zero)
        × (result.one ≡ select p.one p.zero bit + q.one) }
{
    let first = turned(bit, p);
    Pair {
        zero: first.zero + q.zero,
        one: first.one + q.one,
    }
}

/// What a place pays for the bit and 0, and for the bit and 1.
pub fn turned(bit: bool, p: Pair) -> Pair
    ensures { (result.zero ≡ select p.zero p.one bit) × (result.one ≡ select p.one p.zero bit) }
{
    if bit {
        Pair {
            zero: p.one,
            one: p.zero,
        }
    } else {
        p
    }
}
