// The marked phases of a mask, byte by byte: how many there are, whether the others are 0, and a payload gathered from them.
#![tactic(auto)]

ghost use Rattle.std.specs.Prelude.{◌≡◌, ◌++◌, ◌*◌, ◌/◌, ◌≤◌, length, drop};
ghost use Rattle.base.specs.Place.{FoundBelow};
ghost use Rattle.bits.specs.Packed.{bits, number, unpack, pack};
ghost use Rattle.payload.specs.Payload;

// For four phases, by their marks: how many are marked (no `count_ones` in `marks`: bits go by fours there, as in the table below),
static ONES: [u8; 16] = [0, 1, 1, 2, 1, 2, 2, 3, 1, 2, 2, 3, 2, 3, 3, 4];

// and the symbols at the marked phases, by the four symbols.
static GATHER: [[u8; 16]; 16] = [
    [0, 0, 0, 0, 0, 0, 0, 0, 0, 0, 0, 0, 0, 0, 0, 0],
    [0, 1, 0, 1, 0, 1, 0, 1, 0, 1, 0, 1, 0, 1, 0, 1],
    [0, 0, 1, 1, 0, 0, 1, 1, 0, 0, 1, 1, 0, 0, 1, 1],
    [0, 1, 2, 3, 0, 1, 2, 3, 0, 1, 2, 3, 0, 1, 2, 3],
    [0, 0, 0, 0, 1, 1, 1, 1, 0, 0, 0, 0, 1, 1, 1, 1],
    [0, 1, 0, 1, 2, 3, 2, 3, 0, 1, 0, 1, 2, 3, 2, 3],
    [0, 0, 1, 1, 2, 2, 3, 3, 0, 0, 1, 1, 2, 2, 3, 3],
    [0, 1, 2, 3, 4, 5, 6, 7, 0, 1, 2, 3, 4, 5, 6, 7],
    [0, 0, 0, 0, 0, 0, 0, 0, 1, 1, 1, 1, 1, 1, 1, 1],
    [0, 1, 0, 1, 0, 1, 0, 1, 2, 3, 2, 3, 2, 3, 2, 3],
    [0, 0, 1, 1, 0, 0, 1, 1, 2, 2, 3, 3, 2, 2, 3, 3],
    [0, 1, 2, 3, 0, 1, 2, 3, 4, 5, 6, 7, 4, 5, 6, 7],
    [0, 0, 0, 0, 1, 1, 1, 1, 2, 2, 2, 2, 3, 3, 3, 3],
    [0, 1, 0, 1, 2, 3, 2, 3, 4, 5, 4, 5, 6, 7, 6, 7],
    [0, 0, 1, 1, 2, 2, 3, 3, 4, 4, 5, 5, 6, 6, 7, 7],
    [0, 1, 2, 3, 4, 5, 6, 7, 8, 9, 10, 11, 12, 13, 14, 15],
];

/// How many bits are set.
pub fn count(s: &[u8]) -> usize
    requires { length s.now ≤ 4096 }
    ensures { result ≡ Payload.ones (unpack s.now) }
{
    // The sum is of sixteen bits: vectors then need no wider lanes.
    let n: u16 = s.iter().map(|x| x.count_ones() as u16).sum();
    n as usize
}

// How many of eight phases are marked.
fn marks(m: u8) -> u8
    ensures { result ≡ Payload.ones (bits 8 m) }
{
    ONES[(m / 16) as usize] + ONES[(m % 16) as usize]
}

// The number of the symbols at the marked ones of eight phases.
fn gather_byte(m: u8, u: u8) -> u8
    ensures { result ≡ number (Payload.gather (bits 8 m) (bits 8 u)) }
{
    let h = (m / 16) as usize;
    let l = (m % 16) as usize;
    let a = GATHER[h][(u / 16) as usize];
    let b = GATHER[l][(u % 16) as usize];
    (a << ONES[l]) + b
}

/// The lowest unmarked phase with symbol 1, if there is one.
pub fn frozen_one(mask: &[u8], symbols: &[u8]) -> Option<usize>
    requires { (length mask.now ≤ 4096) × (length symbols.now ≡ length mask.now) }
    ensures { FoundBelow (8 * length mask.now) (Payload.frozen_one (unpack mask.now) (unpack symbols.now)) result }
{
    for (i, m) in mask.iter().enumerate() {
        let u = symbols[i];
        let x = u & (u ^ m);
        if x != 0 {
            return Some(8 * i + x.leading_zeros() as usize);
        }
    }
    None
}

/// The symbols at the marked phases: the full bytes of them, to the front of the payload.
pub fn gather(mask: &[u8], symbols: &[u8], payload: &mut [u8])
    requires mask_len_bound { (length mask.now ≤ 4096) × (length symbols.now ≡ length mask.now) }
    requires mask_bound { Payload.ones (unpack mask.now) ≤ 8 * length payload.old }
    ensures { payload.new ≡ pack (Payload.ones (unpack mask.now) / 8) (Payload.gather (unpack mask.now) (unpack symbols.now)) ++ drop (Payload.ones (unpack mask.now) / 8) payload.old }
{
    let mut j: usize = 0;
    let mut held: u32 = 0;
    let mut n: u8 = 0;
    for (i, m) in mask.iter().enumerate() {
        let g = gather_byte(*m, symbols[i]);
        let k = marks(*m);
        held = ((held % 256) << k) + g as u32;
        n += k;
        if n >= 8 {
            n -= 8;
            payload[j] = ((held >> n) % 256) as u8;
            j += 1; // the next byte: not each turn fills one
        }
    }
}
