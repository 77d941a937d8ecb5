// The words of sixteen kernels as planes: plane j has bit j of each kernel's word.
#![tactic(auto)]

ghost use Rattle.std.specs.Prelude.{◌≡◌, ◌&&◌, ℕ, ◌+◌, ◌-◌, ◌^◌, ◌≤◌, ◌<◌, get_or};
ghost use Rattle.base.specs.Bit;
ghost use Rattle.base.specs.Bit.{◌⊕◌};
ghost use Rattle.bits.specs.Packed.{bits};
ghost use Rattle.kernel.specs.Rows.{chosen_bit};
ghost use Rattle.lane.specs.Lanes.{lane_bits, lane_bit, word_at};
ghost use Rattle.lane_words.specs.Words.{window_bit};

// A number where its condition holds, else 0.
fn only(c: bool, x: u16) -> u16
    ensures { (l : ℕ) → lane_bit result l ≡ (c && lane_bit x l) }
{
    if c { x } else { 0 }
}

/// The words with a plane added at each place that a row has.
pub fn with_plane(flags: &[u16; 16], words: [u16; 16], row: u16, plane: u16) -> [u16; 16]
    requires { flags.now ≡ lane_bits }
    ensures { (j l : ℕ) → j < 16 → word_at result l j ≡ (word_at words l j ⊕ (lane_bit row j && lane_bit plane l)) }
{
    // The masks of the lanes are lent: see `lane::flags`.
    let mut out = [0u16; 16];
    for (j, o) in out.iter_mut().enumerate() {
        *o = words[j] ^ only(lane::has(row, flags[j]), plane);
    }
    out
}

/// The words that the planes of the symbols before a phase make: each is added where its row of the phase's table says.
pub fn words_of(flags: &[u16; 16], table: &[u16; 16], planes: &[u16; 16], phase: usize) -> [u16; 16]
    requires { (flags.now ≡ lane_bits) × (phase ≤ 16) }
    ensures { (j l : ℕ) → j < 16 → word_at result l j ≡ chosen_bit table.now (λ s. lane_bit (get_or planes.now s 0) l) phase j }
{
    let mut words = [0u16; 16];
    for s in 0..16 {
        // The end is tested here: of a loop to an end that it does not know to be below 16 the compiler makes vectors of phases,
        // and a call takes 400 instructions in place of 225.
        if s == phase {
            break;
        }
        // By a local first: the checker does not take a call's result that is stored into an array the call reads.
        let next = with_plane(flags, words, table[s], planes[s]);
        words = next;
    }
    words
}

/// A phase as words are made for its paths: the rows of its table, its number, and the last place that its relations reach.
#[derive(Clone, Copy)]
pub struct Phase<'a> {
    pub table: &'a [u16; 16],
    pub number: usize,
    pub high: usize,
    ghost within: { (number ≤ high) × (high < 16) × (high - number ≤ 4) },
}

impl Phase<'_> {
    /// How many paths there are: one for each choice of the window's bits.
    pub fn paths(&self) -> usize
        ensures { (result ≡ 2 ^ (self.now.high - self.now.number)) × (result ≤ 16) }
    {
        1 << (self.high - self.number)
    }

    /// What the phase's own symbol and a path's window bits add to all words.
    pub fn word(&self, own: bool, path: usize) -> u16
        requires { path < 16 }
        ensures { (j : ℕ) → j < 16 → lane_bit result j ≡ window_bit self.now.table.now self.now.number own (bits (self.now.high - self.now.number) path) j }
    {
        let width = self.high - self.number;
        let mut c = only(own, self.table[self.number]);
        for t in 0..width {
            let chosen = (path >> (width - 1 - t)) % 2 == 1;
            c ^= only(chosen, self.table[self.number + 1 + t]);
        }
        c
    }
}

// What a plane has in lane l, as a number.
fn digit_of(plane: u16, l: usize) -> u16
    requires { l < 16 }
    ensures { (result < 2) × (result ≡ Bit.digit (lane_bit plane l)) }
{
    u16::from(bits::word_bit(u32::from(plane), l))
}

// The last four bits of the word of lane l, as a number.
fn low_four(words: &[u16; 16], l: usize) -> u16
    requires { l < 16 }
    ensures { (result < 16) × ((i : ℕ) → i < 4 → Bit.bit (bits 4 result) i ≡ word_at words.now l (12 + i)) }
{
    let high = 2 * digit_of(words[12], l) + digit_of(words[13], l);
    let low = 2 * digit_of(words[14], l) + digit_of(words[15], l);
    4 * high + low
}

/// In each lane the last four bits of its word, as a number.
pub fn numbers_of(words: &[u16; 16]) -> [u16; 16]
    ensures { (l : ℕ) → l < 16 → (get_or result l 0 < 16) × ((i : ℕ) → i < 4 → Bit.bit (bits 4 (get_or result l 0)) i ≡ word_at words.now l (12 + i)) }
{
    arrays::filled(0, |l| low_four(words, l))
}
