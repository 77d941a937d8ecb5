// The paths of a list: their symbols and penalties, and their records. The records lie in bytes that the caller lends, no heap: their
// room is a premise of each public function.
#![tactic(auto)]

ghost use Rattle.std.specs.Prelude.{◌≡◌, Bool, false, ◌≢◌, List, [], ◌∷◌, ◌++◌, ℕ, ◌+◌, ◌*◌, ◌≤◌, ◌<◌, length, take, drop, replicate};
ghost use Rattle.bits.specs.Packed.{bits, unpack};
ghost use Rattle.path.specs.Path.{HasSymbols, bytes_of, path_of, path_at};

/// A path of the list: its 256 symbols, packed, those of later phases being 0, and its penalty.
#[derive(Clone, Copy, Debug, PartialEq, Eq)]
pub struct Path {
    pub symbols: [u8; 32],
    pub penalty: u32,
}

impl Path {
    /// The path with one more symbol, that of phase `at`.
    pub fn extend(self, at: usize, b: bool) -> Self
        requires { at < 256 }
        ensures { ((p : List Bool) → length p ≡ at → HasSymbols p self → HasSymbols (p ++ (b ∷ [])) result) × (result.penalty ≡ self.penalty) }
    {
        let mut longer = self;
        if b {
            bits::set_bit(&mut longer.symbols, at);
        }
        longer
    }

    /// The path with the penalty that it has after this phase.
    pub fn penalty(self, total: u32) -> Self
        ensures { (result.symbols ≡ self.symbols) × (result.penalty ≡ total) }
    {
        Path {
            penalty: total,
            ..self
        }
    }

    /// The path after unmarked phases: their symbols are 0, and only the penalty changes.
    pub fn freeze(self, total: u32) -> Self
        ensures { ((p : List Bool) (n : ℕ) → length p + n ≤ 256 → HasSymbols p self → HasSymbols (p ++ replicate n false) result) × (result.penalty ≡ total) }
    {
        self.penalty(total)
    }
}

// The bytes of a path's record.
impl From<Path> for [u8; 36] {
    ghost from_gives = { λ p r. r ≡ bytes_of p };

    fn from(path: Path) -> [u8; 36] {
        let mut bytes = [0u8; 36];
        bytes[..32].copy_from_slice(&path.symbols);
        bytes[32..].copy_from_slice(&path.penalty.to_be_bytes());
        bytes
    }
}

// The path of a record's bytes.
impl From<[u8; 36]> for Path {
    ghost from_gives = { λ b r. r ≡ path_of b };

    fn from(bytes: [u8; 36]) -> Path {
        let mut symbols = [0u8; 32];
        symbols.copy_from_slice(&bytes[..32]);
        Path {
            symbols,
            penalty: u32::from_be_bytes([bytes[32], bytes[33], bytes[34], bytes[35]]),
        }
    }
}

/// Stores a path as record i; the other records stay.
pub fn store(scratch: &mut [u8], i: usize, p: Path)
    requires { (i < 8) × (4096 ≤ length scratch.old) }
    ensures { (length scratch.new ≡ length scratch.old) × (path_at i scratch.new ≡ p) × ((j : ℕ) → j < 8 → j ≢ i → path_at j scratch.new ≡ path_at j scratch.old) × (drop 4096 scratch.new ≡ drop 4096 scratch.old) }
{
    let record: [u8; 36] = p.into();
    let at = 512 * i;
    scratch[at..at + 36].copy_from_slice(&record);
}

/// The path of record i.
pub fn load(scratch: &[u8], i: usize) -> Path
    requires { (i < 8) × (4096 ≤ length scratch.now) }
    ensures { result ≡ path_at i scratch.now }
{
    let from = 512 * i;
    let mut record = [0u8; 36];
    record.copy_from_slice(&scratch[from..from + 36]);
    record.into()
}

/// The penalty of record i.
pub fn penalty_at(scratch: &[u8], i: usize) -> u32
    requires { (i < 8) × (4096 ≤ length scratch.now) }
    ensures { result ≡ (path_at i scratch.now).penalty }
{
    let at = 512 * i + 32;
    u32::from_be_bytes([
        scratch[at],
        scratch[at + 1],
        scratch[at + 2],
        scratch[at + 3],
    ])
}

/// The sixteen symbols of row r of the path of record i.
pub fn row_word(scratch: &[u8], i: usize, r: usize) -> u16
    requires { (i < 8) × (r < 16) × (4096 ≤ length scratch.now) }
    ensures { bits 16 result ≡ take 16 (drop (16 * r) (unpack (path_at i scratch.now).symbols)) }
{
    let at = 512 * i + 2 * r;
    u16::from_be_bytes([scratch[at], scratch[at + 1]])
}

/// Sets the first n bytes to 0.
pub fn clear(scratch: &mut [u8], n: usize)
    requires { n ≤ length scratch.old }
    ensures { scratch.new ≡ replicate n 0 ++ drop n scratch.old }
{
    scratch[..n].fill(0);
}
