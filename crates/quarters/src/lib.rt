// Phases by fours: values folded where there is one path, the last phases of a wide window, and their results put together.
#![tactic(auto)]

ghost use Rattle.std.specs.Prelude.{◌≡◌, Bool, false, List, [], ◌∷◌, ℕ, ◌+◌, ◌≤◌, ◌<◌, ℤ, pos, ◌+ℤ◌, get_or};
ghost use Rattle.base.specs.Bit.{bit};
ghost use Rattle.bits.specs.Packed.{bits};
ghost use Rattle.polar.specs.Code.{score};
ghost use Rattle.values.specs.Value.{gain, Small};
ghost use Rattle.values.specs.Arikan.{arikan_word, arikan_score};
ghost use Rattle.values.specs.Path.{entry, pair_best, four_best};
ghost use Rattle.run.specs.Run.{symbol_by};
ghost use Rattle.phase_scores.specs.Quarter.{KnownHalf};
ghost use Rattle.quarters.specs.Part.{Follows, ChannelValues, three, four, closing_score};

/// The word of four v.
pub fn word_of_four(v: &[bool; 4]) -> [bool; 4]
    ensures { (i : ℕ) → i < 4 → get_or result i false ≡ arikan_word 2 (four v.now []) i }
{
    let first = v[0] != v[1];
    let last = v[2] != v[3];
    [first != last, v[1] != v[3], last, v[3]]
}

/// The word of eight, by those of both halves.
pub fn word_of_eight(first: &[bool; 4], second: &[bool; 4]) -> [bool; 8]
    ensures { (a b c d p q s t : Bool) → ((i : ℕ) → i < 4 → get_or first.now i false
        ≡ arikan_word 2 (a ∷ b ∷ c ∷ d ∷ []) i) → ((i : ℕ) → i < 4 → get_or second.now i false
        ≡ arikan_word 2 (p ∷ q ∷ s ∷ t ∷ []) i) → (i : ℕ) → i < 8 → get_or result i false
        ≡ arikan_word 3 (a ∷ b ∷ c ∷ d ∷ p ∷ q ∷ s ∷ t ∷ []) i }
{
    [
        first[0] != second[0],
        first[1] != second[1],
        first[2] != second[2],
        first[3] != second[3],
        second[0],
        second[1],
        second[2],
        second[3],
    ]
}

/// The value of the first of four symbols.
pub fn four_free(values: &[i32; 4]) -> i32
    requires { Small 16777216 4 values.now }
    ensures { result ≡ arikan_score 2 (λ i. get_or values.now i (pos 0)) [] }
{
    let even = value_folds::free(values[0], values[2]);
    let odd = value_folds::free(values[1], values[3]);
    value_folds::free(even, odd)
}

/// Scores and symbols of N phases.
#[derive(Clone, Copy, Debug, PartialEq, Eq)]
pub struct Phases<const N: usize> {
    pub scores: [i32; N],
    pub symbols: [bool; N],
}

/// Where the symbols of a run come from: bit i of `free` is 1 where symbol i is free, and else bit i of `given` is the symbol.
#[derive(Clone, Copy, Debug, PartialEq, Eq)]
pub struct Sources {
    pub free: u16,
    pub given: u16,
}

impl Sources {
    /// Symbol i by its source and its score.
    pub fn symbol(self, i: usize, score: i32) -> bool
        requires { i < 16 }
        ensures { result
            ≡ symbol_by (bit (bits 16 self.free) i) (bit (bits 16 self.given) i) score }
    {
        run::symbol_of(self.free, self.given, i, score)
    }
}

/// The three phases of four values after the first symbol; the sources stand from phase `from` on.
pub fn after_first(values: &[i32; 4], first: bool, sources: Sources, from: usize) -> Phases<3>
    requires { Small 4194304 4 values.now × (from + 2 < 16) }
    ensures { Follows (λ p. arikan_score 2 (λ i. get_or values.now i (pos 0)) (first ∷ p))
        (λ i. bit (bits 16 sources.free) (from + i))
        (λ i. bit (bits 16 sources.given) (from + i)) 3 result.scores result.symbols }
{
    let p = value_folds::free(values[0], values[2]);
    let q = value_folds::free(values[1], values[3]);
    let second = value_folds::known(first, p, q);
    let b = sources.symbol(from, second);
    let even = value_folds::known(first != b, values[0], values[2]);
    let odd = value_folds::known(b, values[1], values[3]);
    let third = value_folds::free(even, odd);
    let c = sources.symbol(from + 1, third);
    let fourth = value_folds::known(c, even, odd);
    let d = sources.symbol(from + 2, fourth);
    Phases {
        scores: [second, third, fourth],
        symbols: [b, c, d],
    }
}

/// The four phases of four values.
pub fn run_four(values: &[i32; 4], sources: Sources, from: usize) -> Phases<4>
    requires { Small 4194304 4 values.now × (from + 3 < 16) }
    ensures { Follows (arikan_score 2 (λ i. get_or values.now i (pos 0)))
        (λ i. bit (bits 16 sources.free) (from + i))
        (λ i. bit (bits 16 sources.given) (from + i)) 4 result.scores result.symbols }
{
    let score = four_free(values);
    let first = sources.symbol(from, score);
    let rest = after_first(values, first, sources, from + 1);
    one_and_three(score, first, rest)
}

// Four times four entries.
fn sixteen<T: Copy>(a: &[T; 4], b: &[T; 4], c: &[T; 4], d: &[T; 4]) -> [T; 16]
    ensures { (e : T) → result ≡ get_or a.now 0 e ∷ get_or a.now 1 e ∷ get_or a.now 2 e
        ∷ get_or a.now 3 e ∷ get_or b.now 0 e ∷ get_or b.now 1 e ∷ get_or b.now 2 e
        ∷ get_or b.now 3 e ∷ get_or c.now 0 e ∷ get_or c.now 1 e ∷ get_or c.now 2 e
        ∷ get_or c.now 3 e ∷ get_or d.now 0 e ∷ get_or d.now 1 e ∷ get_or d.now 2 e
        ∷ get_or d.now 3 e ∷ [] }
{
    [
        a[0], a[1], a[2], a[3], b[0], b[1], b[2], b[3], c[0], c[1], c[2], c[3], d[0], d[1], d[2],
        d[3],
    ]
}

/// Four times four of them: phases that follow one another.
pub fn joined(a: Phases<4>, b: Phases<4>, c: Phases<4>, d: Phases<4>) -> Phases<16>
    ensures { (sc : List Bool → ℤ) (f g : ℕ → Bool) → Follows sc f g 4 a.scores a.symbols
        → Follows (λ p. sc (four a.symbols p)) (λ i. f (4 + i))
        (λ i. g (4 + i)) 4 b.scores b.symbols
        → Follows (λ p. sc (four a.symbols (four b.symbols p))) (λ i. f (8 + i))
        (λ i. g (8 + i)) 4 c.scores c.symbols
        → Follows (λ p. sc (four a.symbols (four b.symbols (four c.symbols p)))) (λ i. f (12 + i))
        (λ i. g (12 + i)) 4 d.scores d.symbols → Follows sc f g 16 result.scores result.symbols }
{
    Phases {
        scores: sixteen(&a.scores, &b.scores, &c.scores, &d.scores),
        symbols: sixteen(&a.symbols, &b.symbols, &c.symbols, &d.symbols),
    }
}

/// An entry of a row of eight paths.
pub fn entry_of(row: &[i32; 8], v6: bool, v5: bool, a: bool) -> i32
    ensures { result ≡ entry row.now v6 v5 a }
{
    let n = 4 * (v6 as usize) + 2 * (v5 as usize) + a as usize;
    row[n]
}

// The greater of the two entries with this v6 and this v5.
fn pair_best(row: &[i32; 8], v6: bool, v5: bool) -> i32
    ensures { result ≡ pair_best row.now v6 v5 }
{
    entry_of(row, v6, v5, false).max(entry_of(row, v6, v5, true))
}

// The greatest of the four entries with this v6.
fn four_best(row: &[i32; 8], v6: bool) -> i32
    ensures { result ≡ four_best row.now v6 }
{
    pair_best(row, v6, false).max(pair_best(row, v6, true))
}

/// The phases of v6, v10 and v7, from the row that is kept after t = v5 + v6 + v10: no further v is added.
pub fn close(kept: &[i32; 8], v3: bool, t: bool, sources: Sources, from: usize) -> Phases<3>
    requires { Small 16777216 8 kept.now × (from + 2 < 16) }
    ensures { Follows (closing_score kept.now v3 t) (λ i. bit (bits 16 sources.free) (from + i))
        (λ i. bit (bits 16 sources.given) (from + i)) 3 result.scores result.symbols }
{
    let first = four_best(kept, false) - four_best(kept, true);
    let v6 = sources.symbol(from, first);
    let low = t != v6;
    let second = pair_best(kept, v6, low) - pair_best(kept, v6, !low);
    let v10 = sources.symbol(from + 1, second);
    let v5 = low != v10;
    let less = entry_of(kept, v6, v5, false) - entry_of(kept, v6, v5, true);
    let third = value_folds::turned((v5 != v6) != v3, less);
    let v7 = sources.symbol(from + 2, third);
    Phases {
        scores: [first, second, third],
        symbols: [v6, v10, v7],
    }
}

/// What four scores and their symbols add to the best score.
pub fn gained(scores: &[i32; 4], symbols: &[bool; 4]) -> i32
    requires { Small 4194304 4 scores.now }
    ensures { result ≡ gain (get_or scores.now 0 (pos 0)) (bit symbols.now 0)
        +ℤ gain (get_or scores.now 1 (pos 0)) (bit symbols.now 1)
        +ℤ gain (get_or scores.now 2 (pos 0)) (bit symbols.now 2)
        +ℤ gain (get_or scores.now 3 (pos 0)) (bit symbols.now 3) }
{
    let a = value_folds::below(value_folds::turned(symbols[0], scores[0]));
    let b = value_folds::below(value_folds::turned(symbols[1], scores[1]));
    let c = value_folds::below(value_folds::turned(symbols[2], scores[2]));
    let d = value_folds::below(value_folds::turned(symbols[3], scores[3]));
    a + b + c + d
}

/// The value of the last of four symbols.
pub fn fourth_of(values: &[i32; 4], a: bool, b: bool, c: bool) -> i32
    requires { Small 4194304 4 values.now }
    ensures { result ≡ arikan_score 2 (λ i. get_or values.now i (pos 0)) (a ∷ b ∷ c ∷ []) }
{
    let even = value_folds::known(a != b, values[0], values[2]);
    let odd = value_folds::known(b, values[1], values[3]);
    value_folds::known(c, even, odd)
}

/// The eight values that the first eight v leave.
pub fn rest_half(values: &[i32], first: &[bool; 4], second: &[bool; 4]) -> [i32; 8]
    requires { ChannelValues values.now }
    ensures { KnownHalf values.now (arikan_word 3 (four first.now (four second.now []))) result }
{
    let word = word_of_eight(&word_of_four(first), &word_of_four(second));
    value_folds::known_half(values, &word)
}

/// One phase and the three after it.
pub fn one_and_three(score: i32, symbol: bool, rest: Phases<3>) -> Phases<4>
    ensures { ((sc : List Bool → ℤ) (f g : ℕ → Bool) → score ≡ sc [] → symbol
        ≡ symbol_by (f 0) (g 0) score → Follows (λ p. sc (symbol ∷ p)) (λ i. f (1 + i))
        (λ i. g (1 + i)) 3 rest.scores rest.symbols → Follows sc f g 4 result.scores result.symbols)
        × (result.symbols ≡ symbol ∷ three rest.symbols []) }
{
    Phases {
        scores: [score, rest.scores[0], rest.scores[1], rest.scores[2]],
        symbols: [symbol, rest.symbols[0], rest.symbols[1], rest.symbols[2]],
    }
}

/// The first three of some phases and one after them.
pub fn three_and_one<const N: usize>(first: Phases<N>, score: i32, symbol: bool) -> Phases<4>
    requires { 3 ≤ N }
    ensures { ((sc : List Bool → ℤ) (f g : ℕ → Bool)
        → Follows sc f g 3 first.entry.scores first.entry.symbols → score
        ≡ sc (three first.entry.symbols []) → symbol ≡ symbol_by (f 3) (g 3) score
        → Follows sc f g 4 result.scores result.symbols)
        × (result.symbols ≡ three first.entry.symbols (symbol ∷ [])) }
{
    Phases {
        scores: [first.scores[0], first.scores[1], first.scores[2], score],
        symbols: [first.symbols[0], first.symbols[1], first.symbols[2], symbol],
    }
}
