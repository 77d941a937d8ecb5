// Kernel 1's run straight through its sixteen phases: two blocks of eight paths side by side, one for each v3, and values folded
// where there is one path.
#![tactic(auto)]

ghost use Rattle.std.specs.Prelude.{◌≡◌, Bool, true, false, List, [], ◌∷◌, ℕ, ◌+◌, ◌<◌, ℤ, pos, ◌+ℤ◌, ◌-ℤ◌, length, get_or};
ghost use Rattle.base.specs.Bit.{◌⊕◌, bit, digit};
ghost use Rattle.bits.specs.Packed.{bits};
ghost use Rattle.polar.specs.Code.{channel, score};
ghost use Rattle.folds.specs.Range.{value_limit, first_outside};
ghost use Rattle.kernel.specs.Kernels.{kernel_code};
ghost use Rattle.folds.specs.Rows.{row_of};
ghost use Rattle.values.specs.Value.{known_value, gain, greater, Small};
ghost use Rattle.values.specs.Arikan.{arikan_word, arikan_score, best_v};
ghost use Rattle.values.specs.Path.{after_at, entry, RowOf};
ghost use Rattle.run.specs.Run.{symbol_by};
ghost use Rattle.phase_scores.specs.Quarter.{PlacesOf, FreeHalf, KnownHalf};
ghost use Rattle.quarters.specs.Part.{Follows, ChannelValues, three, four};

use quarters::{Phases, Sources};

// Kernel 1, phases 0 to 3: v0, v1, v2, and v4 with v3 free.
fn begin1(eighths: &[i32; 8], values: &[i32], sources: Sources) -> Phases<4>
    requires { ChannelValues values.now × FreeHalf values.now eighths.now }
    ensures { Follows (score (kernel_code 1) (channel values.now)) (bit (bits 16 sources.free))
        (bit (bits 16 sources.given)) 4 result.scores result.symbols }
{
    let run = quarters::run_four(&value_folds::free_half(eighths), sources, 0);
    let zero = fourth1(eighths, &run.scores, &run.symbols, false);
    let one = fourth1(eighths, &run.scores, &run.symbols, true);
    let score = lead1(zero, one);
    let v4 = sources.symbol(3, score);
    quarters::three_and_one(run, score, v4)
}

// The score of v4 with v3 free, from the best scores with v3 = 0 and with v3 = 1.
fn lead1(zero: [i32; 2], one: [i32; 2]) -> i32
    requires { Small 16777216 2 zero × Small 16777216 2 one }
    ensures { result ≡ greater (get_or zero 0 (pos 0)) (get_or one 0 (pos 0))
        -ℤ greater (get_or zero 1 (pos 0)) (get_or one 1 (pos 0)) }
{
    zero[0].max(one[0]) - zero[1].max(one[1])
}

// The best scores of the path with this v3 and v4 = 0, and with v4 = 1, from the values of v0 to v3 in turn; v has the first three.
fn fourth1(eighths: &[i32; 8], scores: &[i32; 4], v: &[bool; 4], v3: bool) -> [i32; 2]
    requires { Small 1048576 8 eighths.now × Small 4194304 4 scores.now }
    ensures { (b : Bool) → get_or result (digit b) (pos 0)
        ≡ gain (get_or scores.now 0 (pos 0)) (bit v.now 0)
        +ℤ gain (get_or scores.now 1 (pos 0)) (bit v.now 1)
        +ℤ gain (get_or scores.now 2 (pos 0)) (bit v.now 2) +ℤ gain (get_or scores.now 3 (pos 0)) v3
        +ℤ gain (arikan_score 3 (λ i. get_or eighths.now i (pos 0)) (three v.now (v3 ∷ []))) b }
{
    let four = [v[0], v[1], v[2], v3];
    let word = quarters::word_of_four(&four);
    let value = quarters::four_free(&value_folds::known_half(eighths, &word));
    let zero = quarters::gained(scores, &four) + value_folds::below(value);
    [zero, zero - value]
}

/// Three phases of a window with v3 free, and of each v3 the row that is kept.
#[derive(Clone, Copy, Debug, PartialEq, Eq)]
pub struct Blocks {
    pub phases: Phases<3>,
    pub kept: [[i32; 8]; 2],
}

// Kernel 1, phases 4 to 6: v8, v6 + v9, v5 + v6 + v10, with v3 free: eight paths for each v3. Beside `straight_rest::wide2`,
// whose window has one block of paths where this one has two: the rows and the leads differ.
fn blocks1(
    values: &[i32],
    v: &[bool; 4],
    first: &[[i32; 8]; 2],
    places: &[[i32; 8]; 2],
    sources: Sources,
) -> Blocks
    requires values_len { ChannelValues values.now }
    requires row_of { RowOf false
        (λ x y z. best_v values.now (three v.now (false ∷ bit v.now 3 ∷ x ∷ y ∷ z ∷ [])))
        (get_or first.now 0 [])
        × RowOf true
        (λ x y z. best_v values.now (three v.now (true ∷ bit v.now 3 ∷ x ∷ y ∷ z ∷ [])))
        (get_or first.now 1 []) }
    requires b_value { PlacesOf values.now
        (arikan_word 3 (three v.now (false ∷ bit v.now 3 ∷ false ∷ false ∷ false ∷ []))) false
        (get_or places.now 0 [])
        × PlacesOf values.now
        (arikan_word 3 (three v.now (false ∷ bit v.now 3 ∷ false ∷ false ∷ false ∷ []))) true
        (get_or places.now 1 []) }
    ensures follows { Follows (λ p. score (kernel_code 1) (channel values.now) (four v.now p))
        (λ i. bit (bits 16 sources.free) (4 + i))
        (λ i. bit (bits 16 sources.given) (4 + i)) 3 result.phases.scores result.phases.symbols }
    ensures kept { RowOf false
        (λ x y z. best_v values.now (three v.now (false ∷ bit v.now 3 ∷ x ∷ y ∷ z
        ∷ bit result.phases.symbols 0 ∷ (bit result.phases.symbols 1 ⊕ y)
        ∷ (bit result.phases.symbols 2 ⊕ (x ⊕ y)) ∷ []))) (get_or result.kept 0 [])
        × RowOf true
        (λ x y z. best_v values.now (three v.now (true ∷ bit v.now 3 ∷ x ∷ y ∷ z
        ∷ bit result.phases.symbols 0 ∷ (bit result.phases.symbols 1 ⊕ y)
        ∷ (bit result.phases.symbols 2 ⊕ (x ⊕ y)) ∷ []))) (get_or result.kept 1 []) }
{
    let zero = paths::step8(&first[0], &places[0]);
    let one = paths::step8(&first[1], &places[1]);
    let score = paths::lead_of_two(&zero, &one);
    let v8 = sources.symbol(4, score);
    let next_zero = paths::step9(&zero[v8 as usize], &places[0], v8);
    let next_one = paths::step9(&one[v8 as usize], &places[1], v8);
    let second = paths::lead_of_two(&next_zero, &next_one);
    let u = sources.symbol(5, second);
    let last_zero = paths::step10(&next_zero[u as usize], &places[0], v8, u);
    let last_one = paths::step10(&next_one[u as usize], &places[1], v8, u);
    let third = paths::lead_of_two(&last_zero, &last_one);
    let t = sources.symbol(6, third);
    Blocks {
        phases: Phases {
            scores: [score, second, third],
            symbols: [v8, u, t],
        },
        kept: [last_zero[t as usize], last_one[t as usize]],
    }
}

/// A phase of a window, and for each v11 the row that is kept.
#[derive(Clone, Copy, Debug, PartialEq, Eq)]
pub struct Widened {
    pub score: i32,
    pub symbol: bool,
    pub kept: [[i32; 8]; 2],
}

// The places of the paths of this v3 after v11, for v11 = 0 and for v11 = 1.
fn opened_places(values: &[i32], v: &[bool; 4], v3: bool, opened: &[bool; 3]) -> [[i32; 16]; 2]
    requires { ChannelValues values.now }
    ensures { (q c b : Bool) (i : ℕ) → i < 4 → after_at (row_of result q) i c b
        ≡ known_value (bit (((bit opened.now 0 ⊕ bit opened.now 1) ⊕ bit opened.now 2)
        ∷ bit opened.now 1 ∷ bit opened.now 2 ∷ false ∷ []) i ⊕ (c ⊕ q))
        (known_value
        (arikan_word 3 (three v.now (false ∷ bit v.now 3 ∷ false ∷ false ∷ false ∷ [])) i ⊕ b)
        (get_or values.now i (pos 0)) (get_or values.now (8 + i) (pos 0)))
        (known_value (arikan_word 3 (three v.now (false ∷ bit v.now 3 ∷ false ∷ false ∷ false ∷ []))
        (4 + i) ⊕ (b ⊕ v3)) (get_or values.now (4 + i) (pos 0))
        (get_or values.now (12 + i) (pos 0))) }
{
    let next = [
        (opened[0] != opened[1]) != opened[2],
        opened[1],
        opened[2],
        false,
    ];
    paths::places_after(values, &word1(v), v3, &next)
}

// Kernel 1, phase 8: v12, with v11 free as well. No struct of its parameters: the phases before hand each of them on by itself,
// and others take them in other sets.
fn widened1(
    values: &[i32],
    v: &[bool; 4],
    v3: bool,
    opened: &[bool; 3],
    rows: &[[i32; 8]; 2],
    places: &[[i32; 8]; 2],
    sources: Sources,
) -> Widened
    requires values_len { ChannelValues values.now }
    requires row_of { RowOf v3
        (λ x y z. best_v values.now (three v.now (v3 ∷ bit v.now 3 ∷ x ∷ y ∷ z ∷ bit opened.now 0
        ∷ (bit opened.now 1 ⊕ y) ∷ (bit opened.now 2 ⊕ (x ⊕ y)) ∷ [])))
        (get_or rows.now (digit v3) []) }
    requires b_value { PlacesOf values.now
        (arikan_word 3 (three v.now (false ∷ bit v.now 3 ∷ false ∷ false ∷ false ∷ []))) v3
        (get_or places.now (digit v3) []) }
    ensures score { (result.score ≡ score (kernel_code 1) (channel values.now)
        (four v.now (three opened.now (v3 ∷ []))))
        × (result.symbol
        ≡ symbol_by (bit (bits 16 sources.free) 8) (bit (bits 16 sources.given) 8) result.score) }
    ensures kept { RowOf v3
        (λ x y z. best_v values.now (three v.now (v3 ∷ bit v.now 3 ∷ x ∷ y ∷ z ∷ bit opened.now 0
        ∷ (bit opened.now 1 ⊕ y) ∷ (bit opened.now 2 ⊕ (x ⊕ y)) ∷ false ∷ result.symbol ∷ [])))
        (get_or result.kept 0 [])
        × RowOf v3
        (λ x y z. best_v values.now (three v.now (v3 ∷ bit v.now 3 ∷ x ∷ y ∷ z ∷ bit opened.now 0
        ∷ (bit opened.now 1 ⊕ y) ∷ (bit opened.now 2 ⊕ (x ⊕ y)) ∷ true ∷ result.symbol ∷ [])))
        (get_or result.kept 1 []) }
{
    let both = paths::step11(
        &rows[v3 as usize],
        &places[v3 as usize],
        opened[0],
        opened[1],
        opened[2],
    );
    let after = opened_places(values, v, v3, opened);
    let zero = paths::step12(&both[0], &after[0]);
    let one = paths::step12(&both[1], &after[1]);
    let score = paths::lead_of_two(&zero, &one);
    let symbol = sources.symbol(8, score);
    Widened {
        score,
        symbol,
        kept: [zero[symbol as usize], one[symbol as usize]],
    }
}

// Kernel 1, phases 12 to 15: v11, of the path that is left, and the last three of the four values after it.
fn last1(
    rest: &[i32; 8],
    v3: bool,
    opened: &[bool; 3],
    third: &[bool; 4],
    kept: &[[i32; 8]; 2],
    sources: Sources,
) -> Phases<4>
    requires { Small 2097152 8 rest.now × Small 16777216 8 (get_or kept.now 0 [])
        × Small 16777216 8 (get_or kept.now 1 []) }
    ensures { (sc : List Bool → ℤ) → sc [] ≡ entry (get_or kept.now 0 []) (bit third.now 1)
        (bit opened.now 2 ⊕ (bit third.now 1 ⊕ bit third.now 2))
        ((((bit opened.now 2 ⊕ (bit third.now 1 ⊕ bit third.now 2)) ⊕ bit third.now 1)
        ⊕ bit third.now 3) ⊕ v3) -ℤ entry (get_or kept.now 1 []) (bit third.now 1) (bit opened.now 2
        ⊕ (bit third.now 1 ⊕ bit third.now 2))
        ((((bit opened.now 2 ⊕ (bit third.now 1 ⊕ bit third.now 2)) ⊕ bit third.now 1)
        ⊕ bit third.now 3) ⊕ v3) → ((b : Bool) (p : List Bool) → length p < 3 → sc (b ∷ p)
        ≡ arikan_score 3 (λ i. get_or rest.now i (pos 0)) (bit opened.now 0
        ∷ (bit opened.now 1 ⊕ bit third.now 1) ∷ bit third.now 2 ∷ b ∷ bit third.now 0 ∷ p))
        → Follows sc (λ i. bit (bits 16 sources.free) (12 + i))
        (λ i. bit (bits 16 sources.given) (12 + i)) 4 result.scores result.symbols }
{
    let v5 = (opened[2] != third[1]) != third[2];
    let a = ((v5 != third[1]) != third[3]) != v3;
    let score = quarters::entry_of(&kept[0], third[1], v5, a)
        - quarters::entry_of(&kept[1], third[1], v5, a);
    let v11 = sources.symbol(12, score);
    let word = quarters::word_of_four(&[opened[0], opened[1] != third[1], third[2], v11]);
    let quarter = value_folds::known_half(rest, &word);
    let last = quarters::after_first(&quarter, third[0], sources, 13);
    quarters::one_and_three(score, v11, last)
}

// The word of v0 to v7 but for v3 and the path's own: v has v0, v1, v2 and v4.
fn word1(v: &[bool; 4]) -> [bool; 8]
    ensures { (i : ℕ) → i < 8 → get_or result i false
        ≡ arikan_word 3 (three v.now (false ∷ bit v.now 3 ∷ false ∷ false ∷ false ∷ [])) i }
{
    let low = quarters::word_of_four(&[v[0], v[1], v[2], false]);
    let high = quarters::word_of_four(&[v[3], false, false, false]);
    quarters::word_of_eight(&low, &high)
}

// The eight values that v0 to v7 leave, with v5 by the symbols found.
fn rest1(values: &[i32], v: &[bool; 4], v3: bool, opened: &[bool; 3], found: &[bool; 3]) -> [i32; 8]
    requires { ChannelValues values.now }
    ensures { KnownHalf values.now
        (arikan_word 3
        (three v.now (v3 ∷ bit v.now 3 ∷ (bit opened.now 2 ⊕ (bit found.now 0 ⊕ bit found.now 1))
        ∷ bit found.now 0 ∷ bit found.now 2 ∷ []))) result }
{
    let v5 = (opened[2] != found[0]) != found[1];
    let left = [v[0], v[1], v[2], v3];
    let right = [v[3], v5, found[0], found[2]];
    quarters::rest_half(values, &left, &right)
}

/// Kernel 1.
pub fn kernel1(values: &[i32], free: u16, given: u16) -> Phases<16>
    requires { (length values.now ≡ 16) × (first_outside value_limit values.now ≡ 16) }
    ensures { Follows (score (kernel_code 1) (channel values.now)) (bit (bits 16 free))
        (bit (bits 16 given)) 16 result.scores result.symbols }
{
    let sources = Sources { free, given };
    let eighths = value_folds::free_half(values);
    let a = begin1(&eighths, values, sources);
    let word = word1(&a.symbols);
    let first = path_rows::first_rows(&eighths, &word);
    let places = paths::places(values, &word);
    let blocks = blocks1(values, &a.symbols, &first, &places, sources);
    let score = paths::lead(&blocks.kept);
    let v3 = sources.symbol(7, score);
    let b = quarters::three_and_one(blocks.phases, score, v3);
    let opened = &blocks.phases.symbols;
    let widened = widened1(
        values,
        &a.symbols,
        v3,
        opened,
        &blocks.kept,
        &places,
        sources,
    );
    let rows = &widened.kept;
    let kept = paths::best_each(&rows[0], &rows[1]);
    let closed = quarters::close(&kept, v3, opened[2], sources, 9);
    let c = quarters::one_and_three(widened.score, widened.symbol, closed);
    let rest = rest1(values, &a.symbols, v3, opened, &closed.symbols);
    let d = last1(&rest, v3, opened, &c.symbols, rows, sources);
    quarters::joined(a, b, c, d)
}
