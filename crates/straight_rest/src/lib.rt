// The runs of kernels 0 and 2 straight through their sixteen phases: values folded where there is one path, and the eight paths
// of kernel 2's window side by side.
#![tactic(auto)]

ghost use Rattle.std.specs.Prelude.{◌≡◌, Bool, false, List, [], ◌∷◌, ◌+◌, ℤ, pos, get_or};
ghost use Rattle.base.specs.Bit.{◌⊕◌, bit};
ghost use Rattle.bits.specs.Packed.{bits};
ghost use Rattle.polar.specs.Code.{channel, score};
ghost use Rattle.kernel.specs.Kernels.{kernel_code};
ghost use Rattle.values.specs.Value.{Small};
ghost use Rattle.values.specs.Arikan.{arikan_word, arikan_score, best_v};
ghost use Rattle.values.specs.Path.{RowOf};
ghost use Rattle.run.specs.Run.{symbol_by};
ghost use Rattle.phase_scores.specs.Quarter.{PlacesOf, FreeHalf};
ghost use Rattle.quarters.specs.Part.{Follows, ChannelValues, three, four};

use quarters::{Phases, Sources};

/// Kernel 0, which has no window.
// A function for each kernel: their windows differ, and with them the order of their steps.
pub fn kernel0(values: &[i32], free: u16, given: u16) -> Phases<16>
    requires { ChannelValues values.now }
    ensures { Follows (score (kernel_code 0) (channel values.now)) (bit (bits 16 free))
        (bit (bits 16 given)) 16 result.scores result.symbols }
{
    let sources = Sources { free, given };
    let eighths: [i32; 8] = value_folds::free_half(values);
    let a = quarters::run_four(&value_folds::free_half(&eighths), sources, 0);
    let first = quarters::word_of_four(&a.symbols);
    let b = quarters::run_four(&value_folds::known_half(&eighths, &first), sources, 4);
    let second = quarters::word_of_four(&b.symbols);
    let rest = value_folds::known_half(values, &quarters::word_of_eight(&first, &second));
    let c = quarters::run_four(&value_folds::free_half(&rest), sources, 8);
    let third = quarters::word_of_four(&c.symbols);
    let d = quarters::run_four(&value_folds::known_half(&rest, &third), sources, 12);
    quarters::joined(a, b, c, d)
}

/// What phase 4 of kernel 2 gives: its score and symbol, and the row and the places that its window begins with.
#[derive(Clone, Copy, Debug, PartialEq, Eq)]
pub struct Fifth {
    pub score: i32,
    pub symbol: bool,
    pub row: [i32; 8],
    pub places: [i32; 8],
}

// Kernel 2, phase 4: v4, and the row and places that its window begins with.
fn fifth2(values: &[i32], eighths: &[i32; 8], v: &[bool; 4], base: i32, sources: Sources) -> Fifth
    requires values_len { ChannelValues values.now × FreeHalf values.now eighths.now }
    requires base_value { base ≡ best_v values.now (four v.now []) }
    ensures score { (result.score ≡ score (kernel_code 2) (channel values.now) (four v.now []))
        × (result.symbol
        ≡ symbol_by (bit (bits 16 sources.free) 4) (bit (bits 16 sources.given) 4) result.score) }
    ensures row { RowOf false
        (λ x y z. best_v values.now (four v.now (result.symbol ∷ x ∷ y ∷ z ∷ []))) result.row }
    ensures places { PlacesOf values.now
        (arikan_word 3 (four v.now (result.symbol ∷ false ∷ false ∷ false
        ∷ []))) false result.places }
{
    let first = quarters::word_of_four(v);
    let quarter = value_folds::known_half(eighths, &first);
    let score = quarters::four_free(&quarter);
    let symbol = sources.symbol(4, score);
    let only = [symbol, false, false, false];
    let row = path_rows::first_row(&quarter, &only, base);
    let second = quarters::word_of_four(&only);
    let both = paths::places(values, &quarters::word_of_eight(&first, &second));
    Fifth {
        score,
        symbol,
        row,
        places: both[0],
    }
}

/// Three phases of a window, and the row that is kept after them.
#[derive(Clone, Copy, Debug, PartialEq, Eq)]
pub struct Wide {
    pub phases: Phases<3>,
    pub kept: [i32; 8],
}

// Kernel 2, phases 5 to 7: v8, v6 + v9, v5 + v6 + v10. Beside `straight_one::blocks1`, whose window has two blocks of paths
// where this one has one: the rows and the leads differ.
fn wide2(
    values: &[i32],
    v: &[bool; 4],
    v4: bool,
    row: &[i32; 8],
    places: &[i32; 8],
    sources: Sources,
) -> Wide
    requires values_len { ChannelValues values.now }
    requires row_of { RowOf false
        (λ x y z. best_v values.now (four v.now (v4 ∷ x ∷ y ∷ z ∷ []))) row.now }
    requires b_value { PlacesOf values.now
        (arikan_word 3 (four v.now (v4 ∷ false ∷ false ∷ false ∷ []))) false places.now }
    ensures follows { Follows (λ p. score (kernel_code 2) (channel values.now)
        (four v.now (v4 ∷ p))) (λ i. bit (bits 16 sources.free) (5 + i))
        (λ i. bit (bits 16 sources.given) (5 + i)) 3 result.phases.scores result.phases.symbols }
    ensures kept { RowOf false
        (λ x y z. best_v values.now (four v.now (v4 ∷ x ∷ y ∷ z ∷ bit result.phases.symbols 0
        ∷ (bit result.phases.symbols 1 ⊕ y) ∷ (bit result.phases.symbols 2 ⊕ (x ⊕ y))
        ∷ []))) result.kept }
{
    let rows = paths::step8(row, places);
    let first = paths::lead(&rows);
    let v8 = sources.symbol(5, first);
    let next = paths::step9(&rows[v8 as usize], places, v8);
    let second = paths::lead(&next);
    let u = sources.symbol(6, second);
    let last = paths::step10(&next[u as usize], places, v8, u);
    let third = paths::lead(&last);
    let t = sources.symbol(7, third);
    Wide {
        phases: Phases {
            scores: [first, second, third],
            symbols: [v8, u, t],
        },
        kept: last[t as usize],
    }
}

// Kernel 2, phase 11 after phases 8 to 10: v11, over the values that v0 to v7 leave.
fn third2(rest: &[i32; 8], opened: &[bool; 3], closed: Phases<3>, sources: Sources) -> Phases<4>
    requires { Small 2097152 8 rest.now }
    ensures { ((sc : List Bool → ℤ) → Follows sc (λ i. bit (bits 16 sources.free) (8 + i))
        (λ i. bit (bits 16 sources.given) (8 + i)) 3 closed.scores closed.symbols
        → sc (three closed.symbols []) ≡ arikan_score 3 (λ i. get_or rest.now i (pos 0))
        (bit opened.now 0 ∷ (bit opened.now 1 ⊕ bit closed.symbols 0) ∷ bit closed.symbols 1 ∷ [])
        → Follows sc (λ i. bit (bits 16 sources.free) (8 + i))
        (λ i. bit (bits 16 sources.given) (8 + i)) 4 result.scores result.symbols)
        × (bit result.symbols 0 ≡ bit closed.symbols 0)
        × (bit result.symbols 1 ≡ bit closed.symbols 1)
        × (bit result.symbols 2 ≡ bit closed.symbols 2) }
{
    let quarter = value_folds::free_half(rest);
    let v9 = opened[1] != closed.symbols[0];
    let score = quarters::fourth_of(&quarter, opened[0], v9, closed.symbols[1]);
    let v11 = sources.symbol(11, score);
    quarters::three_and_one(closed, score, v11)
}

// Kernel 2, phases 12 to 15, after v8 to v11.
fn last2(rest: &[i32; 8], opened: &[bool; 3], third: &[bool; 4], sources: Sources) -> Phases<4>
    requires { Small 2097152 8 rest.now }
    ensures { Follows (λ p. arikan_score 3 (λ i. get_or rest.now i (pos 0)) (bit opened.now 0
        ∷ (bit opened.now 1 ⊕ bit third.now 0) ∷ bit third.now 1 ∷ bit third.now 3 ∷ p))
        (λ i. bit (bits 16 sources.free) (12 + i))
        (λ i. bit (bits 16 sources.given) (12 + i)) 4 result.scores result.symbols }
{
    let v9 = opened[1] != third[0];
    let word = quarters::word_of_four(&[opened[0], v9, third[1], third[3]]);
    quarters::run_four(&value_folds::known_half(rest, &word), sources, 12)
}

/// Kernel 2.
pub fn kernel2(values: &[i32], free: u16, given: u16) -> Phases<16>
    requires { ChannelValues values.now }
    ensures { Follows (score (kernel_code 2) (channel values.now)) (bit (bits 16 free))
        (bit (bits 16 given)) 16 result.scores result.symbols }
{
    let sources = Sources { free, given };
    let eighths: [i32; 8] = value_folds::free_half(values);
    let a = quarters::run_four(&value_folds::free_half(&eighths), sources, 0);
    let fifth = fifth2(
        values,
        &eighths,
        &a.symbols,
        quarters::gained(&a.scores, &a.symbols),
        sources,
    );
    let wide = wide2(
        values,
        &a.symbols,
        fifth.symbol,
        &fifth.row,
        &fifth.places,
        sources,
    );
    let b = quarters::one_and_three(fifth.score, fifth.symbol, wide.phases);
    let opened = &wide.phases.symbols;
    let closed = quarters::close(&wide.kept, false, opened[2], sources, 8);
    let found = &closed.symbols;
    let v5 = (opened[2] != found[0]) != found[1];
    let rest = quarters::rest_half(values, &a.symbols, &[fifth.symbol, v5, found[0], found[2]]);
    let c = third2(&rest, opened, closed, sources);
    let d = last2(&rest, opened, &c.symbols, sources);
    quarters::joined(a, b, c, d)
}
