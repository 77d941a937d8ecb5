// Values from marks: received marks to soft values.
#![tactic(auto)]

ghost use Rattle.std.specs.Prelude.{◌≡◌, ◌++◌, ◌+◌, ◌*◌, ◌≤◌, ◌<◌, T, length, drop, MatchOption};
ghost use Rattle.std.specs.Float.Ieee.Positive.{positive};
ghost use Rattle.base.specs.Bit.{tabulate};
ghost use Rattle.base.specs.Place.{FoundBelow};
ghost use Rattle.answer.specs.Verdict.{verdict, done, settle};
ghost use Rattle.quantiser.specs.Marks.{mark_at, offends, pair_of, lowest, not_finite, first_not_finite, Sound, value_at, place_in_mark};
ghost use Rattle.quantiser.specs.Jobs.{marks_checks, values_from_marks};

use answer::Refusal;

/// A heard mark's I and Q amplitudes together: one symbol of the modulation, as the paper names the form. It is not one of
/// the coded symbols u of a kernel or a frame.
#[derive(Clone, Copy, Debug, PartialEq)]
pub struct Symbol {
    pub i: f32,
    pub q: f32,
}

/// A received mark: heard, with two amplitudes, or blanked, with none.
#[derive(Clone, Copy, Debug, PartialEq)]
pub enum Mark {
    // No `Option<Symbol>`: blanked is what the paper says of a mark, and the definitions have the word too.
    Heard(Symbol),
    Blanked,
}

/// One of a mark's two amplitudes.
#[derive(Clone, Copy, Debug, PartialEq, Eq)]
pub enum Side {
    I,
    Q,
}

/// The two soft values of a mark.
#[derive(Clone, Copy, Debug, PartialEq, Eq)]
pub struct MarkValues {
    pub i: i8,
    pub q: i8,
}

// The two soft values of a mark.
fn values_of(scale: f32, m: Mark) -> MarkValues
    requires { T (positive scale) × Sound m }
    ensures { result ≡ pair_of scale m }
{
    match m {
        Mark::Heard(s) => {
            let i = soft_value::quantise(scale, s.i);
            let q = soft_value::quantise(scale, s.q);
            MarkValues { i, q }
        }
        Mark::Blanked => MarkValues { i: 0, q: 0 },
    }
}

// The first of a mark's amplitudes that is not finite.
fn offending(m: Mark) -> Option<Side>
    ensures { MatchOption result (lowest 2 (offends m) ≡ 2) (λ s. lowest 2 (offends m) ≡ place_in_mark s) }
{
    match m {
        Mark::Heard(s) => {
            if !soft_value::is_finite(s.i) {
                return Some(Side::I);
            }
            if soft_value::is_finite(s.q) {
                None
            } else {
                Some(Side::Q)
            }
        }
        Mark::Blanked => None,
    }
}

// The marks of a request of the right lengths: two amplitudes for each, and a bit that says whether it is blanked.
#[derive(Clone, Copy)]
struct Marks<'a> {
    amplitudes: &'a [f32],
    blanked: &'a [u8],
    ghost lengths: { (length amplitudes.now ≡ 256) × (length blanked.now ≡ 16) },
}

impl Marks<'_> {
    // Mark n.
    fn mark_at(&self, n: usize) -> Mark
        requires { n < 128 }
        ensures { result ≡ mark_at self.now.amplitudes.now self.now.blanked.now n }
    {
        if bits::bit(self.blanked, n) {
            return Mark::Blanked;
        }
        let i = self.amplitudes[2 * n];
        let q = self.amplitudes[2 * n + 1];
        Mark::Heard(Symbol { i, q })
    }

    // The first amplitude that is not finite of the eight marks of byte m of the mask: its index among their sixteen.
    fn offending_in_byte(&self, m: usize) -> Option<usize>
        requires { m < 16 }
        ensures { FoundBelow 16 (lowest 16 (λ i. not_finite self.now.amplitudes.now self.now.blanked.now (16 * m + i))) result }
    {
        for j in 0..8 {
            if let Some(side) = offending(self.mark_at(8 * m + j)) {
                return Some(2 * j + side as usize);
            }
        }
        None
    }

    // The lowest index of an amplitude of a heard mark that is not finite.
    fn first_not_finite(&self) -> Option<usize>
        ensures { FoundBelow 256 (first_not_finite self.now.amplitudes.now self.now.blanked.now) result }
    {
        for m in 0..16 {
            if let Some(place) = self.offending_in_byte(m) {
                return Some(16 * m + place);
            }
        }
        None
    }

    // Writes the soft values of all marks.
    fn store_values(&self, scale: f32, values: &mut [i8])
        requires t { T (positive scale) × (256 ≤ length values.old) }
        requires blanked_value { first_not_finite self.now.amplitudes.now self.now.blanked.now ≡ 256 }
        ensures { values.new ≡ tabulate 256 (value_at scale self.now.amplitudes.now self.now.blanked.now) ++ drop 256 values.old }
    {
        for n in 0..128 {
            let pair = values_of(scale, self.mark_at(n));
            values[2 * n] = pair.i;
            values[2 * n + 1] = pair.q;
        }
    }
}

// The checks of values from marks, in checking order.
#[tactic(auto, unfolding(crate::specs::Jobs::marks_checks))]
fn marks_check(scale: f32, amplitudes: &[f32], blanked: &[u8], room: usize) -> Result<(), Refusal>
    ensures { verdict result ≡ settle (marks_checks scale amplitudes.now blanked.now room) done }
{
    if amplitudes.len() != 256 {
        return Err(Refusal::WrongLength);
    }
    if blanked.len() != 16 {
        return Err(Refusal::WrongLength);
    }
    if room < 256 {
        return Err(Refusal::ShortOutput);
    }
    if !soft_value::is_positive(scale) {
        return Err(Refusal::BadScale);
    }
    let marks = Marks {
        amplitudes,
        blanked,
    };
    if let Some(place) = marks.first_not_finite() {
        return Err(Refusal::NotFinite(place));
    }
    Ok(())
}

/// Values from marks: the scale of a frame and 128 received marks to 256 soft values.
#[tactic(auto, unfolding(crate::specs::Jobs::values_from_marks))]
pub fn values_from_marks(
    scale: f32,
    amplitudes: &[f32],
    blanked: &[u8],
    values: &mut [i8],
) -> Result<(), Refusal>
    ensures { values_from_marks scale amplitudes.now blanked.now values.old ≡ (verdict result, values.new) }
{
    marks_check(scale, amplitudes, blanked, values.len())?;
    let marks = Marks {
        amplitudes,
        blanked,
    };
    marks.store_values(scale, values);
    Ok(())
}
