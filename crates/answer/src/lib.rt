// Why a job refuses a request, and what its result says.
#![tactic(auto)]

ghost use Rattle.std.specs.Prelude.{◌≡◌};
ghost use Rattle.answer.specs.Verdict.{refusal, number_of, place_of};

/// The condition that a request meets, the first in the paper's order, with its place where it names one.
#[derive(Clone, Copy, Debug, PartialEq, Eq)]
pub enum Refusal {
    NoKernel,
    WrongLength,
    BadMask,
    WrongPayload,
    ShortOutput,
    ValueOutOfRange(usize),
    NotFinite(usize),
    WrongSize,
    FrozenOne(usize),
    BadScale,
    WrongListSize,
    FewMarks,
    NoAgreeingPath,
    BadLayers,
}

impl Refusal {
    /// The number of the condition, 1 to 14.
    pub fn number(self) -> u8
        ensures { result ≡ number_of (refusal self) }
    {
        match self {
            Refusal::NoKernel => 1,
            Refusal::WrongLength => 2,
            Refusal::BadMask => 3,
            Refusal::WrongPayload => 4,
            Refusal::ShortOutput => 5,
            Refusal::ValueOutOfRange(_) => 6,
            Refusal::NotFinite(_) => 7,
            Refusal::WrongSize => 8,
            Refusal::FrozenOne(_) => 9,
            Refusal::BadScale => 10,
            Refusal::WrongListSize => 11,
            Refusal::FewMarks => 12,
            Refusal::NoAgreeingPath => 13,
            Refusal::BadLayers => 14,
        }
    }

    /// The place that the refusal names, 0 where it names none.
    pub fn place(self) -> usize
        ensures { result ≡ place_of (refusal self) }
    {
        match self {
            Refusal::ValueOutOfRange(i) | Refusal::NotFinite(i) | Refusal::FrozenOne(i) => i,
            _ => 0,
        }
    }
}
