// The C interface: each job under its C name, answering with a number, a place and, for some, a word or a penalty.
#![tactic(auto)]

ghost use Rattle.std.specs.Prelude.{◌≡◌, eqb};
ghost use Rattle.answer.specs.Verdict.{verdict, word_verdict, penalty_verdict, is_accepted};
ghost use Rattle.kernel.specs.Jobs.{kernel_encode, kernel_undo};
ghost use Rattle.part.specs.Part.{part_length};
ghost use Rattle.order.specs.Jobs.{information_mask};
ghost use Rattle.frame.specs.Jobs.{frame_encode, frame_undo};
ghost use Rattle.follow.specs.Jobs.{kernel_follow};
ghost use Rattle.decode.specs.Jobs.{frame_follow, frame_decode};
ghost use Rattle.quantiser.specs.Jobs.{values_from_marks};
ghost use Rattle.list_decode.specs.Jobs.{list_decode};
ghost use Rattle.link.specs.Outcomes.{outcome_of, outcome_with, outcome_with_two, outcome_with_three, word_outcome_of, penalty_outcome_of, penalty_outcome_with_two};

use answer::Refusal;
use plan::Plan;

// Three structs, and none over a type: the C interface has three structs.

/// The outcome of a job without a word or a penalty: the number of the condition that refused it, 0 if accepted, and the place that it names.
#[repr(C)]
#[derive(Clone, Copy, Debug, PartialEq, Eq)]
pub struct Outcome {
    pub number: u32,
    pub place: usize,
}

/// The outcome of a job with a word, 0 if refused.
#[repr(C)]
#[derive(Clone, Copy, Debug, PartialEq, Eq)]
pub struct WordOutcome {
    pub number: u32,
    pub place: usize,
    pub word: u16,
}

/// The outcome of a job with a penalty, 0 if refused.
#[repr(C)]
#[derive(Clone, Copy, Debug, PartialEq, Eq)]
pub struct PenaltyOutcome {
    pub number: u32,
    pub place: usize,
    pub penalty: u32,
}

/// The outcome of a result, whatever it holds. Its number is 0 just where the request was accepted.
pub fn outcome_of<T: Copy>(a: Result<T, Refusal>) -> Outcome
    ensures outcome { result ≡ outcome_of (verdict a) }
    ensures accepted { eqb result.number 0 ≡ is_accepted (verdict a) }
{
    let (number, place) = match a {
        Ok(_) => (0, 0),
        Err(e) => (u32::from(e.number()), e.place()),
    };
    Outcome { number, place }
}

/// The outcome of a result, with its word; the number is as above.
pub fn word_outcome_of(a: Result<u16, Refusal>) -> WordOutcome
    ensures outcome { result ≡ word_outcome_of (word_verdict a) }
    ensures accepted { eqb result.number 0 ≡ is_accepted (word_verdict a) }
{
    let o = outcome_of(a);
    WordOutcome {
        number: o.number,
        place: o.place,
        word: a.unwrap_or(0),
    }
}

/// The outcome of a result, with its penalty; the number is as above.
pub fn penalty_outcome_of(a: Result<u32, Refusal>) -> PenaltyOutcome
    ensures outcome { result ≡ penalty_outcome_of (penalty_verdict a) }
    ensures accepted { eqb result.number 0 ≡ is_accepted (penalty_verdict a) }
{
    let o = outcome_of(a);
    PenaltyOutcome {
        number: o.number,
        place: o.place,
        penalty: a.unwrap_or(0),
    }
}

/// Kernel encode: the word of sixteen symbols.
#[unsafe(no_mangle)]
pub extern "C" fn nospridda_kernel_encode(kernel: u8, symbols: u16) -> WordOutcome
    ensures { result ≡ word_outcome_of (kernel_encode kernel symbols) }
{
    word_outcome_of(kernel::kernel_encode(kernel, symbols))
}

/// Kernel undo: the symbols of a word of sixteen bits.
#[unsafe(no_mangle)]
pub extern "C" fn nospridda_kernel_undo(kernel: u8, word: u16) -> WordOutcome
    ensures { result ≡ word_outcome_of (kernel_undo kernel word) }
{
    word_outcome_of(kernel::kernel_undo(kernel, word))
}

/// Frame encode: the word of a payload at the marked phases.
#[unsafe(no_mangle)]
pub extern "C" fn nospridda_frame_encode(
    plan: Plan,
    mask: &[u8],
    payload: &[u8],
    word: &mut [u8],
) -> Outcome
    ensures { outcome_with (frame_encode plan mask.now payload.now word.old) ≡ (result, word.new) }
{
    outcome_of(frame::frame_encode(plan, mask, payload, word))
}

/// Frame undo: the payload of a word.
#[unsafe(no_mangle)]
pub extern "C" fn nospridda_frame_undo(
    plan: Plan,
    mask: &[u8],
    word: &[u8],
    payload: &mut [u8],
) -> Outcome
    ensures { outcome_with (frame_undo plan mask.now word.now payload.old) ≡ (result, payload.new) }
{
    outcome_of(frame::frame_undo(plan, mask, word, payload))
}

/// The length of the payload part of a caller's bytes.
#[unsafe(no_mangle)]
pub extern "C" fn nospridda_part_length(plan: Plan, mask: &[u8], length: usize) -> usize
    ensures { result ≡ part_length plan mask.now length }
{
    part::part_length(plan, mask, length)
}

/// Information mask: the mask for p bytes of payload.
#[unsafe(no_mangle)]
pub extern "C" fn nospridda_information_mask(p: usize, mask: &mut [u8]) -> Outcome
    ensures { outcome_with (information_mask p mask.old) ≡ (result, mask.new) }
{
    outcome_of(order::information_mask(p, mask))
}

/// Kernel follow: the scores of sixteen symbols over sixteen channel values.
#[unsafe(no_mangle)]
pub extern "C" fn nospridda_kernel_follow(
    kernel: u8,
    values: &[i32],
    symbols: u16,
    scores: &mut [i32],
) -> Outcome
    ensures { outcome_with (kernel_follow kernel values.now symbols scores.old) ≡ (result, scores.new) }
{
    outcome_of(follow::kernel_follow(kernel, values, symbols, scores))
}

/// Kernel follow by the Hadamard engine.
#[unsafe(no_mangle)]
pub extern "C" fn nospridda_kernel_follow_hadamard(
    kernel: u8,
    values: &[i32],
    symbols: u16,
    scores: &mut [i32],
) -> Outcome
    ensures { outcome_with (kernel_follow kernel values.now symbols scores.old) ≡ (result, scores.new) }
{
    outcome_of(follow::kernel_follow_hadamard(kernel, values, symbols, scores))
}

/// Frame follow: the scores and penalties of a frame's symbols over its channel values.
#[unsafe(no_mangle)]
pub extern "C" fn nospridda_frame_follow(
    plan: Plan,
    values: &[i8],
    symbols: &[u8],
    scores: &mut [i32],
    penalties: &mut [u32],
) -> Outcome
    ensures { outcome_with_two (frame_follow plan values.now symbols.now scores.old penalties.old) ≡ (result, scores.new, penalties.new) }
{
    outcome_of(decode::frame_follow(plan, values, symbols, scores, penalties))
}

/// Frame decode: the scores and penalties of the decoder's own symbols, and its payload.
#[unsafe(no_mangle)]
pub extern "C" fn nospridda_frame_decode(
    plan: Plan,
    values: &[i8],
    mask: &[u8],
    scores: &mut [i32],
    penalties: &mut [u32],
    payload: &mut [u8],
) -> Outcome
    ensures { outcome_with_three (frame_decode plan values.now mask.now scores.old penalties.old payload.old) ≡ (result, scores.new, penalties.new, payload.new) }
{
    outcome_of(decode::frame_decode(plan, values, mask, scores, penalties, payload))
}

/// Values from marks: the channel values of the amplitudes of 128 marks, under a scale.
#[unsafe(no_mangle)]
pub extern "C" fn nospridda_values_from_marks(
    scale: f32,
    amplitudes: &[f32],
    blanked: &[u8],
    values: &mut [i8],
) -> Outcome
    ensures { outcome_with (values_from_marks scale amplitudes.now blanked.now values.old) ≡ (result, values.new) }
{
    outcome_of(quantiser::values_from_marks(scale, amplitudes, blanked, values))
}

/// List decoding: the payload and the penalty of the best agreeing path.
#[unsafe(no_mangle)]
pub extern "C" fn nospridda_list_decode(
    plan: Plan,
    list: usize,
    values: &[i8],
    mask: &[u8],
    scratch: &mut [u8],
    payload: &mut [u8],
) -> PenaltyOutcome
    ensures { penalty_outcome_with_two (list_decode plan list values.now mask.now scratch.old payload.old) ≡ (result, scratch.new, payload.new) }
{
    penalty_outcome_of(list_decode::list_decode(plan, list, values, mask, scratch, payload))
}
