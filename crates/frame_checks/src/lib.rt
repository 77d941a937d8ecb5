// The checks of frame encode, and those of frame undo that do not look at the word's symbols.
#![tactic(auto)]

ghost use Rattle.std.specs.Prelude.{◌≡◌};
ghost use Rattle.answer.specs.Verdict.{verdict, done, settle};
ghost use Rattle.frame_checks.specs.Checks.{encode_checks, request_checks};

use answer::Refusal;
use plan::Plan;

/// The checks of frame encode, in checking order.
#[tactic(auto, unfolding(crate::specs::Checks::encode_checks))]
pub fn encode_check(
    plan: Plan,
    mask: &[u8],
    payload_length: usize,
    room: usize,
) -> Result<(), Refusal>
    ensures { verdict result ≡ settle (encode_checks plan mask.now payload_length room) done }
{
    plan::check(plan)?;
    let n = plan::bytes(plan);
    if mask.len() != n {
        return Err(Refusal::WrongLength);
    }
    let bytes = mask::payload_bytes(n, mask);
    if bytes == 0 {
        return Err(Refusal::BadMask);
    }
    if payload_length != bytes {
        return Err(Refusal::WrongPayload);
    }
    if room < n {
        return Err(Refusal::ShortOutput);
    }
    Ok(())
}

/// The checks of frame undo that do not look at the word's symbols, in checking order.
// A function apart from that of encode: what stands between the plan and the mask differs.
#[tactic(auto, unfolding(crate::specs::Checks::request_checks))]
pub fn request_check(
    plan: Plan,
    mask: &[u8],
    word_length: usize,
    room: usize,
) -> Result<(), Refusal>
    ensures { verdict result ≡ settle (request_checks plan mask.now word_length room) done }
{
    plan::check(plan)?;
    let n = plan::bytes(plan);
    if mask.len() != n {
        return Err(Refusal::WrongLength);
    }
    if word_length != n {
        return Err(Refusal::WrongLength);
    }
    let bytes = mask::payload_bytes(n, mask);
    if bytes == 0 {
        return Err(Refusal::BadMask);
    }
    if room < bytes {
        return Err(Refusal::ShortOutput);
    }
    Ok(())
}
