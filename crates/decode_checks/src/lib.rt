// The checks of frame follow and frame decode, and the search for a value outside the range.
#![tactic(auto)]

ghost use Rattle.std.specs.Prelude.{◌≡◌, ltb, length};
ghost use Rattle.base.specs.Place.{FoundBelow};
ghost use Rattle.folds.specs.Range.{first_outside};
ghost use Rattle.answer.specs.Verdict.{verdict, done, settle};
ghost use Rattle.decode_checks.specs.Checks.{frame_follow_checks, frame_decode_checks};

use answer::Refusal;
use plan::Plan;

// Whether some value lies outside -127 to 127, that is, is -128.
fn some_outside(values: &[i8]) -> bool
    ensures { result ≡ ltb (first_outside 127 values.now) (length values.now) }
{
    // No `contains`: its contract does not say that items fit i8, and without that the proof does not close.
    let mut found = false;
    for y in values {
        found |= *y == -128;
    }
    found
}

/// The lowest index whose value lies outside -127 to 127. Only where there is such a value, which is seldom, are they searched
/// one by one.
pub fn frame_outside(values: &[i8]) -> Option<usize>
    ensures { FoundBelow (length values.now) (first_outside 127 values.now) result }
{
    if !some_outside(values) {
        return None;
    }
    for (i, y) in values.iter().enumerate() {
        if *y == -128 {
            return Some(i);
        }
    }
    None
}

/// The checks of frame follow, in checking order.
#[tactic(auto, unfolding(crate::specs::Checks::frame_follow_checks, crate::specs::Checks::value_check))]
pub fn follow_check(
    plan: Plan,
    values: &[i8],
    symbol_bytes: usize,
    score_room: usize,
    penalty_room: usize,
) -> Result<(), Refusal>
    ensures { verdict result ≡ settle (frame_follow_checks plan values.now symbol_bytes score_room penalty_room) done }
{
    plan::check(plan)?;
    let n = plan::symbols(plan);
    if (values.len() != n) | (symbol_bytes != plan::bytes(plan)) {
        return Err(Refusal::WrongLength);
    }
    if (score_room < n) | (penalty_room < n) {
        return Err(Refusal::ShortOutput);
    }
    // The last three lines stay in each check: a function of them would have a contract and a proof of its own, and be longer.
    if let Some(place) = frame_outside(values) {
        return Err(Refusal::ValueOutOfRange(place));
    }
    Ok(())
}

/// The checks of frame decode, in checking order. A mask that is refused takes no byte.
#[tactic(auto, unfolding(crate::specs::Checks::frame_decode_checks, crate::specs::Checks::value_check))]
pub fn decode_check(
    plan: Plan,
    values: &[i8],
    mask: &[u8],
    score_room: usize,
    penalty_room: usize,
    payload_room: usize,
) -> Result<(), Refusal>
    ensures { verdict result ≡ settle (frame_decode_checks plan values.now mask.now score_room penalty_room payload_room) done }
{
    plan::check(plan)?;
    let n = plan::symbols(plan);
    let mask_bytes = plan::bytes(plan);
    if (values.len() != n) | (mask.len() != mask_bytes) {
        return Err(Refusal::WrongLength);
    }
    let bytes = mask::payload_bytes(mask_bytes, mask);
    if bytes == 0 {
        return Err(Refusal::BadMask);
    }
    if (score_room < n) | (penalty_room < n) | (payload_room < bytes) {
        return Err(Refusal::ShortOutput);
    }
    // The last three lines stay in each check: a function of them would have a contract and a proof of its own, and be longer.
    if let Some(place) = frame_outside(values) {
        return Err(Refusal::ValueOutOfRange(place));
    }
    Ok(())
}
