// The checks of list decoding.
#![tactic(auto)]

ghost use Rattle.std.specs.Prelude.{◌≡◌};
ghost use Rattle.answer.specs.Verdict.{verdict, done, settle};
ghost use Rattle.mask.specs.Mask.{payload_bytes};
ghost use Rattle.list_checks.specs.Checks.{list_decode_checks};

use answer::Refusal;
use plan::Plan;

/// The checks of list decoding, in checking order. A mask that is refused takes no byte; one of fewer than 24 phases takes fewer than 3.
#[tactic(auto, unfolding(crate::specs::Checks::list_decode_checks, decode_checks::specs::Checks::value_check))]
pub fn list_check(
    plan: Plan,
    list: usize,
    values: &[i8],
    mask: &[u8],
    bytes: usize,
    scratch_room: usize,
    payload_room: usize,
) -> Result<(), Refusal>
    requires { bytes ≡ payload_bytes 32 mask.now }
    ensures { verdict result ≡ settle (list_decode_checks plan list values.now mask.now scratch_room payload_room) done }
{
    // Its parameters stay: docs/ARCHITECTURE.md names it.
    if plan.layers != 2 {
        return Err(Refusal::BadLayers);
    }
    if !plan::has_kernels(plan) {
        return Err(Refusal::NoKernel);
    }
    if (list < 1) | (8 < list) {
        return Err(Refusal::WrongListSize);
    }
    if (values.len() != 256) | (mask.len() != 32) {
        return Err(Refusal::WrongLength);
    }
    if bytes == 0 {
        return Err(Refusal::BadMask);
    }
    if bytes < 3 {
        return Err(Refusal::FewMarks);
    }
    if (payload_room < bytes) | (scratch_room < 8192) {
        return Err(Refusal::ShortOutput);
    }
    // The last three lines stay in each check: a function of them would have a contract and a proof of its own, and be longer.
    if let Some(place) = decode_checks::frame_outside(values) {
        return Err(Refusal::ValueOutOfRange(place));
    }
    Ok(())
}
