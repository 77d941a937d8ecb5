// List decoding with a checksum: the final paths, and the payload of the best one whose checksum agrees.
#![tactic(auto)]

ghost use Rattle.std.specs.Prelude.{◌≡◌};
ghost use Rattle.answer.specs.Verdict.{penalty_verdict};
ghost use Rattle.list_decode.specs.Jobs.{list_decode};

use answer::Refusal;
use plan::Plan;

/// List decoding: the payload and the penalty of the best agreeing path, which is the final path of least penalty whose checksum agrees,
/// and of equal penalties the first. The first 8,192 bytes of scratch are left as zeros, also where no checksum agrees.
pub fn list_decode(
    plan: Plan,
    list: usize,
    values: &[i8],
    mask: &[u8],
    scratch: &mut [u8],
    payload: &mut [u8],
) -> Result<u32, Refusal>
    ensures { list_decode plan list values.now mask.now scratch.old payload.old ≡ (penalty_verdict result, scratch.new, payload.new) }
{
    let bytes = mask::payload_bytes(32, mask);
    list_checks::list_check(
        plan,
        list,
        values,
        mask,
        bytes,
        scratch.len(),
        payload.len(),
    )?;
    let mut marks = [0u16; 16];
    grid::rows_of(mask, &mut marks);
    let n = list_run::list_run(
        plan.kernels[0] as usize,
        plan.kernels[1] as usize,
        list,
        values,
        marks,
        scratch,
    );
    let found = agreeing::best_agreeing(scratch, n, mask, bytes);
    let result = agreeing::hand_out(scratch, found, mask, payload);
    path::clear(scratch, 8192);
    result
}
