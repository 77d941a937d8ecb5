// Frame follow and frame decode: the run of a frame with its symbols given or decided.
#![tactic(auto)]

ghost use Rattle.std.specs.Prelude.{◌≡◌, false, ◌++◌, ◌*◌, ◌/◌, ◌≤◌, length, drop};
ghost use Rattle.bits.specs.Packed.{unpack, pack};
ghost use Rattle.payload.specs.Payload;
ghost use Rattle.answer.specs.Verdict.{verdict};
ghost use Rattle.plan.specs.Plan.{bad_layers, byte_count};
ghost use Rattle.grid.specs.Grid.{rows_bits};
ghost use Rattle.frame_run.specs.Run.{row_count};
ghost use Rattle.decode.specs.Jobs.{frame_follow, frame_decode};

use answer::Refusal;
use plan::Plan;

/// Frame follow: the scores and penalties of the symbols of a frame over its channel values.
#[tactic(auto, unfolding(crate::specs::Jobs::frame_follow))]
pub fn frame_follow(
    plan: Plan,
    values: &[i8],
    symbols: &[u8],
    scores: &mut [i32],
    penalties: &mut [u32],
) -> Result<(), Refusal>
    ensures { frame_follow plan values.now symbols.now scores.old penalties.old ≡ (verdict result, scores.new, penalties.new) }
{
    decode_checks::follow_check(plan, values, symbols.len(), scores.len(), penalties.len())?;
    let n = plan::bytes(plan) / 2;
    let free = [0u16; 256];
    let mut given = [0u16; 256];
    grid::rows_of(symbols, &mut given[..n]);
    frame_run::frame_run(plan, values, &free, &given, scores, penalties);
    Ok(())
}

// Writes the payload: the symbols of rows at the marked phases.
fn store_payload(plan: Plan, mask: &[u8], rows: &[u16], payload: &mut [u8])
    requires { (bad_layers plan ≡ false) × (length mask.now ≡ byte_count plan) × (length rows.now ≡ 256) × (Payload.ones (unpack mask.now) ≤ 8 * length payload.old) }
    ensures { payload.new ≡ pack (Payload.ones (unpack mask.now) / 8) (Payload.gather (unpack mask.now) (rows_bits (row_count plan) rows.now)) ++ drop (Payload.ones (unpack mask.now) / 8) payload.old }
{
    let bytes = plan::bytes(plan);
    let mut symbols = [0u8; 512];
    grid::store_rows(&rows[..bytes / 2], &mut symbols);
    payload::gather(mask, &symbols[..bytes], payload);
}

/// Frame decode: the scores and penalties of the decoder's own symbols, and its payload.
#[tactic(auto, unfolding(crate::specs::Jobs::frame_decode))]
pub fn frame_decode(
    plan: Plan,
    values: &[i8],
    mask: &[u8],
    scores: &mut [i32],
    penalties: &mut [u32],
    payload: &mut [u8],
) -> Result<(), Refusal>
    ensures { frame_decode plan values.now mask.now scores.old penalties.old payload.old ≡ (verdict result, scores.new, penalties.new, payload.new) }
{
    decode_checks::decode_check(
        plan,
        values,
        mask,
        scores.len(),
        penalties.len(),
        payload.len(),
    )?;
    let n = plan::bytes(plan) / 2;
    let mut free = [0u16; 256];
    let given = [0u16; 256];
    grid::rows_of(mask, &mut free[..n]);
    let rows = frame_run::frame_run(plan, values, &free, &given, scores, penalties);
    store_payload(plan, mask, &rows, payload);
    Ok(())
}
