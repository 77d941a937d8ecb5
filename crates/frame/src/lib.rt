// Frame encode and frame undo.
#![tactic(auto)]

ghost use Rattle.std.specs.Prelude.{◌≡◌, false, ◌++◌, ◌-◌, ◌*◌, ◌^◌, ◌≤◌, length, drop};
ghost use Rattle.bits.specs.Packed.{unpack};
ghost use Rattle.payload.specs.Payload;
ghost use Rattle.answer.specs.Verdict.{verdict, done, settle};
ghost use Rattle.plan.specs.Plan.{bad_layers, bad_kernels, byte_count};
ghost use Rattle.frame_checks.specs.Checks.{request_checks};
ghost use Rattle.frame.specs.Jobs.{encoded_frame, frame_encode, frame_symbols, frame_undo};

use answer::Refusal;
use plan::Plan;

// A plan that has passed its checks, with symbols and rows lent for the work.
#[derive(Drop)]
struct Work<'a> {
    plan: Plan,
    symbols: &'a mut [u8],
    rows: &'a mut [u16],
    ghost layered: { bad_layers plan ≡ false },
    ghost known: { bad_kernels plan ≡ false },
    ghost symbols_len: { length symbols.now ≡ byte_count plan },
    ghost rows_len: { length rows.now ≡ 16 ^ (plan.layers - 1) },
}

impl Work<'_> {
    // Writes the word of a payload.
    fn encode(&mut self, mask: &[u8], payload: &[u8], word: &mut [u8])
        requires mask_len { length mask.now ≡ byte_count self.old.plan }
        requires payload_len { Payload.ones (unpack mask.now) ≡ 8 * length payload.now }
        requires word_len { byte_count self.old.plan ≤ length word.old }
        ensures { word.new ≡ encoded_frame self.old.plan mask.now payload.now ++ drop (byte_count self.old.plan) word.old }
    {
        spread::spread(mask, payload, self.symbols);
        grid::rows_of(self.symbols, self.rows);
        grid::frame_rows(
            self.plan.layers as usize,
            plan_tables::layer_tables(self.plan),
            self.rows,
        );
        grid::store_rows(self.rows, word);
    }

    // Finds the symbols of a word.
    fn read(&mut self, word: &[u8])
        requires { length word.now ≡ byte_count self.old.plan }
        ensures { (self.new.plan ≡ self.old.plan) × (unpack self.new.symbols.now ≡ frame_symbols self.old.plan word.now) }
    {
        grid::rows_of(word, self.rows);
        grid::frame_rows(
            self.plan.layers as usize,
            plan_tables::undoing_tables(self.plan),
            self.rows,
        );
        grid::store_rows(self.rows, self.symbols);
    }

    // Frame undo of a request that passes the checks before.
    fn undo(&mut self, mask: &[u8], word: &[u8], payload: &mut [u8]) -> Result<(), Refusal>
        requires { done ≡ settle (request_checks self.old.plan mask.now (length word.now) (length payload.old)) done }
        ensures { frame_undo self.old.plan mask.now word.now payload.old ≡ (verdict result, payload.new) }
    {
        self.read(word);
        let symbols = &*self.symbols;
        if let Some(phase) = payload::frozen_one(mask, symbols) {
            return Err(Refusal::FrozenOne(phase));
        }
        payload::gather(mask, symbols, payload);
        Ok(())
    }
}

/// Frame encode: the word of a payload at the marked phases.
#[tactic(auto, unfolding(crate::specs::Jobs::frame_encode))]
pub fn frame_encode(plan: Plan, mask: &[u8], payload: &[u8], word: &mut [u8]) -> Result<(), Refusal>
    ensures { frame_encode plan mask.now payload.now word.old ≡ (verdict result, word.new) }
{
    frame_checks::encode_check(plan, mask, payload.len(), word.len())?;
    let n = plan::bytes(plan);
    let symbols = &mut [0u8; 512][..n];
    let rows = &mut [0u16; 256][..n / 2];
    let mut work = Work {
        plan,
        symbols,
        rows,
    };
    work.encode(mask, payload, word);
    Ok(())
}

/// Frame undo: the payload of a word, or the lowest unmarked phase where its symbols have 1.
#[tactic(auto, unfolding(crate::specs::Jobs::frame_undo, crate::specs::Jobs::undo_checks, frame_checks::specs::Checks::request_checks))]
pub fn frame_undo(plan: Plan, mask: &[u8], word: &[u8], payload: &mut [u8]) -> Result<(), Refusal>
    ensures { frame_undo plan mask.now word.now payload.old ≡ (verdict result, payload.new) }
{
    frame_checks::request_check(plan, mask, word.len(), payload.len())?;
    let n = plan::bytes(plan);
    let symbols = &mut [0u8; 512][..n];
    let rows = &mut [0u16; 256][..n / 2];
    let mut work = Work {
        plan,
        symbols,
        rows,
    };
    work.undo(mask, word, payload)
}
