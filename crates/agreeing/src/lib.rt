// The records of a list's paths: the best whose checksum agrees, and its payload.
#![tactic(auto)]

ghost use Rattle.std.specs.Prelude.{◌≡◌, ◌++◌, ◌*◌, ◌/◌, ◌≤◌, ◌<◌, length, drop, IfSome};
ghost use Rattle.bits.specs.Packed.{unpack};
ghost use Rattle.answer.specs.Verdict.{penalty_verdict};
ghost use Rattle.mask.specs.Mask.{marked};
ghost use Rattle.path.specs.Path.{path_at};
ghost use Rattle.agreeing.specs.Agreeing.{payload_of, agrees_at};
ghost use Rattle.agreeing.specs.Found.{Lower, BestFound, FoundHandedOut};

use answer::Refusal;

// The payload of the path of record i, to the front of `out`. Answers the path's penalty.
fn path_payload(scratch: &[u8], i: usize, mask: &[u8], out: &mut [u8]) -> u32
    requires { (i < 8) × (4096 ≤ length scratch.now) × (length mask.now ≡ 32) × (marked mask.now ≤ 8 * length out.old) }
    ensures paid { result ≡ (path_at i scratch.now).penalty }
    ensures payload { out.new ≡ payload_of mask.now (unpack (path_at i scratch.now).symbols) ++ drop (marked mask.now / 8) out.old }
{
    let p = path::load(scratch, i);
    payload::gather(mask, &p.symbols, out);
    p.penalty
}

// Whether the checksum of the path of record i agrees, under a mask that takes so many bytes.
fn agreeing(scratch: &[u8], i: usize, mask: &[u8], bytes: usize) -> bool
    requires { (i < 8) × (4096 ≤ length scratch.now) × (length mask.now ≡ 32) × (2 ≤ bytes) × (bytes ≤ 32) × (8 * bytes ≡ marked mask.now) }
    ensures { result ≡ agrees_at mask.now (unpack (path_at i scratch.now).symbols) }
{
    let mut out = [0u8; 32];
    path_payload(scratch, i, mask, &mut out);
    checksum::agrees(&out[..bytes])
}

// Whether record i has a lower penalty than the best agreeing one before it, if there is one.
fn lower(scratch: &[u8], i: usize, best: Option<usize>) -> bool
    requires { (i < 8) × (4096 ≤ length scratch.now) × IfSome best (λ r. r < 8) }
    ensures { Lower scratch.now i best result }
{
    match best {
        None => true,
        Some(best) => path::penalty_at(scratch, i) < path::penalty_at(scratch, best),
    }
}

/// The best of n records: of those whose checksum agrees the first of least penalty, if one agrees. A checksum is looked at only where
/// the penalty is lower than that of the best so far.
pub fn best_agreeing(scratch: &[u8], n: usize, mask: &[u8], bytes: usize) -> Option<usize>
    requires { (n ≤ 8) × (4096 ≤ length scratch.now) × (length mask.now ≡ 32) × (2 ≤ bytes) × (bytes ≤ 32) × (8 * bytes ≡ marked mask.now) }
    ensures { BestFound mask.now scratch.now n n result }
{
    let mut best = None;
    for i in 0..n {
        if lower(scratch, i, best) && agreeing(scratch, i, mask, bytes) {
            best = Some(i);
        }
    }
    best
}

/// The answer of the record that was found: its payload is written, with its penalty. Where there is none, no path agrees and nothing is
/// written.
pub fn hand_out(
    scratch: &[u8],
    found: Option<usize>,
    mask: &[u8],
    payload: &mut [u8],
) -> Result<u32, Refusal>
    requires { (4096 ≤ length scratch.now) × (length mask.now ≡ 32) × (marked mask.now ≤ 8 * length payload.old) × IfSome found (λ i. i < 8) }
    ensures { FoundHandedOut mask.now scratch.now found payload.old (penalty_verdict result) payload.new }
{
    match found {
        Some(i) => Ok(path_payload(scratch, i, mask, payload)),
        None => Err(Refusal::NoAgreeingPath),
    }
}
