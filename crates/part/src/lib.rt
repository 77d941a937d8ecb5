// The payload part of a caller's bytes.
#![tactic(auto)]

ghost use Rattle.std.specs.Prelude.{◌≡◌};
ghost use Rattle.part.specs.Part.{part_length, payload_part};

use plan::Plan;

/// How many of a caller's n bytes the payload part has, 0 where the request is refused.
// No `Option`: the paper has an empty part, and C the number alone.
#[tactic(auto, unfolding(crate::specs::Part::part_length))]
pub fn part_length(plan: Plan, mask: &[u8], n: usize) -> usize
    ensures { result ≡ part_length plan mask.now n }
{
    if plan::check(plan).is_err() || n != plan::bytes(plan) {
        return 0;
    }
    mask::payload_bytes(n, mask)
}

/// Payload part: the first k/8 of the caller's bytes, the part itself.
#[tactic(auto, unfolding(crate::specs::Part::payload_part))]
pub fn payload_part<'a, 'b>(plan: Plan, mask: &'b [u8], bytes: &'a [u8]) -> &'a [u8]
    ensures { (result.now ≡ payload_part plan mask.now bytes.now) × (result.ref_ptr ≡ bytes.entry.ref_ptr) × (bytes.exit.now ≡ bytes.entry.now) × (mask.exit.now ≡ mask.entry.now) }
{
    &bytes[..part_length(plan, mask, bytes.len())]
}
