// Masks of information phases.
#![tactic(auto)]

ghost use Rattle.std.specs.Prelude.{◌≡◌, ◌≤◌};
ghost use Rattle.mask.specs.Mask.{payload_bytes};

/// How many bytes of payload a mask of n bytes takes: 0 with another length or a refused mask.
pub fn payload_bytes(n: usize, mask: &[u8]) -> usize
    requires { n ≤ 4096 }
    ensures { result ≡ payload_bytes n mask.now }
{
    // No `Option`: its clause promises 0 for a mask that is refused.
    if mask.len() != n {
        return 0;
    }
    let k = payload::count(mask);
    if k % 8 != 0 {
        return 0;
    }
    k / 8
}
