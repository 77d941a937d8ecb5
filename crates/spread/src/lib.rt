// A payload's bits spread over the marked phases of a mask, byte by byte.
#![tactic(auto)]

ghost use Rattle.std.specs.Prelude.{◌≡◌, ◌+◌, ◌*◌, ◌≤◌, length, drop, slice_index};
ghost use Rattle.bits.specs.Packed.{bits, number, unpack, pad};
ghost use Rattle.payload.specs.Payload;
ghost use Rattle.spread.specs.Spreading.{marks_before, mark_counts, next_part, next_bytes, deposited};

// Byte i, or 0 past the end.
fn byte_or_zero(s: &[u8], i: usize) -> u8
    ensures { result ≡ slice_index s.now i }
{
    s.get(i).copied().unwrap_or(0)
}

// The four bytes from byte i on, with 0 for those past the end. Where all four are there, one test is enough.
fn four_bytes(s: &[u8], i: usize) -> u32
    requires { i ≤ 8192 }
    ensures { bits 32 result ≡ pad 32 (drop (8 * i) (unpack s.now)) }
{
    if i + 3 < s.len() {
        return u32::from_be_bytes([s[i], s[i + 1], s[i + 2], s[i + 3]]);
    }
    u32::from_be_bytes([
        byte_or_zero(s, i),
        byte_or_zero(s, i + 1),
        byte_or_zero(s, i + 2),
        byte_or_zero(s, i + 3),
    ])
}

// The eight bytes from byte i on, with 0 for those past the end.
fn eight_bytes(s: &[u8], i: usize) -> u64
    requires { i ≤ 4096 }
    ensures { bits 64 result ≡ pad 64 (drop (8 * i) (unpack s.now)) }
{
    ((four_bytes(s, i) as u64) << 32) + four_bytes(s, i + 4) as u64
}

// The eight bits from bit i on, with 0 for those past the end.
fn next_byte(s: &[u8], i: usize) -> u8
    requires { i ≤ 32768 }
    ensures { bits 8 result ≡ pad 8 (drop i (unpack s.now)) }
{
    let x = eight_bytes(s, i / 8);
    ((x >> (56 - i % 8)) % 256) as u8
}

// How many of each eight phases are marked.
fn mark_counts(mask: &[u8], counts: &mut [u8])
    requires { length counts.old ≡ length mask.now }
    ensures { counts.new ≡ mark_counts mask.now }
{
    for (i, c) in counts.iter_mut().enumerate() {
        *c = mask[i].count_ones() as u8;
    }
}

// Puts the next eight payload bits in place of each of the counts i to i + 3. Returns how many phases are marked before byte
// i + 4. Only the contract needs the mask.
fn next_four(mask: &[u8], payload: &[u8], bytes: &mut [u8], i: usize, j: usize) -> usize
    requires i_in_bounds { (i + 4 ≤ length mask.now) × (length mask.now ≤ 4096) }
    requires j_value { (j ≡ marks_before mask.now i) × (bytes.old ≡ next_part mask.now (unpack payload.now) i) }
    ensures { (bytes.new ≡ next_part mask.now (unpack payload.now) (i + 4)) × (result ≡ marks_before mask.now (i + 4)) }
{
    let q = j / 8;
    let x = eight_bytes(payload, q);
    let mut d = j % 8;
    for r in 0..4 {
        let n = bytes[i + r];
        bytes[i + r] = ((x >> (56 - d)) % 256) as u8;
        d += n as usize;
    }
    8 * q + d
}

// Puts the next eight payload bits in place of each count from `start` on, one by one.
fn next_rest(mask: &[u8], payload: &[u8], bytes: &mut [u8], start: usize, used: usize)
    requires start_in_bounds { (start ≤ length mask.now) × (length mask.now ≤ 4096) }
    requires used_value { (used ≡ marks_before mask.now start) × (bytes.old ≡ next_part mask.now (unpack payload.now) start) }
    ensures { bytes.new ≡ next_bytes mask.now (unpack payload.now) }
{
    let mut j = used;
    for i in start..mask.len() {
        let n = bytes[i];
        bytes[i] = next_byte(payload, j);
        j += n as usize;
    }
}

// Puts the next eight payload bits in place of each count, by fours as far as they go.
fn next_bytes(mask: &[u8], payload: &[u8], bytes: &mut [u8])
    requires { (length mask.now ≤ 4096) × (bytes.old ≡ mark_counts mask.now) }
    ensures { bytes.new ≡ next_bytes mask.now (unpack payload.now) }
{
    let fours = mask.len() / 4;
    let mut j = 0;
    for g in 0..fours {
        j = next_four(mask, payload, bytes, 4 * g, j);
    }
    next_rest(mask, payload, bytes, 4 * fours, j);
}

// The symbols of eight phases: the next eight payload bits, deposited phase by phase.
fn deposit_byte(m: u8, p: u8) -> u8
    ensures { result ≡ number (Payload.spread (bits 8 m) (bits 8 p)) }
{
    let mut u: u8 = 0;
    let mut rest = p;
    for i in 0..8usize {
        let x = if (m >> (7 - i)) % 2 == 1 { rest } else { 0 };
        u = (u << 1) + x / 128;
        rest = rest.wrapping_add(x);
    }
    u
}

// The symbols of all bytes, by the payload bits that stand in their places.
fn deposit(mask: &[u8], symbols: &mut [u8])
    requires { length symbols.old ≡ length mask.now }
    ensures { symbols.new ≡ deposited mask.now symbols.old }
{
    for (i, s) in symbols.iter_mut().enumerate() {
        *s = deposit_byte(mask[i], *s);
    }
}

/// The symbols of a payload: its bits at the marked phases. In three passes, so that the first and the last can take several bytes
/// at once.
pub fn spread(mask: &[u8], payload: &[u8], symbols: &mut [u8])
    requires mask_len_bound { length mask.now ≤ 4096 }
    requires mask_value { Payload.ones (unpack mask.now) ≡ 8 * length payload.now }
    requires symbols_len { length symbols.old ≡ length mask.now }
    ensures { unpack symbols.new ≡ Payload.spread (unpack mask.now) (unpack payload.now) }
{
    mark_counts(mask, symbols);
    next_bytes(mask, payload, symbols);
    deposit(mask, symbols);
}
