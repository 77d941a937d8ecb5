// What `linkline` prints, from all that it reads: one function from the bytes of the input to a buffer.
#![tactic(auto)]

ghost use Rattle.std.specs.Prelude.{◌≡◌, ◌++◌, map, ◌≤◌, ◌<◌, length, drop};
ghost use Rattle.answer.specs.Verdict.{refusal, number_of, place_of};
ghost use Rattle.text.specs.Put.{Put};
ghost use Rattle.line.specs.Line.{ok_lines, refused_line, line_of, signed_byte, plan_of, mask_of, decode_of};
ghost use Rattle.line.specs.Line.{line as Line·line};

use answer::Refusal;
use plan::Plan;

// Puts the line of a refusal. Each name is where its part ends.
fn put_refused(e: Refusal, out: &mut [u8]) -> usize
    requires { length out.old ≡ 74 }
    ensures { Put (refused_line (number_of (refusal e)) (place_of (refusal e))) 0 result out.old out.new }
{
    let head = text::put(b"refused ", 0, out);
    let number = text::put_decimal(e.number() as u64, head, out);
    let space = text::put(b" ", number, out);
    let place = text::put_decimal(e.place() as u64, space, out);
    text::put(b"\n", place, out)
}

// Puts the lines of a decoded frame. Each name is where its part ends. The longest lines are of five digits and 32 bytes:
// 74 bytes.
fn put_ok(penalty: u32, payload: &[u8], out: &mut [u8]) -> usize
    requires { (length payload.now ≤ 32) × (length out.old ≡ 74) × (penalty < 100000) }
    ensures { Put (ok_lines penalty payload.now) 0 result out.old out.new }
{
    let head = text::put(b"ok ", 0, out);
    let number = text::put_decimal(penalty as u64, head, out);
    let first = text::put(b"\n", number, out);
    let bytes = text::put_hexadecimal(payload, first, out);
    text::put(b"\n", bytes, out)
}

// A value byte in two's complement.
fn value(b: u8) -> i8
    ensures { result ≡ signed_byte b }
{
    b.cast_signed()
}

// The values of 256 value bytes.
fn values(bytes: &[u8]) -> [i8; 256]
    requires { length bytes.now ≡ 256 }
    ensures { result ≡ map signed_byte bytes.now }
{
    let mut out = [0i8; 256];
    for i in 0..256 {
        out[i] = value(bytes[i]);
    }
    out
}

// Decodes an input of 290 bytes, and puts its lines.
fn put_decoded(input: &[u8], out: &mut [u8]) -> usize
    requires { (length input.now ≡ 290) × (length out.old ≡ 74) }
    ensures { Put (line_of (plan_of input.now) (mask_of input.now) (decode_of input.now)) 0 result out.old out.new }
{
    let plan = Plan {
        layers: 2,
        kernels: [input[0], input[1], 0],
    };
    let mask = &input[2..34];
    let received = values(&input[34..]);
    let mut scores = [0i32; 256];
    let mut penalties = [0u32; 256];
    let mut payload = [0u8; 32];
    match decode::frame_decode(
        plan,
        &received,
        mask,
        &mut scores,
        &mut penalties,
        &mut payload,
    ) {
        Ok(()) => put_ok(
            penalties[255],
            part::payload_part(plan, mask, &payload),
            out,
        ),
        Err(e) => put_refused(e, out),
    }
}

/// Fills the buffer with all that is printed for an input of any length, and answers how many bytes that is. What lies past
/// them stays. The buffer's type gives its length, the longest output's, so there is none that is too short.
pub fn line(input: &[u8], out: &mut [u8; 74]) -> usize
    ensures { (result ≡ length (Line·line input.now)) × (out.new ≡ Line·line input.now ++ drop result out.old) }
{
    if input.len() != 290 {
        return put_refused(Refusal::WrongLength, out);
    }
    put_decoded(input, out)
}
