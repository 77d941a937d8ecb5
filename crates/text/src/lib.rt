// Text in ASCII codes, put into a buffer: bytes as they are, a number in decimal, bytes in hexadecimal.
#![tactic(auto)]

ghost use Rattle.std.specs.Prelude.{◌≡◌, ◌+◌, ◌≤◌, ◌<◌, length};
ghost use Rattle.text.specs.Text.{hex_digit, decimal, hexadecimal};
ghost use Rattle.text.specs.Put.{Put};

// The ASCII code of a digit below 16.
fn digit(d: u8) -> u8
    requires { d < 16 }
    ensures { result ≡ hex_digit d }
{
    if d < 10 { 48 + d } else { 87 + d }
}

/// Puts bytes at an index, and answers where they end.
pub fn put(bytes: &[u8], at: usize, out: &mut [u8]) -> usize
    requires { at + length bytes.now ≤ length out.old }
    ensures { Put bytes.now at result out.old out.new }
{
    let end = at + bytes.len();
    out[at..end].copy_from_slice(bytes);
    end
}

/// Puts a number in decimal.
pub fn put_decimal(n: u64, at: usize, out: &mut [u8]) -> usize
    requires { at + length (decimal n) ≤ length out.old }
    ensures { Put (decimal n) at result out.old out.new }
{
    // No `print!` here or below: the bytes are proved, and printing promises none.
    if n < 10 {
        out[at] = digit(n as u8);
        return at + 1;
    }
    let end = put_decimal(n / 10, at, out);
    out[end] = digit((n % 10) as u8);
    end + 1
}

/// Puts bytes in small hexadecimal.
pub fn put_hexadecimal(bytes: &[u8], at: usize, out: &mut [u8]) -> usize
    requires { at + length (hexadecimal bytes.now) ≤ length out.old }
    ensures { Put (hexadecimal bytes.now) at result out.old out.new }
{
    let mut end = at;
    for b in bytes {
        out[end] = digit(*b / 16);
        out[end + 1] = digit(*b % 16);
        end += 2;
    }
    end
}
