// The program linkline: one input, one answer, one write. Its test input is the paper's.
#![tactic(auto)]

use report::rows;
use std::io;

// Reads a frame from standard input, at most one byte more than it has, and prints what `line` makes of it. A read that
// fails counts as the end of the input.
fn main(rt: HostRuntime) -> io::Result<()> {
    let mut input = [0u8; 291];
    let n = rows::read_full(&mut rt.reader(), &mut input);
    let mut out = [0u8; 74];
    let k = line::line(&input[..n], &mut out);
    rt.write_all(&out[..k])
}
