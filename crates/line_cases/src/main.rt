// What linkline prints at its edges: the paper's input, every refusal that it can meet and which of two comes first, the
// places that are named, and k = 256. The buffer holds 5a before. The requests are the lines of the input: how many bytes,
// the two kernels, the byte that the mask has (256: it is that of one byte), the byte that the values have, and two bytes more,
// each after its place.
#![tactic(auto)]

use report::rows;
use std::io;

// The information mask of one byte.
const MASK_1: [u8; 32] = [
    0, 0, 0, 0, 0, 0, 0, 0, 0, 0, 0, 0, 0, 0, 0, 0, 0, 0, 0, 0, 0, 0, 0, 1, 0, 0, 0, 1, 0, 1, 0,
    0x37,
];

// A label, how many bytes are printed, whether what lies past them stays, and the bytes.
fn say(rt: &impl Print, label: &[u8], input: &[u8]) -> io::Result<()> {
    let mut out = [0x5au8; 74];
    let k = line::line(input, &mut out);
    rt.write_all(label)?;
    print!(rt; ": {k}")?;
    report::say_kept(rt, report::all_are(&out[k..], 0x5a))?;
    rt.write_all(&out[..k])
}

fn mask_of(kind: u64) -> [u8; 32] {
    if kind == 256 {
        return MASK_1;
    }
    [rows::byte(kind); 32]
}

// An input of alike value bytes with a mask.
fn masked(byte: u8, mask: [u8; 32]) -> [u8; 291] {
    let mut input = [byte; 291];
    input[2..34].copy_from_slice(&mask);
    input
}

fn run(rt: &impl Print, line: &[u8]) -> io::Result<()> {
    let c = rows::numbers(line);
    let mut input = masked(rows::byte(c[4]), mask_of(c[3]));
    input[0] = rows::byte(c[1]);
    input[1] = rows::byte(c[2]);
    input[rows::at_most(290, c[5])] = rows::byte(c[6]);
    input[rows::at_most(290, c[7])] = rows::byte(c[8]);
    say(rt, line, rows::front(&input, c[0]))
}

fn main(rt: HostRuntime) -> io::Result<()> {
    let mut text = [0u8; rows::ROOM];
    let n = rows::read_full(&mut rt.reader(), &mut text);
    rows::each_line(&text[..n], |line| run(&rt, line))
}
