// Frame follow and frame decode at their edges, for one, two and three layers: the ends of the range, every refusal and which of
// two comes first, the places that are named, and what lies past the written parts. The requests are the lines of the input: the
// job, layers, three kernels, how many values, most of them, the others, and the two places of these, how many bytes of symbols or
// mask, most of them, what is put among them, and the room for scores, penalties and payload. Four more are lent than are needed.
#![tactic(auto)]

ghost use Rattle.std.specs.Prelude.{◌≤◌};

use answer::Refusal;
use plan::Plan;
use report::rows;
use std::io;

// The values that a request is made of.
const VALUES: [i8; 6] = [127, -127, 1, -1, 0, -128];

// Four places of its bytes, and what is put there; place 513 is past all of them. The second is the information mask of one byte,
// the third and fourth mark no multiple of 8.
const PUT: [[u64; 8]; 6] = [
    [513, 0, 513, 0, 513, 0, 513, 0],
    [23, 1, 27, 1, 29, 1, 31, 0x37],
    [0, 15, 513, 0, 513, 0, 513, 0],
    [30, 15, 31, 255, 513, 0, 513, 0],
    [511, 255, 513, 0, 513, 0, 513, 0],
    [1, 255, 513, 0, 513, 0, 513, 0],
];

// Values: one, and another at two places.
fn values_of(row: [u64; 32]) -> [i8; 4098] {
    let mut values = [VALUES[rows::at_most(5, row[5])]; 4098];
    let other = VALUES[rows::at_most(5, row[6])];
    values[rows::at_most(4097, row[7])] = other;
    values[rows::at_most(4097, row[8])] = other;
    values
}

// Bytes: one, and others at four places.
fn bytes_with(most: u8, put: [u64; 8]) -> [u8; 514] {
    let mut bytes = [most; 514];
    for i in 0..4 {
        bytes[rows::at_most(513, put[2 * i])] = rows::byte(put[2 * i + 1]);
    }
    bytes
}

fn put_of(kind: u64) -> [u64; 8] {
    PUT[rows::at_most(5, kind)]
}

// As in `list_cases`: a crate for both would stand on `plan` and be longer.
fn plan_of(row: [u64; 32]) -> Plan {
    Plan {
        layers: rows::byte(row[0]),
        kernels: [rows::byte(row[1]), rows::byte(row[2]), rows::byte(row[3])],
    }
}

// How many symbols a frame of some layers has.
fn count_of(layers: u64) -> usize
    ensures low { 8 ≤ result }
    ensures high { result ≤ 4096 }
{
    match layers {
        1 => 16,
        3 => 4096,
        _ => 256,
    }
}

fn say_penalty(rt: &impl Print, x: u32) -> io::Result<()> {
    print!(rt; " {x}")
}

// The first and the last of n scores and penalties.
fn say_ends(
    rt: &impl Print,
    scores: &[i32; 4100],
    penalties: &[u32; 4100],
    n: usize,
) -> io::Result<()>
    requires low { 8 ≤ n }
    requires high { n ≤ 4096 }
{
    print!(rt; ", scores")?;
    report::say_score(rt, scores[0])?;
    report::say_score(rt, scores[n - 1])?;
    print!(rt; ", penalties")?;
    say_penalty(rt, penalties[0])?;
    say_penalty(rt, penalties[n - 1])
}

// An answer; accepted the first and the last of n scores and penalties, and whether what lies past them stays; refused
// whether both buffers were kept.
fn say(
    rt: &impl Print,
    line: &[u8],
    a: Result<(), Refusal>,
    scores: &[i32; 4100],
    penalties: &[u32; 4100],
    n: usize,
) -> io::Result<()>
    requires low { 8 ≤ n }
    requires high { n ≤ 4096 }
{
    report::say_answer(rt, line, a.err())?;
    let mut from = 0;
    if a.is_ok() {
        say_ends(rt, scores, penalties, n)?;
        from = n;
    }
    report::say_kept(
        rt,
        report::all_are(&scores[from..], -999) && report::all_are(&penalties[from..], 999),
    )
}

// The room of a payload, where there is one.
fn say_payload(rt: &impl Print, line: &[u8], payload: &[u8]) -> io::Result<()> {
    if rows::first(line) == b'd' {
        print!(rt; "  payload ")?;
        report::say_bytes(rt, payload)?;
        println!(rt)?;
    }
    Ok(())
}

// The job, and what it answers. Its parameters are those of the job.
fn answered(
    line: &[u8],
    plan: Plan,
    values: &[i8],
    bytes: &[u8],
    scores: &mut [i32],
    penalties: &mut [u32],
    payload: &mut [u8],
) -> Result<(), Refusal> {
    if rows::first(line) == b'd' {
        decode::frame_decode(plan, values, bytes, scores, penalties, payload)
    } else {
        decode::frame_follow(plan, values, bytes, scores, penalties)
    }
}

// A request with as much of the buffers as it asks for.
fn lent(
    rt: &impl Print,
    line: &[u8],
    row: [u64; 32],
    values: &[i8],
    bytes: &[u8],
) -> io::Result<()> {
    let mut scores = [-999i32; 4100];
    let mut penalties = [999u32; 4100];
    let mut payload = [0x5au8; 516];
    let a = answered(
        line,
        plan_of(row),
        values,
        bytes,
        rows::room(&mut scores, row[12]),
        rows::room(&mut penalties, row[13]),
        rows::room(&mut payload, row[14]),
    );
    say(rt, line, a, &scores, &penalties, count_of(row[0]))?;
    say_payload(rt, line, rows::front(&payload, row[14]))
}

fn run(rt: &impl Print, line: &[u8]) -> io::Result<()> {
    let row = rows::numbers(line);
    let values = values_of(row);
    let bytes = bytes_with(rows::byte(row[10]), put_of(row[11]));
    lent(
        rt,
        line,
        row,
        rows::front(&values, row[4]),
        rows::front(&bytes, row[9]),
    )
}

// Sixteen values, for a frame and for a kernel.
const FRAME: [i8; 16] = [
    127, -3, 0, 55, -127, 9, 9, -80, 1, -1, 64, -64, 2, 100, -7, 31,
];

const KERNEL: [i32; 16] = [
    127, -3, 0, 55, -127, 9, 9, -80, 1, -1, 64, -64, 2, 100, -7, 31,
];

// A frame of one layer against its kernel, for the symbols 1011 0010 0111 1001.
fn one_layer(rt: &impl Print, kernel: u8) -> io::Result<()> {
    let symbols = [0xb2u8, 0x79u8];
    let plan = Plan {
        layers: 1,
        kernels: [kernel, 255, 255],
    };
    let mut scores = [0i32; 16];
    let mut penalties = [0u32; 16];
    let mut other = [1i32; 16];
    let _ = decode::frame_follow(plan, &FRAME, &symbols, &mut scores, &mut penalties);
    let _ = follow::kernel_follow(kernel, &KERNEL, 0xb279, &mut other);
    if scores == other {
        println!(rt; "one layer: the kernel's scores")
    } else {
        println!(rt; "one layer: others")
    }
}

fn main(rt: HostRuntime) -> io::Result<()> {
    let mut text = [0u8; rows::ROOM];
    let n = rows::read_full(&mut rt.reader(), &mut text);
    rows::each_line(&text[..n], |line| run(&rt, line))?;
    one_layer(&rt, 0)?;
    one_layer(&rt, 1)?;
    one_layer(&rt, 2)
}
