// The Hadamard transform on unit values, on equal values and at its largest sums.
#![tactic(auto)]

use std::io;

// One at a place, and 0 elsewhere.
const UNITS: [[i32; 8]; 8] = [
    [1, 0, 0, 0, 0, 0, 0, 0],
    [0, 1, 0, 0, 0, 0, 0, 0],
    [0, 0, 1, 0, 0, 0, 0, 0],
    [0, 0, 0, 1, 0, 0, 0, 0],
    [0, 0, 0, 0, 1, 0, 0, 0],
    [0, 0, 0, 0, 0, 1, 0, 0],
    [0, 0, 0, 0, 0, 0, 1, 0],
    [0, 0, 0, 0, 0, 0, 0, 1],
];

const SMALL_UNITS: [[i32; 4]; 4] = [[1, 0, 0, 0], [0, 1, 0, 0], [0, 0, 1, 0], [0, 0, 0, 1]];

// The signs of place 5, which shares one set bit with 1, 3, 4 and 6, at the limit.
const SIGNS_OF_5: [i32; 8] = [32767, -32767, 32767, -32767, -32767, 32767, -32767, 32767];

// The signs of place 2 of four.
const SIGNS_OF_2: [i32; 4] = [32767, 32767, -32767, -32767];

fn say_four(rt: &impl Print, row: [i32; 4]) -> io::Result<()> {
    for x in row {
        report::say_score(rt, x)?;
    }
    Ok(())
}

// The transform of eight values within the limit.
fn eight(rt: &impl Print, label: &str, values: [i32; 8]) -> io::Result<()> {
    if let Some(_) = folds::first_outside(&values, 32767) {
        return println!(rt; "{label}: a value out of range");
    }
    let rows = hadamard::hadamard8(&values);
    print!(rt; "{label}:")?;
    say_four(rt, rows[0])?;
    say_four(rt, rows[1])?;
    println!(rt)
}

// The transform of four.
fn four(rt: &impl Print, label: &str, values: [i32; 4]) -> io::Result<()> {
    if let Some(_) = folds::first_outside(&values, 32767) {
        return println!(rt; "{label}: a value out of range");
    }
    let row = hadamard::hadamard4(&values);
    print!(rt; "{label}:")?;
    say_four(rt, row)?;
    println!(rt)
}

fn units(rt: &impl Print) -> io::Result<()> {
    for unit in UNITS {
        eight(rt, "eight, a unit", unit)?;
    }
    Ok(())
}

fn small_units(rt: &impl Print) -> io::Result<()> {
    for unit in SMALL_UNITS {
        four(rt, "four, a unit", unit)?;
    }
    Ok(())
}

fn main(rt: HostRuntime) -> io::Result<()> {
    units(&rt)?;
    small_units(&rt)?;
    eight(&rt, "eight, all 1", [1; 8])?;
    four(&rt, "four, all 1", [1; 4])?;
    eight(&rt, "eight, all 32767", [32767; 8])?;
    eight(&rt, "eight, all -32767", [-32767; 8])?;
    eight(&rt, "eight, the signs of place 5", SIGNS_OF_5)?;
    four(&rt, "four, all 32767", [32767; 4])?;
    four(&rt, "four, the signs of place 2", SIGNS_OF_2)
}
