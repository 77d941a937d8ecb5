// Symbols and words of frames as rows of sixteen bits, and sums of whole rows.
#![tactic(auto)]

ghost use Rattle.std.specs.Prelude.{◌≡◌, ◌++◌, ◌+◌, ◌-◌, ◌*◌, ◌%◌, ◌^◌, ◌≤◌, ◌<◌, length, get_or, drop};
ghost use Rattle.base.specs.Bit.{tabulate};
ghost use Rattle.bits.specs.Packed.{unpack, pack};
ghost use Rattle.grid.specs.Grid.{tables_code, column_sum, column_sums, rows_bits, staged_bits};

// The sum of the rows that column j of the choosing rows chooses. The bit is read here, so that vectors have lanes of sixteen bits.
fn column_sum(rows: [u16; 16], choosing: [u16; 16], j: usize) -> u16
    requires { j < 16 }
    ensures { result ≡ column_sum rows choosing j }
{
    let shift = 15 - j;
    let mut c: u16 = 0;
    for r in 0..16 {
        if (choosing[r] >> shift) % 2 == 1 {
            c ^= rows[r];
        }
    }
    c
}

/// The sums of all sixteen columns.
pub fn column_sums(rows: [u16; 16], choosing: [u16; 16]) -> [u16; 16]
    ensures { result ≡ column_sums rows choosing }
{
    arrays::filled(0, |j| column_sum(rows, choosing, j))
}

// The stage of the innermost layer: each row is encoded by the kernel.
fn inner_stage(table: [u16; 16], rows: &mut [u16])
    requires { length rows.old ≤ 256 }
    ensures { (length rows.new ≡ length rows.old) × (rows_bits (length rows.old) rows.new ≡ staged_bits table 1 rows.old) }
{
    for row in rows.iter_mut() {
        *row = kernel::row_sum(table, *row);
    }
}

// Sixteen rows, each s places after the one before it.
fn spaced_rows(from: &[u16], first: usize, s: usize) -> [u16; 16]
    requires { (first + s * 15 < length from.now) × (length from.now ≤ 256) }
    ensures { result ≡ tabulate 16 (λ i. get_or from.now (first + s * i) 0) }
{
    arrays::filled(0, |r| from[first + s * r])
}

// The stage of a layer around frames of s rows, in blocks of sixteen of them: the columns of sixteen rows choose rows of the
// kernel, and their sums stand together. So the digits of the place come in the other order than those of the phase.
fn stage_rows(table: [u16; 16], s: usize, from: &[u16], out: &mut [u16; 256])
    requires s_nonzero { (0 < s) × (s ≤ 16) × (length from.now % (16 * s) ≡ 0) }
    requires from_in_bounds { length from.now ≤ 256 }
    ensures { rows_bits (length from.now) out.new ≡ staged_bits table (16 * s) from.now }
{
    for g in 0..from.len() / 16 {
        let choosing = spaced_rows(from, 16 * s * (g / s) + g % s, s);
        let sums = column_sums(table, choosing);
        out[16 * g..16 * g + 16].copy_from_slice(&sums);
    }
}

// The same stage in place.
fn outer_stage(table: [u16; 16], s: usize, rows: &mut [u16])
    requires { (0 < s) × (s ≤ 16) × (length rows.old % (16 * s) ≡ 0) × (length rows.old ≤ 256) }
    ensures { (length rows.new ≡ length rows.old) × (rows_bits (length rows.old) rows.new ≡ staged_bits table (16 * s) rows.old) }
{
    let mut made = [0u16; 256];
    stage_rows(table, s, rows, &mut made);
    rows.copy_from_slice(&made[..rows.len()]);
}

/// Replaces the symbols of a frame of m layers by its word, a stage for each layer, innermost first.
pub fn frame_rows(m: usize, tables: [[u16; 16]; 3], rows: &mut [u16])
    requires { (1 ≤ m) × (m ≤ 3) × (length rows.old ≡ 16 ^ (m - 1)) }
    ensures { (length rows.new ≡ length rows.old) × (rows_bits (16 ^ (m - 1)) rows.new ≡ tabulate (16 ^ m) ((tables_code tables m).word (rows_bits (16 ^ (m - 1)) rows.old))) }
{
    inner_stage(tables[0], rows);
    let mut s: usize = 1;
    for l in 1..m {
        outer_stage(tables[l], s, rows);
        s = 16 * s;
    }
}

/// The rows of bytes, two for each row.
pub fn rows_of(bytes: &[u8], out: &mut [u16])
    requires { (length bytes.now ≡ 2 * length out.old) × (length out.old ≤ 256) }
    ensures { (length out.new ≡ length out.old) × (rows_bits (length out.old) out.new ≡ unpack bytes.now) }
{
    for (r, row) in out.iter_mut().enumerate() {
        *row = u16::from_be_bytes([bytes[2 * r], bytes[2 * r + 1]]);
    }
}

/// Writes the bytes of rows to the front of a buffer.
pub fn store_rows(rows: &[u16], out: &mut [u8])
    requires { (2 * length rows.now ≤ length out.old) × (length rows.now ≤ 256) }
    ensures { out.new ≡ pack (2 * length rows.now) (rows_bits (length rows.now) rows.now) ++ drop (2 * length rows.now) out.old }
{
    for (r, row) in rows.iter().enumerate() {
        let [high, low] = row.to_be_bytes();
        out[2 * r] = high;
        out[2 * r + 1] = low;
    }
}
