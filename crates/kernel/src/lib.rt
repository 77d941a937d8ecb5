// The three kernels: encode and undo, by sums of whole rows of constant tables.
// A kernel is its number, 0 to 2: requests name it so, public functions take it so, and it indexes tables as it stands.
#![tactic(auto)]

ghost use Rattle.std.specs.Prelude.{◌≡◌, [], ◌<◌, get_or};
ghost use Rattle.answer.specs.Verdict.{word_verdict};
ghost use Rattle.kernel.specs.Rows.{row_sum, table, inverse_table};
ghost use Rattle.kernel.specs.Jobs.{is_kernel, is_pair, kernel_encode, kernel_undo};

use answer::Refusal;

// Row s of kernel k: the word with only symbol s set. This table and the next stay two, as in the definitions: one of pairs
// would read both kinds of rows for either job.
static ROWS: [[u16; 16]; 3] = [
    [
        0x8000, // kernel 0, u0
        0xc000, // kernel 0, u1
        0xa000, // kernel 0, u2
        0xf000, // kernel 0, u3
        0x8800, // kernel 0, u4
        0xcc00, // kernel 0, u5
        0xaa00, // kernel 0, u6
        0xff00, // kernel 0, u7
        0x8080, // kernel 0, u8
        0xc0c0, // kernel 0, u9
        0xa0a0, // kernel 0, u10
        0xf0f0, // kernel 0, u11
        0x8888, // kernel 0, u12
        0xcccc, // kernel 0, u13
        0xaaaa, // kernel 0, u14
        0xffff, // kernel 0, u15
    ],
    [
        0x8000, // kernel 1, u0
        0xc000, // kernel 1, u1
        0xa000, // kernel 1, u2
        0x8800, // kernel 1, u3
        0x8080, // kernel 1, u4
        0xc0c0, // kernel 1, u5
        0xcc00, // kernel 1, u6
        0xf000, // kernel 1, u7
        0x8888, // kernel 1, u8
        0xa6c0, // kernel 1, u9
        0x6ca0, // kernel 1, u10
        0xff00, // kernel 1, u11
        0xf0f0, // kernel 1, u12
        0xcccc, // kernel 1, u13
        0xaaaa, // kernel 1, u14
        0xffff, // kernel 1, u15
    ],
    [
        0x8000, // kernel 2, u0
        0xc000, // kernel 2, u1
        0xa000, // kernel 2, u2
        0xf000, // kernel 2, u3
        0x8800, // kernel 2, u4
        0x8080, // kernel 2, u5
        0xc0c0, // kernel 2, u6
        0xcc00, // kernel 2, u7
        0xa6c0, // kernel 2, u8
        0x6ca0, // kernel 2, u9
        0xff00, // kernel 2, u10
        0xf0f0, // kernel 2, u11
        0x8888, // kernel 2, u12
        0xcccc, // kernel 2, u13
        0xaaaa, // kernel 2, u14
        0xffff, // kernel 2, u15
    ],
];

// Row j of the inverse of kernel k: the symbols of the word with only bit j set.
static INVERSE_ROWS: [[u16; 16]; 3] = [
    [
        0x8000, // kernel 0, c0
        0xc000, // kernel 0, c1
        0xa000, // kernel 0, c2
        0xf000, // kernel 0, c3
        0x8800, // kernel 0, c4
        0xcc00, // kernel 0, c5
        0xaa00, // kernel 0, c6
        0xff00, // kernel 0, c7
        0x8080, // kernel 0, c8
        0xc0c0, // kernel 0, c9
        0xa0a0, // kernel 0, c10
        0xf0f0, // kernel 0, c11
        0x8888, // kernel 0, c12
        0xcccc, // kernel 0, c13
        0xaaaa, // kernel 0, c14
        0xffff, // kernel 0, c15
    ],
    [
        0x8000, // kernel 1, c0
        0xc000, // kernel 1, c1
        0xa000, // kernel 1, c2
        0xe100, // kernel 1, c3
        0x9000, // kernel 1, c4
        0xd200, // kernel 1, c5
        0xb640, // kernel 1, c6
        0xf550, // kernel 1, c7
        0x8800, // kernel 1, c8
        0xcc00, // kernel 1, c9
        0xaa20, // kernel 1, c10
        0xef28, // kernel 1, c11
        0x9880, // kernel 1, c12
        0xde84, // kernel 1, c13
        0xbce2, // kernel 1, c14
        0xfbff, // kernel 1, c15
    ],
    [
        0x8000, // kernel 2, c0
        0xc000, // kernel 2, c1
        0xa000, // kernel 2, c2
        0xf000, // kernel 2, c3
        0x8800, // kernel 2, c4
        0xc900, // kernel 2, c5
        0xab80, // kernel 2, c6
        0xfaa0, // kernel 2, c7
        0x8400, // kernel 2, c8
        0xc600, // kernel 2, c9
        0xa540, // kernel 2, c10
        0xf750, // kernel 2, c11
        0x8c08, // kernel 2, c12
        0xcf0c, // kernel 2, c13
        0xaeca, // kernel 2, c14
        0xfdff, // kernel 2, c15
    ],
];

/// The rows of a kernel.
pub fn kernel_rows(kernel: u8) -> [u16; 16]
    requires { kernel < 3 }
    ensures { result ≡ get_or table kernel [] }
{
    ROWS[kernel as usize]
}

/// The rows of its inverse.
pub fn inverse_rows(kernel: u8) -> [u16; 16]
    requires { kernel < 3 }
    ensures { result ≡ get_or inverse_table kernel [] }
{
    INVERSE_ROWS[kernel as usize]
}

/// The sum of the rows that the bits of x choose. Every row is read, and one that is not chosen counts as 0, so that no branch is
/// needed. The bit is read here, from sixteen bits, and not by `word_bit`, which takes 32.
pub fn row_sum(rows: [u16; 16], x: u16) -> u16
    ensures { result ≡ row_sum rows x }
{
    let mut c: u16 = 0;
    for s in 0..16 {
        let mut row = rows[s];
        if (x >> (15 - s)) % 2 == 0 {
            row = 0;
        }
        c ^= row;
    }
    c
}

/// Whether there is a kernel of this number.
#[tactic(auto, unfolding(crate::specs::Jobs::is_kernel))]
pub fn is_kernel(kernel: u8) -> bool
    ensures { result ≡ is_kernel kernel }
{
    kernel < 3
}

/// Whether there are kernels of both numbers.
#[tactic(auto, unfolding(crate::specs::Jobs::is_pair))]
pub fn is_pair(inner: u8, outer: u8) -> bool
    ensures { result ≡ is_pair inner outer }
{
    is_kernel(inner) && is_kernel(outer)
}

/// Kernel encode: the word of sixteen symbols.
#[tactic(auto, unfolding(crate::specs::Jobs::checks, crate::specs::Jobs::is_kernel))]
pub fn kernel_encode(kernel: u8, symbols: u16) -> Result<u16, Refusal>
    ensures { word_verdict result ≡ kernel_encode kernel symbols }
{
    if !is_kernel(kernel) {
        return Err(Refusal::NoKernel);
    }
    Ok(row_sum(kernel_rows(kernel), symbols))
}

/// Kernel undo: the symbols of a word of sixteen bits.
#[tactic(auto, unfolding(crate::specs::Jobs::checks, crate::specs::Jobs::is_kernel))]
pub fn kernel_undo(kernel: u8, word: u16) -> Result<u16, Refusal>
    ensures { word_verdict result ≡ kernel_undo kernel word }
{
    // No function that this job and the one above share: it would take the choice of rows, and be as long as they are.
    if !is_kernel(kernel) {
        return Err(Refusal::NoKernel);
    }
    Ok(row_sum(inverse_rows(kernel), word))
}
