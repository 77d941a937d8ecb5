// Lanes that get what other lanes had, or what stands by itself.
#![tactic(auto)]

ghost use Rattle.std.specs.Prelude.{◌≡◌, Bool, [], ℕ, ◌≤◌, ◌<◌, get_or, length};
ghost use Rattle.base.specs.Bit;
ghost use Rattle.bits.specs.Packed.{bits};
ghost use Rattle.folds.specs.Rows.{cell};
ghost use Rattle.lane.specs.Lanes.{lane_bit, lane_costs, PairWithin, LanesWithin};
ghost use Rattle.lane_moves.specs.Moves.{MovedRow, LaneRow, Twins, TwinPlane, OwnPlane};

/// A row whose first eight entries are those of another row that `from` says. The other eight are the same again.
pub fn moved_row(row: &[u16; 16], from: &[usize; 16]) -> [u16; 16]
    requires { (l : ℕ) → l < 8 → get_or from.now l 0 < 16 }
    ensures { MovedRow from.now row.now result }
{
    // Sixteen entries, of which eight count: loops of sixteen become vectors.
    let mut out = [0u16; 16];
    for l in 0..8 {
        let x = row[from[l]];
        out[l] = x;
        out[8 + l] = x;
    }
    out
}

/// Each of the first eight lanes gets what lane from[l] had, of the first n entries, and so does its twin, lane 8 + l.
pub fn rearrange(rows: &mut [[[u16; 16]; 2]; 16], n: usize, from: &[usize; 16])
    requires { (n ≤ 16) × ((l : ℕ) → l < 8 → get_or from.now l 0 < 16) }
    ensures room { length rows.new ≡ 16 }
    ensures moved { (t l : ℕ) (b : Bool) → t < n → l < 8 → lane_costs rows.new l t b ≡ lane_costs rows.old (get_or from.now l 0) t b }
    ensures within { (m : ℕ) → LanesWithin m rows.old → LanesWithin m rows.new }
    ensures twins { Twins n rows.new }
{
    // That the rows stay sixteen is said, here and in `lane_step` and `lane_totals`: where an entry of an array of rows is lent, its
    // type does not say so afterwards. A count beside the array: `within` speaks of all sixteen entries, and a slice of n would leave that to each caller.
    for t in 0..n {
        let [zero, one] = rows[t];
        rows[t] = [moved_row(&zero, from), moved_row(&one, from)];
    }
}

/// Plane s has bit s of the word of each of the first eight lanes.
pub fn planes_of(words: &[u16; 16]) -> [u16; 16]
    ensures { (s l : ℕ) → s < 16 → l < 8 → lane_bit (get_or result s 0) l ≡ Bit.bit (bits 16 (get_or words.now l 0)) s }
{
    let flags = lane::flags();
    let mut planes = [0u16; 16];
    for l in 0..8 {
        // By a local first: the checker does not take a call's result that is stored into an array the call reads.
        let next = lane_words::with_plane(&flags, planes, words[l], flags[l]);
        planes = next;
    }
    planes
}

// A plane whose lanes 8 to 15 have what lanes 0 to 7 have.
fn twin_plane(plane: u16) -> u16
    ensures { TwinPlane plane result }
{
    plane / 256 * 257
}

/// Planes whose lanes 8 to 15 have what lanes 0 to 7 have, but for plane s: there lanes 0 to 7 have 0 and the others 1.
pub fn twin_planes(planes: &[u16; 16], s: usize) -> [u16; 16]
    requires { s < 16 }
    ensures others { (t : ℕ) → t < 16 → (t ≡ s → ⊥) → TwinPlane (get_or planes.now t 0) (get_or result t 0) }
    ensures own { OwnPlane (get_or result s 0) }
{
    let mut out = arrays::filled(0, |t| twin_plane(planes[t]));
    out[s] = 255;
    out
}

// What the pairs of eight lanes have at place j, for bit 0 or 1. The other eight lanes have the same again.
fn lane_row(pairs: &[[[u16; 16]; 2]; 8], b: usize, j: usize) -> [u16; 16]
    requires { (b < 2) × (j < 16) }
    ensures { LaneRow pairs.now b j result }
{
    // Sixteen entries, of which eight count: loops of sixteen become vectors.
    let mut out = [0u16; 16];
    for l in 0..8 {
        let x = pairs[l][b][j];
        out[l] = x;
        out[8 + l] = x;
    }
    out
}

/// The lanes of eight pairs: place j of lane l, and of its twin, pays what pair l has at j.
pub fn lanes_of(pairs: &[[[u16; 16]; 2]; 8]) -> [[[u16; 16]; 2]; 16]
    ensures lanes { (l j : ℕ) (b : Bool) → l < 8 → j < 16 → lane_costs result l j b ≡ cell 0 (get_or pairs.now l []) j b }
    ensures within { (m : ℕ) → ((l : ℕ) → l < 8 → PairWithin m (get_or pairs.now l [])) → LanesWithin m result }
    ensures twins { Twins 16 result }
{
    let mut out = [[[0u16; 16]; 2]; 16];
    for (j, o) in out.iter_mut().enumerate() {
        *o = [lane_row(pairs, 0, j), lane_row(pairs, 1, j)];
    }
    out
}
