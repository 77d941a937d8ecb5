// Sixteen kernels followed side by side along given symbols, for tests alone: the library for C has this engine only within frames.
// A kernel is its number, below 3: public functions take it so, and it indexes tables as it stands.
#![tactic(auto)]

ghost use Rattle.std.specs.Prelude.{◌≡◌, Bool, [], ℕ, ◌+◌, ◌*◌, ◌≤◌, ◌<◌, pos, nat_abs, length, get_or};
ghost use Rattle.base.specs.Place.{FoundBelow};
ghost use Rattle.base.proofs.List.{filled};
ghost use Rattle.polar.specs.Code.{pay, score};
ghost use Rattle.folds.specs.Range.{first_outside};
ghost use Rattle.folds.specs.Rows.{cell};
ghost use Rattle.kernel.specs.Kernels.{kernel_code};
ghost use Rattle.lane.specs.Lanes.{lane_costs, LanesWithin};
ghost use Rattle.lane_phases.specs.Rows.{column};
ghost use Rattle.side_follow.specs.Follow.{side_accepted, side_follow};
ghost use Rattle.side_follow.specs.Rows.{phase_major};

/// The scores of all phases, in each lane.
pub fn run(kernel: usize, costs: &[[[u16; 16]; 2]; 16], planes: &[u16; 16]) -> [[i32; 16]; 16]
    requires { (kernel < 3) × LanesWithin 2047 costs.now }
    ensures { (s l : ℕ) → s < 16 → l < 16 → get_or (get_or result s []) l (pos 0) ≡ score (kernel_code kernel) (lane_costs costs.now l) (column planes.now s l) }
{
    let flags = lane::flags();
    let shapes = step::shapes_of(kernel);
    let tables = step::tables_of(kernel);
    let halves = lane_nodes::free_eight(costs);
    let mut rows = [[[0u16; 16]; 2]; 16];
    let mut out = [[0i32; 16]; 16];
    for s in 0..16 {
        out[s] = lane_step::step(
            kernel, s, shapes[s], &flags, &tables[s], costs, &halves, planes, &mut rows,
        );
    }
    out
}

// The lowest index whose value is beyond 2047 in size, if there is one.
fn first_outside(values: &[i16]) -> Option<usize>
    ensures { FoundBelow (length values.now) (first_outside 2047 values.now) result }
{
    values
        .iter()
        .position(|&y| 2047 < folds::size(i32::from(y)))
}

// What place t pays, by bit and lane.
fn place_costs(values: &[i16], t: usize) -> [[u16; 16]; 2]
    requires { (length values.now ≡ 256) × (t < 16) }
    ensures { (l : ℕ) (b : Bool) → l < 16 → cell 0 result l b ≡ pay (get_or values.now (16 * t + l) (pos 0)) b }
{
    let mut out = [[0u16; 16]; 2];
    for l in 0..16 {
        let y = values[16 * t + l];
        let paid = folds::size(i32::from(y)) as u16;
        if y < 0 {
            out[0][l] = paid;
        } else {
            out[1][l] = paid;
        }
    }
    out
}

// What all places pay, by place, bit and lane: place t of lane l has the value at 16 * t + l.
fn lane_costs(values: &[i16]) -> [[[u16; 16]; 2]; 16]
    requires { length values.now ≡ 256 }
    ensures { (t : ℕ) → t < 16 → (l : ℕ) (b : Bool) → l < 16 → lane_costs result l t b ≡ pay (get_or values.now (16 * t + l) (pos 0)) b }
{
    let mut out = [[[0u16; 16]; 2]; 16];
    for (t, o) in out.iter_mut().enumerate() {
        *o = place_costs(values, t);
    }
    out
}

// Sixteen planes as an array.
fn planes_of(planes: &[u16]) -> [u16; 16]
    requires { length planes.now ≡ 16 }
    ensures { result ≡ planes.now }
{
    let mut out = [0u16; 16];
    out.copy_from_slice(planes);
    out
}

// Writes the scores, phase after phase.
fn store(found: &[[i32; 16]; 16], scores: &mut [i32])
    requires { 256 ≤ length scores.old }
    ensures { scores.new ≡ filled (phase_major found.now) 256 scores.old }
{
    for i in 0..256 {
        scores[i] = found[i / 16][i % 16];
    }
}

// Whether a request is accepted.
#[tactic(auto, unfolding(crate::specs::Follow::side_accepted))]
fn accepted(kernel: u8, values: &[i16], planes: usize, room: usize) -> bool
    ensures { result ≡ side_accepted kernel values.now planes room }
{
    kernel::is_kernel(kernel)
        && values.len() == 256
        && first_outside(values).is_none()
        && planes == 16
        && 256 <= room
}

/// The scores of sixteen symbols in each of sixteen lanes; whether the request was accepted.
#[unsafe(no_mangle)]
pub extern "C" fn nospridda_test_side_follow(
    kernel: u8,
    values: &[i16],
    planes: &[u16],
    scores: &mut [i32],
) -> bool
    ensures { side_follow kernel values.now planes.now scores.old ≡ (result, scores.new) }
{
    if !accepted(kernel, values, planes.len(), scores.len()) {
        return false;
    }
    let costs = lane_costs(values);
    let given = planes_of(planes);
    let found = run(kernel as usize, &costs, &given);
    store(&found, scores);
    true
}
