// Frames of six columns through transforms of three or of five columns, two frames at a time: what each adds and costs is worked out side by side, number e of
// frame k of the pair at 2·e + k, so that the compiler makes one vector of the two. Then one frame's numbers are added after the other's.
// The parts of a pair are made by value, in an array of their own, so that the compiler need not test whether they overlap what they are made of. The number of
// columns is a const parameter, so that it unrolls the loops.
#![tactic(auto)]

ghost use Rattle.std.specs.Prelude.{◌≡◌, ◌⊎◌, false, ℕ, ◌+◌, ◌*◌, ◌^◌, ◌<◌, ◌≤◌, length};
ghost use Rattle.sums.specs.Sum.{◌⊗◌, sum_to};
ghost use Rattle.sums.specs.Fill.{padded};
ghost use Rattle.lists.specs.Part.{◌!◌};
ghost use Rattle.terms.specs.Terms.{add_all, segment, block};
ghost use Rattle.normal_blocks.specs.Target.{number_from};
ghost use Rattle.normal_blocks.specs.Map.{lookup, exceeds};
ghost use Rattle.derivative.specs.Action.{action_size};
ghost use Rattle.point_moments.specs.Scatter.{CENTRED};
ghost use Rattle.block_transforms.specs.Transform.{ROOM, entry_from, transformed_vector};
ghost use Rattle.frame_pairs.specs.Pairs.{of_six, lane, Put, Columns, Part, PARTS, Parts, block_in, RunReady, PartsAdded, RunAdded};

use block_transforms::TRANSFORM;
use derivative::ACTION;
use frame_segment::Rows;
use plane::Plane;
use point_moments::scatter::{CENTRED, Centred};

// How many frames are worked out side by side.
const PAIR: usize = 2;

// Σ_r t_r · x_r, with so many numbers of t from `from` on.
fn dot(t: &[f64], from: usize, x: [f64; 9], rows: usize) -> f64
    requires { (0 < rows) × (rows ≤ 9) × (from + rows ≤ length t.now) }
    ensures { result ≡ sum_to rows (λ q. number_from t.now from q ⊗ (x ! q)) }
{
    let mut sum = t[from] * x[0];
    for r in 1..rows {
        sum = sum + t[from + r] * x[r];
    }
    sum
}

// Tᵀ·x, where T has so many rows and columns and starts at `at` in t.
fn left(t: &[f64], at: usize, x: [f64; 9], rows: usize, cols: usize) -> [f64; 9]
    requires { (0 < rows) × (rows ≤ 9) × (cols ≤ 9) × (at + cols * rows ≤ length t.now) }
    ensures { result ≡ padded 9 cols (transformed_vector rows (entry_from t.now at rows) (λ q. x ! q)) }
{
    let mut row = [0.0; 9];
    for i in 0..cols {
        row[i] = dot(t, at + i * rows, x, rows);
    }
    row
}

// The six columns of Tᵀ.M.
#[derive(Clone, Copy)]
struct Six([f64; 9], [f64; 9], [f64; 9], [f64; 9], [f64; 9], [f64; 9]);

// The columns of U times six numbers of t, added up: a column of U.T.
fn right(u: Six, t: &[f64], from: usize, cols: usize) -> [f64; 9]
    requires { (cols ≤ 9) × (from + 6 ≤ length t.now) }
    ensures { result ≡ padded 9 cols (λ i. sum_to 6 (λ k. (of_six u.0 u.1 u.2 u.3 u.4 u.5 k ! i) ⊗ number_from t.now from k)) }
{
    let u0 = u.0;
    let u1 = u.1;
    let u2 = u.2;
    let u3 = u.3;
    let u4 = u.4;
    let u5 = u.5;
    let t0 = t[from];
    let t1 = t[from + 1];
    let t2 = t[from + 2];
    let t3 = t[from + 3];
    let t4 = t[from + 4];
    let t5 = t[from + 5];
    let mut column = [0.0; 9];
    for i in 0..cols {
        column[i] = u0[i] * t0 + u1[i] * t1 + u2[i] * t2 + u3[i] * t3 + u4[i] * t4 + u5[i] * t5;
    }
    column
}

// So many numbers become those of frame k of the pair from number e on.
fn put(cells: &mut [f64], k: usize, e: usize, v: [f64; 9], width: usize)
    requires { (k < 2) × (width ≤ 9) × (2 * (e + width) ≤ length cells.old) }
    ensures { Put k e width (λ i. v ! i) cells.old cells.new }
{
    for i in 0..width {
        cells[2 * (e + i) + k] = v[i];
    }
}

// The columns of Tᵀ·M·T become those of frame k's part. A loop over so many products would not be unrolled.
#[inline(always)]
fn put_columns<const COLS: usize>(cells: &mut [f64], k: usize, u: Six, t: &[f64], at: usize)
    requires { ((COLS ≡ 3) ⊎ (COLS ≡ 5)) × (k < 2) × (at + 6 * COLS ≤ length t.now) × (2 * (COLS * COLS) ≤ length cells.old) }
    ensures { Columns COLS k (λ i j. sum_to 6 (λ q. (of_six u.0 u.1 u.2 u.3 u.4 u.5 q ! i) ⊗ entry_from t.now at 6 q j)) cells.old COLS cells.new }
{
    put(cells, k, 0, right(u, t, at, COLS), COLS);
    put(cells, k, COLS, right(u, t, at + 6, COLS), COLS);
    put(cells, k, 2 * COLS, right(u, t, at + 12, COLS), COLS);
    if COLS == 3 {
        return;
    }
    put(cells, k, 3 * COLS, right(u, t, at + 18, COLS), COLS);
    put(cells, k, 4 * COLS, right(u, t, at + 24, COLS), COLS);
}

// The part of frame k of the pair, through its transform: its block by columns, its vector, its cost.
#[inline(always)]
fn part<const COLS: usize>(
    x: &[f64; ACTION],
    f: Centred,
    t: &[f64],
    at: usize,
    plane: Plane,
    weight: f64,
    k: usize,
    cells: &mut [f64],
)
    requires { ((COLS ≡ 3) ⊎ (COLS ≡ 5)) × (at + 6 * COLS ≤ length t.now) × (k < 2) × (length cells.old ≡ PARTS COLS) }
    ensures { Part COLS (entry_from t.now at 6) x.now f plane.normal plane.offset weight k cells.old cells.new }
{
    let pull = frame_cost::frame_pull(x, f, plane, weight);
    let r = Rows::of_frame(x, f, plane.normal, 6);
    let n = f.count;
    let u0 = left(t, at, r.column(0, n, weight, 6), 6, COLS);
    let u1 = left(t, at, r.column(1, n, weight, 6), 6, COLS);
    let u2 = left(t, at, r.column(2, n, weight, 6), 6, COLS);
    let u3 = left(t, at, r.column(3, n, weight, 6), 6, COLS);
    let u4 = left(t, at, r.column(4, n, weight, 6), 6, COLS);
    let u5 = left(t, at, r.column(5, n, weight, 6), 6, COLS);
    put_columns::<COLS>(cells, k, Six(u0, u1, u2, u3, u4, u5), t, at);
    let w = r.vector(pull.turn, pull.shift, weight, 6);
    put(cells, k, COLS * COLS, left(t, at, w, 6, COLS), COLS);
    cells[2 * (COLS * COLS + COLS) + k] = pull.cost;
}

// The parts of the first `size` frames of the lists.
fn parts<const COLS: usize, const N: usize>(
    frames: &[f64],
    actions: &[f64],
    transforms: &[f64],
    size: u32,
    plane: Plane,
    weight: f64,
) -> [f64; N]
    requires { ((COLS ≡ 3) ⊎ (COLS ≡ 5)) × (N ≡ PARTS COLS) × (size ≤ 2) × (CENTRED * size ≤ length frames.now) × (action_size * size ≤ length actions.now) × (ROOM * size ≤ length transforms.now) }
    ensures { Parts COLS frames.now actions.now transforms.now plane.normal plane.offset weight size result }
{
    let mut cells = [0.0; N];
    for q in 0..size {
        let k = q as usize;
        let (f, x) = plane_fit::frame_and_action(frames, actions, k);
        part::<COLS>(
            x,
            f,
            transforms,
            TRANSFORM * k,
            plane,
            weight,
            k,
            &mut cells,
        );
    }
    cells
}

// So many numbers of frame k of the pair, from number e on, are added to those of h from `at` on.
fn add_numbers(h: &mut [f64], at: usize, cells: &[f64], k: usize, e: usize, width: usize)
    requires { (k < 2) × (2 * (e + width) ≤ length cells.now) × (at + width ≤ length h.old) }
    ensures { h.new ≡ add_all h.old (segment at width (λ i. lane cells.now k (e + i))) }
{
    for i in 0..width {
        h[at + i] = h[at + i] + cells[2 * (e + i) + k];
    }
}

// The block of frame k of the pair, column after column.
fn add_block(h: &mut [f64], n: usize, at: usize, cells: &[f64], k: usize, cols: usize)
    requires { (k < 2) × (2 * (cols * cols) ≤ length cells.now) × (at + cols ≤ n) × (length h.old ≡ n * n) }
    ensures { h.new ≡ add_all h.old (block n at cols (block_in cols cells.now k)) }
{
    for j in 0..cols {
        let base = (at + j) * n + at;
        add_numbers(h, base, cells, k, cols * j, cols);
    }
}

// The parts of a pair are added where the map says, and their costs to a sum. A frame that goes nowhere was worked out too: it costs.
fn add_parts<const COLS: usize>(
    h: &mut [f64],
    g: &mut [f64],
    map: &[u32],
    from: usize,
    size: usize,
    cells: &[f64],
    sum: f64,
) -> f64
    requires { ((COLS ≡ 3) ⊎ (COLS ≡ 5)) × (length cells.now ≡ PARTS COLS) × (size ≤ 2) × (from + size < 2 ^ 64) × (length h.old ≡ length g.old * length g.old) × ((k : ℕ) → k < from + size → exceeds (length g.old) COLS (lookup map.now k) ≡ false) }
    ensures { PartsAdded (length g.old) COLS map.now cells.now from size sum result h.old h.new g.old g.new }
{
    let n = g.len();
    let mut s = sum;
    for k in 0..size {
        if let Some(at) = normal_blocks::lookup(map, from + k) {
            add_block(h, n, at, cells, k, COLS);
            add_numbers(g, at, cells, k, COLS * COLS, COLS);
        }
        s = s + cells[2 * (COLS * COLS + COLS) + k];
    }
    s
}

// The first `count` frames of the lists, each through its transform of six rows and COLS columns, the parts of a pair being N numbers: the sum with their costs
// is the answer.
pub fn add_run<const COLS: usize, const N: usize>(
    h: &mut [f64],
    g: &mut [f64],
    frames: &[f64],
    actions: &[f64],
    map: &[u32],
    transforms: &[f64],
    plane: Plane,
    weight: f64,
    count: usize,
    start: f64,
) -> f64
    requires { ((COLS ≡ 3) ⊎ (COLS ≡ 5)) × (N ≡ PARTS COLS) × RunReady (length h.old) (length g.old) COLS frames.now actions.now map.now transforms.now count }
    ensures { RunAdded (length g.old) COLS frames.now actions.now map.now transforms.now plane.normal plane.offset weight count start result h.old h.new g.old g.new }
{
    let mut sum = start;
    for from in (0..count).step_by(PAIR) {
        let size = lists::batch_size(count, from, PAIR);
        let f = CENTRED * from;
        let x = ACTION * from;
        let t = TRANSFORM * from;
        let cells = parts::<COLS, N>(
            &frames[f..],
            &actions[x..],
            &transforms[t..],
            size as u32,
            plane,
            weight,
        );
        sum = add_parts::<COLS>(h, g, map, from, size, &cells, sum);
    }
    sum
}
