// Frames of three columns. Two numbers of one column make a vector of the machine's and the third is left over, so that frames are worked out
// side by side: the block, the vector and the cost of each frame of a batch, and then one frame's added at its segment.
#![tactic(auto)]

ghost use Rattle.std.specs.Prelude.{◌≡◌, ◌+◌, ◌*◌, ◌≤◌, ◌<◌, length};
ghost use Rattle.batches.specs.Beside.{put_beside, Beside};
ghost use Rattle.lists.specs.Part.{◌!◌};
ghost use Rattle.terms.specs.Terms.{add_all, segment};
ghost use Rattle.derivative.specs.Action.{action_size};
ghost use Rattle.point_moments.specs.Scatter.{CENTRED};
ghost use Rattle.frame_segment.specs.Steps.{Added};
ghost use Rattle.frame_parts.specs.Parts.{BATCH, PART, PARTS, numbers_of, part_of, part_at, three_in, block_in, vector_in, cost_in};

use derivative::ACTION;
use frame_segment::Rows;
use plane::Plane;
use point_moments::scatter::Centred;

// How many frames' parts are worked out before they are added.
pub const BATCH: usize = 4;

// What a frame of three columns adds: its block by columns, its vector, and its cost.
#[derive(Clone, Copy)]
pub struct Part {
    pub block: [f64; 9],
    pub vector: [f64; 3],
    pub cost: f64,
}

fn part_of(x: &[f64; ACTION], f: Centred, plane: Plane, weight: f64) -> Part
    ensures { numbers_of result ≡ part_of x.now f plane.normal plane.offset weight }
{
    let pull = frame_cost::frame_pull(x, f, plane, weight);
    let r = Rows::of_frame(x, f, plane.normal, 3);
    let u = r.column(0, f.count, weight, 3);
    let v = r.column(1, f.count, weight, 3);
    let w = r.column(2, f.count, weight, 3);
    let g = r.vector(pull.turn, pull.shift, weight, 3);
    Part {
        block: [u[0], u[1], u[2], v[0], v[1], v[2], w[0], w[1], w[2]],
        vector: [g[0], g[1], g[2]],
        cost: pull.cost,
    }
}

// Puts a part into those of a batch as that of its k-th frame.
fn put_part(cells: &mut [f64; 52], k: usize, part: Part)
    requires { k < BATCH }
    ensures { cells.new ≡ put_beside BATCH PART cells.old k (numbers_of part) }
{
    let b = part.block;
    let v = part.vector;
    cells[k] = b[0];
    cells[BATCH + k] = b[1];
    cells[2 * BATCH + k] = b[2];
    cells[3 * BATCH + k] = b[3];
    cells[4 * BATCH + k] = b[4];
    cells[5 * BATCH + k] = b[5];
    cells[6 * BATCH + k] = b[6];
    cells[7 * BATCH + k] = b[7];
    cells[8 * BATCH + k] = b[8];
    cells[9 * BATCH + k] = v[0];
    cells[10 * BATCH + k] = v[1];
    cells[11 * BATCH + k] = v[2];
    cells[12 * BATCH + k] = part.cost;
}

// The parts of a batch of frames from frame `from` on.
pub fn fill_parts(
    frames: &[f64],
    actions: &[f64],
    from: usize,
    size: usize,
    plane: Plane,
    weight: f64,
    cells: &mut [f64; 52],
)
    requires { (size ≤ BATCH) × (length cells.old ≡ PARTS) × (CENTRED * (from + size) ≤ length frames.now) × (action_size * (from + size) ≤ length actions.now) }
    ensures { Beside BATCH PART (λ k. part_at frames.now actions.now plane.normal plane.offset weight (from + k)) size cells.new }
{
    for k in 0..size {
        let (f, x) = plane_fit::frame_and_action(frames, actions, from + k);
        put_part(cells, k, part_of(x, f, plane, weight));
    }
}

// Three numbers are added to the cells from `base` on.
fn add_three(out: &mut [f64], base: usize, v: [f64; 3])
    requires { base + 3 ≤ length out.old }
    ensures { out.new ≡ add_all out.old (segment base 3 (λ i. v ! i)) }
{
    out[base] = out[base] + v[0];
    out[base + 1] = out[base + 1] + v[1];
    out[base + 2] = out[base + 2] + v[2];
}

// Three numbers of the k-th frame of a batch, from number e on.
fn three_at(cells: &[f64; 52], e: usize, k: usize) -> [f64; 3]
    requires { (k < BATCH) × (e + 3 ≤ PART) }
    ensures { result ≡ three_in cells.now k e }
{
    [
        cells[e * BATCH + k],
        cells[(e + 1) * BATCH + k],
        cells[(e + 2) * BATCH + k],
    ]
}

// The part of the k-th frame of a batch is added at row `at`.
pub fn add_part(h: &mut [f64], g: &mut [f64], n: usize, at: usize, cells: &[f64; 52], k: usize)
    requires { (k < BATCH) × (at + 3 ≤ n) × (length h.old ≡ n * n) × (length g.old ≡ n) }
    ensures { Added n at 3 (block_in cells.now k) (vector_in cells.now k) h.old h.new g.old g.new }
{
    add_three(h, at * n + at, three_at(cells, 0, k));
    add_three(h, (at + 1) * n + at, three_at(cells, 3, k));
    add_three(h, (at + 2) * n + at, three_at(cells, 6, k));
    add_three(g, at, three_at(cells, 9, k));
}

// What the k-th frame of a batch costs.
pub fn cost_at(cells: &[f64; 52], k: usize) -> f64
    requires { k < BATCH }
    ensures { result ≡ cost_in cells.now k }
{
    cells[12 * BATCH + k]
}
