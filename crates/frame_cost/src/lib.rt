// What a frame and the fixed set cost under a plane.
#![tactic(auto)]

ghost use Rattle.std.specs.Prelude.{◌≡◌, ◌⊎◌, ◌+◌, ◌*◌, ◌≤◌, length};
ghost use Rattle.sums.specs.Sum.{sum_from, sum_from_zero};
ghost use Rattle.sums.specs.Fill.{First};
ghost use Rattle.lists.specs.Part.{◌!◌};
ghost use Rattle.derivative.specs.Action.{action_size};
ghost use Rattle.point_moments.specs.Scatter.{CENTRED};
ghost use Rattle.frame_normal.specs.Normal.{normal_in};
ghost use Rattle.plane_fit.specs.Fit.{and_fixed};
ghost use Rattle.frame_cost.specs.Cost.{weight_of, pull_of, frame_along, fixed_cost, cost_at};

use derivative::ACTION;
use plane::Plane;
use point_moments::scatter::Centred;

// 1 / (sigma·sigma)
pub fn weight(sigma: f64) -> f64
    ensures { result ≡ weight_of sigma }
{
    1.0 / (sigma * sigma)
}

// How a plane pulls at a set: at its normal as the set sees it, scatter·a, and at its distance, count·along; and what the set costs.
#[derive(Clone, Copy)]
pub struct Pull {
    pub turn: [f64; 3],
    pub shift: f64,
    pub cost: f64,
}

// Of a set that sees the normal as a and has its mean `along` off the plane.
fn set_pull(f: Centred, a: [f64; 3], along: f64, weight: f64) -> Pull
    ensures { result ≡ pull_of f a along weight }
{
    let c = f.scatter;
    let turn = linear::mat_vec(c, a);
    let shift = f.count * along;
    let cost = (linear::dot3(a, turn) + shift * along) * weight;
    Pull { turn, shift, cost }
}

// Of a frame that the action x carries into the site.
pub fn frame_pull(x: &[f64; ACTION], f: Centred, plane: Plane, weight: f64) -> Pull
    ensures { result ≡ pull_of f (normal_in x.now plane.normal) (frame_along x.now f plane.normal plane.offset) weight }
{
    let a = frame_normal::normal_in(x, plane.normal);
    let along = frame_normal::along(plane.normal, plane.offset, plane_fit::centre(x, f));
    set_pull(f, a, along, weight)
}

// How many frames' costs are worked out before they are summed.
const BATCH: usize = 8;

// What each frame of a batch from frame `from` on costs: the loop's stores are neighbours, so that the compiler works out two frames at a time.
fn fill_costs(
    frames: &[f64],
    actions: &[f64],
    from: usize,
    size: usize,
    plane: Plane,
    weight: f64,
    costs: &mut [f64; 8],
)
    requires { (CENTRED * (from + size) ≤ length frames.now) × (action_size * (from + size) ≤ length actions.now) × (size ≤ 8) }
    ensures { First size costs.new (λ k. cost_at frames.now actions.now plane.normal plane.offset weight (from + k)) }
{
    for k in 0..size {
        let (f, x) = plane_fit::frame_and_action(frames, actions, from + k);
        let p = frame_pull(x, f, plane, weight);
        costs[k] = p.cost;
    }
}

// A sum with the first `size` costs of a batch.
fn with_costs(sum: f64, costs: &[f64; 8], size: usize) -> f64
    requires { size ≤ 8 }
    ensures { result ≡ sum_from sum size (λ k. costs.now ! k) }
{
    let mut s = sum;
    for k in 0..size {
        s = s + costs[k];
    }
    s
}

// What the first `count` frames cost.
pub fn frames_cost(frames: &[f64], actions: &[f64], plane: Plane, weight: f64, count: usize) -> f64
    requires { (CENTRED * count ≤ length frames.now) × (action_size * count ≤ length actions.now) }
    ensures { result ≡ sum_from_zero count (cost_at frames.now actions.now plane.normal plane.offset weight) }
{
    let mut sum = 0.0;
    let mut costs = [0.0; 8];
    for from in (0..count).step_by(BATCH) {
        let size = lists::batch_size(count, from, BATCH);
        fill_costs(frames, actions, from, size, plane, weight, &mut costs);
        sum = with_costs(sum, &costs, size);
    }
    sum
}

// A sum of the frames' costs, with the cost of the fixed set if there is one.
pub fn with_fixed(sum: f64, fixed: &[f64], plane: Plane, weight: f64) -> f64
    requires { (length fixed.now ≡ 0) ⊎ (length fixed.now ≡ CENTRED) }
    ensures { result ≡ and_fixed fixed.now (λ f. fixed_cost f plane.normal plane.offset weight) sum }
{
    if fixed.is_empty() {
        return sum;
    }
    let f = Centred::from_list(fixed);
    let mean = f.mean;
    let along = frame_normal::along(plane.normal, plane.offset, mean);
    let q = set_pull(f, plane.normal, along, weight);
    sum + q.cost
}
