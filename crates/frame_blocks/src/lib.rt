// All frames of a call under a plane: what each costs, and what the mapped ones add.
#![tactic(auto)]

ghost use Rattle.std.specs.Prelude.{◌≡◌, false, ◌⊎◌, ℕ, ◌+◌, ◌*◌, ◌^◌, ◌≤◌, ◌<◌, length};
ghost use Rattle.derivative.specs.Action.{action_size};
ghost use Rattle.point_moments.specs.Scatter.{CENTRED};
ghost use Rattle.normal_blocks.specs.Map.{lookup, exceeds};
ghost use Rattle.plane_fit.specs.Fit.{frame_at, action_at};
ghost use Rattle.frame_segment.specs.Steps.{Held};
ghost use Rattle.frame_blocks.specs.Pulls.{BATCH, PULLS, pull_in, with_pull, Pulled};
ghost use Rattle.frame_blocks.specs.Frames.{Ready, RunReady, FrameAdded, BatchAdded, PartsAdded, RunAdded, AllAdded};

use frame_cost::Pull;
use plane::Plane;
use point_moments::scatter::CENTRED;

// What a call is handed: the frames, their actions and the map, the plane, and the weight of its distances.
#[derive(Clone, Copy)]
struct Call<'a> {
    frames: &'a [f64],
    actions: &'a [f64],
    map: &'a [u32],
    plane: Plane,
    weight: f64,
}

// One frame of W columns: its block and vector are added if it has a place.
#[inline(always)]
fn add_frame<const W: usize>(
    h: &mut [f64],
    g: &mut [f64],
    call: &Call,
    p: Option<usize>,
    k: usize,
    pull: Pull,
)
    requires { (W ≤ 9) × (exceeds (length g.old) W p ≡ false) × (length h.old ≡ length g.old * length g.old) × Held call.now.frames.now call.now.actions.now k }
    ensures { FrameAdded (action_at call.now.actions.now k) (frame_at call.now.frames.now k) call.now.plane.normal pull call.now.weight (length g.old) W p h.old h.new g.old g.new }
{
    let n = g.len();
    let turn = pull.turn;
    if let Some(at) = p {
        frame_segment::add_at(
            h,
            g,
            n,
            at,
            W,
            call.frames,
            call.actions,
            k,
            call.plane.normal,
            turn,
            pull.shift,
            call.weight,
        );
    }
}

// How many frames' pulls are worked out before their blocks are added.
const BATCH: usize = 4;

// Puts a pull into the pulls of a batch as that of its k-th frame.
fn put_pull(pulls: &mut [f64; 20], k: usize, p: Pull)
    requires { k < BATCH }
    ensures { pulls.new ≡ with_pull pulls.old k p }
{
    let t = p.turn;
    pulls[k] = t[0];
    pulls[BATCH + k] = t[1];
    pulls[2 * BATCH + k] = t[2];
    pulls[3 * BATCH + k] = p.shift;
    pulls[4 * BATCH + k] = p.cost;
}

// The pull of the k-th frame of a batch.
fn pull_at(pulls: &[f64; 20], k: usize) -> Pull
    requires { k < BATCH }
    ensures { result ≡ pull_in pulls.now k }
{
    let turn = [pulls[k], pulls[BATCH + k], pulls[2 * BATCH + k]];
    Pull {
        turn,
        shift: pulls[3 * BATCH + k],
        cost: pulls[4 * BATCH + k],
    }
}

// The pulls at the frames of a batch from frame `from` on, number after number: number e of the batch's k-th frame stands at e * BATCH + k, so
// that the loop's stores are neighbours and the compiler works out two frames at a time.
fn fill_pulls(call: &Call, from: usize, size: usize, pulls: &mut [f64; 20])
    requires { (size ≤ BATCH) × (CENTRED * (from + size) ≤ length call.now.frames.now) × (action_size * (from + size) ≤ length call.now.actions.now) }
    ensures { Pulled call.now.frames.now call.now.actions.now call.now.plane.normal call.now.plane.offset call.now.weight from size pulls.new }
{
    for k in 0..size {
        let (f, x) = plane_fit::frame_and_action(call.frames, call.actions, from + k);
        put_pull(
            pulls,
            k,
            frame_cost::frame_pull(x, f, call.plane, call.weight),
        );
    }
}

// The frames of a batch, one after the other: the sum with their costs is the answer.
#[inline(always)]
fn add_batch<const W: usize>(
    h: &mut [f64],
    g: &mut [f64],
    call: &Call,
    from: usize,
    size: usize,
    pulls: &[f64; 20],
    sum: f64,
) -> f64
    requires { (size ≤ BATCH) × RunReady (length h.old) (length g.old) W call.now.frames.now call.now.actions.now call.now.map.now (from + size) }
    ensures { BatchAdded (length g.old) W call.now.frames.now call.now.actions.now call.now.map.now call.now.plane.normal call.now.weight pulls.now from size sum result h.old h.new g.old g.new }
{
    let mut s = sum;
    for k in 0..size {
        let p = pull_at(pulls, k);
        add_frame::<W>(
            h,
            g,
            call,
            normal_blocks::lookup(call.map, from + k),
            from + k,
            p,
        );
        s = s + p.cost;
    }
    s
}

// Batch after batch. The width is chosen once for all frames, so that each width has a loop of its own.
fn add_frames<const W: usize>(
    h: &mut [f64],
    g: &mut [f64],
    call: &Call,
    count: usize,
    start: f64,
) -> f64
    requires { RunReady (length h.old) (length g.old) W call.now.frames.now call.now.actions.now call.now.map.now count }
    ensures { RunAdded (length g.old) W call.now.frames.now call.now.actions.now call.now.map.now call.now.plane.normal call.now.plane.offset call.now.weight count start result h.old h.new g.old g.new }
{
    let mut sum = start;
    let mut p = [0.0; 20];
    for from in (0..count).step_by(BATCH) {
        let size = lists::batch_size(count, from, BATCH);
        fill_pulls(call, from, size, &mut p);
        sum = add_batch::<W>(h, g, call, from, size, &p, sum);
    }
    sum
}

// The same by the width: a copy of the code for each.
fn add_frames_by(
    h: &mut [f64],
    g: &mut [f64],
    call: &Call,
    dof: usize,
    count: usize,
    start: f64,
) -> f64
    requires { RunReady (length h.old) (length g.old) dof call.now.frames.now call.now.actions.now call.now.map.now count }
    ensures { RunAdded (length g.old) dof call.now.frames.now call.now.actions.now call.now.map.now call.now.plane.normal call.now.plane.offset call.now.weight count start result h.old h.new g.old g.new }
{
    match dof {
        0 => add_frames::<0>(h, g, call, count, start),
        1 => add_frames::<1>(h, g, call, count, start),
        2 => add_frames::<2>(h, g, call, count, start),
        3 => add_frames::<3>(h, g, call, count, start),
        4 => add_frames::<4>(h, g, call, count, start),
        5 => add_frames::<5>(h, g, call, count, start),
        6 => add_frames::<6>(h, g, call, count, start),
        7 => add_frames::<7>(h, g, call, count, start),
        8 => add_frames::<8>(h, g, call, count, start),
        9 => add_frames::<9>(h, g, call, count, start),
        _ => unreachable!(),
    }
}

// The parts of a batch are added where the map says, and their costs to a sum.
fn add_parts(
    h: &mut [f64],
    g: &mut [f64],
    map: &[u32],
    from: usize,
    size: usize,
    cells: &[f64; 52],
    sum: f64,
) -> f64
    requires { (size ≤ BATCH) × (from + size < 2 ^ 64) × (length h.old ≡ length g.old * length g.old) × ((k : ℕ) → k < from + size → exceeds (length g.old) 3 (lookup map.now k) ≡ false) }
    ensures { PartsAdded (length g.old) map.now cells.now from size sum result h.old h.new g.old g.new }
{
    let n = g.len();
    let mut s = sum;
    for k in 0..size {
        if let Some(at) = normal_blocks::lookup(map, from + k) {
            frame_parts::add_part(h, g, n, at, cells, k);
        }
        s = s + frame_parts::cost_at(cells, k);
    }
    s
}

// The same of frames of three columns, worked out side by side.
fn add_threes(h: &mut [f64], g: &mut [f64], call: &Call, count: usize, start: f64) -> f64
    requires { RunReady (length h.old) (length g.old) 3 call.now.frames.now call.now.actions.now call.now.map.now count }
    ensures { RunAdded (length g.old) 3 call.now.frames.now call.now.actions.now call.now.map.now call.now.plane.normal call.now.plane.offset call.now.weight count start result h.old h.new g.old g.new }
{
    let mut s = start;
    let mut c = [0.0; 52];
    for from in (0..count).step_by(frame_parts::BATCH) {
        let size = lists::batch_size(count, from, frame_parts::BATCH);
        frame_parts::fill_parts(
            call.frames,
            call.actions,
            from,
            size,
            call.plane,
            call.weight,
            &mut c,
        );
        s = add_parts(h, g, call.map, from, size, &c, s);
    }
    s
}

// Whether each of the frames has a word in the map, and none says that its frame is unmapped. Either way to add them is right: this one tells which is faster.
fn all_mapped(map: &[u32], count: usize) -> bool {
    map.len() >= count && map[..count].iter().fold(0, |bits, word| bits | *word) < 0x4000_0000
}

// The first `count` frames of the lists, added as they are: the sum with their costs is the answer. Inlined, so that a caller makes one call less.
#[inline(always)]
pub fn add_run(
    h: &mut [f64],
    g: &mut [f64],
    dof: usize,
    frames: &[f64],
    actions: &[f64],
    map: &[u32],
    plane: Plane,
    weight: f64,
    count: usize,
    start: f64,
) -> f64
    requires { RunReady (length h.old) (length g.old) dof frames.now actions.now map.now count }
    ensures { RunAdded (length g.old) dof frames.now actions.now map.now plane.normal plane.offset weight count start result h.old h.new g.old g.new }
{
    let call = Call {
        frames,
        actions,
        map,
        plane,
        weight,
    };
    if dof == 3 && all_mapped(map, count) {
        return add_threes(h, g, &call, count, start);
    }
    add_frames_by(h, g, &call, dof, count, start)
}

// All frames of a call under a plane: each one's block and vector are added where the map says, and the cost, with the fixed set's, is the answer.
// Without a map the costs are summed in a loop of their own, which is faster.
pub fn add_all(
    h: &mut [f64],
    g: &mut [f64],
    dof: usize,
    frames: &[f64],
    fixed: &[f64],
    actions: &[f64],
    map: &[u32],
    plane: Plane,
    weight: f64,
) -> f64
    requires { Ready (length h.old) (length g.old) dof frames.now actions.now map.now × ((length fixed.now ≡ 0) ⊎ (length fixed.now ≡ CENTRED)) }
    ensures { AllAdded (length g.old) dof frames.now fixed.now actions.now map.now plane.normal plane.offset weight result h.old h.new g.old g.new }
{
    let count = frames.len() / CENTRED;
    if map.len() == 0 {
        let alone = frame_cost::frames_cost(frames, actions, plane, weight, count);
        return frame_cost::with_fixed(alone, fixed, plane, weight);
    }
    let sum = add_run(h, g, dof, frames, actions, map, plane, weight, count, 0.0);
    frame_cost::with_fixed(sum, fixed, plane, weight)
}
