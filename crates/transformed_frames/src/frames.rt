// The frames of a call under a plane, each added through the transform of its word.
ghost use Rattle.std.specs.Prelude.{◌≡◌, true, false, List, ◌⊎◌, ℕ, ◌+◌, ◌*◌, ◌<◌, ◌≤◌, length, drop};
ghost use Rattle.normal_blocks.specs.Map.{exceeds};
ghost use Rattle.point_moments.specs.Scatter.{CENTRED};
ghost use Rattle.plane_fit.specs.Fit.{frame_count, frame_at, action_at};
ghost use Rattle.frame_segment.specs.Frame.{block_entry, pulled_entry};
ghost use Rattle.frame_segment.specs.Steps.{Added, Held};
ghost use Rattle.frame_blocks.specs.Pulls.{pull_at};
ghost use Rattle.block_transforms.specs.Transform.{sized, shape_at, entry_from, block_under, vector_under, width_under};
ghost use Rattle.transform_products.specs.Rows.{rows_of, spaced};
ghost use Rattle.transformed_frames.specs.Frames.{There, Ready, Alike, RunReady, FrameAdded, Continued, Summed, AllAdded};

use block_transforms::{Shape, TRANSFORM};
use derivative::ACTION;
use frame_cost::Pull;
use plane::Plane;
use point_moments::scatter::CENTRED;

// The numbers from one row of a stored block to the next: eight of a frame of six columns, whose loops are unrolled.
fn stride_of(dof: usize) -> usize
    requires { dof ≤ 9 }
    ensures { (result ≤ 10) × (dof < result) }
{
    if dof == 6 {
        return 8;
    }
    10
}

// A stored block and vector are added at row `at`, through the transform of word k if it has one.
fn add_stored(
    h: &mut [f64],
    g: &mut [f64],
    n: usize,
    at: usize,
    dof: usize,
    s: Option<Shape>,
    transforms: &[f64],
    k: usize,
    m: &[f64; 90],
    stride: usize,
    u: &mut [f64; 90],
)
    requires { (dof ≤ 9) × (stride ≤ 10) × (dof < stride) × (at + width_under s dof ≤ n) × (length h.old ≡ n * n) × (length g.old ≡ n) × There dof k s transforms.now }
    ensures { Added n at (width_under s dof) (block_under s (entry_from transforms.now (81 * k)) (rows_of stride m.now)) (vector_under s (entry_from transforms.now (81 * k)) (spaced stride m.now dof)) h.old h.new g.old g.new }
{
    match s {
        None => {
            transform_products::add_rows(h, g, n, at, m, stride, dof);
        }
        Some(shape) => {
            transform_products::add_through(
                h,
                g,
                n,
                at,
                transforms,
                TRANSFORM * k,
                shape.rows,
                shape.cols,
                m,
                stride,
                u,
            );
        }
    }
}

// A frame is added where it goes, if it goes anywhere. m and u are room for its numbers.
fn add_frame(
    h: &mut [f64],
    g: &mut [f64],
    p: Option<usize>,
    dof: usize,
    s: Option<Shape>,
    frames: &[f64],
    actions: &[f64],
    k: usize,
    normal: [f64; 3],
    pull: Pull,
    weight: f64,
    transforms: &[f64],
    m: &mut [f64; 90],
    u: &mut [f64; 90],
)
    requires { (dof ≤ 9) × (exceeds (length g.old) (width_under s dof) p ≡ false) × (length h.old ≡ length g.old * length g.old) × Held frames.now actions.now k × There dof k s transforms.now }
    ensures { FrameAdded (length g.old) dof s (entry_from transforms.now (81 * k)) p (block_entry (action_at actions.now k) (frame_at frames.now k) normal weight) (pulled_entry (action_at actions.now k) (frame_at frames.now k) normal pull.turn pull.shift weight) h.old h.new g.old g.new }
{
    let n = g.len();
    let turn = pull.turn;
    let stride = stride_of(dof);
    if let Some(at) = p {
        frame_stored::store(
            frames, actions, k, normal, turn, pull.shift, weight, dof, stride, m,
        );
        add_stored(h, g, n, at, dof, s, transforms, k, m, stride, u);
    }
}

// The pull at frame k.
fn pull_at(frames: &[f64], actions: &[f64], k: usize, plane: Plane, weight: f64) -> Pull
    requires { Held frames.now actions.now k }
    ensures { result ≡ pull_at frames.now actions.now plane.normal plane.offset weight k }
{
    let (f, x) = plane_fit::frame_and_action(frames, actions, k);
    frame_cost::frame_pull(x, f, plane, weight)
}

// Where the run of frames of one shape ends that begins at frame `from`. A shorter run is right too, and slower.
fn run_end(shapes: &[u32], from: usize, count: usize) -> usize
    requires { from < count }
    ensures { (from < result) × (result ≤ count) × Alike shapes.now from result }
{
    let s = block_transforms::shape_at(shapes, from);
    for k in from + 1..count {
        if block_transforms::shape_at(shapes, k) != s {
            return k;
        }
    }
    count
}

// Where the words of the frames from `first` on begin: a map may end before them.
fn within(first: usize, size: usize) -> usize
    ensures { (result ≤ size) × ((l : List ℕ) → length l ≡ size → drop result l ≡ drop first l) }
{
    if first < size {
        return first;
    }
    size
}

// The frames from `first` up to `end`, one after the other by their stored blocks: the sum with their costs is the answer.
fn add_singles(
    h: &mut [f64],
    g: &mut [f64],
    dof: usize,
    frames: &[f64],
    actions: &[f64],
    map: &[u32],
    shapes: &[u32],
    transforms: &[f64],
    plane: Plane,
    weight: f64,
    first: usize,
    end: usize,
    start: f64,
) -> f64
    requires { Ready (length h.old) (length g.old) dof frames.now actions.now map.now shapes.now transforms.now × (first ≤ end) × (end ≤ frame_count frames.now) }
    ensures { Continued (length g.old) dof frames.now actions.now map.now shapes.now transforms.now plane.normal plane.offset weight first end start result h.old h.new g.old g.new }
{
    let mut sum = start;
    let mut m = [0.0; 90];
    let mut u = [0.0; 90];
    for k in first..end {
        let p = pull_at(frames, actions, k, plane, weight);
        let place = normal_blocks::lookup(map, k);
        let s = block_transforms::shape_at(shapes, k);
        add_frame(
            h,
            g,
            place,
            dof,
            s,
            frames,
            actions,
            k,
            plane.normal,
            p,
            weight,
            transforms,
            &mut m,
            &mut u,
        );
        sum = sum + p.cost;
    }
    sum
}

// Whether the frames of a run through transforms of so many rows and columns are worked out side by side. Either way is right: this one tells which is faster.
fn in_pairs(rows: usize, cols: usize) -> bool
    ensures { result ≡ true → (rows ≡ 6) × ((cols ≡ 3) ⊎ (cols ≡ 5)) }
{
    if rows != 6 {
        return false;
    }
    if cols == 3 {
        return true;
    }
    cols == 5
}

// The frames of a run through transforms of six rows and three or five columns, side by side.
fn add_pairs(
    h: &mut [f64],
    g: &mut [f64],
    dof: usize,
    frames: &[f64],
    actions: &[f64],
    map: &[u32],
    shapes: &[u32],
    transforms: &[f64],
    plane: Plane,
    weight: f64,
    first: usize,
    end: usize,
    sum: f64,
    cols: usize,
) -> f64
    requires { RunReady (length h.old) (length g.old) dof frames.now actions.now map.now shapes.now transforms.now first end × (shape_at shapes.now first ≡ sized 6 cols) × ((cols ≡ 3) ⊎ (cols ≡ 5)) }
    ensures { Continued (length g.old) dof frames.now actions.now map.now shapes.now transforms.now plane.normal plane.offset weight first end sum result h.old h.new g.old g.new }
{
    let f = CENTRED * first;
    let x = ACTION * first;
    let t = TRANSFORM * first;
    let p = within(first, map.len());
    let size = end - first;
    if cols == 3 {
        return frame_pairs::add_run::<3, 26>(
            h,
            g,
            &frames[f..],
            &actions[x..],
            &map[p..],
            &transforms[t..],
            plane,
            weight,
            size,
            sum,
        );
    }
    frame_pairs::add_run::<5, 62>(
        h,
        g,
        &frames[f..],
        &actions[x..],
        &map[p..],
        &transforms[t..],
        plane,
        weight,
        size,
        sum,
    )
}

// The frames of a run through transforms of the shape s: side by side, or one after the other.
fn add_sized(
    h: &mut [f64],
    g: &mut [f64],
    dof: usize,
    frames: &[f64],
    actions: &[f64],
    map: &[u32],
    shapes: &[u32],
    transforms: &[f64],
    plane: Plane,
    weight: f64,
    first: usize,
    end: usize,
    sum: f64,
    s: Shape,
) -> f64
    requires { RunReady (length h.old) (length g.old) dof frames.now actions.now map.now shapes.now transforms.now first end × (shape_at shapes.now first ≡ Some s) }
    ensures { Continued (length g.old) dof frames.now actions.now map.now shapes.now transforms.now plane.normal plane.offset weight first end sum result h.old h.new g.old g.new }
{
    if in_pairs(s.rows, s.cols) {
        return add_pairs(
            h, g, dof, frames, actions, map, shapes, transforms, plane, weight, first, end, sum,
            s.cols,
        );
    }
    add_singles(
        h, g, dof, frames, actions, map, shapes, transforms, plane, weight, first, end, sum,
    )
}

// The frames of a run, which have one shape: the sum with their costs is the answer.
fn add_run(
    h: &mut [f64],
    g: &mut [f64],
    dof: usize,
    frames: &[f64],
    actions: &[f64],
    map: &[u32],
    shapes: &[u32],
    transforms: &[f64],
    plane: Plane,
    weight: f64,
    first: usize,
    end: usize,
    sum: f64,
) -> f64
    requires { RunReady (length h.old) (length g.old) dof frames.now actions.now map.now shapes.now transforms.now first end }
    ensures { Continued (length g.old) dof frames.now actions.now map.now shapes.now transforms.now plane.normal plane.offset weight first end sum result h.old h.new g.old g.new }
{
    match block_transforms::shape_at(shapes, first) {
        None => {
            let f = CENTRED * first;
            let x = ACTION * first;
            let p = within(first, map.len());
            frame_blocks::add_run(
                h,
                g,
                dof,
                &frames[f..],
                &actions[x..],
                &map[p..],
                plane,
                weight,
                end - first,
                sum,
            )
        }
        Some(s) => add_sized(
            h, g, dof, frames, actions, map, shapes, transforms, plane, weight, first, end, sum, s,
        ),
    }
}

// Run after run of frames of one shape: the sum of their costs is the answer.
fn add_frames(
    h: &mut [f64],
    g: &mut [f64],
    dof: usize,
    frames: &[f64],
    actions: &[f64],
    map: &[u32],
    shapes: &[u32],
    transforms: &[f64],
    plane: Plane,
    weight: f64,
    count: usize,
) -> f64
    requires { (count ≡ frame_count frames.now) × Ready (length h.old) (length g.old) dof frames.now actions.now map.now shapes.now transforms.now }
    ensures { Summed (length g.old) dof frames.now actions.now map.now shapes.now transforms.now plane.normal plane.offset weight count result h.old h.new g.old g.new }
{
    let mut sum = 0.0;
    let mut k = 0;
    // Not a counted loop: each turn goes on where its run ends.
    while k < count {
        let end = run_end(shapes, k, count);
        sum = add_run(
            h, g, dof, frames, actions, map, shapes, transforms, plane, weight, k, end, sum,
        );
        k = end;
    }
    sum
}

// All frames of a call under a plane, and the fixed set's cost. Without a map the costs are summed in a loop of their own, which is faster.
pub fn add_all(
    h: &mut [f64],
    g: &mut [f64],
    dof: usize,
    frames: &[f64],
    fixed: &[f64],
    actions: &[f64],
    map: &[u32],
    shapes: &[u32],
    transforms: &[f64],
    plane: Plane,
    weight: f64,
) -> f64
    requires { Ready (length h.old) (length g.old) dof frames.now actions.now map.now shapes.now transforms.now × ((length fixed.now ≡ 0) ⊎ (length fixed.now ≡ CENTRED)) }
    ensures { AllAdded (length g.old) dof frames.now fixed.now actions.now map.now shapes.now transforms.now plane.normal plane.offset weight result h.old h.new g.old g.new }
{
    let count = frames.len() / CENTRED;
    if map.len() == 0 {
        let alone = frame_cost::frames_cost(frames, actions, plane, weight, count);
        return frame_cost::with_fixed(alone, fixed, plane, weight);
    }
    let sum = add_frames(
        h, g, dof, frames, actions, map, shapes, transforms, plane, weight, count,
    );
    frame_cost::with_fixed(sum, fixed, plane, weight)
}
