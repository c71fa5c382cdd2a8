// A frame factor linearized at a plane: the residuals, and the Jacobian's blocks.
#![tactic(auto)]

ghost use Rattle.std.specs.Prelude.{◌≡◌, ℕ, ◌+◌, ◌*◌, ◌≤◌, ◌<◌, length};
ghost use Rattle.sums.specs.Sum.{zero_f};
ghost use Rattle.sums.specs.Fill.{written};
ghost use Rattle.lists.specs.Part.{◌!◌};
ghost use Rattle.batches.specs.Beside.{beside_of, put_beside, Beside};
ghost use Rattle.decomposition.specs.Axes.{DECOMPOSITION};
ghost use Rattle.derivative.specs.Action.{action_size};
ghost use Rattle.point_moments.specs.Scatter.{CENTRED};
ghost use Rattle.plane_fit.specs.Fit.{frame_count};
ghost use Rattle.frame_roots.specs.Roots.{root_of};
ghost use Rattle.frame_roots.specs.Batch.{BATCH, root_in};
ghost use Rattle.frame_rows.specs.Rows.{fixed_row, residual_of, jacobian_of};
ghost use Rattle.frame_rows.specs.Steps.{rows_of, column_of, put_columns, put_blocks, Room, FixedRoom, FramesWritten};
ghost use Rattle.frame_rows.specs.Batch.{residual_rows, column_rows, BatchRoom};

use derivative::ACTION;
use frame_roots::{BATCH, Root};
use plane::Plane;
use point_moments::scatter::{CENTRED, Centred};

// The four rows of a root for a vector v and a distance s.
fn rows(root: Root, v: [f64; 3], s: f64, info: f64) -> [f64; 4]
    ensures { result ≡ rows_of root v s info }
{
    let a = root.first;
    let b = root.second;
    let c = root.third;
    let x = linear::dot3(a, v);
    let y = linear::dot3(b, v);
    let z = linear::dot3(c, v);
    [x * info, y * info, z * info, root.last * s * info]
}

// A fitted plane, and the 1 / sigma that rows are scaled by.
#[derive(Clone, Copy)]
pub struct Fitted {
    pub plane: Plane,
    pub info: f64,
}

// +0 in so many cells from a place on.
fn clear_part(out: &mut [f64], at: usize, many: usize)
    requires { at + many ≤ length out.old }
    ensures { out.new ≡ written out.old at many (λ k. zero_f) }
{
    lists::clear(&mut out[at..at + many]);
}

// Column c of a frame's block.
fn column(
    x: &[f64; ACTION],
    n: [f64; 3],
    mean: [f64; 3],
    root: Root,
    info: f64,
    c: usize,
) -> [f64; 4]
    requires { c < 9 }
    ensures { result ≡ column_of x.now n mean root info c }
{
    let d0 = derivative::normal_change(x, n, 0, c);
    let d1 = derivative::normal_change(x, n, 1, c);
    let d2 = derivative::normal_change(x, n, 2, c);
    let m = derivative::along_entry(x, n, mean, c);
    rows(root, [d0, d1, d2], m, info)
}

// Puts four rows into those of a batch as those of its k-th frame.
fn put_rows(cells: &mut [f64; 32], k: usize, v: [f64; 4])
    requires { k < BATCH }
    ensures { cells.new ≡ put_beside BATCH 4 cells.old k v }
{
    cells[k] = v[0];
    cells[BATCH + k] = v[1];
    cells[2 * BATCH + k] = v[2];
    cells[3 * BATCH + k] = v[3];
}

// The residuals of a batch of frames. The loop's stores are neighbours, so that the compiler works out two frames at a time.
fn fill_residuals(
    frames: &[f64],
    actions: &[f64],
    from: usize,
    size: usize,
    roots: &[f64; 80],
    p: Fitted,
    cells: &mut [f64; 32],
)
    requires { (size ≤ BATCH) × (CENTRED * (from + size) ≤ length frames.now) × (action_size * (from + size) ≤ length actions.now) }
    ensures { Beside BATCH 4 (λ k. residual_rows frames.now actions.now p (root_in roots.now k) (from + k)) size cells.new }
{
    for k in 0..size {
        let (f, x) = plane_fit::frame_and_action(frames, actions, from + k);
        let mean = f.mean;
        let n = p.plane.normal;
        let along = frame_normal::along(n, p.plane.offset, action::carried(x, mean));
        let v = frame_normal::normal_in(x, n);
        put_rows(
            cells,
            k,
            rows(frame_roots::root_at(roots, k), v, along, p.info),
        );
    }
}

// Column c of the blocks of a batch of frames.
fn fill_column(
    frames: &[f64],
    actions: &[f64],
    from: usize,
    size: usize,
    roots: &[f64; 80],
    p: Fitted,
    c: usize,
    cells: &mut [f64; 32],
)
    requires { (c < 9) × (size ≤ BATCH) × (CENTRED * (from + size) ≤ length frames.now) × (action_size * (from + size) ≤ length actions.now) }
    ensures { Beside BATCH 4 (λ k. column_rows frames.now actions.now p c (root_in roots.now k) (from + k)) size cells.new }
{
    for k in 0..size {
        let (f, x) = plane_fit::frame_and_action(frames, actions, from + k);
        let mean = f.mean;
        let n = p.plane.normal;
        put_rows(
            cells,
            k,
            column(x, n, mean, frame_roots::root_at(roots, k), p.info, c),
        );
    }
}

// Stores the four rows of each frame of a batch, from a place on and `stride` apart.
fn store_rows(out: &mut [f64], at: usize, stride: usize, size: usize, cells: &[f64; 32])
    requires { (size ≤ BATCH) × ((k : ℕ) → k < size → at + k * stride + 4 ≤ length out.old) }
    ensures { out.new ≡ put_columns out.old at stride (λ k r. beside_of BATCH 4 cells.now k ! r) size }
{
    for k in 0..size {
        let v = [
            cells[k],
            cells[BATCH + k],
            cells[2 * BATCH + k],
            cells[3 * BATCH + k],
        ];
        frame_roots::put_four(out, at + k * stride, v);
    }
}

// The blocks of a batch are stored in its columns, worked out column after column in `cells`.
fn write_columns(
    frames: &[f64],
    actions: &[f64],
    from: usize,
    size: usize,
    roots: &[f64; 80],
    p: Fitted,
    width: usize,
    rows: usize,
    cells: &mut [f64; 32],
    jacobian: &mut [f64],
)
    requires { BatchRoom frames.now actions.now from size width rows (length jacobian.old) }
    ensures { jacobian.new ≡ put_blocks jacobian.old from width rows size (λ c k r. column_rows frames.now actions.now p c (root_in roots.now k) (from + k) ! r) width }
{
    for c in 0..width {
        fill_column(frames, actions, from, size, roots, p, c, cells);
        let at = (from * width + c) * rows + from * 4;
        store_rows(jacobian, at, width * rows + 4, size, cells);
    }
}

// The residuals of all frames, and the Jacobian.
fn write_frames(
    frames: &[f64],
    actions: &[f64],
    ds: &[u64],
    p: Fitted,
    width: usize,
    residual: &mut [f64],
    jacobian: &mut [f64],
)
    requires { Room frames.now actions.now ds.now (length residual.old) (length jacobian.old) width }
    ensures { FramesWritten frames.now actions.now ds.now p width residual.old residual.new jacobian.new }
{
    let count = frames.len() / CENTRED;
    let rows = residual.len();
    let mut roots = [0.0; 80];
    let mut cells = [0.0; 32];
    for from in (0..count).step_by(BATCH) {
        let size = lists::batch_size(count, from, BATCH);
        clear_part(jacobian, from * width * rows, size * width * rows);
        frame_roots::fill_roots(frames, ds, from, size, &mut cells, &mut roots);
        fill_residuals(frames, actions, from, size, &roots, p, &mut cells);
        store_rows(residual, from * 4, 4, size, &cells);
        write_columns(
            frames, actions, from, size, &roots, p, width, rows, &mut cells, jacobian,
        );
    }
}

// The four rows of a set that no action touches: of a lone root, which the loop over frames need not share its code with.
fn fixed_rows(d: &[u64], count: f64, n: [f64; 3], along: f64, info: f64) -> [f64; 4]
    requires { length d.now ≡ DECOMPOSITION }
    ensures { result ≡ rows_of (root_of d.now count) n along info }
{
    let x = linear::dot3(frame_roots::root_row(d, 0), n);
    let y = linear::dot3(frame_roots::root_row(d, 1), n);
    let z = linear::dot3(frame_roots::root_row(d, 2), n);
    let last = square_root::sqrt(count);
    [x * info, y * info, z * info, last * along * info]
}

// The four residuals of the fixed set after so many frames, +0 where there is none.
fn write_fixed(fixed: &[f64], ds: &[u64], count: usize, p: Fitted, residual: &mut [f64])
    requires { FixedRoom fixed.now ds.now count (length residual.old) }
    ensures { residual.new ≡ written residual.old (count * 4) 4 (fixed_row count fixed.now ds.now p.plane.normal p.plane.offset p.info) }
{
    let at = count * 4;
    if fixed.len() == 0 {
        frame_roots::put_four(residual, at, [0.0; 4]);
        return;
    }
    let f = Centred::from_list(fixed);
    let mean = f.mean;
    let n = p.plane.normal;
    let along = frame_normal::along(n, p.plane.offset, mean);
    let four = fixed_rows(
        frame_roots::decomposition_at(ds, count + 1),
        f.count,
        n,
        along,
        p.info,
    );
    frame_roots::put_four(residual, at, four);
}

// All residuals, and the Jacobian.
pub fn write_all(
    frames: &[f64],
    fixed: &[f64],
    actions: &[f64],
    ds: &[u64],
    plane: Plane,
    info: f64,
    width: usize,
    residual: &mut [f64],
    jacobian: &mut [f64],
)
    requires { Room frames.now actions.now ds.now (length residual.old) (length jacobian.old) width × FixedRoom fixed.now ds.now (frame_count frames.now) (length residual.old) }
    ensures { (residual.new ≡ residual_of frames.now fixed.now actions.now ds.now plane.normal plane.offset info) × (jacobian.new ≡ jacobian_of frames.now actions.now ds.now plane.normal info width) }
{
    let p = Fitted { plane, info };
    write_frames(frames, actions, ds, p, width, residual, jacobian);
    write_fixed(fixed, ds, frames.len() / CENTRED, p, residual);
}
