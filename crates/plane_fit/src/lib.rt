// What a plane is fitted to, the mean and the scatter over the frames and then the fixed set; and the fit by a decomposition of them.
#![tactic(auto)]

pub mod axis;

ghost use Rattle.std.specs.Prelude.{◌≡◌, ℕ, ◌+◌, ◌*◌, ◌≤◌, ◌<◌, ◌++◌, length};
ghost use Rattle.refusals.specs.Refusal.{Answered};
ghost use Rattle.refusals.specs.Number.{number};
ghost use Rattle.lists.specs.Part.{part};
ghost use Rattle.sums.specs.Sum.{plus, grid, product, transpose};
ghost use Rattle.derivative.specs.Action.{action_size};
ghost use Rattle.point_moments.specs.Scatter.{CENTRED};
ghost use Rattle.plane_fit.specs.Records.{record_of};
ghost use Rattle.plane_fit.specs.Parts.{BATCH, COLUMNS, part_of, Put, Held, with_parts};
ghost use Rattle.plane_fit.specs.Fit.{Shaped, frame_count, frame_at, action_at, centre, turned, spread, fit_mean, scatter_about, fit_list};
ghost use Rattle.plane_fit.specs.Calls.{bad_records, bad_frames, bad_fixed, bad_count, bad_actions, fit_refusal};
ghost use Rattle.plane_fit.specs.Steps.{with_set, weighed, difference, spread_upto, mean_of};

use derivative::{ACTION, MOST_DOF};
use point_moments::scatter::{CENTRED, Centred};
use refusals::Refusal;

// The most frames of one plane.
pub const MOST_FRAMES: usize = 256;

// Record k of a list of records of N numbers, which holds it whole: a loop over records needs no test in each turn.
#[inline(always)]
pub fn record<const N: usize>(list: &[f64], k: usize) -> &[f64; N]
    requires { (0 < N) × (N * k + N ≤ length list.now) }
    ensures { result.now ≡ record_of N list.now k }
{
    &list.as_chunks::<N>().0[k]
}

// Record k of a list of records of so many numbers, as a part of the list: an empty part if the list ends before the record does.
pub fn record_at(list: &[f64], size: usize, k: usize) -> &[f64]
    requires { 0 < size }
    ensures { result.now ≡ record_of size list.now k }
{
    if k < list.len() / size {
        let at = size * k;
        return &list[at..at + size];
    }
    &list[0..0]
}

// Frame k and its action, of lists that hold both whole.
#[inline(always)]
pub fn frame_and_action<'a>(
    frames: &[f64],
    actions: &'a [f64],
    k: usize,
) -> (Centred, &'a [f64; ACTION])
    requires { (CENTRED * k + CENTRED ≤ length frames.now) × (action_size * k + action_size ≤ length actions.now) }
    ensures { (result.0 ≡ frame_at frames.now k) × (result.1.now ≡ action_at actions.now k) }
{
    (
        Centred::from_list(record::<CENTRED>(frames, k)),
        record(actions, k),
    )
}

// The numbers of frame k.
pub fn frame(frames: &[f64], k: usize) -> &[f64]
    ensures { result.now ≡ record_of CENTRED frames.now k }
{
    record_at(frames, CENTRED, k)
}

// A·mean + b: the frame's mean carried into the site by the action x.
pub fn centre(x: &[f64; ACTION], f: Centred) -> [f64; 3]
    ensures { result ≡ centre x.now f }
{
    let mean = f.mean;
    action::carried(x, mean)
}

// The counts of some sets, and the sum of their means times their counts.
#[derive(Clone, Copy, Default)]
pub struct Weighted {
    pub total: f64,
    pub sum: [f64; 3],
}

impl Weighted {
    // With a set of n points whose mean is w.
    fn with_set(self, w: [f64; 3], n: f64) -> Weighted
        ensures { result ≡ with_set self w n }
    {
        let u = self.sum;
        Weighted {
            total: self.total + n,
            sum: [u[0] + w[0] * n, u[1] + w[1] * n, u[2] + w[2] * n],
        }
    }

    fn mean(self) -> [f64; 3]
        ensures { result ≡ mean_of self }
    {
        let n = self.total;
        let u = self.sum;
        linear::divided(u, n)
    }
}

// The frames weighed. The loop ends by the test that `frame` makes, so that the compiler drops the latter.
fn weigh(frames: &[f64], actions: &[f64]) -> Weighted
    requires { action_size * frame_count frames.now ≤ length actions.now }
    ensures { result ≡ weighed frames.now actions.now (frame_count frames.now) }
{
    let mut s = Weighted::default();
    for k in 0..frames.len() / CENTRED {
        let f = Centred::from_list(frame(frames, k));
        let w = centre(record(actions, k), f);
        s = s.with_set(w, f.count);
    }
    s
}

fn difference(w: [f64; 3], mean: [f64; 3]) -> [f64; 3]
    ensures { result ≡ difference w mean }
{
    [w[0] - mean[0], w[1] - mean[1], w[2] - mean[2]]
}

// The scatter about `mean` of n points whose scatter about their own mean w is s.
fn spread(s: [f64; 9], w: [f64; 3], n: f64, mean: [f64; 3]) -> [f64; 9]
    ensures { result ≡ grid 3 3 (spread s w n mean) }
{
    let o = difference(w, mean);
    linear::plus(s, linear::outer_scaled(o, o, n))
}

// A.S.Aᵀ, as `linear` has it: a copy for this loop alone, which the compiler takes into the loop.
fn turn(a: [f64; 9], s: [f64; 9]) -> [f64; 9]
    ensures { result ≡ product 3 3 3 (product 3 3 3 a s) (transpose 3 3 a) }
{
    linear::mat_mat(linear::mat_mat(a, s), linear::transposed(a))
}

// The same of a frame that the action x carries into the site: its scatter turned, A.S.Aᵀ, and its mean moved.
fn spread_of(x: &[f64; ACTION], f: Centred, mean: [f64; 3]) -> [f64; 9]
    ensures { result ≡ grid 3 3 (spread (turned x.now f) (centre x.now f) f.count mean) }
{
    let s = f.scatter;
    let t = turn(action::matrix(x), s);
    spread(t, centre(x, f), f.count, mean)
}

// A scatter that grows by the parts of the sets.
#[derive(Clone, Copy)]
struct Scatter {
    entries: [f64; 9],
}

impl Scatter {
    fn with_part(self, part: [f64; 9]) -> Scatter
        ensures { result.entries ≡ plus 9 self.entries part }
    {
        let e = self.entries;
        let entries = linear::plus(e, part);
        Scatter { entries }
    }
}

// How many frames' parts are worked out before they are added.
const BATCH: usize = 8;

// Puts a column of a part into those of a batch as that of its k-th frame.
fn put_column(cells: &mut [f64; 24], k: usize, column: [f64; 3])
    requires { k < BATCH }
    ensures { Put 3 k column cells.old cells.new }
{
    for e in 0..3 {
        cells[e * BATCH + k] = column[e];
    }
}

// The part of the k-th frame of a batch, of its three columns.
fn part_at(a: &[f64; 24], b: &[f64; 24], c: &[f64; 24], k: usize) -> [f64; 9]
    requires { k < BATCH }
    ensures { result ≡ part_of a.now b.now c.now k }
{
    [
        a[k],
        a[k + BATCH],
        a[k + 2 * BATCH],
        b[k],
        b[k + BATCH],
        b[k + 2 * BATCH],
        c[k],
        c[k + BATCH],
        c[k + 2 * BATCH],
    ]
}

// The parts of a batch of frames from frame `from` on, each column into cells of its own, entry after entry: entry e of the batch's k-th frame is
// number e * BATCH + k, so that the loop's stores are neighbours and the compiler works out two frames at a time.
fn fill_parts(
    frames: &[f64],
    actions: &[f64],
    from: usize,
    size: usize,
    mean: [f64; 3],
    a: &mut [f64; 24],
    b: &mut [f64; 24],
    c: &mut [f64; 24],
)
    requires { (CENTRED * (from + size) ≤ length frames.now) × (action_size * (from + size) ≤ length actions.now) × (size ≤ BATCH) }
    ensures { Held frames.now actions.now mean from size a.new b.new c.new }
{
    for k in 0..size {
        let (f, x) = frame_and_action(frames, actions, from + k);
        let part = spread_of(x, f, mean);
        put_column(a, k, [part[0], part[1], part[2]]);
        put_column(b, k, [part[3], part[4], part[5]]);
        put_column(c, k, [part[6], part[7], part[8]]);
    }
}

// A scatter with the parts of a batch.
fn with_parts(s: Scatter, a: &[f64; 24], b: &[f64; 24], c: &[f64; 24], size: usize) -> Scatter
    requires { size ≤ BATCH }
    ensures { result.entries ≡ with_parts s.entries a.now b.now c.now size }
{
    let mut r = s;
    for k in 0..size {
        r = r.with_part(part_at(a, b, c, k));
    }
    r
}

// The scatter of the first `count` frames about `mean`. Three small arrays are cleared faster than a large one.
fn scatter_of(frames: &[f64], actions: &[f64], count: usize, mean: [f64; 3]) -> Scatter
    requires { (CENTRED * count ≤ length frames.now) × (action_size * count ≤ length actions.now) }
    ensures { result.entries ≡ spread_upto frames.now actions.now mean count }
{
    let mut s = Scatter { entries: [0.0; 9] };
    let mut a = [0.0; 24];
    let mut b = [0.0; 24];
    let mut c = [0.0; 24];
    for from in (0..count).step_by(BATCH) {
        let size = lists::batch_size(count, from, BATCH);
        fill_parts(frames, actions, from, size, mean, &mut a, &mut b, &mut c);
        s = with_parts(s, &a, &b, &c, size);
    }
    s
}

// The mean of all frames and the fixed set, count-weighted.
pub fn fit_mean(frames: &[f64], fixed: &[f64], actions: &[f64]) -> [f64; 3]
    requires { Shaped frames.now fixed.now actions.now }
    ensures { result ≡ fit_mean frames.now fixed.now actions.now }
{
    let s = weigh(frames, actions);
    if fixed.is_empty() {
        return s.mean();
    }
    let f = Centred::from_list(fixed);
    let w = f.mean;
    s.with_set(w, f.count).mean()
}

// The scatter of all frames and the fixed set about `mean`.
fn fit_scatter(frames: &[f64], fixed: &[f64], actions: &[f64], mean: [f64; 3]) -> Scatter
    requires { Shaped frames.now fixed.now actions.now }
    ensures { result.entries ≡ grid 3 3 (scatter_about frames.now fixed.now actions.now mean) }
{
    let count = frames.len() / CENTRED;
    let s = scatter_of(frames, actions, count, mean);
    if fixed.is_empty() {
        return s;
    }
    let f = Centred::from_list(fixed);
    let t = f.scatter;
    let w = f.mean;
    s.with_part(spread(t, w, f.count, mean))
}

// 3: the list is not whole records of so many numbers, or has more records than it may.
pub fn bad_records(list: &[f64], size: usize, most: usize) -> bool
    requires { 0 < size }
    ensures { result ≡ bad_records size most list.now }
{
    list.len() % size != 0 || list.len() / size > most
}

pub fn bad_frames(frames: &[f64]) -> bool
    ensures { result ≡ bad_frames frames.now }
{
    bad_records(frames, CENTRED, MOST_FRAMES)
}

// A fixed set is nothing or one frame.
pub fn bad_fixed(fixed: &[f64]) -> bool
    ensures { result ≡ bad_fixed fixed.now }
{
    bad_records(fixed, CENTRED, 1)
}

// The other list is not one record for each whole record of the list. Divided and not multiplied, so that no length overflows.
pub fn bad_count(list: &[f64], size: usize, others: &[f64], other: usize) -> bool
    requires { (0 < size) × (0 < other) }
    ensures { result ≡ bad_count size list.now other others.now }
{
    others.len() % other != 0 || others.len() / other != list.len() / size
}

// 8: the actions are not one for each frame.
pub fn bad_actions(frames: &[f64], actions: &[f64]) -> bool
    ensures { result ≡ bad_actions frames.now actions.now }
{
    bad_count(frames, CENTRED, actions, ACTION)
}

// The host's call: the fit's mean and scatter, for the decomposition that the host makes of it.
pub fn fit(
    dof: u32,
    frames: &[f64],
    fixed: &[f64],
    actions: &[f64],
    out: &mut [f64],
) -> Result<(), Refusal>
    ensures { Answered (fit_refusal dof frames.now fixed.now actions.now out.old) (number result) out.old out.new (fit_list frames.now fixed.now actions.now) }
{
    if dof > MOST_DOF {
        return Err(Refusal::DofTooLarge);
    }
    if frames.is_empty() {
        return Err(Refusal::EmptyList);
    }
    if bad_frames(frames) {
        return Err(Refusal::WrongLength);
    }
    if bad_fixed(fixed) {
        return Err(Refusal::WrongLength);
    }
    if out.len() != 12 {
        return Err(Refusal::WrongLength);
    }
    if bad_actions(frames, actions) {
        return Err(Refusal::WrongActions);
    }
    let mean = fit_mean(frames, fixed, actions);
    let scatter = fit_scatter(frames, fixed, actions, mean);
    out.copy_from_slice(&lists::three_and_nine(mean, scatter.entries));
    Ok(())
}
