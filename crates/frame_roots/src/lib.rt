// The root of a set's scatter, as its decomposition gives it: of a batch of frames side by side, and of a lone set row by row.
#![tactic(auto)]

ghost use Rattle.std.specs.Prelude.{◌≡◌, ◌+◌, ◌*◌, ◌≤◌, ◌<◌, length};
ghost use Rattle.sums.specs.Fill.{written};
ghost use Rattle.lists.specs.Part.{◌!◌};
ghost use Rattle.batches.specs.Beside.{put_beside};
ghost use Rattle.decomposition.specs.Axes.{DECOMPOSITION};
ghost use Rattle.point_moments.specs.Scatter.{CENTRED};
ghost use Rattle.frame_roots.specs.Roots.{at_least_zero, radicands_of, root_row, root_with, decomposition_at};
ghost use Rattle.frame_roots.specs.Batch.{BATCH, numbers_of, root_in, four_of, Radicands, RootedWith, Rooted};

use decomposition::DECOMPOSITION;
use point_moments::scatter::{CENTRED, Centred};

// An eigenvalue whose root is taken; one at or below 0 or a NaN is taken as +0.
#[tactic(auto, unfolding(crate::specs::Roots::at_least_zero))]
fn at_least_zero(value: f64) -> f64
    ensures { result ≡ at_least_zero value }
{
    if value > 0.0 { value } else { 0.0 }
}

// Row k of a root, alone.
pub fn root_row(d: &[u64], k: usize) -> [f64; 3]
    requires { (length d.now ≡ DECOMPOSITION) × (k < 3) }
    ensures { result ≡ root_row d.now k }
{
    let s = square_root::sqrt(at_least_zero(decomposition::value(d, k)));
    linear::scaled(decomposition::vector(d, k), s)
}

// A root of a set's scatter by rows, as its decomposition gives it, and the root of its count.
#[derive(Clone, Copy)]
pub struct Root {
    pub first: [f64; 3],
    pub second: [f64; 3],
    pub third: [f64; 3],
    pub last: f64,
}

impl Root {
    // From the roots of its eigenvalues and of its count.
    fn with(d: &[u64], roots: [f64; 4]) -> Root
        requires { length d.now ≡ DECOMPOSITION }
        ensures { result ≡ root_with d.now roots }
    {
        let first = linear::scaled(decomposition::vector(d, 0), roots[0]);
        let second = linear::scaled(decomposition::vector(d, 1), roots[1]);
        let third = linear::scaled(decomposition::vector(d, 2), roots[2]);
        Root {
            first,
            second,
            third,
            last: roots[3],
        }
    }
}

// Decomposition k of a list.
pub fn decomposition_at(ds: &[u64], k: usize) -> &[u64]
    requires { k * DECOMPOSITION + DECOMPOSITION ≤ length ds.now }
    ensures { result.now ≡ decomposition_at ds.now k }
{
    let at = k * DECOMPOSITION;
    let end = at + DECOMPOSITION;
    &ds[at..end]
}

// Stores four numbers from a place on.
pub fn put_four(out: &mut [f64], at: usize, v: [f64; 4])
    requires { at + 4 ≤ length out.old }
    ensures { out.new ≡ written out.old at 4 (λ k. v ! k) }
{
    lists::store(&mut out[at..at + 4], &v);
}

// How many frames are worked out before anything of them is stored.
pub const BATCH: usize = 8;

// Puts a root into those of a batch as that of its k-th frame.
fn put_root(roots: &mut [f64; 80], k: usize, root: Root)
    requires { k < BATCH }
    ensures { roots.new ≡ put_beside BATCH 10 roots.old k (numbers_of root) }
{
    let a = root.first;
    let b = root.second;
    let c = root.third;
    roots[k] = a[0];
    roots[BATCH + k] = a[1];
    roots[2 * BATCH + k] = a[2];
    roots[3 * BATCH + k] = b[0];
    roots[4 * BATCH + k] = b[1];
    roots[5 * BATCH + k] = b[2];
    roots[6 * BATCH + k] = c[0];
    roots[7 * BATCH + k] = c[1];
    roots[8 * BATCH + k] = c[2];
    roots[9 * BATCH + k] = root.last;
}

// What the roots of a set are taken of: its eigenvalues, and its count.
fn radicands(d: &[u64], count: f64) -> [f64; 4]
    requires { length d.now ≡ DECOMPOSITION }
    ensures { result ≡ radicands_of d.now count }
{
    let x = at_least_zero(decomposition::value(d, 0));
    let y = at_least_zero(decomposition::value(d, 1));
    let z = at_least_zero(decomposition::value(d, 2));
    [x, y, z, count]
}

// These of a batch of frames from frame `from` on, four a frame.
fn fill_radicands(frames: &[f64], ds: &[u64], from: usize, size: usize, fours: &mut [f64; 32])
    requires { (size ≤ BATCH) × (CENTRED * (from + size) ≤ length frames.now) × ((from + size + 1) * DECOMPOSITION ≤ length ds.now) }
    ensures { Radicands frames.now ds.now from size fours.new }
{
    for k in 0..size {
        let f = Centred::from_list(plane_fit::record::<CENTRED>(frames, from + k));
        let v = radicands(decomposition_at(ds, from + k + 1), f.count);
        put_four(fours, 4 * k, v);
    }
}

// The four numbers of a batch's k-th frame.
fn four_at(fours: &[f64; 32], k: usize) -> [f64; 4]
    requires { k < BATCH }
    ensures { result ≡ four_of fours.now k }
{
    [
        fours[4 * k],
        fours[4 * k + 1],
        fours[4 * k + 2],
        fours[4 * k + 3],
    ]
}

// The roots of the scatters of a batch of frames from frame `from` on, with the roots of four numbers of each in hand.
fn put_roots(ds: &[u64], from: usize, size: usize, fours: &[f64; 32], roots: &mut [f64; 80])
    requires { (size ≤ BATCH) × ((from + size + 1) * DECOMPOSITION ≤ length ds.now) }
    ensures { RootedWith ds.now from fours.now size roots.new }
{
    for k in 0..size {
        let v = four_at(fours, k);
        put_root(roots, k, Root::with(decomposition_at(ds, from + k + 1), v));
    }
}

// The same with these worked out in `fours`, number after number: number e of the batch's k-th frame stands at e * BATCH + k.
pub fn fill_roots(
    frames: &[f64],
    ds: &[u64],
    from: usize,
    size: usize,
    fours: &mut [f64; 32],
    roots: &mut [f64; 80],
)
    requires { (size ≤ BATCH) × (CENTRED * (from + size) ≤ length frames.now) × ((from + size + 1) * DECOMPOSITION ≤ length ds.now) }
    ensures { Rooted frames.now ds.now from size roots.new }
{
    fill_radicands(frames, ds, from, size, fours);
    square_root::many::sqrt_all(&mut fours[..size * 4]);
    put_roots(ds, from, size, fours, roots);
}

// The root of the k-th frame of a batch.
pub fn root_at(roots: &[f64; 80], k: usize) -> Root
    requires { k < BATCH }
    ensures { result ≡ root_in roots.now k }
{
    let a = [roots[k], roots[BATCH + k], roots[2 * BATCH + k]];
    let b = [
        roots[3 * BATCH + k],
        roots[4 * BATCH + k],
        roots[5 * BATCH + k],
    ];
    let c = [
        roots[6 * BATCH + k],
        roots[7 * BATCH + k],
        roots[8 * BATCH + k],
    ];
    Root {
        first: a,
        second: b,
        third: c,
        last: roots[9 * BATCH + k],
    }
}
