// One mapped frame: its block and vector, worked out of rows of nine numbers and added straight to the Hessian's columns and to the gradient.
// The loops are small and take the width as it comes: called with a literal width they are unrolled, and the rows stay in registers.
#![tactic(auto)]

ghost use Rattle.std.specs.Prelude.{◌≡◌, ◌+◌, ◌*◌, ◌<◌, ◌≤◌, length};
ghost use Rattle.sums.specs.Fill.{padded};
ghost use Rattle.terms.specs.Terms.{add_all, segment, block};
ghost use Rattle.plane_fit.specs.Fit.{frame_at, action_at};
ghost use Rattle.frame_segment.specs.Columns.{columns};
ghost use Rattle.frame_segment.specs.Frame.{block_entry, pulled_entry};
ghost use Rattle.frame_segment.specs.Steps.{frame_rows, column_entry, rows_entry, rows_vector, Added, Held};

use derivative::{ACTION, AXIS_X, AXIS_Y, AXIS_Z, ORIGIN};
use point_moments::scatter::Centred;

// What block and vector of a frame are made of: the three rows of D, the three of P = DᵀS, and m.
#[derive(Clone, Copy)]
pub struct Rows {
    pub d0: [f64; 9],
    pub d1: [f64; 9],
    pub d2: [f64; 9],
    pub p0: [f64; 9],
    pub p1: [f64; 9],
    pub p2: [f64; 9],
    pub m: [f64; 9],
}

impl Rows {
    // The rows of a frame that the action x carries into the site, under a plane's normal.
    #[inline(always)]
    pub fn of_frame(x: &[f64; ACTION], f: Centred, normal: [f64; 3], width: usize) -> Rows
        requires { width ≤ 9 }
        ensures { result ≡ frame_rows x.now f normal width }
    {
        let c = f.scatter;
        let o = derivative::normal_row(x, ORIGIN, normal, width);
        let d0 = derivative::normal_row(x, AXIS_X, normal, width);
        let d1 = derivative::normal_row(x, AXIS_Y, normal, width);
        let d2 = derivative::normal_row(x, AXIS_Z, normal, width);
        let m = derivative::shifted_row(o, d0, d1, d2, f.mean, width);
        let p0 = derivative::combined_row(d0, d1, d2, [c[0], c[1], c[2]], width);
        let p1 = derivative::combined_row(d0, d1, d2, [c[3], c[4], c[5]], width);
        let p2 = derivative::combined_row(d0, d1, d2, [c[6], c[7], c[8]], width);
        Rows {
            d0,
            d1,
            d2,
            p0,
            p1,
            p2,
            m,
        }
    }

    // Column j of the block, as an array.
    #[inline(always)]
    pub fn column(&self, j: usize, count: f64, weight: f64, width: usize) -> [f64; 9]
        requires { (j < 9) × (width ≤ 9) }
        ensures { result ≡ padded 9 width (λ i. rows_entry self.now count weight i j) }
    {
        let s0 = self.d0[j];
        let s1 = self.d1[j];
        let s2 = self.d2[j];
        let t = self.m[j];
        let mut column = [0.0; 9];
        for i in 0..width {
            column[i] = (self.p0[i] * s0
                + self.p1[i] * s1
                + self.p2[i] * s2
                + self.m[i] * t * count)
                * weight;
        }
        column
    }

    // The vector for a pull s and t, as an array.
    #[inline(always)]
    pub fn vector(&self, s: [f64; 3], t: f64, weight: f64, width: usize) -> [f64; 9]
        requires { width ≤ 9 }
        ensures { result ≡ padded 9 width (rows_vector self.now s t weight) }
    {
        let s0 = s[0];
        let s1 = s[1];
        let s2 = s[2];
        let mut v = [0.0; 9];
        for i in 0..width {
            v[i] = (self.d0[i] * s0 + self.d1[i] * s1 + self.d2[i] * s2 + self.m[i] * t) * weight;
        }
        v
    }
}

// One column of a block is added to the cells from `base` on.
#[inline(always)]
fn add_column(
    h: &mut [f64],
    base: usize,
    width: usize,
    r: &Rows,
    s: [f64; 3],
    t: f64,
    count: f64,
    weight: f64,
)
    requires { (width ≤ 9) × (base + width ≤ length h.old) }
    ensures { h.new ≡ add_all h.old (segment base width (column_entry r.now s t count weight)) }
{
    let s0 = s[0];
    let s1 = s[1];
    let s2 = s[2];
    for i in 0..width {
        let k = base + i;
        h[k] = h[k] + (r.p0[i] * s0 + r.p1[i] * s1 + r.p2[i] * s2 + r.m[i] * t * count) * weight;
    }
}

// So many columns of the block from column `first` on are added, one after the other, at row and column `at` of a Hessian of order n.
// The rows that are read at j are copied: the compiler then keeps the others in registers.
#[inline(always)]
fn add_columns(
    h: &mut [f64],
    n: usize,
    at: usize,
    width: usize,
    first: usize,
    many: usize,
    r: &Rows,
    count: f64,
    weight: f64,
)
    requires { (width ≤ 9) × (first + many ≤ width) × (at + width ≤ n) × (length h.old ≡ n * n) }
    ensures { h.new ≡ add_all h.old (columns n at width (rows_entry r.now count weight) first many) }
{
    let Rows { d0, d1, d2, m, .. } = *r;
    for c in 0..many {
        let j = first + c;
        let base = (at + j) * n + at;
        add_column(
            h,
            base,
            width,
            r,
            [d0[j], d1[j], d2[j]],
            m[j],
            count,
            weight,
        );
    }
}

// The whole block. Seven columns take two turns: of seven at once the compiler would make a loop, which is slower.
#[inline(always)]
fn add_block(h: &mut [f64], n: usize, at: usize, width: usize, r: &Rows, count: f64, weight: f64)
    requires { (width ≤ 9) × (at + width ≤ n) × (length h.old ≡ n * n) }
    ensures { h.new ≡ add_all h.old (block n at width (rows_entry r.now count weight)) }
{
    let first = if width == 7 { 3 } else { 0 };
    add_columns(h, n, at, width, 0, first, r, count, weight);
    add_columns(h, n, at, width, first, width - first, r, count, weight);
}

// The vector is added to the gradient from row `at` on.
#[inline(always)]
fn add_vector(g: &mut [f64], at: usize, width: usize, r: &Rows, s: [f64; 3], t: f64, weight: f64)
    requires { (width ≤ 9) × (at + width ≤ length g.old) }
    ensures { g.new ≡ add_all g.old (segment at width (rows_vector r.now s t weight)) }
{
    let s0 = s[0];
    let s1 = s[1];
    let s2 = s[2];
    for i in 0..width {
        let k = at + i;
        g[k] = g[k] + (r.d0[i] * s0 + r.d1[i] * s1 + r.d2[i] * s2 + r.m[i] * t) * weight;
    }
}

// A frame's block and vector are added at row `at`. A caller to which the width is a literal has code of its own, whose loops are unrolled.
#[inline(always)]
pub fn add_at(
    h: &mut [f64],
    g: &mut [f64],
    n: usize,
    at: usize,
    width: usize,
    frames: &[f64],
    actions: &[f64],
    k: usize,
    normal: [f64; 3],
    s: [f64; 3],
    t: f64,
    weight: f64,
)
    requires { (width ≤ 9) × (at + width ≤ n) × (length h.old ≡ n * n) × (length g.old ≡ n) × Held frames.now actions.now k }
    ensures { Added n at width (block_entry (action_at actions.now k) (frame_at frames.now k) normal weight) (pulled_entry (action_at actions.now k) (frame_at frames.now k) normal s t weight) h.old h.new g.old g.new }
{
    let (f, x) = plane_fit::frame_and_action(frames, actions, k);
    let r = Rows::of_frame(x, f, normal, width);
    add_block(h, n, at, width, &r, f.count, weight);
    add_vector(g, at, width, &r, s, t, weight);
}
