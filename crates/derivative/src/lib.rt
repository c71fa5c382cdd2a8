// The rows of a plane's derivatives in a frame: nine numbers, the first `width` of them the definition's and the others +0.
// The loops are small and take the width as it comes: called with a literal width they are unrolled.
#![tactic(auto)]

ghost use Rattle.std.specs.Prelude.{◌≡◌, ◌+◌, ◌<◌, ◌≤◌, length, get_or};
ghost use Rattle.std.specs.Float.{nan};
ghost use Rattle.sums.specs.Fill.{padded};
ghost use Rattle.derivative.specs.Action.{action_size};
ghost use Rattle.derivative.specs.Derivative.{normal_at, normal_row, combined, shifted, rows, d_an, d_along};

// How many numbers an action is, and the most columns that its derivative has.
pub const ACTION: usize = 120;

pub const MOST_DOF: u32 = 9;

// Where it has `origin`, and `axes` for the coordinates x, y and z of the point.
pub const ORIGIN: usize = 12;

pub const AXIS_X: usize = 39;

pub const AXIS_Y: usize = 66;

pub const AXIS_Z: usize = 93;

// nᵀ times the column of three numbers that starts at i in x.
fn normal_entry(x: &[f64], i: usize, n: [f64; 3]) -> f64
    requires { i + 3 ≤ length x.now }
    ensures { result ≡ normal_at x.now i n }
{
    n[0] * x[i] + n[1] * x[i + 1] + n[2] * x[i + 2]
}

// nᵀ times the first `width` columns of the matrix of three rows that starts at `from` in x.
pub fn normal_row(x: &[f64], from: usize, n: [f64; 3], width: usize) -> [f64; 9]
    requires { (width ≤ 9) × (from + 27 ≤ length x.now) }
    ensures { result ≡ padded 9 width (normal_row x.now from n) }
{
    let mut row = [0.0; 9];
    for c in 0..width {
        row[c] = normal_entry(x, from + 3 * c, n);
    }
    row
}

// The rows a, b, c times the numbers of s, added up: with the rows of D, one of DᵀS for a column of S.
pub fn combined_row(a: [f64; 9], b: [f64; 9], c: [f64; 9], s: [f64; 3], width: usize) -> [f64; 9]
    requires { width ≤ 9 }
    ensures { result ≡ padded 9 width (combined (rows a b c) s) }
{
    let s0 = s[0];
    let s1 = s[1];
    let s2 = s[2];
    let mut row = [0.0; 9];
    for i in 0..width {
        row[i] = a[i] * s0 + b[i] * s1 + c[i] * s2;
    }
    row
}

// The row o, to which the rows a, b, c times the numbers of p are added one after the other.
pub fn shifted_row(
    o: [f64; 9],
    a: [f64; 9],
    b: [f64; 9],
    c: [f64; 9],
    p: [f64; 3],
    width: usize,
) -> [f64; 9]
    requires { width ≤ 9 }
    ensures { result ≡ padded 9 width (shifted (λ i. get_or o i nan) (rows a b c) p) }
{
    let p0 = p[0];
    let p1 = p[1];
    let p2 = p[2];
    let mut row = [0.0; 9];
    for i in 0..width {
        row[i] = o[i] + a[i] * p0 + b[i] * p1 + c[i] * p2;
    }
    row
}

// D(k,c), the derivative of entry k of Aᵀn by the state's coordinate c.
// A longer list serves too, here and below: `&[f64; ACTION]` would ask more of callers.
pub fn normal_change(x: &[f64], n: [f64; 3], k: usize, c: usize) -> f64
    requires { (k < 3) × (c < 9) × (action_size ≤ length x.now) }
    ensures { result ≡ d_an x.now n k c }
{
    normal_entry(x, AXIS_X + 27 * k + 3 * c, n)
}

// m_c, the derivative of nᵀ(A·p + b) by the state's coordinate c.
pub fn along_entry(x: &[f64], n: [f64; 3], p: [f64; 3], c: usize) -> f64
    requires { (c < 9) × (action_size ≤ length x.now) }
    ensures { result ≡ d_along x.now n p c }
{
    let i = 3 * c;
    let o = normal_entry(x, ORIGIN + i, n);
    let a = normal_entry(x, AXIS_X + i, n);
    let b = normal_entry(x, AXIS_Y + i, n);
    let d = normal_entry(x, AXIS_Z + i, n);
    o + a * p[0] + b * p[1] + d * p[2]
}
