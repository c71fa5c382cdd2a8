// One match of a list under an action: its residual, and its row of derivatives.
#![tactic(auto)]

ghost use Rattle.std.specs.Prelude.{◌≡◌, ℕ, ◌+◌, ◌*◌, ◌≤◌, ◌<◌, length};
ghost use Rattle.sums.specs.Sum.{tab};
ghost use Rattle.sums.specs.Fill.{First};
ghost use Rattle.map_plane.specs.Match.{MATCH};
ghost use Rattle.match_rows.specs.Row.{residual_of, residual_at, information_at};
ghost use Rattle.match_rows.specs.ByRows.{by_rows, row_by, row_by_at};

use derivative::{ACTION, ORIGIN};
use map_plane::{MATCH, Match};

// The distance from the plane of the point that the action carries into the site, times information.
pub fn residual(x: &[f64; ACTION], m: Match, info: f64) -> f64
    ensures { result ≡ residual_of x.now m.point m.plane.normal m.plane.offset info }
{
    let w = action::carried(x, m.point);
    (linear::dot3(m.plane.normal, w) + m.plane.offset) * info
}

// The four matrices of an action's derivative by rows: the numbers that the row's loop reads are then neighbours.
pub fn by_rows(x: &[f64; ACTION]) -> [f64; 108]
    ensures { result ≡ by_rows x.now }
{
    let mut t = [0.0; 108];
    for e in 0..12 {
        let from = ORIGIN + 27 * (e / 3) + e % 3;
        for c in 0..9 {
            t[e * 9 + c] = x[from + 3 * c];
        }
    }
    t
}

// Entry c of a match's row.
pub fn entry(t: &[f64; 108], m: Match, info: f64, c: usize) -> f64
    requires { c < 9 }
    ensures { result ≡ row_by t.now m.point m.plane.normal info c }
{
    let [s0, s1, s2] = m.point;
    let [n0, n1, n2] = m.plane.normal;
    let p0 = n0 * t[c] + n1 * t[9 + c] + n2 * t[18 + c];
    let p1 = n0 * t[27 + c] + n1 * t[36 + c] + n2 * t[45 + c];
    let p2 = n0 * t[54 + c] + n1 * t[63 + c] + n2 * t[72 + c];
    let p3 = n0 * t[81 + c] + n1 * t[90 + c] + n2 * t[99 + c];
    (p0 + p1 * s0 + p2 * s1 + p3 * s2) * info
}

// The numbers `from` up to `to` of a match's row, where those before are stored already.
#[inline(always)]
fn fill<const W: usize>(
    t: &[f64; 108],
    m: Match,
    info: f64,
    from: usize,
    to: usize,
    row: &mut [f64; W],
)
    requires { (from ≤ to) × (to ≤ W) × (W ≤ 9) × First from row.old (row_by t.now m.point m.plane.normal info) }
    ensures { (length row.new ≡ W) × First to row.new (row_by t.now m.point m.plane.normal info) }
{
    for c in from..to {
        row[c] = entry(t, m, info, c);
    }
}

// The first W numbers of a match's row, in two loops that are short enough for the compiler to unroll.
#[inline(always)]
pub fn row<const W: usize>(t: &[f64; 108], m: Match, info: f64) -> [f64; W]
    requires { W ≤ 9 }
    ensures { result ≡ tab W (row_by t.now m.point m.plane.normal info) }
{
    let mut row = [0.0; W];
    let middle = W.min(6);
    fill(t, m, info, 0, middle, &mut row);
    fill(t, m, info, middle, W, &mut row);
    row
}

// The residual of match k.
pub fn residual_at(list: &[f64], k: usize, x: &[f64; ACTION]) -> f64
    requires { k * MATCH + MATCH ≤ length list.now }
    ensures { result ≡ residual_at x.now list.now k }
{
    let m = Match::read(list, k * MATCH);
    residual(x, m, m.information())
}

// The information of match k, 1 / sigma.
pub fn information_at(list: &[f64], k: usize) -> f64
    requires { k * MATCH + MATCH ≤ length list.now }
    ensures { result ≡ information_at list.now k }
{
    Match::read(list, k * MATCH).information()
}

// The first W numbers of the row of match k, whose information is `info`. `t` is the action by rows: made once, it serves every match.
#[inline(always)]
pub fn row_at<const W: usize>(list: &[f64], k: usize, t: &[f64; 108], info: f64) -> [f64; W]
    requires { (k * MATCH + MATCH ≤ length list.now) × (W ≤ 9) }
    ensures { result ≡ tab W (row_by_at t.now list.now k info) }
{
    row(t, Match::read(list, k * MATCH), info)
}
