// A match list by columns: its residuals and its Jacobian. The Jacobian's first columns are written in one pass with the residuals, so that one
// division and one read of a match serve both; further ones three at a time. Each pass goes over the matches, whose stores are neighbours in each
// column, and becomes vector code.
#![tactic(auto)]

ghost use Rattle.std.specs.Prelude.{◌≡◌, ◌+◌, ◌*◌, ◌/◌, ◌<◌, ◌≤◌, length};
ghost use Rattle.sums.specs.Sum.{grid};
ghost use Rattle.map_plane.specs.Match.{MATCH};
ghost use Rattle.match_rows.specs.Row.{row_at};
ghost use Rattle.match_rows.specs.ByRows.{row_by};
ghost use Rattle.match_columns.specs.Columns.{Put, Grown};
ghost use Rattle.match_columns.specs.Residuals.{rows_by, residuals};

use derivative::ACTION;
use map_plane::{MATCH, Match};

// The residual of each match.
pub fn write_residuals(list: &[f64], x: &[f64; ACTION], residual: &mut [f64])
    requires { length residual.old ≡ length list.now / MATCH }
    ensures { residual.new ≡ residuals x.now list.now }
{
    for k in 0..list.len() / MATCH {
        residual[k] = match_rows::residual_at(list, k, x);
    }
}

// The w entries of match k's row from column c on. A caller's w is a constant of at most 4: so short a loop is unrolled where it is called.
#[inline(always)]
fn put_entries(
    t: &[f64; 108],
    m: Match,
    info: f64,
    k: usize,
    rows: usize,
    c: usize,
    w: usize,
    out: &mut [f64],
)
    requires { (k < rows) × (c + w ≤ 9) × ((c + w) * rows ≤ length out.old) }
    ensures { Put rows k c w (row_by t.now m.point m.plane.normal info) out.old out.new }
{
    for e in 0..w {
        out[(c + e) * rows + k] = match_rows::entry(t, m, info, c + e);
    }
}

// The residuals and the first W columns. What the loop needs of the action is read before it: otherwise it does not become vector code.
fn write_first<const W: usize>(
    list: &[f64],
    rows: usize,
    x: &[f64; ACTION],
    t: &[f64; 108],
    residual: &mut [f64],
    out: &mut [f64],
)
    requires { (rows ≡ length list.now / MATCH) × (length residual.old ≡ rows) × (3 ≤ W) × (W ≤ 9) × (W * rows ≤ length out.old) }
    ensures { (residual.new ≡ residuals x.now list.now) × Grown rows 0 W (rows_by t.now list.now) out.old out.new }
{
    let a = action::matrix(x);
    let b = action::shift(x);
    for k in 0..rows {
        let m = Match::read(list, k * MATCH);
        let info = m.information();
        let w = linear::plus(linear::mat_vec(a, m.point), b);
        residual[k] = (linear::dot3(m.plane.normal, w) + m.plane.offset) * info;
        put_entries(t, m, info, k, rows, 0, 3, out);
        put_entries(t, m, info, k, rows, 3, W - 3, out);
    }
}

// W columns of a Jacobian of so many rows, from column c on.
fn write_columns<const W: usize>(
    list: &[f64],
    rows: usize,
    t: &[f64; 108],
    c: usize,
    out: &mut [f64],
)
    requires { (rows * MATCH ≤ length list.now) × (c + W ≤ 9) × ((c + W) * rows ≤ length out.old) }
    ensures { Grown rows c (c + W) (rows_by t.now list.now) out.old out.new }
{
    for k in 0..rows {
        let m = Match::read(list, k * MATCH);
        put_entries(t, m, m.information(), k, rows, c, W, out);
    }
}

// The residuals, and as many first columns as one pass takes. Gives the column that is next.
fn begin(
    list: &[f64],
    rows: usize,
    x: &[f64; ACTION],
    t: &[f64; 108],
    dof: usize,
    residual: &mut [f64],
    out: &mut [f64],
) -> usize
    requires { (rows ≡ length list.now / MATCH) × (length residual.old ≡ rows) × (length out.old ≡ dof * rows) }
    ensures { (result ≤ dof) × (residual.new ≡ residuals x.now list.now) × Grown rows 0 result (rows_by t.now list.now) out.old out.new }
{
    if dof == 7 {
        write_first::<7>(list, rows, x, t, residual, out);
        return 7;
    }
    if dof >= 6 {
        write_first::<6>(list, rows, x, t, residual, out);
        return 6;
    }
    if dof >= 3 {
        write_first::<3>(list, rows, x, t, residual, out);
        return 3;
    }
    write_residuals(list, x, residual);
    0
}

// Three columns from column c on, or one where fewer are left. Gives the column that is next.
fn write_next(
    list: &[f64],
    rows: usize,
    t: &[f64; 108],
    c: usize,
    dof: usize,
    out: &mut [f64],
) -> usize
    requires { (rows * MATCH ≤ length list.now) × (c < dof) × (dof ≤ 9) × (length out.old ≡ dof * rows) }
    ensures { (c < result) × (result ≤ dof) × Grown rows c result (rows_by t.now list.now) out.old out.new }
{
    if c + 3 <= dof {
        write_columns::<3>(list, rows, t, c, out);
        return c + 3;
    }
    write_columns::<1>(list, rows, t, c, out);
    c + 1
}

// The residuals, and the rows of a list's matches as a matrix.
pub fn jacobian(list: &[f64], x: &[f64; ACTION], dof: usize, residual: &mut [f64], out: &mut [f64])
    requires { (dof ≤ 9) × (length residual.old ≡ length list.now / MATCH) × (length out.old ≡ dof * (length list.now / MATCH)) }
    ensures { (residual.new ≡ residuals x.now list.now) × (out.new ≡ grid (length list.now / MATCH) dof (row_at x.now list.now)) }
{
    let rows = list.len() / MATCH;
    let t = match_rows::by_rows(x);
    let mut c = begin(list, rows, x, &t, dof, residual, out);
    // Not a counted loop: each turn says which column is next.
    while c < dof {
        c = write_next(list, rows, &t, c, dof, out);
    }
}
