// The rows of a bundle under its plane: a residual for each point, and the Jacobian, in which a site point has its own frame's columns alone.
#![tactic(auto)]

ghost use Rattle.std.specs.Prelude.{◌≡◌, ◌++◌, ◌+◌, ◌*◌, ◌<◌, ◌≤◌, length};
ghost use Rattle.sums.specs.Sum.{tab, grid};
ghost use Rattle.sums.specs.Fill.{written};
ghost use Rattle.bundle_points.specs.Points.{most_points, point_count};
ghost use Rattle.bundle_rows.specs.Rows.{residual_at, total, jacobian_cell};
ghost use Rattle.bundle_rows.specs.Steps.{state_cell, Put, Room};

use bundle_points::Cloud;

// From so many rows on a Jacobian is larger than the cache: its rows are then written batch after batch.
const MANY_ROWS: usize = 4096;

// The rows of a batch: two cache lines of a column, and few enough that their state columns stay in the cache while they are written.
const BATCH: usize = 16;

// Up to so many columns a batch is written column after column. More are written by pairs of rows, in two parts: columns lie `rows` numbers apart, and
// where that is a power of two the cache holds no more than eight of them at a time.
const MOST_COLUMNS: usize = 6;

// The residuals of a list's points, from a row on.
fn put_residuals(
    list: &[f64],
    q: [f64; 3],
    n: [f64; 3],
    info: f64,
    from: usize,
    residual: &mut [f64],
)
    requires { from + point_count list.now ≤ length residual.old }
    ensures { residual.new ≡ written residual.old from (point_count list.now) (residual_at list.now q n info) }
{
    let q0 = q[0];
    let q1 = q[1];
    let q2 = q[2];
    let n0 = n[0];
    let n1 = n[1];
    let n2 = n[2];
    let (points, _) = list.as_chunks::<3>();
    for (k, p) in points.iter().enumerate() {
        let x = p[0] - q0;
        let y = p[1] - q1;
        let z = p[2] - q2;
        residual[from + k] = info * (n0 * x + n1 * y + n2 * z);
    }
}

// The residuals of the site points, and then of the fixed ones.
pub fn write_residuals(cloud: &Cloud, q: [f64; 3], n: [f64; 3], info: f64, residual: &mut [f64])
    requires { length residual.old ≡ point_count cloud.now.site.now + point_count cloud.now.fixed.now }
    ensures { residual.new ≡ tab (point_count cloud.now.site.now + point_count cloud.now.fixed.now) (residual_at (cloud.now.site.now ++ cloud.now.fixed.now) q n info) }
{
    put_residuals(cloud.site, q, n, info, 0, residual);
    put_residuals(cloud.fixed, q, n, info, cloud.site.len() / 3, residual);
}

// The state columns of the site points, `dof` for each, and what a row makes of them: the plane's normal, and 1 / sigma.
#[derive(Clone, Copy)]
struct StateColumns<'a> {
    state: &'a [f64],
    dof: usize,
    n: [f64; 3],
    info: f64,
}

impl StateColumns<'_> {
    // Column c of the point of row k.
    #[inline(always)]
    #[tactic(auto, unfolding(crate::specs::Steps::state_cell))]
    fn cell(self, k: usize, c: usize) -> f64
        requires { (k * self.dof + c) * 3 + 3 ≤ length self.state.now }
        ensures { result ≡ state_cell self.entry.dof self.entry.state.now self.entry.n self.entry.info k c }
    {
        map_plane::state_column(self.info, self.n, self.state, k * self.dof + c)
    }
}

// Column c of the points of rows k and k + 1. Both numbers are worked out before one is stored: the two stores, which are neighbours, then become one.
fn put_pair(columns: StateColumns, c: usize, k: usize, rows: usize, block: &mut [f64])
    requires { (c < columns.dof) × Room columns.dof rows k 2 (length columns.state.now) (length block.old) }
    ensures { Put rows columns.entry.dof k 2 c 1 (state_cell columns.entry.dof columns.entry.state.now columns.entry.n columns.entry.info) block.old block.new }
{
    let upper = columns.cell(k, c);
    let lower = columns.cell(k + 1, c);
    let at = c * rows + k;
    block[at] = upper;
    block[at + 1] = lower;
}

// The same of w columns from column c on.
fn put_pairs(columns: StateColumns, c: usize, w: usize, k: usize, rows: usize, block: &mut [f64])
    requires { (c + w ≤ columns.dof) × Room columns.dof rows k 2 (length columns.state.now) (length block.old) }
    ensures { Put rows columns.entry.dof k 2 c w (state_cell columns.entry.dof columns.entry.state.now columns.entry.n columns.entry.info) block.old block.new }
{
    for e in 0..w {
        put_pair(columns, c + e, k, rows, block);
    }
}

// w columns from column c on of the point of row k.
fn put_row(columns: StateColumns, c: usize, w: usize, k: usize, rows: usize, block: &mut [f64])
    requires { (c + w ≤ columns.dof) × Room columns.dof rows k 1 (length columns.state.now) (length block.old) }
    ensures { Put rows columns.entry.dof k 1 c w (state_cell columns.entry.dof columns.entry.state.now columns.entry.n columns.entry.info) block.old block.new }
{
    for e in 0..w {
        block[(c + e) * rows + k] = columns.cell(k, c + e);
    }
}

// The same of `count` rows from row `from` on: two at a time, and the last one alone where their number is odd.
fn write_rows(
    columns: StateColumns,
    c: usize,
    w: usize,
    from: usize,
    count: usize,
    rows: usize,
    block: &mut [f64],
)
    requires { (c + w ≤ columns.dof) × Room columns.dof rows from count (length columns.state.now) (length block.old) }
    ensures { Put rows columns.entry.dof from count c w (state_cell columns.entry.dof columns.entry.state.now columns.entry.n columns.entry.info) block.old block.new }
{
    for i in 0..count / 2 {
        put_pairs(columns, c, w, from + i * 2, rows, block);
    }
    if count % 2 == 1 {
        put_row(columns, c, w, from + count - 1, rows, block);
    }
}

// Column c of the points of `count` rows from row `from` on.
fn write_column(
    columns: StateColumns,
    c: usize,
    from: usize,
    count: usize,
    rows: usize,
    block: &mut [f64],
)
    requires { (c < columns.dof) × Room columns.dof rows from count (length columns.state.now) (length block.old) }
    ensures { Put rows columns.entry.dof from count c 1 (state_cell columns.entry.dof columns.entry.state.now columns.entry.n columns.entry.info) block.old block.new }
{
    for i in 0..count {
        let k = from + i;
        block[c * rows + k] = columns.cell(k, c);
    }
}

// The rows of a batch, column after column.
fn write_columns(columns: StateColumns, from: usize, count: usize, rows: usize, block: &mut [f64])
    requires { Room columns.dof rows from count (length columns.state.now) (length block.old) }
    ensures { Put rows columns.entry.dof from count 0 columns.entry.dof (state_cell columns.entry.dof columns.entry.state.now columns.entry.n columns.entry.info) block.old block.new }
{
    for c in 0..columns.dof {
        write_column(columns, c, from, count, rows, block);
    }
}

// The rows of a batch.
fn write_batch(columns: StateColumns, from: usize, count: usize, rows: usize, block: &mut [f64])
    requires { Room columns.dof rows from count (length columns.state.now) (length block.old) }
    ensures { Put rows columns.entry.dof from count 0 columns.entry.dof (state_cell columns.entry.dof columns.entry.state.now columns.entry.n columns.entry.info) block.old block.new }
{
    let c = MOST_COLUMNS;
    if columns.dof <= c {
        write_columns(columns, from, count, rows, block);
        return;
    }
    write_rows(columns, 0, c, from, count, rows, block);
    write_rows(columns, c, columns.dof - c, from, count, rows, block);
}

// All rows of a frame's points in its block, batch after batch.
fn write_batches(columns: StateColumns, from: usize, count: usize, rows: usize, block: &mut [f64])
    requires { Room columns.dof rows from count (length columns.state.now) (length block.old) }
    ensures { Put rows columns.entry.dof from count 0 columns.entry.dof (state_cell columns.entry.dof columns.entry.state.now columns.entry.n columns.entry.info) block.old block.new }
{
    for i in (0..count).step_by(BATCH) {
        let size = lists::batch_size(count, i, BATCH);
        write_batch(columns, from + i, size, rows, block);
    }
}

// All rows of a frame's points in its block.
fn write_block(columns: StateColumns, from: usize, count: usize, rows: usize, block: &mut [f64])
    requires { Room columns.dof rows from count (length columns.state.now) (length block.old) }
    ensures { Put rows columns.entry.dof from count 0 columns.entry.dof (state_cell columns.entry.dof columns.entry.state.now columns.entry.n columns.entry.info) block.old block.new }
{
    if rows < MANY_ROWS {
        write_rows(columns, 0, columns.dof, from, count, rows, block);
    } else {
        write_batches(columns, from, count, rows, block);
    }
}

// The Jacobian of so many rows: cleared, then each frame's block. A block is the frame's columns, which lie one after the other.
pub fn write_jacobian(
    counts: &[u32],
    state: &[f64],
    dof: usize,
    n: [f64; 3],
    info: f64,
    rows: usize,
    jacobian: &mut [f64],
)
    requires { (dof ≤ 9) × (rows ≤ most_points) × (length counts.now ≤ 256) × (total counts.now ≤ rows) × (total counts.now * dof * 3 ≤ length state.now) × (length jacobian.old ≡ length counts.now * (dof * rows)) }
    ensures { jacobian.new ≡ grid rows (length counts.now * dof) (jacobian_cell counts.now dof state.now n info) }
{
    lists::clear(jacobian);
    let columns = StateColumns {
        state,
        dof,
        n,
        info,
    };
    let size = dof * rows;
    let mut from = 0;
    for (f, count) in counts.iter().enumerate() {
        let count = *count as usize;
        let at = f * size;
        let end = at + size;
        write_block(columns, from, count, rows, &mut jacobian[at..end]);
        from += count;
    }
}
