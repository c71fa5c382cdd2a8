// Sums of products over slices, of any length: one loop for every sum, one for a column, one for a matrix.
#![tactic(auto)]

ghost use Rattle.std.specs.Prelude.{◌≡◌, ℕ, ◌+◌, ◌*◌, ◌<◌, ◌≤◌, length, get_or};
ghost use Rattle.std.specs.Float.{nan};
ghost use Rattle.sums.specs.Sum.{sum_to, ◌⊗◌, dot, product};
ghost use Rattle.sums.specs.Fill.{padded, written};
ghost use Rattle.products.specs.Entry.{row_entry, column_entry};

// The sum of n products of numbers at even steps: a from i on by di, b from j on by dj.
pub fn strided(a: &[f64], i: usize, di: usize, b: &[f64], j: usize, dj: usize, n: usize) -> f64
    requires { (k : ℕ) → k < n → (i + k * di < length a.now) × (j + k * dj < length b.now) }
    ensures { result ≡ sum_to n (λ k. get_or a.now (i + k * di) nan ⊗ get_or b.now (j + k * dj) nan) }
{
    if n == 0 {
        return 0.0;
    }
    let mut s = a[i] * b[j];
    for k in 1..n {
        s = s + a[i + k * di] * b[j + k * dj];
    }
    s
}

pub fn dot(a: &[f64], b: &[f64]) -> f64
    requires { length a.now ≡ length b.now }
    ensures { result ≡ dot (length a.now) a.now b.now }
{
    strided(a, 0, 1, b, 0, 1, a.len())
}

// vᵀ m, with m of `rows` by `cols`: the first `cols` numbers of nine, the others +0.
pub fn vec_mat(v: &[f64], m: &[f64], rows: usize, cols: usize) -> [f64; 9]
    requires { (cols ≤ 9) × (length v.now ≡ rows) × (length m.now ≡ cols * rows) }
    ensures { result ≡ padded 9 cols (row_entry rows v.now m.now) }
{
    let mut row = [0.0; 9];
    for c in 0..cols {
        row[c] = strided(v, 0, 1, m, c * rows, 1, rows);
    }
    row
}

// One column of a product: a of `rows` by `inner` times the `inner` numbers of b from `from` on.
fn column(a: &[f64], rows: usize, inner: usize, b: &[f64], from: usize) -> [f64; 9]
    requires { (rows ≤ 9) × (length a.now ≡ inner * rows) × (from + inner ≤ length b.now) }
    ensures { result ≡ padded 9 rows (column_entry rows inner a.now b.now from) }
{
    let mut column = [0.0; 9];
    for r in 0..rows {
        column[r] = strided(a, r, rows, b, from, 1, inner);
    }
    column
}

// The first n numbers of `from` are written to out from `at` on.
fn write(from: [f64; 9], n: usize, out: &mut [f64], at: usize)
    requires { (n ≤ 9) × (at + n ≤ length out.old) }
    ensures { out.new ≡ written out.old at n (λ k. get_or from k nan) }
{
    out[at..at + n].copy_from_slice(&from[..n]);
}

// a b, with a of `rows` by `inner` and b of `inner` by `cols`.
pub fn product(a: &[f64], b: &[f64], rows: usize, inner: usize, cols: usize, out: &mut [f64])
    requires { (rows ≤ 9) × (length a.now ≡ inner * rows) × (length b.now ≡ cols * inner) × (length out.old ≡ cols * rows) }
    ensures { out.new ≡ product rows inner cols a.now b.now }
{
    for c in 0..cols {
        let one = column(a, rows, inner, b, c * inner);
        write(one, rows, out, c * rows);
    }
}
