// Vectors of three and matrices of three by three, by value and by columns: each function gives the bits of the sums of products that `sums` defines.
#![tactic(auto)]

ghost use Rattle.std.specs.Prelude.{◌≡◌};
ghost use Rattle.sums.specs.Sum.{dot, product, transpose, plus, outer, scaled, divided};

// a·b
pub fn dot3(a: [f64; 3], b: [f64; 3]) -> f64
    ensures { result ≡ dot 3 a b }
{
    a[0] * b[0] + a[1] * b[1] + a[2] * b[2]
}

// a x
pub fn mat_vec(a: [f64; 9], x: [f64; 3]) -> [f64; 3]
    ensures { result ≡ product 3 3 1 a x }
{
    let [x0, x1, x2] = x;
    [
        a[0] * x0 + a[3] * x1 + a[6] * x2,
        a[1] * x0 + a[4] * x1 + a[7] * x2,
        a[2] * x0 + a[5] * x1 + a[8] * x2,
    ]
}

// vᵀ a
pub fn vec_mat(v: [f64; 3], a: [f64; 9]) -> [f64; 3]
    ensures { result ≡ product 1 3 3 v a }
{
    let [v0, v1, v2] = v;
    [
        v0 * a[0] + v1 * a[1] + v2 * a[2],
        v0 * a[3] + v1 * a[4] + v2 * a[5],
        v0 * a[6] + v1 * a[7] + v2 * a[8],
    ]
}

// aᵀ
pub fn transposed(a: [f64; 9]) -> [f64; 9]
    ensures { result ≡ transpose 3 3 a }
{
    [a[0], a[3], a[6], a[1], a[4], a[7], a[2], a[5], a[8]]
}

// a + b
#[inline(always)]
pub fn plus<const N: usize>(a: [f64; N], b: [f64; N]) -> [f64; N]
    ensures { result ≡ plus N a.entry b.entry }
{
    let mut sum = [0.0; N];
    for k in 0..N {
        sum[k] = a[k] + b[k];
    }
    sum
}

// v s
#[inline(always)]
pub fn scaled<const N: usize>(v: [f64; N], s: f64) -> [f64; N]
    ensures { result ≡ scaled N v.entry s }
{
    let mut product = [0.0; N];
    for k in 0..N {
        product[k] = v[k] * s;
    }
    product
}

// v / s
#[inline(always)]
pub fn divided<const N: usize>(v: [f64; N], s: f64) -> [f64; N]
    ensures { result ≡ divided N v.entry s }
{
    let mut quotient = [0.0; N];
    for k in 0..N {
        quotient[k] = v[k] / s;
    }
    quotient
}

// a b. Each number is read once: reads cost the proof more than sums do.
pub fn mat_mat(a: [f64; 9], b: [f64; 9]) -> [f64; 9]
    ensures { result ≡ product 3 3 3 a b }
{
    let [a0, a1, a2, a3, a4, a5, a6, a7, a8] = a;
    let [b0, b1, b2, b3, b4, b5, b6, b7, b8] = b;
    [
        a0 * b0 + a3 * b1 + a6 * b2,
        a1 * b0 + a4 * b1 + a7 * b2,
        a2 * b0 + a5 * b1 + a8 * b2,
        a0 * b3 + a3 * b4 + a6 * b5,
        a1 * b3 + a4 * b4 + a7 * b5,
        a2 * b3 + a5 * b4 + a8 * b5,
        a0 * b6 + a3 * b7 + a6 * b8,
        a1 * b6 + a4 * b7 + a7 * b8,
        a2 * b6 + a5 * b7 + a8 * b8,
    ]
}

// (v wᵀ) s, each entry's two factors first
pub fn outer_scaled(v: [f64; 3], w: [f64; 3], s: f64) -> [f64; 9]
    ensures { result ≡ scaled 9 (outer 3 3 v w) s }
{
    scaled(outer3(v, w), s)
}

// (a s) aᵀ, the left product first
pub fn congruent(a: [f64; 9], s: [f64; 9]) -> [f64; 9]
    ensures { result ≡ product 3 3 3 (product 3 3 3 a s) (transpose 3 3 a) }
{
    mat_mat(mat_mat(a, s), transposed(a))
}

// v wᵀ
pub fn outer3(v: [f64; 3], w: [f64; 3]) -> [f64; 9]
    ensures { result ≡ outer 3 3 v w }
{
    let [v0, v1, v2] = v;
    let [w0, w1, w2] = w;
    [
        v0 * w0,
        v1 * w0,
        v2 * w0,
        v0 * w1,
        v1 * w1,
        v2 * w1,
        v0 * w2,
        v1 * w2,
        v2 * w2,
    ]
}
