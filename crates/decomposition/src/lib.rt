// A decomposition that the host hands in as twelve bit patterns: three eigenvalues, then their three vectors, in any order.
#![tactic(auto)]

ghost use Rattle.std.specs.Prelude.{◌≡◌, [], ◌∷◌, ◌<◌, length};
ghost use Rattle.std.specs.Float.{binary64};
ghost use Rattle.std.specs.Float.Ieee.{of_bits};
ghost use Rattle.decomposition.specs.Axes.{DECOMPOSITION, number_at, vector_of, rising_of};

// How many patterns a decomposition is.
pub const DECOMPOSITION: usize = 12;

// The smallest gap between the two smallest eigenvalues for a defined normal, of moments and of frames, each by its own rule.
pub const MIN_EIGEN_GAP: f64 = 1e-14;

// The same of raw points, whose scatter is divided by their number.
pub const MIN_POINTS_GAP: f64 = 1e-12;

// The eigenvalues in rising order, and the vector of the first.
#[derive(Clone, Copy)]
pub struct Axes {
    pub first: f64,
    pub second: f64,
    pub third: f64,
    pub normal: [f64; 3],
}

pub fn rising(d: &[u64]) -> Axes
    requires { length d.now ≡ DECOMPOSITION }
    ensures { result ≡ rising_of d.now }
{
    let o = total_order::order_of_three(d[0], d[1], d[2]);
    let first = value(d, o.first);
    let second = value(d, o.second);
    let third = value(d, o.third);
    let normal = vector(d, o.first);
    Axes {
        first,
        second,
        third,
        normal,
    }
}

// Eigenvalue k, and its vector.
pub fn value(d: &[u64], k: usize) -> f64
    requires { (length d.now ≡ DECOMPOSITION) × (k < 3) }
    ensures { result ≡ number_at d.now k }
{
    total_order::number(d[k])
}

pub fn vector(d: &[u64], k: usize) -> [f64; 3]
    requires { (length d.now ≡ DECOMPOSITION) × (k < 3) }
    ensures { result ≡ vector_of d.now k }
{
    let at = k * 3 + 3;
    numbers(d[at], d[at + 1], d[at + 2])
}

// The values of three patterns. Where none is a NaN's, that is three tests and no choice of a value, of which the compiler would make slow vector code.
fn numbers(a: u64, b: u64, c: u64) -> [f64; 3]
    ensures { result ≡ (of_bits binary64 a ∷ of_bits binary64 b ∷ of_bits binary64 c ∷ []) }
{
    if total_order::is_nan(a) || total_order::is_nan(b) || total_order::is_nan(c) {
        return each_number(a, b, c);
    }
    [f64::from_bits(a), f64::from_bits(b), f64::from_bits(c)]
}

fn each_number(a: u64, b: u64, c: u64) -> [f64; 3]
    ensures { result ≡ (of_bits binary64 a ∷ of_bits binary64 b ∷ of_bits binary64 c ∷ []) }
{
    [
        total_order::number(a),
        total_order::number(b),
        total_order::number(c),
    ]
}
