// What moments are made of, as arrays by value: the scatter about a mean, and the outer products of moved points.
#![tactic(auto)]

ghost use Rattle.std.specs.Prelude.{◌≡◌};
ghost use Rattle.moment_matrices.specs.Matrices.{spread_of, symmetric_of, scatter_of, moved_outer};

pub fn spread(o: [f64; 9], u: [f64; 3], n: f64) -> [f64; 9]
    ensures { result ≡ spread_of o u n }
{
    let [x, y, z] = u;
    [
        o[0] / n - x * x,
        o[1] / n - y * x,
        o[2] / n - z * x,
        o[3] / n - x * y,
        o[4] / n - y * y,
        o[5] / n - z * y,
        o[6] / n - x * z,
        o[7] / n - y * z,
        o[8] / n - z * z,
    ]
}

pub fn symmetric(s: [f64; 9]) -> [f64; 9]
    ensures { result ≡ symmetric_of s }
{
    linear::scaled(linear::plus(s, linear::transposed(s)), 0.5)
}

// The scatter from outer products, mean and count.
#[tactic(auto, unfolding(crate::specs::Matrices::scatter_of))]
pub fn scatter_of(o: [f64; 9], u: [f64; 3], n: f64) -> [f64; 9]
    ensures { result ≡ scatter_of o u n }
{
    symmetric(spread(o, u, n))
}

// The outer products of the points a·p + b, where t is a times the sum of the points p, and n their count.
pub fn moved_outer(o: [f64; 9], a: [f64; 9], t: [f64; 3], b: [f64; 3], n: f64) -> [f64; 9]
    ensures { result ≡ moved_outer o a t b n }
{
    let turned = linear::plus(linear::congruent(a, o), linear::outer3(t, b));
    let both = linear::plus(turned, linear::outer3(b, t));
    linear::plus(both, linear::outer_scaled(b, b, n))
}
