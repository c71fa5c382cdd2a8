// Moments of a set of points: how many, their sum, and the sum of their outer products.
#![tactic(auto)]

pub mod plane;
pub mod scatter;

ghost use Rattle.std.specs.Prelude.{◌≡◌, ◌/◌, ◌≤◌, length, pos};
ghost use Rattle.refusals.specs.Refusal.{first_of};
ghost use Rattle.refusals.specs.Number.{number};
ghost use Rattle.counts.specs.Whole.{float_of};
ghost use Rattle.point_moments.specs.Steps.{of_sums};
ghost use Rattle.point_moments.specs.Moments.{MOMENTS, MOST_POINTS, moments_of, moments_list, empty, with_point, merged, transformed, of_points, point_reasons};

use point_sums::Sums;
use refusals::Refusal;

// The outer products are by columns.
#[derive(Clone, Copy)]
pub struct PointMoments {
    pub count: f64,
    pub sum: [f64; 3],
    pub outer: [f64; 9],
}

// How many numbers a record of moments is.
pub const MOMENTS: usize = 13;

// The most points of a call.
pub const MOST_POINTS: usize = 65_536;

impl PointMoments {
    // No points.
    pub const EMPTY: PointMoments = PointMoments {
        count: 0.0,
        sum: [0.0; 3],
        outer: [0.0; 9],
    };

    // The constant, with a contract for callers to go by.
    pub fn empty() -> PointMoments
        ensures { result ≡ empty }
    {
        Self::EMPTY
    }

    // Between a record and a list of MOMENTS numbers: only these two know the places. No `From`, which can require nothing: a caller has a range of a longer list and
    // has proved its length, which a `TryFrom` would test again.
    pub fn from_list(l: &[f64]) -> PointMoments
        requires { length l.now ≡ MOMENTS }
        ensures { result ≡ moments_of l.now }
    {
        let sum = lists::three(l, 1);
        let outer = lists::nine(l, 4);
        PointMoments {
            count: l[0],
            sum,
            outer,
        }
    }

    pub fn to_list(self) -> [f64; MOMENTS]
        ensures { result ≡ moments_list self }
    {
        let s = self.sum;
        let o = self.outer;
        lists::one_and_twelve(self.count, lists::three_and_nine(s, o))
    }

    pub fn write(self, l: &mut [f64])
        requires { length l.old ≡ MOMENTS }
        ensures { l.new ≡ moments_list self }
    {
        let r = self.to_list();
        lists::store(l, &r);
    }

    #[tactic(auto, unfolding(crate::specs::Moments::with_point))]
    pub fn with_point(self, p: [f64; 3]) -> PointMoments
        ensures { result ≡ with_point self p }
    {
        let s = self.sum;
        let o = self.outer;
        let sum = linear::plus(s, p);
        let outer = linear::plus(o, linear::outer3(p, p));
        PointMoments {
            count: self.count + 1.0,
            sum,
            outer,
        }
    }

    pub fn merged(self, other: PointMoments) -> PointMoments
        ensures { result ≡ merged self other }
    {
        let s = self.sum;
        let o = self.outer;
        let t = other.sum;
        let q = other.outer;
        let sum = linear::plus(s, t);
        let outer = linear::plus(o, q);
        PointMoments {
            count: self.count + other.count,
            sum,
            outer,
        }
    }

    // Of points of three numbers each, which `points_refusal` does not refuse.
    pub fn from_points(points: &[f64]) -> PointMoments
        requires { first_of (point_reasons points.now) ≡ 0 }
        ensures { result ≡ of_points (length points.now / 3) points.now }
    {
        let n = points.len() / 3;
        of_sums(n, point_sums::sums_of(points, n))
    }

    // Of the points a·p + b.
    #[tactic(auto, unfolding(crate::specs::Moments::transformed))]
    pub fn transformed(self, a: [f64; 9], b: [f64; 3]) -> PointMoments
        ensures { result ≡ transformed self a b }
    {
        let s = self.sum;
        let o = self.outer;
        let count = self.count;
        let t = linear::mat_vec(a, s);
        let sum = linear::plus(t, linear::scaled(b, count));
        let outer = moment_matrices::moved_outer(o, a, t, b, count);
        PointMoments { count, sum, outer }
    }
}

// Whether a list of points is taken: it is whole points, and at most MOST_POINTS.
#[tactic(auto, unfolding(crate::specs::Moments::point_reasons))]
pub fn points_refusal(points: &[f64]) -> Result<(), Refusal>
    ensures { number result ≡ first_of (point_reasons points.now) }
{
    if points.len() % 3 != 0 {
        return Err(Refusal::WrongLength);
    }
    if points.len() / 3 > MOST_POINTS {
        return Err(Refusal::WrongLength);
    }
    Ok(())
}

// Of n points that have these sums.
fn of_sums(n: usize, s: Sums) -> PointMoments
    requires { n ≤ MOST_POINTS }
    ensures { result ≡ of_sums (float_of (pos n)) s }
{
    let xy = s.xy;
    let xz = s.xz;
    let yz = s.yz;
    PointMoments {
        count: counts::number(n),
        sum: [s.x, s.y, s.z],
        outer: [s.xx, xy, xz, xy, s.yy, yz, xz, yz, s.zz],
    }
}
