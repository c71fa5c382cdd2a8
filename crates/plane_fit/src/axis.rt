// The fit's answer: the axis of least scatter with its offset, or no plane.
ghost use Rattle.std.specs.Prelude.{◌≡◌, length};
ghost use Rattle.decomposition.specs.Axes.{DECOMPOSITION};
ghost use Rattle.decomposition.specs.Gaps.{at_least_one};
ghost use Rattle.plane_fit.specs.Axis.{smallest_axis};

use decomposition::MIN_EIGEN_GAP;
use plane::Plane;

// The larger of |x| and 1; 1 for a NaN. Written out, since an f64 has neither `abs` nor `max` here.
fn at_least_one(x: f64) -> f64
    ensures { result ≡ at_least_one x }
{
    if x > 1.0 {
        return x;
    }
    if x < -1.0 {
        return -x;
    }
    1.0
}

// The plane that a decomposition of the fit's scatter gives, through the fit's mean, if it gives one.
pub fn smallest_axis(decomposition: &[u64], mean: [f64; 3]) -> Option<Plane>
    requires { length decomposition.now ≡ DECOMPOSITION }
    ensures { result ≡ smallest_axis decomposition.now mean }
{
    let a = decomposition::rising(decomposition);
    let bound = MIN_EIGEN_GAP * at_least_one(a.third);
    let normal = a.normal;
    let along = linear::dot3(normal, mean);
    if a.second - a.first > bound {
        Some(Plane {
            normal,
            offset: -along,
        })
    } else {
        None
    }
}
