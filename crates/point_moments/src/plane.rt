// The plane that fits a set of points best, from the decomposition of its scatter.
ghost use Rattle.std.specs.Prelude.{◌≡◌, length};
ghost use Rattle.decomposition.specs.Axes.{DECOMPOSITION};
ghost use Rattle.point_moments.specs.Plane.{plane_of};

use crate::PointMoments;
use decomposition::MIN_EIGEN_GAP;

// The points x of the plane have normal·x + offset = 0; the eigenvalues are in rising order.
#[derive(Clone, Copy)]
pub struct MomentsPlane {
    pub normal: [f64; 3],
    pub offset: f64,
    pub eigenvalues: [f64; 3],
}

impl PointMoments {
    // None for fewer than three points or no unique normal. A count that is not below 3 has a mean: `has_mean` of the proofs.
    #[tactic(auto, unfolding(crate::specs::Plane::plane_of, decomposition::specs::Gaps::moments_plane))]
    pub fn plane(self, decomposition: &[u64]) -> Option<MomentsPlane>
        requires { length decomposition.now ≡ DECOMPOSITION }
        ensures { result ≡ plane_of self decomposition.now }
    {
        let count = self.count;
        if count < 3.0 {
            return None;
        }
        let d = decomposition::rising(decomposition);
        if d.second - d.first < MIN_EIGEN_GAP {
            return None;
        }
        let s = self.sum;
        let normal = d.normal;
        let offset = -linear::dot3(normal, linear::divided(s, count));
        Some(MomentsPlane {
            normal,
            offset,
            eigenvalues: [d.first, d.second, d.third],
        })
    }
}
