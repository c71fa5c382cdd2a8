// A plane as one frame sees it: its normal turned into the frame, and the distance of the frame's mean from it.
#![tactic(auto)]

ghost use Rattle.std.specs.Prelude.{◌≡◌};
ghost use Rattle.frame_normal.specs.Normal.{normal_in, along_of};

use derivative::ACTION;

// Aᵀn, for the action x.
pub fn normal_in(x: &[f64; ACTION], n: [f64; 3]) -> [f64; 3]
    ensures { result ≡ normal_in x.now n }
{
    linear::mat_vec(linear::transposed(action::matrix(x)), n)
}

// nᵀw + offset, the distance of w from the plane.
pub fn along(n: [f64; 3], offset: f64, w: [f64; 3]) -> f64
    ensures { result ≡ along_of n offset w }
{
    linear::dot3(n, w) + offset
}
