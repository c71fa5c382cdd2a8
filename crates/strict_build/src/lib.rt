// Building a frame factor by the survey rule, beside the build of plane_moments: a fixed count below 0 is refused by 13, and a set that is dropped does not
// count in test 5.
#![tactic(auto)]

ghost use Rattle.std.specs.Prelude.{◌≡◌, ◌⊎◌, length};
ghost use Rattle.refusals.specs.Number.{number};
ghost use Rattle.point_moments.specs.Moments.{MOMENTS};
ghost use Rattle.strict_build.specs.Strict.{negative, BuildsStrictly};

use plane_moments::build::{build_sets, shape_refusal};
use refusals::Refusal;

// 13: the fixed count is below 0.
fn is_negative(fixed: &[f64]) -> bool
    requires { (length fixed.now ≡ 0) ⊎ (length fixed.now ≡ MOMENTS) }
    ensures { result ≡ negative fixed.now }
{
    let count = frame_sets::fixed_count(fixed);
    count < 0.0
}

// The host's call: 1, 2 and 3, then 13, then all else as the build does it. Where 13 does not apply, a set that is dropped has the count 0 or -0, and adding
// that changes no comparison of the total (`same_test`).
pub fn build_strict(
    dof: u32,
    frames: &[f64],
    fixed: &[f64],
    sigma: f64,
    centred_frames: &mut [f64],
    centred_fixed: &mut [f64],
    points: &mut f64,
    fixed_dropped: &mut u32,
) -> Result<(), Refusal>
    ensures { BuildsStrictly dof frames.now fixed.now sigma centred_frames.old centred_fixed.old points.old fixed_dropped.old (number result) centred_frames.new centred_fixed.new points.new fixed_dropped.new }
{
    shape_refusal(dof, frames, fixed, centred_frames, centred_fixed)?;
    if is_negative(fixed) {
        return Err(Refusal::NegativeFixedCount);
    }
    build_sets(
        frames,
        fixed,
        sigma,
        centred_frames,
        centred_fixed,
        points,
        fixed_dropped,
    )
}
