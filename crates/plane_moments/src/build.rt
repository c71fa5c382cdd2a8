// Building a frame factor: its moments tested and centred.
ghost use Rattle.std.specs.Prelude.{◌≡◌, ◌⊎◌, ◌*◌, length};
ghost use Rattle.point_moments.specs.Moments.{MOMENTS};
ghost use Rattle.refusals.specs.Refusal.{first_of, Answered};
ghost use Rattle.refusals.specs.Number.{number};
ghost use Rattle.frame_sets.specs.Sets.{set_count, count_reasons};
ghost use Rattle.plane_moments.specs.Build.{bad_shapes, Whole, outputs, built, Builds};
ghost use Rattle.plane_moments.specs.Steps.{shape_refusal, set_refusal};

use derivative::MOST_DOF;
use plane_fit::MOST_FRAMES;
use point_moments::MOMENTS;
use point_moments::scatter::CENTRED;
use refusals::Refusal;

// 3: a list that is not whole records or too long, or an output that is not one centred set for each set.
fn bad_shapes(frames: &[f64], fixed: &[f64], centred_frames: &[f64], centred_fixed: &[f64]) -> bool
    ensures { result ≡ bad_shapes frames.now fixed.now centred_frames.now centred_fixed.now }
{
    if plane_fit::bad_records(frames, MOMENTS, MOST_FRAMES) {
        return true;
    }
    if plane_fit::bad_records(fixed, MOMENTS, 1) {
        return true;
    }
    if plane_fit::bad_count(frames, MOMENTS, centred_frames, CENTRED) {
        return true;
    }
    plane_fit::bad_count(fixed, MOMENTS, centred_fixed, CENTRED)
}

// 1, 2 and 3: the tests that look at numbers of parameters and sets alone.
pub fn shape_refusal(
    dof: u32,
    frames: &[f64],
    fixed: &[f64],
    centred_frames: &[f64],
    centred_fixed: &[f64],
) -> Result<(), Refusal>
    ensures { number result ≡ shape_refusal dof frames.now fixed.now centred_frames.now centred_fixed.now }
{
    if dof > MOST_DOF {
        return Err(Refusal::DofTooLarge);
    }
    if frames.len() == 0 {
        return Err(Refusal::EmptyList);
    }
    if bad_shapes(frames, fixed, centred_frames, centred_fixed) {
        return Err(Refusal::WrongLength);
    }
    Ok(())
}

// 4 to 7: the tests that look at moments and sigma. counts: what 4 and 5 give.
fn set_refusal(
    counts: Result<(), Refusal>,
    frames: &[f64],
    fixed: &[f64],
    sigma: f64,
) -> Result<(), Refusal>
    requires { (number counts ≡ first_of (count_reasons frames.now fixed.now)) × ((length frames.now ≡ MOMENTS * set_count frames.now) × ((length fixed.now ≡ 0) ⊎ (length fixed.now ≡ MOMENTS))) }
    ensures { number result ≡ set_refusal frames.now fixed.now sigma }
{
    counts?;
    if frame_sets::not_finite(frames, fixed) {
        return Err(Refusal::NotFinite);
    }
    if !validate::is_positive(sigma) {
        return Err(Refusal::BadSigma);
    }
    Ok(())
}

// What the build does where 1, 2 and 3 do not apply: its other tests, and then the frames centred, the fixed set centred or dropped, the point total
// and whether a fixed set was dropped.
pub fn build_sets(
    frames: &[f64],
    fixed: &[f64],
    sigma: f64,
    centred_frames: &mut [f64],
    centred_fixed: &mut [f64],
    points: &mut f64,
    fixed_dropped: &mut u32,
) -> Result<(), Refusal>
    requires { Whole frames.now fixed.now centred_frames.old centred_fixed.old }
    ensures { Answered (set_refusal frames.now fixed.now sigma) (number result) (outputs centred_frames.old centred_fixed.old points.old fixed_dropped.old) (outputs centred_frames.new centred_fixed.new points.new fixed_dropped.new) (built frames.now fixed.now centred_fixed.old) }
{
    let counts = frame_sets::test_counts(frames, fixed);
    set_refusal(counts.answer, frames, fixed, sigma)?;
    *points = counts.points;
    frame_sets::centre_frames(frames, centred_frames);
    frame_sets::centre_fixed(fixed, centred_fixed);
    if frame_sets::is_dropped(fixed) {
        *fixed_dropped = 1;
    } else {
        *fixed_dropped = 0;
    }
    Ok(())
}

// The host's call: the frames centred, the fixed set centred or dropped, the point total and whether a fixed set was dropped.
pub fn build(
    dof: u32,
    frames: &[f64],
    fixed: &[f64],
    sigma: f64,
    centred_frames: &mut [f64],
    centred_fixed: &mut [f64],
    points: &mut f64,
    fixed_dropped: &mut u32,
) -> Result<(), Refusal>
    ensures { Builds dof frames.now fixed.now sigma centred_frames.old centred_fixed.old points.old fixed_dropped.old (number result) centred_frames.new centred_fixed.new points.new fixed_dropped.new }
{
    shape_refusal(dof, frames, fixed, centred_frames, centred_fixed)?;
    build_sets(
        frames,
        fixed,
        sigma,
        centred_frames,
        centred_fixed,
        points,
        fixed_dropped,
    )
}
