// The host's call that accumulates frames through transforms.
ghost use Rattle.std.specs.Prelude.{◌≡◌, length, Float};
ghost use Rattle.refusals.specs.Number.{number};
ghost use Rattle.call_lists.specs.Accumulated.{Accumulated};
ghost use Rattle.plane_moments.specs.Accumulate.{work, transformed_frames_refusal, transformed_frames_call};

use derivative::MOST_DOF;
use point_moments::scatter::CENTRED;
use refusals::Refusal;

// Whether the call is refused, and why.
fn refusal(
    dof: u32,
    frames: &[f64],
    fixed: &[f64],
    sigma: f64,
    actions: &[f64],
    decomposition: &[u64],
    map: &[u32],
    shapes: &[u32],
    transforms: &[f64],
    cells: usize,
    n: usize,
) -> Result<(), Refusal>
    ensures { number result ≡ transformed_frames_refusal cells n (record { work = work dof frames.now fixed.now sigma actions.now decomposition.now map.now; shapes = shapes.now; transforms = transforms.now }) }
{
    if dof > MOST_DOF {
        return Err(Refusal::DofTooLarge);
    }
    if frames.len() == 0 {
        return Err(Refusal::EmptyList);
    }
    if plane_moments::accumulate::bad_lengths(frames, fixed, decomposition, map.len(), cells, n) {
        return Err(Refusal::WrongLength);
    }
    if block_transforms::bad_beside(map.len(), shapes.len(), transforms.len()) {
        return Err(Refusal::WrongLength);
    }
    if !validate::is_positive(sigma) {
        return Err(Refusal::BadSigma);
    }
    if plane_fit::bad_actions(frames, actions) {
        return Err(Refusal::WrongActions);
    }
    block_transforms::through_refusal(map, shapes, frames.len() / CENTRED, dof as usize, n)
}

// What a call that is not refused adds, and its cost: under the fitted plane, or nothing and 0 where there is none.
fn add_fitted(
    dof: u32,
    frames: &[f64],
    fixed: &[f64],
    sigma: f64,
    actions: &[f64],
    decomposition: &[u64],
    map: &[u32],
    shapes: &[u32],
    transforms: &[f64],
    hessian: &mut [f64],
    gradient: &mut [f64],
) -> f64
    requires { transformed_frames_refusal (length hessian.old) (length gradient.old) (record { work = work dof frames.now fixed.now sigma actions.now decomposition.now map.now; shapes = shapes.now; transforms = transforms.now }) ≡ 0 }
    ensures { (x : Float) → Accumulated (transformed_frames_call (length hessian.old) (length gradient.old) (record { work = work dof frames.now fixed.now sigma actions.now decomposition.now map.now; shapes = shapes.now; transforms = transforms.now })) hessian.old gradient.old x 0 hessian.new gradient.new result }
{
    let mean = plane_fit::fit_mean(frames, fixed, actions);
    match plane_fit::axis::smallest_axis(decomposition, mean) {
        Some(plane) => {
            let weight = frame_cost::weight(sigma);
            crate::frames::add_all(
                hessian,
                gradient,
                dof as usize,
                frames,
                fixed,
                actions,
                map,
                shapes,
                transforms,
                plane,
                weight,
            )
        }
        None => 0.0,
    }
}

// The host's call. Nothing is written where it is refused.
pub fn accumulate(
    dof: u32,
    frames: &[f64],
    fixed: &[f64],
    sigma: f64,
    actions: &[f64],
    decomposition: &[u64],
    map: &[u32],
    shapes: &[u32],
    transforms: &[f64],
    hessian: &mut [f64],
    gradient: &mut [f64],
    cost: &mut f64,
) -> Result<(), Refusal>
    ensures { Accumulated (transformed_frames_call (length hessian.old) (length gradient.old) (record { work = work dof frames.now fixed.now sigma actions.now decomposition.now map.now; shapes = shapes.now; transforms = transforms.now })) hessian.old gradient.old cost.old (number result) hessian.new gradient.new cost.new }
{
    let m = hessian.len();
    let n = gradient.len();
    refusal(
        dof,
        frames,
        fixed,
        sigma,
        actions,
        decomposition,
        map,
        shapes,
        transforms,
        m,
        n,
    )?;
    *cost = add_fitted(
        dof,
        frames,
        fixed,
        sigma,
        actions,
        decomposition,
        map,
        shapes,
        transforms,
        hessian,
        gradient,
    );
    Ok(())
}
