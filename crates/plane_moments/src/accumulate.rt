// Accumulating frames: the cost under the fitted plane, and each mapped frame's block and vector added to a Hessian and a gradient.
ghost use Rattle.std.specs.Prelude.{◌≡◌, List, length, Float};
ghost use Rattle.refusals.specs.Number.{number};
ghost use Rattle.call_lists.specs.Accumulated.{Accumulated};
ghost use Rattle.plane_moments.specs.Accumulate.{FramesWork, bad_lengths, frames_refusal, frames_call, work};

use decomposition::DECOMPOSITION;
use derivative::MOST_DOF;
use point_moments::scatter::CENTRED;
use refusals::Refusal;

// 3: the frames, the fixed set, the decomposition, and the target of so many cells and n rows with its map of so many words.
pub fn bad_lengths(
    frames: &[f64],
    fixed: &[f64],
    decomposition: &[u64],
    words: usize,
    cells: usize,
    n: usize,
) -> bool
    ensures { result ≡ bad_lengths frames.now fixed.now decomposition.now words cells n }
{
    if plane_fit::bad_frames(frames) {
        return true;
    }
    if plane_fit::bad_fixed(fixed) {
        return true;
    }
    if decomposition.len() != DECOMPOSITION {
        return true;
    }
    normal_blocks::bad_target(words, cells, n)
}

// Whether the call is refused, and why.
fn refusal(
    dof: u32,
    frames: &[f64],
    fixed: &[f64],
    sigma: f64,
    actions: &[f64],
    decomposition: &[u64],
    map: &[u32],
    cells: usize,
    n: usize,
) -> Result<(), Refusal>
    ensures { number result ≡ frames_refusal cells n (work dof frames.now fixed.now sigma actions.now decomposition.now map.now) }
{
    if dof > MOST_DOF {
        return Err(Refusal::DofTooLarge);
    }
    if frames.len() == 0 {
        return Err(Refusal::EmptyList);
    }
    if bad_lengths(frames, fixed, decomposition, map.len(), cells, n) {
        return Err(Refusal::WrongLength);
    }
    if !validate::is_positive(sigma) {
        return Err(Refusal::BadSigma);
    }
    if plane_fit::bad_actions(frames, actions) {
        return Err(Refusal::WrongActions);
    }
    normal_blocks::map_refusal(map, frames.len() / CENTRED, dof as usize, n)
}

// What a call that is not refused adds, and its cost: under the fitted plane, or nothing and 0 where there is none.
fn add_fitted(
    dof: u32,
    frames: &[f64],
    fixed: &[f64],
    sigma: f64,
    actions: &[f64],
    decomposition: &[u64],
    map: &[u32],
    hessian: &mut [f64],
    gradient: &mut [f64],
) -> f64
    requires { frames_refusal (length hessian.old) (length gradient.old) (work dof frames.now fixed.now sigma actions.now decomposition.now map.now) ≡ 0 }
    ensures { (x : Float) → Accumulated (frames_call (length hessian.old) (length gradient.old) (work dof frames.now fixed.now sigma actions.now decomposition.now map.now)) hessian.old gradient.old x 0 hessian.new gradient.new result }
{
    let mean = plane_fit::fit_mean(frames, fixed, actions);
    match plane_fit::axis::smallest_axis(decomposition, mean) {
        Some(plane) => {
            let weight = frame_cost::weight(sigma);
            frame_blocks::add_all(
                hessian,
                gradient,
                dof as usize,
                frames,
                fixed,
                actions,
                map,
                plane,
                weight,
            )
        }
        None => 0.0,
    }
}

// The host's call. Nothing is written where it is refused.
pub fn accumulate(
    dof: u32,
    frames: &[f64],
    fixed: &[f64],
    sigma: f64,
    actions: &[f64],
    decomposition: &[u64],
    map: &[u32],
    hessian: &mut [f64],
    gradient: &mut [f64],
    cost: &mut f64,
) -> Result<(), Refusal>
    ensures { Accumulated (frames_call (length hessian.old) (length gradient.old) (work dof frames.now fixed.now sigma actions.now decomposition.now map.now)) hessian.old gradient.old cost.old (number result) hessian.new gradient.new cost.new }
{
    let m = hessian.len();
    let n = gradient.len();
    refusal(dof, frames, fixed, sigma, actions, decomposition, map, m, n)?;
    *cost = add_fitted(
        dof,
        frames,
        fixed,
        sigma,
        actions,
        decomposition,
        map,
        hessian,
        gradient,
    );
    Ok(())
}
