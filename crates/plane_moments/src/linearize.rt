// Linearizing frames: the residuals under the fitted plane, and the Jacobian if it is wanted.
ghost use Rattle.std.specs.Prelude.{◌≡◌, ◌≤◌, length};
ghost use Rattle.refusals.specs.Number.{number};
ghost use Rattle.derivative.specs.Action.{most_dof};
ghost use Rattle.plane_fit.specs.Calls.{most_frames};
ghost use Rattle.plane_moments.specs.Linearize.{bad_decompositions, bad_outputs, bad_lengths, wanted, linearize_refusal, Linearizes};

use decomposition::DECOMPOSITION;
use derivative::MOST_DOF;
use point_moments::scatter::CENTRED;
use refusals::Refusal;

// 3: not a decomposition for the fit, for each frame, and for the fixed set if there is one.
fn bad_decompositions(patterns: usize, count: usize, fixed: usize) -> bool
    requires { count ≤ most_frames }
    ensures { result ≡ bad_decompositions patterns count fixed }
{
    if fixed == 0 {
        return patterns != (count + 1) * DECOMPOSITION;
    }
    patterns != (count + 2) * DECOMPOSITION
}

// 3: the residuals are not four a set, or the Jacobian is neither empty nor as large as its rows and columns make it.
fn bad_outputs(count: usize, dof: u32, residuals: usize, cells: usize) -> bool
    requires { (count ≤ most_frames) × (dof ≤ most_dof) }
    ensures { result ≡ bad_outputs count dof residuals cells }
{
    let rows = (count + 1) * 4;
    if residuals != rows {
        return true;
    }
    if cells == 0 {
        return false;
    }
    cells != count * dof as usize * rows
}

// 3: of all that is handed in but the actions.
fn bad_lengths(
    dof: u32,
    frames: &[f64],
    fixed: &[f64],
    patterns: usize,
    residuals: usize,
    cells: usize,
) -> bool
    requires { dof ≤ most_dof }
    ensures { result ≡ bad_lengths dof frames.now fixed.now patterns residuals cells }
{
    if plane_fit::bad_frames(frames) {
        return true;
    }
    if plane_fit::bad_fixed(fixed) {
        return true;
    }
    let count = frames.len() / CENTRED;
    if bad_decompositions(patterns, count, fixed.len()) {
        return true;
    }
    bad_outputs(count, dof, residuals, cells)
}

// Whether the call is refused, and why.
fn refusal(
    dof: u32,
    frames: &[f64],
    fixed: &[f64],
    sigma: f64,
    actions: &[f64],
    patterns: usize,
    residuals: usize,
    cells: usize,
) -> Result<(), Refusal>
    ensures { number result ≡ linearize_refusal dof frames.now fixed.now sigma actions.now patterns residuals cells }
{
    if dof > MOST_DOF {
        return Err(Refusal::DofTooLarge);
    }
    if frames.len() == 0 {
        return Err(Refusal::EmptyList);
    }
    if bad_lengths(dof, frames, fixed, patterns, residuals, cells) {
        return Err(Refusal::WrongLength);
    }
    if !validate::is_positive(sigma) {
        return Err(Refusal::BadSigma);
    }
    if plane_fit::bad_actions(frames, actions) {
        return Err(Refusal::WrongActions);
    }
    Ok(())
}

// An empty Jacobian is not wanted: no columns.
fn wanted(dof: u32, cells: usize) -> usize
    ensures { result ≡ wanted dof cells }
{
    if cells == 0 { 0 } else { dof as usize }
}

// The residuals of a call that is not refused, and its Jacobian if it is wanted: under the fitted plane, or +0 everywhere where there is none.
fn write_fitted(
    dof: u32,
    frames: &[f64],
    fixed: &[f64],
    sigma: f64,
    actions: &[f64],
    decompositions: &[u64],
    residual: &mut [f64],
    jacobian: &mut [f64],
)
    requires { linearize_refusal dof frames.now fixed.now sigma actions.now (length decompositions.now) (length residual.old) (length jacobian.old) ≡ 0 }
    ensures { Linearizes dof frames.now fixed.now sigma actions.now decompositions.now residual.old jacobian.old 0 residual.new jacobian.new }
{
    let width = wanted(dof, jacobian.len());
    let mean = plane_fit::fit_mean(frames, fixed, actions);
    match plane_fit::axis::smallest_axis(frame_roots::decomposition_at(decompositions, 0), mean) {
        Some(plane) => {
            frame_rows::write_all(
                frames,
                fixed,
                actions,
                decompositions,
                plane,
                1.0 / sigma,
                width,
                residual,
                jacobian,
            );
        }
        None => {
            lists::clear(residual);
            lists::clear(jacobian);
        }
    }
}

// The host's call. Nothing is written where it is refused.
pub fn linearize(
    dof: u32,
    frames: &[f64],
    fixed: &[f64],
    sigma: f64,
    actions: &[f64],
    decompositions: &[u64],
    residual: &mut [f64],
    jacobian: &mut [f64],
) -> Result<(), Refusal>
    ensures { Linearizes dof frames.now fixed.now sigma actions.now decompositions.now residual.old jacobian.old (number result) residual.new jacobian.new }
{
    let patterns = decompositions.len();
    let rows = residual.len();
    let cells = jacobian.len();
    refusal(dof, frames, fixed, sigma, actions, patterns, rows, cells)?;
    write_fitted(
        dof,
        frames,
        fixed,
        sigma,
        actions,
        decompositions,
        residual,
        jacobian,
    );
    Ok(())
}
