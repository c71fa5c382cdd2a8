// Many matches on one pose: why a list is turned away, and its rows.
#![tactic(auto)]

ghost use Rattle.std.specs.Prelude.{◌≡◌, ◌*◌, ◌<◌, ◌≤◌, false, length};
ghost use Rattle.refusals.specs.Refusal.{first_of};
ghost use Rattle.refusals.specs.Number.{number};
ghost use Rattle.map_planes.specs.Calls.{bad_matches, list_reasons, matches_refusal};
ghost use Rattle.map_planes.specs.Linearize.{bad_outputs, Linearized};

use derivative::{ACTION, MOST_DOF};
use map_plane::MATCH;
use refusals::Refusal;

// The most matches of a list.
pub const MOST_MATCHES: usize = 65536;

// 3: the list is not whole matches, or has too many.
#[tactic(auto, unfolding(crate::specs::Calls::bad_matches))]
fn bad_matches(list: &[f64]) -> bool
    ensures { result ≡ bad_matches list.now }
{
    if list.len() % MATCH != 0 {
        return true;
    }
    list.len() / MATCH > MOST_MATCHES
}

// The first bad match decides.
fn list_refusal(list: &[f64]) -> Result<(), Refusal>
    ensures { number result ≡ first_of (list_reasons list.now) }
{
    for k in 0..list.len() / MATCH {
        map_plane::match_refusal(list, k * MATCH)?;
    }
    Ok(())
}

// Whether a call on a match list is turned away. `misfit` says whether some other slice of the call has a wrong length.
#[tactic(auto, unfolding(crate::specs::Calls::matches_refusal))]
pub fn matches_refusal(dof: u32, list: &[f64], misfit: bool, action: &[f64]) -> Result<(), Refusal>
    ensures { number result ≡ matches_refusal dof list.now misfit action.now }
{
    if dof > MOST_DOF {
        return Err(Refusal::DofTooLarge);
    }
    if list.len() == 0 {
        return Err(Refusal::EmptyList);
    }
    if bad_matches(list) {
        return Err(Refusal::WrongLength);
    }
    if misfit {
        return Err(Refusal::WrongLength);
    }
    list_refusal(list)?;
    if action.len() != ACTION {
        return Err(Refusal::WrongActions);
    }
    Ok(())
}

// 3: not a residual for each of n matches, or a Jacobian that is neither empty nor of n rows and `width` columns.
fn bad_outputs(n: usize, width: usize, residuals: usize, cells: usize) -> bool
    requires { (width ≤ 9) × (n < 2000000000000000000) }
    ensures { result ≡ bad_outputs n width residuals cells }
{
    if residuals != n {
        return true;
    }
    if cells == 0 {
        return false;
    }
    cells != width * n
}

// The host's call: residuals, and the Jacobian by columns unless it is empty, which means not wanted. Nothing is written where it is refused.
pub fn linearize(
    dof: u32,
    matches: &[f64],
    action: &[f64],
    residual: &mut [f64],
    jacobian: &mut [f64],
) -> Result<(), Refusal>
    ensures { Linearized dof matches.now action.now (number result) residual.old jacobian.old residual.new jacobian.new }
{
    if dof > MOST_DOF {
        return Err(Refusal::DofTooLarge);
    }
    let width = dof as usize;
    let misfit = bad_outputs(matches.len() / MATCH, width, residual.len(), jacobian.len());
    matches_refusal(dof, matches, misfit, action)?;
    let x = action.as_array::<ACTION>().unwrap();
    if jacobian.len() == 0 {
        match_columns::write_residuals(matches, x, residual);
        return Ok(());
    }
    match_columns::jacobian(matches, x, width, residual, jacobian);
    Ok(())
}
