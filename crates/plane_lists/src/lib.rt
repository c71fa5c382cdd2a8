// The calls of a host on planes as lists: one that is refused writes nothing.
#![tactic(auto)]

ghost use Rattle.refusals.specs.Number.{number};
ghost use Rattle.refusals.specs.Refusal.{Answered};
ghost use Rattle.plane_lists.specs.Calls.{new_refusal, new_plane, SigmaAnswered};

use plane::{PLANE, Plane};
use refusals::Refusal;

// The plane of a normal of any length.
pub fn plane_new(normal: &[f64], offset: f64, plane: &mut [f64]) -> Result<(), Refusal>
    ensures { Answered (new_refusal normal.now plane.old) (number result) plane.old plane.new (new_plane normal.now offset) }
{
    let Some(normal) = normal.as_array() else {
        return Err(Refusal::WrongLength);
    };
    if plane.len() != PLANE {
        return Err(Refusal::WrongLength);
    }
    let numbers: [f64; PLANE] = Plane::new(*normal, offset)?.into();
    plane.copy_from_slice(&numbers);
    Ok(())
}

// The standard deviation of a point's distance from a plane.
pub fn point_to_plane_sigma(
    plane: &[f64],
    centroid: &[f64],
    plane_covariance: &[f64],
    point_covariance: &[f64],
    world: &[f64],
    d_world_d_point: &[f64],
    sigma: &mut f64,
) -> Result<(), Refusal>
    ensures { SigmaAnswered (record { plane = plane.now; centroid = centroid.now; plane_covariance = plane_covariance.now; point_covariance = point_covariance.now; world = world.now; d_world_d_point = d_world_d_point.now }) (number result) sigma.old sigma.new }
{
    let (Some(p), Some(o), Some(c), Some(s), Some(w), Some(a)) = (
        plane.as_array::<PLANE>(),
        centroid.as_array(),
        plane_covariance.as_array(),
        point_covariance.as_array(),
        world.as_array(),
        d_world_d_point.as_array(),
    ) else {
        return Err(Refusal::WrongLength);
    };
    *sigma = plane::point_to_plane_sigma(Plane::from(*p), *o, c, *s, *w, *a)?;
    Ok(())
}
