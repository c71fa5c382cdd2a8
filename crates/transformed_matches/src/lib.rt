// Accumulating a match list, through the transform of word 0 if there is one.
#![tactic(auto)]

ghost use Rattle.std.specs.Prelude.{◌≡◌, ◌+◌, ◌*◌, ◌≤◌, length};
ghost use Rattle.refusals.specs.Number.{number};
ghost use Rattle.normal_blocks.specs.Map.{lookup};
ghost use Rattle.block_transforms.specs.Transform.{shape_at, entry_from, width_under};
ghost use Rattle.call_lists.specs.Accumulated.{Accumulated};
ghost use Rattle.map_planes.specs.Accumulate.{transformed_matches_call, matches_call};
ghost use Rattle.transformed_matches.specs.Steps.{There, Ready, SumsAdded, ListAdded};

use derivative::ACTION;
use refusals::Refusal;

// A block by columns and a vector, of `width` rows, are added at row `at`, through the transform of word 0 if it has one.
fn add_sums(
    width: usize,
    m: &[f64; 81],
    v: &[f64; 9],
    at: usize,
    shapes: &[u32],
    transforms: &[f64],
    hessian: &mut [f64],
    gradient: &mut [f64],
)
    requires { (width ≤ 9) × (at + width_under (shape_at shapes.now 0) width ≤ length gradient.old) × (length hessian.old ≡ length gradient.old * length gradient.old) × There width (shape_at shapes.now 0) transforms.now × (length m.now ≡ 81) × (length v.now ≡ 9) }
    ensures { SumsAdded (length gradient.old) at width (shape_at shapes.now 0) (entry_from transforms.now 0) m.now v.now hessian.old hessian.new gradient.old gradient.new }
{
    let n = gradient.len();
    match block_transforms::shape_at(shapes, 0) {
        None => {
            normal_blocks::target::add_block(hessian, n, at, width, m, 9);
            normal_blocks::target::add_run(gradient, at, v, 0, width);
        }
        Some(shape) => {
            let mut laid = [0.0; 90];
            let mut u = [0.0; 90];
            transform_products::lay(m, v, shape.rows, &mut laid);
            transform_products::add_other(
                hessian, gradient, n, at, transforms, 0, shape.rows, shape.cols, &laid, 10, &mut u,
            );
        }
    }
}

// The list's block and vector are added at the place of word 0. An unmapped list has its cost summed alone.
fn add_list(
    width: usize,
    list: &[f64],
    x: &[f64; ACTION],
    map: &[u32],
    shapes: &[u32],
    transforms: &[f64],
    hessian: &mut [f64],
    gradient: &mut [f64],
) -> f64
    requires { Ready (length hessian.old) (length gradient.old) width map.now shapes.now transforms.now x.now }
    ensures { ListAdded (length gradient.old) width (shape_at shapes.now 0) (entry_from transforms.now 0) (lookup map.now 0) x.now list.now result hessian.old hessian.new gradient.old gradient.new }
{
    match normal_blocks::lookup(map, 0) {
        Some(at) => {
            let sums = match_sums::match_sums(list, x, width);
            let m = sums.block;
            let v = sums.vector;
            add_sums(width, &m, &v, at, shapes, transforms, hessian, gradient);
            sums.cost
        }
        None => match_sums::cost(list, x),
    }
}

// The host's call: the cost of a match list, and its block and vector, through the transform of word 0, added to the normal equations.
// Nothing is written where it is refused.
pub fn accumulate(
    dof: u32,
    matches: &[f64],
    action: &[f64],
    map: &[u32],
    shapes: &[u32],
    transforms: &[f64],
    hessian: &mut [f64],
    gradient: &mut [f64],
    cost: &mut f64,
) -> Result<(), Refusal>
    ensures { Accumulated (transformed_matches_call (length hessian.old) (length gradient.old) (record { work = record { dof = dof; matches = matches.now; action = action.now; map = map.now }; shapes = shapes.now; transforms = transforms.now })) hessian.old gradient.old cost.old (number result) hessian.new gradient.new cost.new }
{
    let n = gradient.len();
    let target = normal_blocks::bad_target(map.len(), hessian.len(), n);
    let slices = block_transforms::bad_beside(map.len(), shapes.len(), transforms.len());
    map_planes::matches_refusal(dof, matches, target | slices, action)?;
    let width = dof as usize;
    block_transforms::through_refusal(map, shapes, 1, width, n)?;
    let x = action.as_array::<ACTION>().unwrap();
    *cost = add_list(
        width, matches, x, map, shapes, transforms, hessian, gradient,
    );
    Ok(())
}

// The host's call without transforms: the same with empty slices.
pub fn accumulate_plain(
    dof: u32,
    matches: &[f64],
    action: &[f64],
    map: &[u32],
    hessian: &mut [f64],
    gradient: &mut [f64],
    cost: &mut f64,
) -> Result<(), Refusal>
    ensures { Accumulated (matches_call (length hessian.old) (length gradient.old) (record { dof = dof; matches = matches.now; action = action.now; map = map.now })) hessian.old gradient.old cost.old (number result) hessian.new gradient.new cost.new }
{
    accumulate(
        dof,
        matches,
        action,
        map,
        &map[0..0],
        &matches[0..0],
        hessian,
        gradient,
        cost,
    )
}
