// The functions that hosts link, by the names of include/maghnelt.h: each is the call of the crate maghnelt of that name, under the same contract, with the
// number of its answer.
#![tactic(auto)]

ghost use Rattle.std.specs.Prelude.{◌≡◌, length};
ghost use Rattle.square_root.specs.Computed.{square_root};
ghost use Rattle.total_order.specs.Key.{key_of};
ghost use Rattle.refusals.specs.Refusal.{Answered};
ghost use Rattle.moment_lists.specs.Calls.{FromPoints, Pushes, Merges, Transforms, FindsMean, FindsPlane};
ghost use Rattle.cards.specs.Calls.{Writes, Reads};
ghost use Rattle.plane_lists.specs.Calls.{new_refusal, new_plane, SigmaAnswered};
ghost use Rattle.normal_blocks.specs.Map.{remapped};
ghost use Rattle.normal_blocks.specs.Calls.{remap_refusal};
ghost use Rattle.transform_maps.specs.Multiply.{Multiplied};
ghost use Rattle.plane_fit.specs.Fit.{fit_list};
ghost use Rattle.plane_fit.specs.Calls.{fit_refusal};
ghost use Rattle.plane_moments.specs.Build.{Builds};
ghost use Rattle.strict_build.specs.Strict.{BuildsStrictly};
ghost use Rattle.plane_moments.specs.Accumulate.{frames_call, transformed_frames_call, work};
ghost use Rattle.plane_moments.specs.Linearize.{Linearizes};
ghost use Rattle.plane_bundle.specs.Fit.{Fits};
ghost use Rattle.plane_bundle.specs.Linearize.{Linearizes as BundleLinearizes};
ghost use Rattle.call_lists.specs.Accumulated.{Accumulated};
ghost use Rattle.map_planes.specs.Accumulate.{matches_call, transformed_matches_call};
ghost use Rattle.map_planes.specs.Linearize.{Linearized};
ghost use Rattle.map_plane.specs.Linearize.{Linearized as OneLinearized};

// IEEE 754's squareRoot.
#[unsafe(no_mangle)]
pub extern "C" fn maghnelt_sqrt(x: f64) -> f64
    ensures { result ≡ square_root x }
{
    maghnelt::maghnelt_sqrt(x)
}

// The key of a bit pattern: signed comparison of keys is IEEE 754's totalOrder.
#[unsafe(no_mangle)]
pub extern "C" fn maghnelt_total_order_key(bits: u64) -> i64
    ensures { result ≡ key_of bits }
{
    maghnelt::maghnelt_total_order_key(bits)
}

// The moments of a list of points.
#[unsafe(no_mangle)]
pub extern "C" fn maghnelt_moments_from_points(points: &[f64], moments: &mut [f64]) -> u32
    ensures { FromPoints points.now moments.old result moments.new }
{
    refusals::told(maghnelt::maghnelt_moments_from_points(points, moments))
}

// One point more.
#[unsafe(no_mangle)]
pub extern "C" fn maghnelt_moments_push(moments: &mut [f64], point: &[f64]) -> u32
    ensures { Pushes moments.old point.now result moments.new }
{
    refusals::told(maghnelt::maghnelt_moments_push(moments, point))
}

// The points of another set too.
#[unsafe(no_mangle)]
pub extern "C" fn maghnelt_moments_merge(moments: &mut [f64], other: &[f64]) -> u32
    ensures { Merges moments.old other.now result moments.new }
{
    refusals::told(maghnelt::maghnelt_moments_merge(moments, other))
}

// The moments of the points carried by p -> A p + b.
#[unsafe(no_mangle)]
pub extern "C" fn maghnelt_moments_transformed(
    moments: &[f64],
    a: &[f64],
    b: &[f64],
    out: &mut [f64],
) -> u32
    ensures { Transforms moments.now a.now b.now out.old result out.new }
{
    refusals::told(maghnelt::maghnelt_moments_transformed(moments, a, b, out))
}

// The mean and the scatter, or none.
#[unsafe(no_mangle)]
pub extern "C" fn maghnelt_moments_mean_and_scatter(
    moments: &[f64],
    out: &mut [f64],
    found: &mut u32,
) -> u32
    ensures { FindsMean moments.now out.old found.old result out.new found.new }
{
    refusals::told(maghnelt::maghnelt_moments_mean_and_scatter(moments, out, found))
}

// The plane of least scatter, or none.
#[unsafe(no_mangle)]
pub extern "C" fn maghnelt_moments_plane(
    moments: &[f64],
    decomposition: &[u64],
    out: &mut [f64],
    found: &mut u32,
) -> u32
    ensures { FindsPlane moments.now decomposition.now out.old found.old result out.new found.new }
{
    refusals::told(maghnelt::maghnelt_moments_plane(moments, decomposition, out, found))
}

// The card of a list of moments, in groups of eight records with their counts first; both as bit patterns.
#[unsafe(no_mangle)]
pub extern "C" fn maghnelt_card_write(moments: &[u64], card: &mut [u64]) -> u32
    ensures { Writes moments.now card.old result card.new }
{
    refusals::told(maghnelt::maghnelt_card_write(moments, card))
}

// The list of moments of a card.
#[unsafe(no_mangle)]
pub extern "C" fn maghnelt_card_read(card: &[u64], moments: &mut [u64]) -> u32
    ensures { Reads card.now moments.old result moments.new }
{
    refusals::told(maghnelt::maghnelt_card_read(card, moments))
}

// The plane of a normal of any length.
#[unsafe(no_mangle)]
pub extern "C" fn maghnelt_plane_new(normal: &[f64], offset: f64, plane: &mut [f64]) -> u32
    ensures { Answered (new_refusal normal.now plane.old) result plane.old plane.new (new_plane normal.now offset) }
{
    refusals::told(maghnelt::maghnelt_plane_new(normal, offset, plane))
}

// The standard deviation of a point's distance from a plane.
#[unsafe(no_mangle)]
pub extern "C" fn maghnelt_point_to_plane_sigma(
    plane: &[f64],
    centroid: &[f64],
    plane_covariance: &[f64],
    point_covariance: &[f64],
    world: &[f64],
    d_world_d_point: &[f64],
    sigma: &mut f64,
) -> u32
    ensures { SigmaAnswered (record { plane = plane.now; centroid = centroid.now; plane_covariance = plane_covariance.now; point_covariance = point_covariance.now; world = world.now; d_world_d_point = d_world_d_point.now }) result sigma.old sigma.new }
{
    refusals::told(maghnelt::maghnelt_point_to_plane_sigma(
        plane,
        centroid,
        plane_covariance,
        point_covariance,
        world,
        d_world_d_point,
        sigma,
    ))
}

// The map that an index list makes of a map.
#[unsafe(no_mangle)]
pub extern "C" fn maghnelt_remap(map: &[u32], list: &[u32], out: &mut [u32]) -> u32
    ensures { Answered (remap_refusal map.now list.now out.old) result out.old out.new (remapped map.now list.now) }
{
    refusals::told(maghnelt::maghnelt_remap(map, list, out))
}

// A further transform multiplies that of one word of a map, from the left.
#[unsafe(no_mangle)]
pub extern "C" fn maghnelt_transform(
    dof: u32,
    map: &[u32],
    shapes: &[u32],
    transforms: &[f64],
    place: u32,
    further_shape: &[u32],
    further: &[f64],
    out_shapes: &mut [u32],
    out_transforms: &mut [f64],
) -> u32
    ensures { Multiplied (record { dof = dof; map = map.now; shapes = shapes.now; transforms = transforms.now; place = place; further-shape = further_shape.now; further = further.now }) result out_shapes.old out_transforms.old out_shapes.new out_transforms.new }
{
    refusals::told(maghnelt::maghnelt_transform(
        dof,
        map,
        shapes,
        transforms,
        place,
        further_shape,
        further,
        out_shapes,
        out_transforms,
    ))
}

// The frames of a plane and its fixed set centred, the point total, and whether the fixed set was dropped.
#[unsafe(no_mangle)]
pub extern "C" fn maghnelt_frames_build(
    dof: u32,
    frames: &[f64],
    fixed: &[f64],
    sigma: f64,
    centred_frames: &mut [f64],
    centred_fixed: &mut [f64],
    points: &mut f64,
    fixed_dropped: &mut u32,
) -> u32
    ensures { Builds dof frames.now fixed.now sigma centred_frames.old centred_fixed.old points.old fixed_dropped.old result centred_frames.new centred_fixed.new points.new fixed_dropped.new }
{
    refusals::told(maghnelt::maghnelt_frames_build(
        dof,
        frames,
        fixed,
        sigma,
        centred_frames,
        centred_fixed,
        points,
        fixed_dropped,
    ))
}

// The same by the survey rule, which refuses a fixed count below 0.
#[unsafe(no_mangle)]
pub extern "C" fn maghnelt_frames_build_strict(
    dof: u32,
    frames: &[f64],
    fixed: &[f64],
    sigma: f64,
    centred_frames: &mut [f64],
    centred_fixed: &mut [f64],
    points: &mut f64,
    fixed_dropped: &mut u32,
) -> u32
    ensures { BuildsStrictly dof frames.now fixed.now sigma centred_frames.old centred_fixed.old points.old fixed_dropped.old result centred_frames.new centred_fixed.new points.new fixed_dropped.new }
{
    refusals::told(maghnelt::maghnelt_frames_build_strict(
        dof,
        frames,
        fixed,
        sigma,
        centred_frames,
        centred_fixed,
        points,
        fixed_dropped,
    ))
}

// The mean and the scatter of what a plane is fitted to.
#[unsafe(no_mangle)]
pub extern "C" fn maghnelt_frames_fit(
    dof: u32,
    frames: &[f64],
    fixed: &[f64],
    actions: &[f64],
    out: &mut [f64],
) -> u32
    ensures { Answered (fit_refusal dof frames.now fixed.now actions.now out.old) result out.old out.new (fit_list frames.now fixed.now actions.now) }
{
    refusals::told(maghnelt::maghnelt_frames_fit(dof, frames, fixed, actions, out))
}

// The cost of the frames and the fixed set under the fitted plane, and each mapped frame's block and vector added to the normal equations.
#[unsafe(no_mangle)]
pub extern "C" fn maghnelt_frames_accumulate(
    dof: u32,
    frames: &[f64],
    fixed: &[f64],
    sigma: f64,
    actions: &[f64],
    decomposition: &[u64],
    map: &[u32],
    hessian: &mut [f64],
    gradient: &mut [f64],
    cost: &mut f64,
) -> u32
    ensures { Accumulated (frames_call (length hessian.old) (length gradient.old) (work dof frames.now fixed.now sigma actions.now decomposition.now map.now)) hessian.old gradient.old cost.old result hessian.new gradient.new cost.new }
{
    refusals::told(maghnelt::maghnelt_frames_accumulate(
        dof,
        frames,
        fixed,
        sigma,
        actions,
        decomposition,
        map,
        hessian,
        gradient,
        cost,
    ))
}

// The same through transforms that lie beside the map.
#[unsafe(no_mangle)]
pub extern "C" fn maghnelt_frames_accumulate_transformed(
    dof: u32,
    frames: &[f64],
    fixed: &[f64],
    sigma: f64,
    actions: &[f64],
    decomposition: &[u64],
    map: &[u32],
    shapes: &[u32],
    transforms: &[f64],
    hessian: &mut [f64],
    gradient: &mut [f64],
    cost: &mut f64,
) -> u32
    ensures { Accumulated (transformed_frames_call (length hessian.old) (length gradient.old) (record { work = work dof frames.now fixed.now sigma actions.now decomposition.now map.now; shapes = shapes.now; transforms = transforms.now })) hessian.old gradient.old cost.old result hessian.new gradient.new cost.new }
{
    refusals::told(maghnelt::maghnelt_frames_accumulate_transformed(
        dof,
        frames,
        fixed,
        sigma,
        actions,
        decomposition,
        map,
        shapes,
        transforms,
        hessian,
        gradient,
        cost,
    ))
}

// Four residuals for each frame and the fixed set, and their Jacobian by columns.
#[unsafe(no_mangle)]
pub extern "C" fn maghnelt_frames_linearize(
    dof: u32,
    frames: &[f64],
    fixed: &[f64],
    sigma: f64,
    actions: &[f64],
    decompositions: &[u64],
    residual: &mut [f64],
    jacobian: &mut [f64],
) -> u32
    ensures { Linearizes dof frames.now fixed.now sigma actions.now decompositions.now residual.old jacobian.old result residual.new jacobian.new }
{
    refusals::told(maghnelt::maghnelt_frames_linearize(
        dof,
        frames,
        fixed,
        sigma,
        actions,
        decompositions,
        residual,
        jacobian,
    ))
}

// The centroid and the scatter of a bundle's points.
#[unsafe(no_mangle)]
pub extern "C" fn maghnelt_bundle_fit(
    counts: &[u32],
    points: &[f64],
    fixed: &[f64],
    out: &mut [f64],
) -> u32
    ensures { Fits counts.now points.now fixed.now out.old result out.new }
{
    refusals::told(maghnelt::maghnelt_bundle_fit(counts, points, fixed, out))
}

// A residual for each point of a bundle, the fixed ones last, and their Jacobian by columns.
#[unsafe(no_mangle)]
pub extern "C" fn maghnelt_bundle_linearize(
    dof: u32,
    counts: &[u32],
    points: &[f64],
    d_state: &[f64],
    fixed: &[f64],
    sigma: f64,
    decomposition: &[u64],
    residual: &mut [f64],
    jacobian: &mut [f64],
) -> u32
    ensures { BundleLinearizes (record { dof = dof; counts = counts.now; points = points.now; d_state = d_state.now; fixed = fixed.now; sigma = sigma; decomposition = decomposition.now }) residual.old jacobian.old result residual.new jacobian.new }
{
    refusals::told(maghnelt::maghnelt_bundle_linearize(
        dof,
        counts,
        points,
        d_state,
        fixed,
        sigma,
        decomposition,
        residual,
        jacobian,
    ))
}

// The cost of a match list, and its block and vector added to the normal equations.
#[unsafe(no_mangle)]
pub extern "C" fn maghnelt_matches_accumulate(
    dof: u32,
    matches: &[f64],
    action: &[f64],
    map: &[u32],
    hessian: &mut [f64],
    gradient: &mut [f64],
    cost: &mut f64,
) -> u32
    ensures { Accumulated (matches_call (length hessian.old) (length gradient.old) (record { dof = dof; matches = matches.now; action = action.now; map = map.now })) hessian.old gradient.old cost.old result hessian.new gradient.new cost.new }
{
    refusals::told(maghnelt::maghnelt_matches_accumulate(
        dof, matches, action, map, hessian, gradient, cost,
    ))
}

// The same through the transform of word 0.
#[unsafe(no_mangle)]
pub extern "C" fn maghnelt_matches_accumulate_transformed(
    dof: u32,
    matches: &[f64],
    action: &[f64],
    map: &[u32],
    shapes: &[u32],
    transforms: &[f64],
    hessian: &mut [f64],
    gradient: &mut [f64],
    cost: &mut f64,
) -> u32
    ensures { Accumulated (transformed_matches_call (length hessian.old) (length gradient.old) (record { work = record { dof = dof; matches = matches.now; action = action.now; map = map.now }; shapes = shapes.now; transforms = transforms.now })) hessian.old gradient.old cost.old result hessian.new gradient.new cost.new }
{
    refusals::told(maghnelt::maghnelt_matches_accumulate_transformed(
        dof, matches, action, map, shapes, transforms, hessian, gradient, cost,
    ))
}

// The residual of each match, and their Jacobian by columns.
#[unsafe(no_mangle)]
pub extern "C" fn maghnelt_matches_linearize(
    dof: u32,
    matches: &[f64],
    action: &[f64],
    residual: &mut [f64],
    jacobian: &mut [f64],
) -> u32
    ensures { Linearized dof matches.now action.now result residual.old jacobian.old residual.new jacobian.new }
{
    refusals::told(maghnelt::maghnelt_matches_linearize(dof, matches, action, residual, jacobian))
}

// The residual of one match below its chain, and its row.
#[unsafe(no_mangle)]
pub extern "C" fn maghnelt_match_linearize(
    dof: u32,
    matched: &[f64],
    world: &[f64],
    d_state: &[f64],
    d_extrinsic: &[f64],
    residual: &mut f64,
    row: &mut [f64],
) -> u32
    ensures { OneLinearized (record { dof = dof; matched = matched.now; world = world.now; d_state = d_state.now; d_extrinsic = d_extrinsic.now }) result residual.old row.old residual.new row.new }
{
    refusals::told(maghnelt::maghnelt_match_linearize(
        dof,
        matched,
        world,
        d_state,
        d_extrinsic,
        residual,
        row,
    ))
}
