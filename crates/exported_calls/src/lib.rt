// Calls of the exported functions, one after the other. What is proved of them comes from the exported contracts alone: accumulating calls make the chain that
// demand 3 speaks of, and leave what it says; a match list goes through the product that multiplying has left; the two builds agree where the survey rule does
// not refuse; a list comes back from its card, and a card from its list.
#![tactic(auto)]

ghost use Rattle.std.specs.Prelude.{[], ◌∷◌, length};
ghost use Rattle.refusals.specs.Number.{number};
ghost use Rattle.cards.specs.Calls.{Writes, Reads};
ghost use Rattle.block_transforms.specs.Transform.{without};
ghost use Rattle.transform_maps.specs.Multiply.{Multiplied};
ghost use Rattle.call_lists.specs.Accumulated.{Accumulated};
ghost use Rattle.map_planes.specs.Accumulate.{transformed_matches_call};
ghost use Rattle.plane_moments.specs.Accumulate.{work};
ghost use Rattle.plane_moments.specs.Build.{outputs};
ghost use Rattle.normal_list.specs.Work.{frames_made, matches_made};
ghost use Rattle.exported_calls.specs.Row.{InARow};
ghost use Rattle.exported_calls.specs.Builds.{Agree};
ghost use Rattle.exported_calls.specs.Cards.{Back};

use maghnelt::{
    maghnelt_card_read, maghnelt_card_write, maghnelt_frames_accumulate,
    maghnelt_frames_accumulate_transformed, maghnelt_frames_build, maghnelt_frames_build_strict,
    maghnelt_matches_accumulate, maghnelt_matches_accumulate_transformed, maghnelt_transform,
};
use refusals::Refusal;

// What four calls return.
#[derive(Clone, Copy)]
pub struct Numbers {
    pub first: Result<(), Refusal>,
    pub second: Result<(), Refusal>,
    pub third: Result<(), Refusal>,
    pub fourth: Result<(), Refusal>,
}

// Each accumulating call once: a plane's frames, a match list through a transform, the frames under another decomposition and another map through transforms,
// and the match list as it is.
pub fn four_calls(
    dof: u32,
    frames: &[f64],
    fixed: &[f64],
    sigma: f64,
    actions: &[f64],
    fitted: &[u64],
    map: &[u32],
    matches: &[f64],
    action: &[f64],
    place: &[u32],
    shape: &[u32],
    transform: &[f64],
    refitted: &[u64],
    remapped: &[u32],
    shapes: &[u32],
    transforms: &[f64],
    hessian: &mut [f64],
    gradient: &mut [f64],
    first: &mut f64,
    second: &mut f64,
    third: &mut f64,
    fourth: &mut f64,
) -> Numbers
    ensures { InARow hessian.old gradient.old (frames_made (without (work dof frames.now fixed.now sigma actions.now fitted.now map.now)) (number result.first) first.new ∷ matches_made (record { work = record { dof = dof; matches = matches.now; action = action.now; map = place.now }; shapes = shape.now; transforms = transform.now }) (number result.second) second.new ∷ frames_made (record { work = work dof frames.now fixed.now sigma actions.now refitted.now remapped.now; shapes = shapes.now; transforms = transforms.now }) (number result.third) third.new ∷ matches_made (without (record { dof = dof; matches = matches.now; action = action.now; map = place.now })) (number result.fourth) fourth.new ∷ []) (first.old ∷ second.old ∷ third.old ∷ fourth.old ∷ []) hessian.new gradient.new }
{
    let one = maghnelt_frames_accumulate(
        dof, frames, fixed, sigma, actions, fitted, map, hessian, gradient, first,
    );
    let two = maghnelt_matches_accumulate_transformed(
        dof, matches, action, place, shape, transform, hessian, gradient, second,
    );
    let three = maghnelt_frames_accumulate_transformed(
        dof, frames, fixed, sigma, actions, refitted, remapped, shapes, transforms, hessian,
        gradient, third,
    );
    let four = maghnelt_matches_accumulate(dof, matches, action, place, hessian, gradient, fourth);
    Numbers {
        first: one,
        second: two,
        third: three,
        fourth: four,
    }
}

// What multiplying and accumulating return.
#[derive(Clone, Copy)]
pub struct Stages {
    pub multiplied: Result<(), Refusal>,
    pub added: Result<(), Refusal>,
}

// A further transform multiplies that of a word, and a match list is accumulated through what this has left.
pub fn multiply_and_add(
    dof: u32,
    map: &[u32],
    shapes: &[u32],
    transforms: &[f64],
    place: u32,
    shape: &[u32],
    further: &[f64],
    to: &mut [u32],
    out: &mut [f64],
    matches: &[f64],
    action: &[f64],
    hessian: &mut [f64],
    gradient: &mut [f64],
    cost: &mut f64,
) -> Stages
    ensures { Multiplied (record { dof = dof; map = map.now; shapes = shapes.now; transforms = transforms.now; place = place; further-shape = shape.now; further = further.now }) (number result.multiplied) to.old out.old to.new out.new × Accumulated (transformed_matches_call (length hessian.old) (length gradient.old) (record { work = record { dof = dof; matches = matches.now; action = action.now; map = map.now }; shapes = to.new; transforms = out.new })) hessian.old gradient.old cost.old (number result.added) hessian.new gradient.new cost.new }
{
    let multiplied = maghnelt_transform(
        dof, map, shapes, transforms, place, shape, further, to, out,
    );
    let added = maghnelt_matches_accumulate_transformed(
        dof, matches, action, map, to, out, hessian, gradient, cost,
    );
    Stages { multiplied, added }
}

// What the two builds return.
#[derive(Clone, Copy)]
pub struct Answers {
    pub plain: Result<(), Refusal>,
    pub strict: Result<(), Refusal>,
}

// Both builds on the same inputs, each with outputs of its own.
pub fn both_builds(
    dof: u32,
    frames: &[f64],
    fixed: &[f64],
    sigma: f64,
    plain_frames: &mut [f64],
    plain_fixed: &mut [f64],
    plain_points: &mut f64,
    plain_dropped: &mut u32,
    strict_frames: &mut [f64],
    strict_fixed: &mut [f64],
    strict_points: &mut f64,
    strict_dropped: &mut u32,
) -> Answers
    ensures { Agree (outputs plain_frames.old plain_fixed.old plain_points.old plain_dropped.old) (outputs strict_frames.old strict_fixed.old strict_points.old strict_dropped.old) (number result.plain) (number result.strict) (outputs plain_frames.new plain_fixed.new plain_points.new plain_dropped.new) (outputs strict_frames.new strict_fixed.new strict_points.new strict_dropped.new) }
{
    let plain = maghnelt_frames_build(
        dof,
        frames,
        fixed,
        sigma,
        plain_frames,
        plain_fixed,
        plain_points,
        plain_dropped,
    );
    let strict = maghnelt_frames_build_strict(
        dof,
        frames,
        fixed,
        sigma,
        strict_frames,
        strict_fixed,
        strict_points,
        strict_dropped,
    );
    Answers { plain, strict }
}

// What the calls on cards return.
#[derive(Clone, Copy)]
pub struct Turns {
    pub written: Result<(), Refusal>,
    pub read: Result<(), Refusal>,
}

// A list written to a card, and read again.
pub fn written_and_read(moments: &[u64], card: &mut [u64], again: &mut [u64]) -> Turns
    ensures { Writes moments.now card.old (number result.written) card.new × Reads card.new again.old (number result.read) again.new × Back moments.now card.old again.old (number result.written) (number result.read) again.new }
{
    let written = maghnelt_card_write(moments, card);
    let read = maghnelt_card_read(card, again);
    Turns { written, read }
}

// A card read to a list, and written again.
pub fn read_and_written(card: &[u64], moments: &mut [u64], again: &mut [u64]) -> Turns
    ensures { Reads card.now moments.old (number result.read) moments.new × Writes moments.new again.old (number result.written) again.new × Back card.now moments.old again.old (number result.read) (number result.written) again.new }
{
    let read = maghnelt_card_read(card, moments);
    let written = maghnelt_card_write(moments, again);
    Turns { written, read }
}
