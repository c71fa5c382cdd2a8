// A record of moments that is lent: one point more, another set more. Where that is refused nothing is stored.
#![tactic(auto)]

ghost use Rattle.refusals.specs.Refusal.{Answered};
ghost use Rattle.refusals.specs.Number.{number};
ghost use Rattle.point_moments.specs.Moments.{with_point, merged};
ghost use Rattle.counted_moments.specs.Counted.{push_refusal, merge_refusal};

use point_moments::PointMoments;
use refusals::Refusal;

pub fn push(m: &mut PointMoments, p: [f64; 3]) -> Result<(), Refusal>
    ensures { Answered (push_refusal m.old p) (number result) m.old m.new (with_point m.old p) }
{
    let v = *m;
    counted_moments::push_refusal(v, p)?;
    let w = v.with_point(p);
    *m = w;
    Ok(())
}

pub fn merge(m: &mut PointMoments, other: PointMoments) -> Result<(), Refusal>
    ensures { Answered (merge_refusal m.old other) (number result) m.old m.new (merged m.old other) }
{
    let v = *m;
    counted_moments::merge_refusal(v, other)?;
    let w = v.merged(other);
    *m = w;
    Ok(())
}
