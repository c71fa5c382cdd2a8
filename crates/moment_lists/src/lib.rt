// The calls of a host on moments as lists: one that is refused writes nothing.
#![tactic(auto)]

ghost use Rattle.refusals.specs.Number.{number};
ghost use Rattle.moment_lists.specs.Calls.{FromPoints, Pushes, Merges, Transforms, FindsMean, FindsPlane};

use decomposition::DECOMPOSITION;
use point_moments::{MOMENTS, PointMoments};
use refusals::Refusal;

// The moments of points, three numbers each.
#[tactic(auto, using(crate::proofs::FromPoints::no_push_refused), unfolding(crate::specs::Calls::gathered))]
pub fn from_points(points: &[f64], moments: &mut [f64]) -> Result<(), Refusal>
    ensures { FromPoints points.now moments.old (number result) moments.new }
{
    if moments.len() != MOMENTS {
        return Err(Refusal::WrongLength);
    }
    point_moments::points_refusal(points)?;
    let m = PointMoments::from_points(points);
    m.write(moments);
    Ok(())
}

// One point more. The point is read before the moments are looked at, so that the compiler keeps the two tests of lengths apart, which is faster.
#[tactic(auto, unfolding(crate::specs::Calls::push_refusal, crate::specs::Calls::pushed))]
pub fn push(moments: &mut [f64], point: &[f64]) -> Result<(), Refusal>
    ensures { Pushes moments.old point.now (number result) moments.new }
{
    if point.len() != 3 {
        return Err(Refusal::WrongLength);
    }
    let p = lists::three(point, 0);
    if moments.len() != MOMENTS {
        return Err(Refusal::WrongLength);
    }
    let m = PointMoments::from_list(moments);
    counted_moments::push_refusal(m, p)?;
    m.with_point(p).write(moments);
    Ok(())
}

// Another set more.
#[tactic(auto, unfolding(crate::specs::Calls::merge_refusal, crate::specs::Calls::joined))]
pub fn merge(moments: &mut [f64], other: &[f64]) -> Result<(), Refusal>
    ensures { Merges moments.old other.now (number result) moments.new }
{
    if moments.len() != MOMENTS || other.len() != MOMENTS {
        return Err(Refusal::WrongLength);
    }
    let m = PointMoments::from_list(moments);
    let n = PointMoments::from_list(other);
    counted_moments::merge_refusal(m, n)?;
    m.merged(n).write(moments);
    Ok(())
}

// The moments of the points a·p + b.
#[tactic(auto, unfolding(crate::specs::Calls::move_refusal, crate::specs::Calls::moved))]
pub fn transformed(moments: &[f64], a: &[f64], b: &[f64], out: &mut [f64]) -> Result<(), Refusal>
    ensures { Transforms moments.now a.now b.now out.old (number result) out.new }
{
    if moments.len() != MOMENTS || a.len() != 9 || b.len() != 3 || out.len() != MOMENTS {
        return Err(Refusal::WrongLength);
    }
    let m = PointMoments::from_list(moments).transformed(lists::nine(a, 0), lists::three(b, 0));
    m.write(out);
    Ok(())
}

// Mean and scatter; where there is none, `found` is 0 and `out` as it was. Both are lent by the C interface, so the answer is no Option.
#[tactic(auto, unfolding(crate::specs::Calls::mean_refusal, crate::specs::Calls::mean_answer))]
pub fn mean_and_scatter(moments: &[f64], out: &mut [f64], found: &mut u32) -> Result<(), Refusal>
    ensures { FindsMean moments.now out.old found.old (number result) out.new found.new }
{
    if moments.len() != MOMENTS || out.len() != 12 {
        return Err(Refusal::WrongLength);
    }
    match PointMoments::from_list(moments).mean_and_scatter() {
        Some(f) => {
            let mean = f.mean;
            let scatter = f.scatter;
            lists::store(out, &lists::three_and_nine(mean, scatter));
            *found = 1;
        }
        None => {
            *found = 0;
        }
    }
    Ok(())
}

// Normal, offset and the eigenvalues in rising order; where there is no plane, `found` is 0 and `out` as it was. Both are lent by the C interface, as above.
#[tactic(auto, unfolding(crate::specs::Calls::plane_refusal, crate::specs::Calls::plane_answer))]
pub fn plane(
    moments: &[f64],
    decomposition: &[u64],
    out: &mut [f64],
    found: &mut u32,
) -> Result<(), Refusal>
    ensures { FindsPlane moments.now decomposition.now out.old found.old (number result) out.new found.new }
{
    if moments.len() != MOMENTS || decomposition.len() != DECOMPOSITION || out.len() != 7 {
        return Err(Refusal::WrongLength);
    }
    match PointMoments::from_list(moments).plane(decomposition) {
        Some(p) => {
            let n = p.normal;
            let e = p.eigenvalues;
            let l = [n[0], n[1], n[2], p.offset, e[0], e[1], e[2]];
            lists::store(out, &l);
            *found = 1;
        }
        None => {
            *found = 0;
        }
    }
    Ok(())
}
