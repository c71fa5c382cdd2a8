// Why a push or a merge of moments is turned away: the reason, or that there is none.
#![tactic(auto)]

ghost use Rattle.std.specs.Prelude.{◌≡◌};
ghost use Rattle.refusals.specs.Number.{number};
ghost use Rattle.counted_moments.specs.Counted.{push_refusal, merge_refusal};

use point_moments::PointMoments;
use refusals::Refusal;

// The point p pushed into m.
#[tactic(auto, unfolding(crate::specs::Counted::push_reasons))]
pub fn push_refusal(m: PointMoments, p: [f64; 3]) -> Result<(), Refusal>
    ensures { number result ≡ push_refusal m p }
{
    if counts::push_saturates(m.count) {
        return Err(Refusal::CountTooLarge);
    }
    Ok(())
}

// The set `other` merged into m.
pub fn merge_refusal(m: PointMoments, other: PointMoments) -> Result<(), Refusal>
    ensures { number result ≡ merge_refusal m other }
{
    if counts::merge_saturates(m.count, other.count) {
        return Err(Refusal::CountTooLarge);
    }
    Ok(())
}
