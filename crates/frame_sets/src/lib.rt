// The moments that a frame factor is built from: the tests of them, and the sets centred on their means.
#![tactic(auto)]

ghost use Rattle.std.specs.Prelude.{◌≡◌, ◌⊎◌, true, false, cond, [], ◌∷◌, ◌*◌, length};
ghost use Rattle.std.specs.Float.Ieee.{lt};
ghost use Rattle.refusals.specs.Refusal.{◌when◌, first_of};
ghost use Rattle.refusals.specs.Number.{number};
ghost use Rattle.sums.specs.Sum.{◌⊕◌, zero_f};
ghost use Rattle.validate.specs.Finite.{all_finite};
ghost use Rattle.point_moments.specs.Moments.{MOMENTS, moments_of};
ghost use Rattle.point_moments.specs.Scatter.{CENTRED, has_mean};
ghost use Rattle.frame_sets.specs.Sets.{set_count, some_empty, count_sum, fixed_count, three, not_finite, dropped, centred_set, centred_frames, centred_fixed, points, count_reasons};

use point_moments::scatter::CENTRED;
use point_moments::{MOMENTS, PointMoments};
use refusals::Refusal;

// The frames' counts: their sum in order, and whether one is at or below 0.
#[derive(Clone, Copy)]
struct CountSum {
    sum: f64,
    empty: bool,
}

// Every frame is looked at, which is faster than to stop at the first that is empty.
fn sum_counts(frames: &[f64]) -> CountSum
    ensures { (result.sum ≡ count_sum frames.now) × (result.empty ≡ some_empty frames.now) }
{
    let mut sum = 0.0;
    let mut empty = false;
    for k in 0..frames.len() / MOMENTS {
        let m = PointMoments::from_list(plane_fit::record_at(frames, MOMENTS, k));
        sum += m.count;
        empty |= m.count <= 0.0;
    }
    CountSum { sum, empty }
}

// The fixed set's count, 0 where there is none.
pub fn fixed_count(fixed: &[f64]) -> f64
    requires { (length fixed.now ≡ 0) ⊎ (length fixed.now ≡ MOMENTS) }
    ensures { result ≡ fixed_count fixed.now }
{
    if fixed.len() == 0 {
        return 0.0;
    }
    let m = PointMoments::from_list(fixed);
    m.count
}

// Whether a fixed set is handed in, and has no points.
pub fn is_dropped(fixed: &[f64]) -> bool
    requires { (length fixed.now ≡ 0) ⊎ (length fixed.now ≡ MOMENTS) }
    ensures { result ≡ dropped fixed.now }
{
    if fixed.len() == 0 {
        return false;
    }
    let m = PointMoments::from_list(fixed);
    m.count <= 0.0
}

// 4 and 5, by whether a frame is empty and the sum of the frames' counts.
fn count_refusal(empty: bool, sum: f64, fixed: &[f64]) -> Result<(), Refusal>
    requires { (length fixed.now ≡ 0) ⊎ (length fixed.now ≡ MOMENTS) }
    ensures { number result ≡ first_of (4 when empty ∷ 5 when lt (sum ⊕ fixed_count fixed.now) three ∷ []) }
{
    if empty {
        return Err(Refusal::EmptyFrame);
    }
    if sum + fixed_count(fixed) < 3.0 {
        return Err(Refusal::TooFewPoints);
    }
    Ok(())
}

// The point total, of frames and of the fixed set if it is kept, by the sum of the frames' counts.
fn point_total(sum: f64, fixed: &[f64]) -> f64
    requires { (length fixed.now ≡ 0) ⊎ (length fixed.now ≡ MOMENTS) }
    ensures { result ≡ sum ⊕ cond (dropped fixed.now) zero_f (fixed_count fixed.now) }
{
    if is_dropped(fixed) {
        return sum + 0.0;
    }
    sum + fixed_count(fixed)
}

// What the counts of all sets tell: whether they are refused, by 4 or 5; and the point total, on a refusal too.
#[derive(Clone, Copy)]
pub struct CountTest {
    pub answer: Result<(), Refusal>,
    pub points: f64,
}

// The frames' counts are summed once, for test 5 and for the total.
pub fn test_counts(frames: &[f64], fixed: &[f64]) -> CountTest
    requires { (length fixed.now ≡ 0) ⊎ (length fixed.now ≡ MOMENTS) }
    ensures { (number result.answer ≡ first_of (count_reasons frames.now fixed.now)) × (result.points ≡ points frames.now fixed.now) }
{
    let c = sum_counts(frames);
    CountTest {
        answer: count_refusal(c.empty, c.sum, fixed),
        points: point_total(c.sum, fixed),
    }
}

// Every number of a set: four at a time, of which the compiler makes few instructions.
fn set_finite(set: &[f64]) -> bool
    requires { length set.now ≡ MOMENTS }
    ensures { result ≡ all_finite set.now }
{
    let m = PointMoments::from_list(set);
    let s = m.sum;
    let o = m.outer;
    if !validate::four_finite(m.count, s[0], s[1], s[2]) {
        return false;
    }
    if !validate::four_finite(o[0], o[1], o[2], o[3]) {
        return false;
    }
    if !validate::four_finite(o[4], o[5], o[6], o[7]) {
        return false;
    }
    validate::is_finite(o[8])
}

// Every number of the frames, set after set.
fn frames_finite(frames: &[f64]) -> bool
    requires { length frames.now ≡ MOMENTS * set_count frames.now }
    ensures { result ≡ all_finite frames.now }
{
    for k in 0..frames.len() / MOMENTS {
        if !set_finite(plane_fit::record_at(frames, MOMENTS, k)) {
            return false;
        }
    }
    true
}

// 6: some moment is not finite.
pub fn not_finite(frames: &[f64], fixed: &[f64]) -> bool
    requires { (length frames.now ≡ MOMENTS * set_count frames.now) × ((length fixed.now ≡ 0) ⊎ (length fixed.now ≡ MOMENTS)) }
    ensures { result ≡ not_finite frames.now fixed.now }
{
    if !frames_finite(frames) {
        return true;
    }
    if fixed.len() == 0 {
        return false;
    }
    !set_finite(fixed)
}

// One set that has a mean centred, into a slice of its size.
fn centre(set: &[f64], out: &mut [f64])
    requires { (length set.now ≡ MOMENTS) × (length out.old ≡ CENTRED) × (has_mean (moments_of set.now) ≡ true) }
    ensures { out.new ≡ centred_set set.now }
{
    let frame = PointMoments::from_list(set).centred();
    frame.write(out);
}

// The frames centred, one after the other, where none is empty.
pub fn centre_frames(frames: &[f64], out: &mut [f64])
    requires { (length out.old ≡ set_count frames.now * CENTRED) × (some_empty frames.now ≡ false) }
    ensures { out.new ≡ centred_frames frames.now }
{
    for k in 0..frames.len() / MOMENTS {
        let at = k * CENTRED;
        let end = at + CENTRED;
        centre(plane_fit::record_at(frames, MOMENTS, k), &mut out[at..end]);
    }
}

// The fixed set centred if it is kept; else its slice is left as it is.
pub fn centre_fixed(fixed: &[f64], out: &mut [f64])
    requires { ((length fixed.now ≡ 0) ⊎ (length fixed.now ≡ MOMENTS)) × (length out.old ≡ set_count fixed.now * CENTRED) }
    ensures { out.new ≡ centred_fixed fixed.now out.old }
{
    if fixed.len() == 0 {
        return;
    }
    if is_dropped(fixed) {
        return;
    }
    centre(fixed, out);
}
