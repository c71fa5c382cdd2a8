// The plane bundle factor, point by point: the host's two calls, with what they are refused for.
#![tactic(auto)]

ghost use Rattle.std.specs.Prelude.{◌≡◌, not, ◌+◌, ◌≤◌, eqb, length};
ghost use Rattle.refusals.specs.Number.{number};
ghost use Rattle.plane_fit.specs.Calls.{most_frames};
ghost use Rattle.bundle_points.specs.Points.{most_points, point_count};
ghost use Rattle.bundle_rows.specs.Rows.{total};
ghost use Rattle.plane_bundle.specs.Calls.{bad_points, some_empty};
ghost use Rattle.plane_bundle.specs.Fit.{Fits};
ghost use Rattle.plane_bundle.specs.Linearize.{linearized, Linearizes};
ghost use Rattle.plane_bundle.specs.Given.{bundle_of};
ghost use Rattle.plane_bundle.specs.Steps.{count_refusal, shape_refusal, bad_sizes, shape_of, Fitting};

use bundle_points::{Cloud, MOST_POINTS};
use decomposition::{DECOMPOSITION, MIN_POINTS_GAP};
use derivative::MOST_DOF;
use plane_fit::MOST_FRAMES;
use refusals::Refusal;

// How many site points the frames have. At most 256 words of 32 bits: their sum is far below 2^64.
fn total(counts: &[u32]) -> usize
    requires { length counts.now ≤ most_frames }
    ensures { (result ≡ total counts.now) × (result ≤ 1099511627520) }
{
    let mut sum = 0;
    for count in counts {
        sum += *count as usize;
    }
    sum
}

// The points that a call is given: how many each frame has, those of the frames, one after the other, and the fixed ones.
#[derive(Clone, Copy)]
struct Points<'a> {
    counts: &'a [u32],
    site: &'a [f64],
    fixed: &'a [f64],
}

impl Points<'_> {
    // 3, of counts and points.
    fn bad(&self) -> bool
        ensures { result ≡ bad_points self.now.counts.now self.now.site.now self.now.fixed.now }
    {
        if self.counts.len() > MOST_FRAMES {
            return true;
        }
        let site = total(self.counts);
        if self.site.len() != site * 3 {
            return true;
        }
        if self.fixed.len() % 3 != 0 {
            return true;
        }
        site + self.fixed.len() / 3 > MOST_POINTS
    }

    // 4: some frame has no points.
    fn some_empty(&self) -> bool
        ensures { result ≡ some_empty self.now.counts.now }
    {
        self.counts.iter().any(|count| *count == 0)
    }

    // 4 and 5.
    fn count_refusal(&self) -> Result<(), Refusal>
        ensures { number result ≡ count_refusal self.now.counts.now (point_count self.now.site.now + point_count self.now.fixed.now) }
    {
        if self.some_empty() {
            return Err(Refusal::EmptyFrame);
        }
        if self.site.len() / 3 + self.fixed.len() / 3 < 3 {
            return Err(Refusal::TooFewPoints);
        }
        Ok(())
    }

    // 2 to 5, of the call that asks.
    fn fit_refusal(&self, out: usize) -> Result<(), Refusal>
        ensures { number result ≡ shape_refusal self.now.counts.now self.now.site.now self.now.fixed.now (not (eqb out 12)) }
    {
        if self.counts.is_empty() {
            return Err(Refusal::EmptyList);
        }
        if self.bad() {
            return Err(Refusal::WrongLength);
        }
        if out != 12 {
            return Err(Refusal::WrongLength);
        }
        self.count_refusal()
    }
}

// The host's call: the centroid and the scatter, whose decomposition it then hands in. A call that is refused writes nothing.
pub fn fit(counts: &[u32], points: &[f64], fixed: &[f64], out: &mut [f64]) -> Result<(), Refusal>
    ensures { Fits counts.now points.now fixed.now out.old (number result) out.new }
{
    let given = Points {
        counts,
        site: points,
        fixed,
    };
    given.fit_refusal(out.len())?;
    let cloud = Cloud::new(points, fixed);
    if cloud.some_not_finite() {
        return Err(Refusal::NotFinite);
    }
    let q = cloud.centroid();
    let s = cloud.scatter(q);
    out.copy_from_slice(&lists::three_and_nine(q, s));
    Ok(())
}

// What linearizing is given, beside what it writes: the points, their state columns, sigma, and the decomposition of their scatter.
#[derive(Clone, Copy)]
struct Call<'a> {
    dof: u32,
    points: Points<'a>,
    state: &'a [f64],
    sigma: f64,
    decomposition: &'a [u64],
}

impl Call<'_> {
    // 3, of the slices beside counts and points.
    fn bad_sizes(&self, residuals: usize, cells: usize) -> bool
        requires { (self.now.dof ≤ 9) × (length self.now.points.counts.now ≤ most_frames) × (point_count self.now.points.site.now + point_count self.now.points.fixed.now ≤ most_points) }
        ensures { result ≡ bad_sizes self.now.dof (length self.now.points.counts.now) (point_count self.now.points.site.now) (point_count self.now.points.site.now + point_count self.now.points.fixed.now) (length self.now.state.now) (length self.now.decomposition.now) residuals cells }
    {
        let dof = self.dof as usize;
        let site = self.points.site.len() / 3;
        let rows = site + self.points.fixed.len() / 3;
        if self.state.len() != site * dof * 3 {
            return true;
        }
        if self.decomposition.len() != DECOMPOSITION {
            return true;
        }
        if residuals != rows {
            return true;
        }
        if cells == 0 {
            return false;
        }
        cells != self.points.counts.len() * dof * rows
    }

    // 1 to 5, where so many residuals and cells are lent.
    fn shape_refusal(&self, residuals: usize, cells: usize) -> Result<(), Refusal>
        ensures { number result ≡ shape_of (bundle_of self.now) residuals cells }
    {
        if self.dof > MOST_DOF {
            return Err(Refusal::DofTooLarge);
        }
        if self.points.counts.is_empty() {
            return Err(Refusal::EmptyList);
        }
        if self.points.bad() {
            return Err(Refusal::WrongLength);
        }
        if self.bad_sizes(residuals, cells) {
            return Err(Refusal::WrongLength);
        }
        self.points.count_refusal()
    }

    // The residuals of a call that is not refused, and its Jacobian if it is wanted: under the plane, or +0 everywhere where there is none.
    fn write(&self, cloud: &Cloud, residual: &mut [f64], jacobian: &mut [f64])
        requires fitting { Fitting (bundle_of self.now) (length residual.old) (length jacobian.old) }
        requires of_the_points { (cloud.now.site.now ≡ self.now.points.site.now) × (cloud.now.fixed.now ≡ self.now.points.fixed.now) }
        ensures { (residual.new, jacobian.new) ≡ linearized (bundle_of self.now) residual.old jacobian.old }
    {
        let axes = decomposition::rising(self.decomposition);
        if axes.second - axes.first < MIN_POINTS_GAP {
            lists::clear(residual);
            lists::clear(jacobian);
            return;
        }
        let n = axes.normal;
        let info = 1.0 / self.sigma;
        bundle_rows::write_residuals(cloud, cloud.centroid(), n, info, residual);
        if jacobian.is_empty() {
            return;
        }
        bundle_rows::write_jacobian(
            self.points.counts,
            self.state,
            self.dof as usize,
            n,
            info,
            cloud.count(),
            jacobian,
        );
    }
}

// The host's call: a residual for each point, and the Jacobian by columns unless it is empty, which means not wanted. A call that is refused writes nothing.
pub fn linearize(
    dof: u32,
    counts: &[u32],
    points: &[f64],
    d_state: &[f64],
    fixed: &[f64],
    sigma: f64,
    decomposition: &[u64],
    residual: &mut [f64],
    jacobian: &mut [f64],
) -> Result<(), Refusal>
    ensures { Linearizes (record { dof = dof; counts = counts.now; points = points.now; d_state = d_state.now; fixed = fixed.now; sigma = sigma; decomposition = decomposition.now }) residual.old jacobian.old (number result) residual.new jacobian.new }
{
    let call = Call {
        dof,
        points: Points {
            counts,
            site: points,
            fixed,
        },
        state: d_state,
        sigma,
        decomposition,
    };
    call.shape_refusal(residual.len(), jacobian.len())?;
    let cloud = Cloud::new(points, fixed);
    if cloud.some_not_finite() {
        return Err(Refusal::NotFinite);
    }
    if !validate::is_positive(sigma) {
        return Err(Refusal::BadSigma);
    }
    call.write(&cloud, residual, jacobian);
    Ok(())
}
