// The mean of a set of points, the scatter about it, and the set as a centred frame.
ghost use Rattle.std.specs.Prelude.{◌≡◌, true, length};
ghost use Rattle.point_moments.specs.Scatter.{CENTRED, has_mean, mean_and_scatter, centred, centred_of, centred_list};

use crate::PointMoments;

// The scatter is by columns.
#[derive(Clone, Copy)]
pub struct MeanAndScatter {
    pub mean: [f64; 3],
    pub scatter: [f64; 9],
}

// How many numbers a centred frame is.
pub const CENTRED: usize = 13;

// A set centred on its mean: the scatter is here times the count. A type of its own, though its numbers lie as those of `PointMoments` do: sums are not to be taken
// for a mean.
#[derive(Clone, Copy)]
pub struct Centred {
    pub count: f64,
    pub mean: [f64; 3],
    pub scatter: [f64; 9],
}

impl PointMoments {
    // None where the count is at or below 0.
    pub fn mean_and_scatter(self) -> Option<MeanAndScatter>
        ensures { result ≡ mean_and_scatter self }
    {
        let n = self.count;
        if n <= 0.0 {
            return None;
        }
        let sum = self.sum;
        let o = self.outer;
        let mean = linear::divided(sum, n);
        let scatter = moment_matrices::scatter_of(o, mean, n);
        Some(MeanAndScatter { mean, scatter })
    }

    // The set as a frame of the factor takes it. Only of a set that has a mean: a build tests that before.
    #[tactic(auto, unfolding(crate::specs::Scatter::centred))]
    pub fn centred(self) -> Centred
        requires { has_mean self ≡ true }
        ensures { result ≡ centred self }
    {
        let n = self.count;
        let s = self.sum;
        let o = self.outer;
        let mean = linear::divided(s, n);
        let scatter = linear::scaled(moment_matrices::scatter_of(o, mean, n), n);
        Centred {
            count: n,
            mean,
            scatter,
        }
    }
}

impl Centred {
    // Between a frame and a list of CENTRED numbers, as of `PointMoments`: only these know the places.
    pub fn from_list(l: &[f64]) -> Centred
        requires { length l.now ≡ CENTRED }
        ensures { result ≡ centred_of l.now }
    {
        let mean = lists::three(l, 1);
        let scatter = lists::nine(l, 4);
        Centred {
            count: l[0],
            mean,
            scatter,
        }
    }

    pub fn to_list(self) -> [f64; CENTRED]
        ensures { result ≡ centred_list self }
    {
        let u = self.mean;
        let s = self.scatter;
        lists::one_and_twelve(self.count, lists::three_and_nine(u, s))
    }

    pub fn write(self, l: &mut [f64])
        requires { length l.old ≡ CENTRED }
        ensures { l.new ≡ centred_list self }
    {
        let r = self.to_list();
        lists::store(l, &r);
    }
}
