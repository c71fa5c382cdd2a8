// What a plane is fitted to, point by point: the centroid of site points and fixed ones, and their scatter about it.
#![tactic(auto)]

ghost use Rattle.std.specs.Prelude.{◌≡◌, not, ◌++◌, ◌+◌};
ghost use Rattle.sums.specs.Sum.{tab};
ghost use Rattle.validate.specs.Finite.{all_finite};
ghost use Rattle.bundle_points.specs.Points.{point_count, coordinate_sum, centroid, scatter};
ghost use Rattle.bundle_points.specs.Steps.{Taken, add_points, add_spread};

// The most points, fixed ones too.
pub const MOST_POINTS: usize = 65536;

// The coordinates of a list's points, added to sums that are there already.
fn add_points(list: &[f64], from: [f64; 3]) -> [f64; 3]
    ensures { result ≡ add_points list.now from }
{
    let mut x = from[0];
    let mut y = from[1];
    let mut z = from[2];
    let (points, _) = list.as_chunks::<3>();
    for p in points {
        x = x + p[0];
        y = y + p[1];
        z = z + p[2];
    }
    [x, y, z]
}

// The products of the differences to q, added to sums that are there already: the entries (0,0), (0,1), (0,2), (1,1), (1,2) and (2,2).
fn add_spread(list: &[f64], q: [f64; 3], from: [f64; 6]) -> [f64; 6]
    ensures { result ≡ add_spread list.now q from }
{
    let q0 = q[0];
    let q1 = q[1];
    let q2 = q[2];
    let mut xx = from[0];
    let mut xy = from[1];
    let mut xz = from[2];
    let mut yy = from[3];
    let mut yz = from[4];
    let mut zz = from[5];
    let (points, _) = list.as_chunks::<3>();
    for p in points {
        let x = p[0] - q0;
        let y = p[1] - q1;
        let z = p[2] - q2;
        xx = xx + x * x;
        xy = xy + x * y;
        xz = xz + x * z;
        yy = yy + y * y;
        yz = yz + y * z;
        zz = zz + z * z;
    }
    [xx, xy, xz, yy, yz, zz]
}

// The points that one call takes, the site points and then the fixed ones, with the sums of their coordinates.
#[derive(Clone, Copy)]
pub struct Cloud<'a> {
    pub site: &'a [f64],
    pub fixed: &'a [f64],
    sums: [f64; 3],
    pub ghost taken: { Taken site.now fixed.now },
    ghost summed: { sums ≡ tab 3 (coordinate_sum (site.now ++ fixed.now)) },
}

impl<'a> Cloud<'a> {
    // The site points are summed first.
    pub fn new(site: &'a [f64], fixed: &'a [f64]) -> Cloud<'a>
        requires { Taken site.now fixed.now }
        ensures { (result.site.now ≡ site.now) × (result.fixed.now ≡ fixed.now) }
    {
        let first = add_points(site, [0.0, 0.0, 0.0]);
        Cloud {
            site,
            fixed,
            sums: add_points(fixed, first),
        }
    }

    // How many points there are.
    pub fn count(&self) -> usize
        ensures { result ≡ point_count self.now.site.now + point_count self.now.fixed.now }
    {
        self.site.len() / 3 + self.fixed.len() / 3
    }

    // Some coordinate is not finite. A sum of numbers that are not all finite is not finite either: the points are looked at one by one only where a sum
    // is not.
    pub fn some_not_finite(&self) -> bool
        ensures { result ≡ not (all_finite (self.now.site.now ++ self.now.fixed.now)) }
    {
        if validate::all_finite(&self.sums) {
            return false;
        }
        if validate::all_finite(self.site) {
            !validate::all_finite(self.fixed)
        } else {
            true
        }
    }

    // The centroid by the coordinates' sums.
    pub fn centroid(&self) -> [f64; 3]
        ensures { result ≡ centroid (self.now.site.now ++ self.now.fixed.now) }
    {
        linear::divided(self.sums, counts::number(self.count()))
    }

    // The scatter about q. The two factors of a product may be swapped, so that six sums serve for nine entries.
    pub fn scatter(&self, q: [f64; 3]) -> [f64; 9]
        ensures { result ≡ scatter (self.now.site.now ++ self.now.fixed.now) q }
    {
        let site = add_spread(self.site, q, [0.0, 0.0, 0.0, 0.0, 0.0, 0.0]);
        let all = add_spread(self.fixed, q, site);
        let n = counts::number(self.count());
        let xx = all[0] / n;
        let xy = all[1] / n;
        let xz = all[2] / n;
        let yy = all[3] / n;
        let yz = all[4] / n;
        let zz = all[5] / n;
        [xx, xy, xz, xy, yy, yz, xz, yz, zz]
    }
}
