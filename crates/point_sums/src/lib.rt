// The sums that the moments of a list of points are made of, in one pass.
#![tactic(auto)]

ghost use Rattle.std.specs.Prelude.{◌≡◌, ◌*◌, ◌≤◌, length};
ghost use Rattle.point_sums.specs.Sums.{with_point, sums_of};

// Of the coordinates, and of the six products of two of them that differ: y·x has the bits of x·y. The compiler adds two neighbours in one register, so their order
// decides how fast the loop is.
#[derive(Clone, Copy, Default)]
pub struct Sums {
    pub xy: f64,
    pub yz: f64,
    pub xx: f64,
    pub yy: f64,
    pub x: f64,
    pub y: f64,
    pub xz: f64,
    pub zz: f64,
    pub z: f64,
}

#[tactic(auto, unfolding(crate::specs::Sums::with_point))]
fn with_point(s: Sums, p: [f64; 3]) -> Sums
    ensures { result ≡ with_point s p }
{
    let [x, y, z] = p;
    Sums {
        xy: s.xy + x * y,
        yz: s.yz + y * z,
        xx: s.xx + x * x,
        yy: s.yy + y * y,
        x: s.x + x,
        y: s.y + y,
        xz: s.xz + x * z,
        zz: s.zz + z * z,
        z: s.z + z,
    }
}

// Of the first n points. It is not inlined: the loop is then compiled by the order of `Sums`, and not by that of the record that a caller makes of it, which pairs the
// sums worse.
#[inline(never)]
#[tactic(auto, unfolding(crate::specs::Sums::sums_of))]
pub fn sums_of(points: &[f64], n: usize) -> Sums
    requires { n * 3 ≤ length points.now }
    ensures { result ≡ sums_of n points.now }
{
    let mut sums = Sums::default();
    for i in 0..n {
        sums = with_point(sums, lists::three(points, i * 3));
    }
    sums
}
