// A plane with a unit normal, and the standard deviation of a point's distance from it.
#![tactic(auto)]

ghost use Rattle.std.specs.Prelude.{◌≡◌, ◌+◌, ◌≤◌, length};
ghost use Rattle.sums.specs.Sum.{◌⊗◌, sum_to, off};
ghost use Rattle.lists.specs.Part.{◌!◌};
ghost use Rattle.plane.specs.Plane.{plane_of, plane_list, plane_new};
ghost use Rattle.plane.specs.Sigma.{jacobian, point_term, plane_term, variance, deviation};

use refusals::Refusal;

// The points x with normal·x + offset = 0.
#[derive(Clone, Copy)]
pub struct Plane {
    pub normal: [f64; 3],
    pub offset: f64,
}

// How many numbers a plane is as a list.
pub const PLANE: usize = 4;

// The norm of a normal lies above this.
const LEAST_NORM: f64 = 1e-12;

impl Plane {
    // The plane of a normal of any length: normal and offset are divided by it.
    pub fn new(normal: [f64; 3], offset: f64) -> Result<Plane, Refusal>
        ensures { result ≡ plane_new normal offset }
    {
        let norm = square_root::sqrt(linear::dot3(normal, normal));
        if !validate::is_above(norm, LEAST_NORM) {
            return Err(Refusal::DegenerateNormal);
        }
        Ok(Plane {
            normal: linear::divided(normal, norm),
            offset: offset / norm,
        })
    }
}

// From a list of its numbers: normal, then offset.
impl From<[f64; PLANE]> for Plane {
    ghost from_gives = { λ l p. p ≡ plane_of l };

    fn from(l: [f64; PLANE]) -> Plane {
        Plane {
            normal: [l[0], l[1], l[2]],
            offset: l[3],
        }
    }
}

impl From<Plane> for [f64; PLANE] {
    ghost from_gives = { λ p l. l ≡ plane_list p };

    fn from(p: Plane) -> [f64; PLANE] {
        let n = p.normal;
        [n[0], n[1], n[2], p.offset]
    }
}

// nᵀ a p aᵀ n, from the left.
fn point_term(n: [f64; 3], a: [f64; 9], p: [f64; 9]) -> f64
    ensures { result ≡ point_term n a p }
{
    let t = linear::vec_mat(n, a);
    let u = linear::vec_mat(t, p);
    let v = linear::vec_mat(u, linear::transposed(a));
    linear::dot3(v, n)
}

// How the distance changes with the plane's normal and with its centroid o.
fn jacobian(w: [f64; 3], o: [f64; 3], n: [f64; 3]) -> [f64; 6]
    ensures { result ≡ jacobian w o n }
{
    [w[0] - o[0], w[1] - o[1], w[2] - o[2], -n[0], -n[1], -n[2]]
}

// The sum of products of six numbers with those of a list, from a place on.
fn dot6(j: [f64; 6], c: &[f64], at: usize) -> f64
    requires { at + 6 ≤ length c.now }
    ensures { result ≡ sum_to 6 (λ k. j ! k ⊗ c.now ! off at k) }
{
    j[0] * c[at]
        + j[1] * c[at + 1]
        + j[2] * c[at + 2]
        + j[3] * c[at + 3]
        + j[4] * c[at + 4]
        + j[5] * c[at + 5]
}

// jᵀ c j, from the left.
fn plane_term(j: [f64; 6], c: &[f64; 36]) -> f64
    ensures { result ≡ plane_term j c.now }
{
    let q = [
        dot6(j, c, 0),
        dot6(j, c, 6),
        dot6(j, c, 12),
        dot6(j, c, 18),
        dot6(j, c, 24),
        dot6(j, c, 30),
    ];
    dot6(q, &j, 0)
}

// The square root of a variance, which has to be finite and positive.
fn deviation(x: f64) -> Result<f64, Refusal>
    ensures { result ≡ deviation x }
{
    if !validate::is_positive(x) {
        return Err(Refusal::BadVariance);
    }
    Ok(square_root::sqrt(x))
}

// `plane_covariance` is that of the plane's normal and centroid together; `d_world_d_point` takes a displacement of the scanned point,
// whose covariance is `point_covariance`, to the world.
pub fn point_to_plane_sigma(
    plane: Plane,
    centroid: [f64; 3],
    plane_covariance: &[f64; 36],
    point_covariance: [f64; 9],
    world: [f64; 3],
    d_world_d_point: [f64; 9],
) -> Result<f64, Refusal>
    ensures { result ≡ deviation (variance plane.normal centroid plane_covariance.now point_covariance world d_world_d_point) }
{
    let n = plane.normal;
    let point = point_term(n, d_world_d_point, point_covariance);
    let plane = plane_term(jacobian(world, centroid, n), plane_covariance);
    deviation(point + plane)
}
