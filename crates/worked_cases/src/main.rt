// Runs document 01's worked cases, a case of the frame factor in whole numbers and a full set through the proved functions and writes what they give; the file
// `stdout` holds what was worked out on paper.
#![tactic(auto)]

ghost use Rattle.std.specs.Prelude.{◌≡◌};
ghost use Rattle.refusals.specs.Refusal.{kept};
ghost use Rattle.point_moments.specs.Moments.{with_point, merged};
ghost use Rattle.counted_moments.specs.Counted.{push_refusal, merge_refusal};

use point_moments::PointMoments;
use refusals::told;
use std::io;

// The places of three patterns in rising order.
fn order(rt: &impl Print, label: &str, a: u64, b: u64, c: u64) -> io::Result<()> {
    let o = total_order::order_of_three(a, b, c);
    println!(rt; "{label}{} {} {}", o.first, o.second, o.third)
}

// The pattern of a number; of a NaN the quiet one without payload, since `to_bits` is not asked of NaNs.
fn bits_of(x: f64) -> u64 {
    if x != x {
        0x7ff8_0000_0000_0000
    } else {
        f64::to_bits(x)
    }
}

// The root of the number that a pattern stands for, by its pattern.
fn root(rt: &impl Print, label: &str, bits: u64) -> io::Result<()> {
    let r = square_root::sqrt(total_order::number(bits));
    println!(rt; "{label}{:016x}", bits_of(r))
}

// The patterns of a list of numbers.
fn list(rt: &impl Print, label: &str, numbers: &[f64]) -> io::Result<()> {
    print!(rt; "{label}")?;
    for x in numbers {
        print!(rt; " {:016x}", bits_of(*x))?;
    }
    println!(rt; "")
}

// The moments of a list of points; of one that is refused, the empty set's.
fn gathered(points: &[f64]) -> PointMoments {
    match point_moments::points_refusal(points) {
        Ok(()) => PointMoments::from_points(points),
        Err(_) => PointMoments::empty(),
    }
}

fn moments(rt: &impl Print, label: &str, m: PointMoments) -> io::Result<()> {
    list(rt, label, &m.to_list())
}

// The mean of a set and the scatter about it.
fn mean(rt: &impl Print, label: &str, m: PointMoments) -> io::Result<()> {
    match m.mean_and_scatter() {
        Some(f) => {
            let mean = f.mean;
            let scatter = f.scatter;
            list(rt, label, &lists::three_and_nine(mean, scatter))
        }
        None => list(rt, label, &[]),
    }
}

// A local record that is lent, and comes back with one point more, or with another set; as it was, where that is refused.
fn pushed(m: PointMoments, p: [f64; 3]) -> PointMoments
    ensures { result ≡ kept (push_refusal m p) m (with_point m p) }
{
    let mut v = m;
    let _ = lent_moments::push(&mut v, p);
    v
}

fn merged(m: PointMoments, other: PointMoments) -> PointMoments
    ensures { result ≡ kept (merge_refusal m other) m (merged m other) }
{
    let mut v = m;
    let _ = lent_moments::merge(&mut v, other);
    v
}

const CORNERS: [f64; 12] = [0.0, 0.0, 0.0, 2.0, 0.0, 0.0, 0.0, 2.0, 0.0, 2.0, 2.0, 0.0];

const IDENTITY: [f64; 9] = [1.0, 0.0, 0.0, 0.0, 1.0, 0.0, 0.0, 0.0, 1.0];

fn corners() -> PointMoments {
    let c = CORNERS;
    gathered(&c)
}

// The same, each half pushed point by point into a lent record, and the second merged into the first.
fn halves() -> PointMoments {
    let near = pushed(
        pushed(PointMoments::empty(), [0.0, 0.0, 0.0]),
        [2.0, 0.0, 0.0],
    );
    let far = pushed(
        pushed(PointMoments::empty(), [0.0, 2.0, 0.0]),
        [2.0, 2.0, 0.0],
    );
    merged(near, far)
}

// So many points at the origin that no more are counted.
fn full() -> PointMoments {
    PointMoments {
        count: 9007199254740992.0,
        ..PointMoments::empty()
    }
}

// Why a push and a merge into that set are refused, and the set after each.
fn refused(rt: &impl Print, p: [f64; 3]) -> io::Result<()> {
    let one = pushed(PointMoments::empty(), p);
    print!(rt; "{}", told(counted_moments::push_refusal(full(), p)))?;
    moments(rt, " pushed", pushed(full(), p))?;
    print!(rt; "{}", told(counted_moments::merge_refusal(full(), one)))?;
    moments(rt, " merged", merged(full(), one))
}

// Eigenvalues 0, 1e-12 and 200, and the unit axes, by their patterns.
const NARROW: [u64; 12] = [
    0x0000_0000_0000_0000,
    0x3d71_9799_812d_ea11,
    0x4069_0000_0000_0000,
    0x3ff0_0000_0000_0000,
    0x0000_0000_0000_0000,
    0x0000_0000_0000_0000,
    0x0000_0000_0000_0000,
    0x3ff0_0000_0000_0000,
    0x0000_0000_0000_0000,
    0x0000_0000_0000_0000,
    0x0000_0000_0000_0000,
    0x3ff0_0000_0000_0000,
];

// Whether a set of points has a plane by a decomposition.
fn plane(rt: &impl Print, label: &str, m: PointMoments) -> io::Result<()> {
    let d = NARROW;
    match m.plane(&d) {
        Some(_) => println!(rt; "{label} plane"),
        None => println!(rt; "{label} none"),
    }
}

// The moments of so many points, all at the origin.
fn points_at_the_origin(count: f64) -> [f64; 13] {
    let mut m = [0.0; 13];
    m[0] = count;
    m
}

// Building the factor of one frame of so many points and a fixed set: the reason to refuse, or 0 and the point total.
fn build(rt: &impl Print, label: &str, count: f64, fixed: f64) -> io::Result<()> {
    let frame = points_at_the_origin(count);
    let set = points_at_the_origin(fixed);
    let mut frames = [0.0; 13];
    let mut sets = [0.0; 13];
    let mut points = 0.0;
    let mut dropped: u32 = 0;
    let answer = plane_moments::build::build(
        6,
        &frame,
        &set,
        1.0,
        &mut frames,
        &mut sets,
        &mut points,
        &mut dropped,
    );
    print!(rt; "{label}{}", told(answer))?;
    list(rt, "", &[points])
}

// The case in whole numbers: a frame of four points, the identity, one column, and decompositions with the unit axes, the fit's and the frame's.
const SQUARE: [f64; 13] = [
    4.0, 1.0, 1.0, 0.0, 4.0, 0.0, 0.0, 0.0, 4.0, 0.0, 0.0, 0.0, 0.0,
];

const UPRIGHT: [u64; 24] = [
    0x0000_0000_0000_0000,
    0x3ff0_0000_0000_0000,
    0x4000_0000_0000_0000,
    0x3ff0_0000_0000_0000,
    0x0000_0000_0000_0000,
    0x0000_0000_0000_0000,
    0x0000_0000_0000_0000,
    0x3ff0_0000_0000_0000,
    0x0000_0000_0000_0000,
    0x0000_0000_0000_0000,
    0x0000_0000_0000_0000,
    0x3ff0_0000_0000_0000,
    0x4010_0000_0000_0000,
    0x4010_0000_0000_0000,
    0x0000_0000_0000_0000,
    0x3ff0_0000_0000_0000,
    0x0000_0000_0000_0000,
    0x0000_0000_0000_0000,
    0x0000_0000_0000_0000,
    0x3ff0_0000_0000_0000,
    0x0000_0000_0000_0000,
    0x0000_0000_0000_0000,
    0x0000_0000_0000_0000,
    0x3ff0_0000_0000_0000,
];

// The identity, with (3, 0, 0) as the first column of `origin` and (1, 0, 0) as that of `axes` for x.
fn moving_out() -> [f64; 120] {
    let mut x = [0.0; 120];
    x[0] = 1.0;
    x[4] = 1.0;
    x[8] = 1.0;
    x[12] = 3.0;
    x[39] = 1.0;
    x
}

// A call that is refused leaves the zeros, which are then printed.
fn accumulate(rt: &impl Print) -> io::Result<()> {
    let frames = SQUARE;
    let fixed = [0.0; 0];
    let actions = moving_out();
    let ds = UPRIGHT;
    let map: [u32; 1] = [0];
    let mut hessian = [0.0; 1];
    let mut gradient = [0.0; 1];
    let mut cost = 0.0;
    let _ = plane_moments::accumulate::accumulate(
        1,
        &frames,
        &fixed,
        0.5,
        &actions,
        &ds[0..12],
        &map,
        &mut hessian,
        &mut gradient,
        &mut cost,
    );
    list(rt, "cost", &[cost])?;
    list(rt, "hessian", &hessian)?;
    list(rt, "gradient", &gradient)
}

fn linearize(rt: &impl Print) -> io::Result<()> {
    let frames = SQUARE;
    let fixed = [0.0; 0];
    let actions = moving_out();
    let ds = UPRIGHT;
    let mut residual = [0.0; 8];
    let mut jacobian = [0.0; 8];
    let _ = plane_moments::linearize::linearize(
        1,
        &frames,
        &fixed,
        0.5,
        &actions,
        &ds,
        &mut residual,
        &mut jacobian,
    );
    list(rt, "residual", &residual)?;
    list(rt, "jacobian", &jacobian)
}

fn main(rt: HostRuntime) -> io::Result<()> {
    let point = [1.0, 2.0, 3.0];
    moments(&rt, "a", gathered(&point[0..0]))?;
    moments(&rt, "b", gathered(&point))?;
    moments(&rt, "b", pushed(PointMoments::empty(), point))?;
    mean(&rt, "c", corners())?;
    mean(&rt, "c", halves())?;
    moments(&rt, "d", corners().transformed(IDENTITY, [0.0, 0.0, 5.0]))?;
    order(
        &rt,
        "e ",
        0x3ff0_0000_0000_0000,
        0x3ff0_0000_0000_0000,
        0x0000_0000_0000_0000,
    )?;
    plane(&rt, "f", corners())?;
    order(
        &rt,
        "g ",
        0x8000_0000_0000_0000,
        0x0000_0000_0000_0000,
        0x3ff0_0000_0000_0000,
    )?;
    build(&rt, "h ", 5.0, -1.0)?;
    build(&rt, "i ", 5.0, -3.0)?;
    build(&rt, "j ", 2.0, 1.0)?;
    build(&rt, "j ", 2.0, 0.5)?;
    root(&rt, "k ", 0x4010_0000_0000_0000)?;
    root(&rt, "k ", 0x0000_0000_0000_0001)?;
    root(&rt, "k ", 0x4000_0000_0000_0000)?;
    accumulate(&rt)?;
    linearize(&rt)?;
    refused(&rt, point)
}
