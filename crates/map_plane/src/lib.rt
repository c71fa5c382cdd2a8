// One match of a point with a map plane: why it is turned away, and its residual and row below the chain that carries its point into the site.
#![tactic(auto)]

ghost use Rattle.std.specs.Prelude.{◌≡◌, ◌+◌, ◌*◌, ◌≤◌, length};
ghost use Rattle.refusals.specs.Refusal.{first_of};
ghost use Rattle.refusals.specs.Number.{number};
ghost use Rattle.sums.specs.Fill.{First, written};
ghost use Rattle.lists.specs.Part.{part};
ghost use Rattle.std.specs.Float.{binary64};
ghost use Rattle.std.specs.Float.Ieee.{div};
ghost use Rattle.map_plane.specs.Match.{MATCH, one, match_reasons};
ghost use Rattle.map_plane.specs.Named.{match_of, residual_of, row_of};
ghost use Rattle.map_plane.specs.Linearize.{EXTRINSIC, projected, state_column, bad_lengths, bad_row, Linearized};

use derivative::MOST_DOF;
use plane::Plane;
use refusals::Refusal;

// How many numbers a match is: the point, the plane's normal and offset, sigma.
pub const MATCH: usize = 8;

// A match by its parts. Sigma is the standard deviation of the point's distance from the plane.
#[derive(Clone, Copy)]
pub struct Match {
    pub point: [f64; 3],
    pub plane: Plane,
    pub sigma: f64,
}

impl Match {
    // The match at a place of a list.
    #[inline(always)]
    pub fn read(list: &[f64], at: usize) -> Match
        requires { at + MATCH ≤ length list.now }
        ensures { result ≡ match_of (part MATCH list.now at) }
    {
        let normal = [list[at + 3], list[at + 4], list[at + 5]];
        let plane = Plane {
            normal,
            offset: list[at + 6],
        };
        Match {
            point: [list[at], list[at + 1], list[at + 2]],
            plane,
            sigma: list[at + 7],
        }
    }

    // What scales the distance and its derivatives.
    #[inline(always)]
    pub fn information(self) -> f64
        ensures { result ≡ div binary64 one self.sigma }
    {
        1.0 / self.sigma
    }
}

// The columns of the extrinsic Jacobian.
const EXTRINSIC: usize = 6;

// Whether the match at a place of a list is turned away. One early return a test: tests joined into one bool compile to slower code.
pub fn match_refusal(list: &[f64], at: usize) -> Result<(), Refusal>
    requires { at + MATCH ≤ length list.now }
    ensures { number result ≡ first_of (match_reasons (part MATCH list.now at)) }
{
    if !validate::is_finite(list[at]) {
        return Err(Refusal::NotFinite);
    }
    if !validate::is_finite(list[at + 1]) {
        return Err(Refusal::NotFinite);
    }
    if !validate::is_finite(list[at + 2]) {
        return Err(Refusal::NotFinite);
    }
    if !validate::is_positive(list[at + 7]) {
        return Err(Refusal::BadSigma);
    }
    Ok(())
}

// nᵀ times column c of a matrix of three rows.
#[tactic(auto, unfolding(crate::specs::Linearize::projected))]
fn project(n: [f64; 3], columns: &[f64], c: usize) -> f64
    requires { c * 3 + 3 ≤ length columns.now }
    ensures { result ≡ projected n columns.now c }
{
    let i = c * 3;
    n[0] * columns[i] + n[1] * columns[i + 1] + n[2] * columns[i + 2]
}

// A state's column: information scales the whole projection.
pub fn state_column(info: f64, n: [f64; 3], columns: &[f64], c: usize) -> f64
    requires { c * 3 + 3 ≤ length columns.now }
    ensures { result ≡ state_column info n columns.now c }
{
    info * project(n, columns, c)
}

// The state's columns.
fn write_state(info: f64, n: [f64; 3], columns: &[f64], width: usize, row: &mut [f64])
    requires { (width * 3 ≤ length columns.now) × (width ≤ length row.old) }
    ensures { First width row.new (state_column info n columns.now) × (length row.new ≡ length row.old) }
{
    for c in 0..width {
        row[c] = state_column(info, n, columns, c);
    }
}

// The extrinsic columns, from a place on: n comes scaled.
fn write_extrinsic(n: [f64; 3], columns: &[f64], from: usize, row: &mut [f64])
    requires { (EXTRINSIC * 3 ≤ length columns.now) × (from + EXTRINSIC ≤ length row.old) }
    ensures { row.new ≡ written row.old from EXTRINSIC (projected n columns.now) }
{
    for c in 0..EXTRINSIC {
        row[from + c] = project(n, columns, c);
    }
}

// The whole row.
fn write_row(matched: Match, width: usize, d_state: &[f64], d_extrinsic: &[f64], row: &mut [f64])
    requires { (width * 3 ≤ length d_state.now) × (EXTRINSIC * 3 ≤ length d_extrinsic.now) × (length row.old ≡ width + EXTRINSIC) }
    ensures { row.new ≡ row_of matched width d_state.now d_extrinsic.now }
{
    let n = matched.plane.normal;
    let info = matched.information();
    write_state(info, n, d_state, width, row);
    write_extrinsic(
        [info * n[0], info * n[1], info * n[2]],
        d_extrinsic,
        width,
        row,
    );
}

// Information times the distance of the point in the world from the plane.
fn whitened(matched: Match, world: [f64; 3]) -> f64
    ensures { result ≡ residual_of matched world }
{
    let plane = matched.plane;
    matched.information() * (linear::dot3(plane.normal, world) + plane.offset)
}

// 3, of the slices that are read.
#[tactic(auto, unfolding(crate::specs::Linearize::bad_lengths))]
fn bad_inputs(width: usize, matched: usize, world: usize, state: usize, extrinsic: usize) -> bool
    requires { width ≤ 9 }
    ensures { result ≡ bad_lengths width matched world state extrinsic }
{
    if matched != MATCH {
        return true;
    }
    if world != 3 {
        return true;
    }
    if state != width * 3 {
        return true;
    }
    extrinsic != EXTRINSIC * 3
}

// 3, of the row.
#[tactic(auto, unfolding(crate::specs::Linearize::bad_row))]
fn bad_row(width: usize, cells: usize) -> bool
    requires { width ≤ 9 }
    ensures { result ≡ bad_row width cells }
{
    if cells == 0 {
        return false;
    }
    cells != width + EXTRINSIC
}

// The host's call: the residual, and the row unless it is empty, which means not wanted. Nothing is written where it is refused.
#[tactic(auto, unfolding(crate::specs::Linearize::linearize_refusal))]
pub fn linearize(
    dof: u32,
    matched: &[f64],
    world: &[f64],
    d_state: &[f64],
    d_extrinsic: &[f64],
    residual: &mut f64,
    row: &mut [f64],
) -> Result<(), Refusal>
    ensures { Linearized (record { dof = dof; matched = matched.now; world = world.now; d_state = d_state.now; d_extrinsic = d_extrinsic.now }) (number result) residual.old row.old residual.new row.new }
{
    if dof > MOST_DOF {
        return Err(Refusal::DofTooLarge);
    }
    if matched.len() == 0 {
        return Err(Refusal::EmptyList);
    }
    let width = dof as usize;
    if bad_inputs(
        width,
        matched.len(),
        world.len(),
        d_state.len(),
        d_extrinsic.len(),
    ) {
        return Err(Refusal::WrongLength);
    }
    if bad_row(width, row.len()) {
        return Err(Refusal::WrongLength);
    }
    match_refusal(matched, 0)?;
    let matched = Match::read(matched, 0);
    *residual = whitened(matched, lists::three(world, 0));
    if row.len() == 0 {
        return Ok(());
    }
    write_row(matched, width, d_state, d_extrinsic, row);
    Ok(())
}
