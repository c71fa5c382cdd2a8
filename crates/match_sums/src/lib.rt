// What a match list sums to under an action: its cost, and the block and the vector of the normal equations, by groups of 512 matches.
// row_i·row_j and row_j·row_i have the same bits, so only the upper half of the block is summed; it is mirrored at the end.
#![tactic(auto)]

ghost use Rattle.std.specs.Prelude.{◌≡◌, ℕ, ◌+◌, ◌*◌, ◌/◌, ◌<◌, ◌≤◌, ◌-◌, length};
ghost use Rattle.sums.specs.Sum.{◌⊗◌, zero_f, sum_from, grid};
ghost use Rattle.sums.specs.Fill.{First};
ghost use Rattle.lists.specs.Part.{◌!◌};
ghost use Rattle.map_plane.specs.Match.{MATCH};
ghost use Rattle.match_rows.specs.Row.{residual_at, information_at};
ghost use Rattle.match_rows.specs.ByRows.{by_rows, row_by_at};
ghost use Rattle.match_sums.specs.Groups.{GROUP, groups, group_size, group_sum, by_groups, cost_term, block_term, vector_term, match_count, list_cost};
ghost use Rattle.match_sums.specs.Cells.{squares, slants, Added, Summed, Raised, upper_place};
ghost use Rattle.match_sums.specs.Batch.{batch_cost, batch_block, batch_vector};
ghost use Rattle.match_sums.specs.Sums.{SumsAre};

use derivative::ACTION;
use map_plane::MATCH;

// How many matches are summed before their sum is added.
pub const GROUP: usize = 512;

// A match list, the action that carries its points, and the action's derivative by rows.
#[derive(Clone, Copy)]
struct Listed<'a> {
    list: &'a [f64],
    action: &'a [f64; ACTION],
    rows: &'a [f64; 108],
    ghost rows_are: { rows.now ≡ by_rows action.now },
}

// What matches are summed in: the block, of which the upper half is kept, and the vector.
#[derive(Drop)]
struct Upper {
    block: [f64; 81],
    vector: [f64; 9],
}

// Adds `row` times `a` to the first c + 1 cells of column c.
#[inline(always)]
fn add_column<const W: usize>(row: &[f64; W], a: f64, c: usize, h: &mut [f64; 81])
    requires { (c < W) × (W ≤ 9) }
    ensures { Raised (c * 9) (c + 1) (λ i. row.now ! i ⊗ a) h.old h.new }
{
    let from = c * 9;
    for i in 0..c + 1 {
        let at = from + i;
        h[at] = h[at] + row[i] * a;
    }
}

// Adds the products of a row's numbers to the upper half of the block, and those with r to the vector.
#[inline(always)]
fn add_row<const W: usize>(row: &[f64; W], r: f64, u: &mut Upper)
    requires { W ≤ 9 }
    ensures { Added W (squares (λ c. row.now ! c)) (slants (λ c. row.now ! c) r) u.old.block u.old.vector u.new.block u.new.vector }
{
    for c in 0..W {
        let a = row[c];
        add_column(row, a, c, &mut u.block);
        u.vector[c] = u.vector[c] + a * r;
    }
}

// The most matches whose informations and residuals are worked out before the matches are added.
const BATCH: usize = 16;

// The informations and residuals of `size` matches of a list from match `from` on.
#[derive(Drop)]
struct Batch {
    from: usize,
    size: usize,
    infos: [f64; 16],
    residuals: [f64; 16],
}

impl Batch {
    // The loop's stores are neighbours, so that the compiler works out two matches at a time.
    fn of(m: &Listed, from: usize, size: usize) -> Batch
        requires { ((from + size) * MATCH ≤ length m.now.list.now) × (size ≤ 16) }
        ensures { (result.from ≡ from) × (result.size ≡ size) × First size result.infos (λ k. information_at m.now.list.now (from + k)) × First size result.residuals (λ k. residual_at m.now.action.now m.now.list.now (from + k)) }
    {
        let mut infos = [0.0; 16];
        let mut residuals = [0.0; 16];
        for k in 0..size {
            infos[k] = match_rows::information_at(m.list, from + k);
            residuals[k] = match_rows::residual_at(m.list, from + k, m.action);
        }
        Batch {
            from,
            size,
            infos,
            residuals,
        }
    }
}

// Adds match k, whose information and residual are worked out, with the first W numbers of its row.
#[inline(always)]
fn add_match<const W: usize>(m: &Listed, k: usize, info: f64, r: f64, u: &mut Upper)
    requires { (k * MATCH + MATCH ≤ length m.now.list.now) × (W ≤ 9) }
    ensures { Added W (squares (row_by_at m.now.rows.now m.now.list.now k info)) (slants (row_by_at m.now.rows.now m.now.list.now k info) r) u.old.block u.old.vector u.new.block u.new.vector }
{
    let row = match_rows::row_at::<W>(m.list, k, m.rows, info);
    add_row(&row, r, u);
}

// Adds the matches of a batch, and gives the cost with their squared residuals.
fn add_batch<const W: usize>(m: &Listed, b: &Batch, u: &mut Upper, cost: f64) -> f64
    requires { ((b.now.from + b.now.size) * MATCH ≤ length m.now.list.now) × (b.now.size ≤ 16) × (W ≤ 9) }
    ensures { (result ≡ sum_from cost b.now.size (batch_cost b.now.residuals)) × Summed W b.now.size (batch_block m.now.rows.now m.now.list.now b.now.from b.now.infos) (batch_vector m.now.rows.now m.now.list.now b.now.from b.now.infos b.now.residuals) u.old.block u.old.vector u.new.block u.new.vector }
{
    let mut sum = cost;
    for k in 0..b.size {
        let r = b.residuals[k];
        add_match::<W>(m, b.from + k, b.infos[k], r, u);
        sum = sum + r * r;
    }
    sum
}

// The same with the first `dof` numbers of each row: a copy of the code for each width.
fn add_batch_by(m: &Listed, b: &Batch, dof: usize, u: &mut Upper, cost: f64) -> f64
    requires { ((b.now.from + b.now.size) * MATCH ≤ length m.now.list.now) × (b.now.size ≤ 16) × (dof ≤ 9) }
    ensures { (result ≡ sum_from cost b.now.size (batch_cost b.now.residuals)) × Summed dof b.now.size (batch_block m.now.rows.now m.now.list.now b.now.from b.now.infos) (batch_vector m.now.rows.now m.now.list.now b.now.from b.now.infos b.now.residuals) u.old.block u.old.vector u.new.block u.new.vector }
{
    match dof {
        0 => add_batch::<0>(m, b, u, cost),
        1 => add_batch::<1>(m, b, u, cost),
        2 => add_batch::<2>(m, b, u, cost),
        3 => add_batch::<3>(m, b, u, cost),
        4 => add_batch::<4>(m, b, u, cost),
        5 => add_batch::<5>(m, b, u, cost),
        6 => add_batch::<6>(m, b, u, cost),
        7 => add_batch::<7>(m, b, u, cost),
        8 => add_batch::<8>(m, b, u, cost),
        9 => add_batch::<9>(m, b, u, cost),
        _ => unreachable!(),
    }
}

// Adds `size` matches from `from` on, batch after batch, and gives the sum of their squared residuals.
fn add_group(m: &Listed, from: usize, size: usize, dof: usize, u: &mut Upper) -> f64
    requires { ((from + size) * MATCH ≤ length m.now.list.now) × (dof ≤ 9) }
    ensures { (result ≡ sum_from zero_f size (λ k. cost_term m.now.action.now m.now.list.now (from + k))) × Summed dof size (λ i j k. block_term m.now.action.now m.now.list.now i j (from + k)) (λ i k. vector_term m.now.action.now m.now.list.now i (from + k)) u.old.block u.old.vector u.new.block u.new.vector }
{
    let mut cost = 0.0;
    for i in (0..size).step_by(BATCH) {
        let b = Batch::of(m, from + i, lists::batch_size(size, i, BATCH));
        cost = add_batch_by(m, &b, dof, u, cost);
    }
    cost
}

// b added to a, number by number.
fn add_numbers<const N: usize>(b: &[f64; N], a: &mut [f64; N])
    ensures { Raised 0 (length b.now) (λ k. b.now ! k) a.old a.new }
{
    for i in 0..N {
        a[i] = a[i] + b[i];
    }
}

// How many groups n matches make.
fn group_count(n: usize) -> usize
    requires { n < 2000000000000000000 }
    ensures { result ≡ groups n }
{
    (n + 511) / GROUP
}

// How many of n matches are in group q.
#[tactic(auto, unfolding(crate::specs::Groups::group_size))]
fn group_size(n: usize, q: usize) -> usize
    requires { (n < 2000000000000000000) × (q * GROUP < n) }
    ensures { result ≡ group_size n q }
{
    let from = q * GROUP;
    if from + GROUP <= n {
        return GROUP;
    }
    n - from
}

// Sums group q from +0, adds its sums to u, and gives its cost.
fn add_group_sums(m: &Listed, q: usize, dof: usize, u: &mut Upper) -> f64
    requires { (q * GROUP < match_count m.now.list.now) × (dof ≤ 9) }
    ensures { (result ≡ group_sum (match_count m.now.list.now) (cost_term m.now.action.now m.now.list.now) q) × Added dof (λ i j. group_sum (match_count m.now.list.now) (block_term m.now.action.now m.now.list.now i j) q) (λ i. group_sum (match_count m.now.list.now) (vector_term m.now.action.now m.now.list.now i) q) u.old.block u.old.vector u.new.block u.new.vector }
{
    let n = m.list.len() / MATCH;
    let size = group_size(n, q);
    let from = q * GROUP;
    let mut sums = Upper {
        block: [0.0; 81],
        vector: [0.0; 9],
    };
    let cost = add_group(m, from, size, dof, &mut sums);
    add_numbers(&sums.block, &mut u.block);
    add_numbers(&sums.vector, &mut u.vector);
    cost
}

// The groups' sums, summed in order.
fn add_groups(m: &Listed, dof: usize, u: &mut Upper) -> f64
    requires { dof ≤ 9 }
    ensures { (result ≡ list_cost m.now.action.now m.now.list.now) × Summed dof (groups (match_count m.now.list.now)) (λ i j. group_sum (match_count m.now.list.now) (block_term m.now.action.now m.now.list.now i j)) (λ i. group_sum (match_count m.now.list.now) (vector_term m.now.action.now m.now.list.now i)) u.old.block u.old.vector u.new.block u.new.vector }
{
    let n = m.list.len() / MATCH;
    let mut cost = 0.0;
    for q in 0..group_count(n) {
        cost = cost + add_group_sums(m, q, dof, u);
    }
    cost
}

// Where the upper half has cell i, j.
#[tactic(auto, unfolding(crate::specs::Cells::upper_place))]
fn upper_place(i: usize, j: usize) -> usize
    requires { (i < 9) × (j < 9) }
    ensures { (result ≡ upper_place i j) × (result < 81) }
{
    if i <= j {
        return j * 9 + i;
    }
    i * 9 + j
}

// The whole block of its upper half.
fn mirrored(h: &[f64; 81]) -> [f64; 81]
    ensures { result ≡ grid 9 9 (λ i j. h.now ! upper_place i j) }
{
    let mut out = [0.0; 81];
    for j in 0..9 {
        for i in 0..9 {
            out[j * 9 + i] = h[upper_place(i, j)];
        }
    }
    out
}

#[derive(Clone, Copy)]
pub struct MatchSums {
    pub cost: f64,
    pub block: [f64; 81],
    pub vector: [f64; 9],
}

// What a match list sums to: the block by columns of nine numbers, of which the first `dof` count.
pub fn match_sums(list: &[f64], x: &[f64; ACTION], dof: usize) -> MatchSums
    requires { dof ≤ 9 }
    ensures { SumsAre x.now list.now dof result }
{
    let t = match_rows::by_rows(x);
    let mut upper = Upper {
        block: [0.0; 81],
        vector: [0.0; 9],
    };
    let m = Listed {
        list,
        action: x,
        rows: &t,
    };
    let cost = add_groups(&m, dof, &mut upper);
    let block = mirrored(&upper.block);
    MatchSums {
        cost,
        block,
        vector: upper.vector,
    }
}

// The sum of the squared residuals of `size` matches from `from` on.
fn group_cost(list: &[f64], from: usize, size: usize, x: &[f64; ACTION]) -> f64
    requires { (from + size) * MATCH ≤ length list.now }
    ensures { result ≡ sum_from zero_f size (λ k. cost_term x.now list.now (from + k)) }
{
    let mut cost = 0.0;
    for k in 0..size {
        let r = match_rows::residual_at(list, from + k, x);
        cost = cost + r * r;
    }
    cost
}

// The cost alone, by groups: the same number without rows and blocks.
pub fn cost(list: &[f64], x: &[f64; ACTION]) -> f64
    ensures { result ≡ list_cost x.now list.now }
{
    let n = list.len() / MATCH;
    let mut cost = 0.0;
    for q in 0..group_count(n) {
        cost = cost + group_cost(list, q * GROUP, group_size(n, q), x);
    }
    cost
}
