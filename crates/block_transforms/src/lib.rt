// Transforms beside a map: the shape of each word's transform, and why a call with transforms is turned away.
#![tactic(auto)]

ghost use Rattle.std.specs.Prelude.{◌≡◌};
ghost use Rattle.refusals.specs.Number.{number};
ghost use Rattle.normal_blocks.specs.Map.{lookup, some_exceeds};
ghost use Rattle.block_transforms.specs.Transform.{shape_of, shape_at, width_under, width_at};
ghost use Rattle.block_transforms.specs.Reasons.{bad_beside, misfit, some_misfit, through_refusal};

use refusals::Refusal;

// The rows and the columns that say that a word has no transform.
pub const NO_TRANSFORM: u32 = 0xFFFF_FFFF;

// How many numbers a word's transform has room for.
pub const TRANSFORM: usize = 81;

// The most columns of a transform.
pub const MOST_COLUMNS: usize = 9;

// How many rows and columns a word's transform has.
#[derive(Clone, Copy, PartialEq, Eq)]
pub struct Shape {
    pub rows: usize,
    pub cols: usize,
}

// What two words say: a shape, or that there is no transform.
pub fn shape_of(rows: u32, cols: u32) -> Option<Shape>
    ensures { result ≡ shape_of rows cols }
{
    if rows == NO_TRANSFORM && cols == NO_TRANSFORM {
        return None;
    }
    Some(Shape {
        rows: rows as usize,
        cols: cols as usize,
    })
}

// The shape of word k's transform.
pub fn shape_at(shapes: &[u32], k: usize) -> Option<Shape>
    ensures { result ≡ shape_at shapes.now k }
{
    if k < shapes.len() / 2 {
        return shape_of(shapes[2 * k], shapes[2 * k + 1]);
    }
    None
}

// How wide the segment of a frame of `dof` columns is.
pub fn width_under(s: Option<Shape>, dof: usize) -> usize
    ensures { result ≡ width_under s dof }
{
    match s {
        None => dof,
        Some(shape) => shape.cols,
    }
}

// Reason 3 of the slices beside a map of so many words.
pub fn bad_beside(words: usize, shapes: usize, numbers: usize) -> bool
    ensures { result ≡ bad_beside words shapes numbers }
{
    if shapes == 0 {
        return numbers != 0;
    }
    if shapes % 2 != 0 {
        return true;
    }
    if shapes / 2 != words {
        return true;
    }
    if numbers % TRANSFORM != 0 {
        return true;
    }
    if numbers / TRANSFORM != words {
        return true;
    }
    false
}

// Reason 14 of one word.
#[tactic(auto, unfolding(crate::specs::Reasons::misfit))]
pub fn misfit(s: Option<Shape>, dof: usize) -> bool
    ensures { result ≡ misfit dof s }
{
    match s {
        None => false,
        Some(shape) => {
            if shape.cols > MOST_COLUMNS {
                return true;
            }
            shape.rows != dof
        }
    }
}

// Reason 14: some word below `words` has a transform that does not fit.
pub fn some_misfit(shapes: &[u32], words: usize, dof: usize) -> bool
    ensures { result ≡ some_misfit dof (shape_at shapes.now) words }
{
    (0..words).any(|k| misfit(shape_at(shapes, k), dof))
}

// Reason 10: some frame below `count` exceeds the order n, each with its own width.
pub fn some_exceeds(map: &[u32], shapes: &[u32], count: usize, dof: usize, n: usize) -> bool
    ensures { result ≡ some_exceeds n (width_at (shape_at shapes.now) dof) (lookup map.now) count }
{
    (0..count).any(|k| normal_blocks::exceeds(
        normal_blocks::lookup(map, k),
        width_under(shape_at(shapes, k), dof),
        n,
    ))
}

// Reasons 9, 14 and 10: the map's words, their transforms, and where the frames that exist go.
pub fn through_refusal(
    map: &[u32],
    shapes: &[u32],
    count: usize,
    dof: usize,
    n: usize,
) -> Result<(), Refusal>
    ensures { number result ≡ through_refusal map.now (shape_at shapes.now) count dof n }
{
    if normal_blocks::bad_words(map) {
        return Err(Refusal::BadWord);
    }
    if some_misfit(shapes, map.len(), dof) {
        return Err(Refusal::TransformMisfit);
    }
    if some_exceeds(map, shapes, count, dof, n) {
        return Err(Refusal::OutOfHessian);
    }
    Ok(())
}
