// Tests of numbers: finite, and finite and positive.
#![tactic(auto)]

ghost use Rattle.std.specs.Prelude.{◌≡◌, ◌&&◌};
ghost use Rattle.std.specs.Float.Ieee.Scale.{finite};
ghost use Rattle.validate.specs.Finite.{all_finite, finite_above, finite_positive};

pub fn is_finite(x: f64) -> bool
    ensures { result ≡ finite x }
{
    if -1.0 / 0.0 < x { x < 1.0 / 0.0 } else { false }
}

// Four numbers at once, with no branch between them.
pub fn four_finite(a: f64, b: f64, c: f64, d: f64) -> bool
    ensures { result ≡ (finite a && finite b && (finite c && finite d)) }
{
    (is_finite(a) & is_finite(b)) & (is_finite(c) & is_finite(d))
}

// Every number of a list. No early return: the compiler then tests several numbers at once.
pub fn all_finite(list: &[f64]) -> bool
    ensures { result ≡ all_finite list.now }
{
    let mut all = true;
    for x in list {
        all &= is_finite(*x);
    }
    all
}

// Finite, and above a bound.
pub fn is_above(x: f64, bound: f64) -> bool
    ensures { result ≡ finite_above bound x }
{
    if bound < x { x < 1.0 / 0.0 } else { false }
}

pub fn is_positive(x: f64) -> bool
    ensures { result ≡ finite_positive x }
{
    is_above(x, 0.0)
}
