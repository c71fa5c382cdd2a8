// An action as it is lent: its matrix, its shift, and a point that it carries into the site.
#![tactic(auto)]

ghost use Rattle.std.specs.Prelude.{◌≡◌};
ghost use Rattle.sums.specs.Sum.{tab, grid};
ghost use Rattle.derivative.specs.Action.{action_matrix, action_shift};
ghost use Rattle.action.specs.Carried.{carried};

use derivative::ACTION;

// A, by columns.
pub fn matrix(x: &[f64; ACTION]) -> [f64; 9]
    ensures { result ≡ grid 3 3 (action_matrix x.now) }
{
    lists::nine(x, 0)
}

pub fn shift(x: &[f64; ACTION]) -> [f64; 3]
    ensures { result ≡ tab 3 (action_shift x.now) }
{
    lists::three(x, 9)
}

// A·p + b. A frame's p is its mean, a match's its point.
pub fn carried(x: &[f64; ACTION], p: [f64; 3]) -> [f64; 3]
    ensures { result ≡ carried x.now p }
{
    let turned = linear::mat_vec(matrix(x), p);
    linear::plus(turned, shift(x))
}
