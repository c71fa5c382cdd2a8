// A list onto its card: its whole groups, number by number to their places, and a last shorter group as it is.
ghost use Rattle.std.specs.Prelude.{◌≡◌, ◌+◌, ◌*◌, ◌<◌, ◌≤◌, length};
ghost use Rattle.point_moments.specs.Moments.{MOMENTS};
ghost use Rattle.cards.specs.Card.{GROUP, GROUPED, grouped, card_of};
ghost use Rattle.cards.specs.Steps.{Carried, Whole};

use crate::places::{GROUPED, place};
use point_moments::MOMENTS;

// Records r and r + 1 of group g, where all numbers before them are at their places. Each call has a literal for r, and the function is inlined
// into it before the loop is unrolled, so that the places are known. A number of both in each turn is faster than one record after the other:
// they go side by side.
#[inline(always)]
fn write_two(moments: &[u64], card: &mut [u64], g: usize, r: usize)
    requires { Whole moments.now g × (r + 1 < GROUP) × Carried moments.now card.old (g * GROUPED + r * MOMENTS) }
    ensures { Carried moments.now card.new (g * GROUPED + (r + 2) * MOMENTS) }
{
    let group = g * GROUPED;
    let first = group + r * MOMENTS;
    let second = first + MOMENTS;
    for f in 0..MOMENTS {
        let one = moments[first + f];
        let other = moments[second + f];
        card[group + place(f, r)] = one;
        card[group + place(f, r + 1)] = other;
    }
}

// Group g.
fn write_group(moments: &[u64], card: &mut [u64], g: usize)
    requires { Whole moments.now g × Carried moments.now card.old (g * GROUPED) }
    ensures { Carried moments.now card.new (g * GROUPED + GROUPED) }
{
    write_two(moments, card, g, 0);
    write_two(moments, card, g, 2);
    write_two(moments, card, g, 4);
    write_two(moments, card, g, 6);
}

pub fn write_groups(moments: &[u64], card: &mut [u64], groups: usize)
    requires { (length card.old ≡ length moments.now) × (groups * GROUPED ≤ length moments.now) }
    ensures { Carried moments.now card.new (groups * GROUPED) }
{
    for g in 0..groups {
        write_group(moments, card, g);
    }
}

// The numbers behind the whole groups.
#[tactic(auto, using(crate::proofs::EachPlace::within))]
pub fn write_last(moments: &[u64], card: &mut [u64], from: usize)
    requires { (from ≡ grouped (length moments.now)) × Carried moments.now card.old from }
    ensures { card.new ≡ card_of moments.now }
{
    card[from..].copy_from_slice(&moments[from..]);
}
