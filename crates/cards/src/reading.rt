// A list off its card, the other way round.
ghost use Rattle.std.specs.Prelude.{◌≡◌, ◌+◌, ◌*◌, ◌<◌, ◌≤◌, length};
ghost use Rattle.point_moments.specs.Moments.{MOMENTS};
ghost use Rattle.cards.specs.Card.{GROUP, GROUPED, grouped, list_of};
ghost use Rattle.cards.specs.Steps.{Carried, Whole};

use crate::places::{GROUPED, place};
use point_moments::MOMENTS;

// Records r and r + 1 of group g, where all numbers before them have been read. Inlined, and a number of both in each turn, as on writing.
// Reading and writing are two functions although they differ in no more than the direction: one for both would take the two places of a number
// and what to move as a closure, and a contract over what that leaves in one of two lists.
#[inline(always)]
fn read_two(card: &[u64], moments: &mut [u64], g: usize, r: usize)
    requires { Whole card.now g × (r + 1 < GROUP) × Carried moments.old card.now (g * GROUPED + r * MOMENTS) }
    ensures { Carried moments.new card.now (g * GROUPED + (r + 2) * MOMENTS) }
{
    let group = g * GROUPED;
    let first = group + r * MOMENTS;
    let second = first + MOMENTS;
    for f in 0..MOMENTS {
        let one = card[group + place(f, r)];
        let other = card[group + place(f, r + 1)];
        moments[first + f] = one;
        moments[second + f] = other;
    }
}

// Group g.
fn read_group(card: &[u64], moments: &mut [u64], g: usize)
    requires { Whole card.now g × Carried moments.old card.now (g * GROUPED) }
    ensures { Carried moments.new card.now (g * GROUPED + GROUPED) }
{
    read_two(card, moments, g, 0);
    read_two(card, moments, g, 2);
    read_two(card, moments, g, 4);
    read_two(card, moments, g, 6);
}

pub fn read_groups(card: &[u64], moments: &mut [u64], groups: usize)
    requires { (length card.now ≡ length moments.old) × (groups * GROUPED ≤ length card.now) }
    ensures { Carried moments.new card.now (groups * GROUPED) }
{
    for g in 0..groups {
        read_group(card, moments, g);
    }
}

// The numbers behind the whole groups.
#[tactic(auto, using(crate::proofs::EachPlace::within))]
pub fn read_last(card: &[u64], moments: &mut [u64], from: usize)
    requires { (from ≡ grouped (length card.now)) × Carried moments.old card.now from }
    ensures { moments.new ≡ list_of card.now }
{
    moments[from..].copy_from_slice(&card[from..]);
}
