// A group's size, and the place on the card of each of its numbers, from a table.
ghost use Rattle.std.specs.Prelude.{◌≡◌, ◌<◌};
ghost use Rattle.point_moments.specs.Moments.{MOMENTS};
ghost use Rattle.cards.specs.Card.{GROUP, card_place};
ghost use Rattle.cards.specs.Steps.{Places};

use point_moments::MOMENTS;

// How many records are a group, and how many numbers that is.
pub const GROUP: usize = 8;

pub const GROUPED: usize = GROUP * MOMENTS;

// Entry MOMENTS * r + f is the place of number f of record r. A static, since a constant is laid out anew wherever it is indexed.
static PLACES: [u8; GROUPED] = [
    0, 8, 16, 24, 32, 40, 48, 56, 64, 72, 80, 88, 96, 1, 9, 17, 25, 33, 41, 49, 57, 65, 73, 81, 89,
    97, 2, 10, 18, 26, 34, 42, 50, 58, 66, 74, 82, 90, 98, 3, 11, 19, 27, 35, 43, 51, 59, 67, 75,
    83, 91, 99, 4, 12, 20, 28, 36, 44, 52, 60, 68, 76, 84, 92, 100, 5, 13, 21, 29, 37, 45, 53, 61,
    69, 77, 85, 93, 101, 6, 14, 22, 30, 38, 46, 54, 62, 70, 78, 86, 94, 102, 7, 15, 23, 31, 39, 47,
    55, 63, 71, 79, 87, 95, 103,
];

// The table, with the rule that it follows.
#[inline(always)]
pub fn table() -> &'static [u8; GROUPED]
    ensures { Places result.now }
{
    &PLACES
}

// Where number f of record r of a group goes.
#[inline(always)]
pub fn place(f: usize, r: usize) -> usize
    requires { (f < MOMENTS) × (r < GROUP) }
    ensures { result ≡ card_place f r }
{
    usize::from(table()[MOMENTS * r + f])
}
