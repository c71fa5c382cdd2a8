// Numbers between lent lists and arrays by value, a list cleared, and how a list is taken in batches.
#![tactic(auto)]

ghost use Rattle.std.specs.Prelude.{◌≡◌, ◌+◌, ◌-◌, ◌≤◌, min, ◌∷◌, ◌++◌, length, replicate};
ghost use Rattle.sums.specs.Sum.{zero_f};
ghost use Rattle.lists.specs.Part.{part};

// Three numbers of a list, and nine. One function over their number would copy memory to the stack and read it again, which takes 4.7 times as
// long in the loop over points: it was measured.
#[inline(always)]
pub fn three(l: &[f64], at: usize) -> [f64; 3]
    requires { at + 3 ≤ length l.now }
    ensures { result ≡ part 3 l.now at }
{
    [l[at], l[at + 1], l[at + 2]]
}

#[inline(always)]
pub fn nine(l: &[f64], at: usize) -> [f64; 9]
    requires { at + 9 ≤ length l.now }
    ensures { result ≡ part 9 l.now at }
{
    [
        l[at],
        l[at + 1],
        l[at + 2],
        l[at + 3],
        l[at + 4],
        l[at + 5],
        l[at + 6],
        l[at + 7],
        l[at + 8],
    ]
}

// Of two arrays one, of lengths that are written out: a function for any lengths would take that of the result as a third parameter, with
// a clause that it is the sum of the other two, and each call would have to name all three.
pub fn three_and_nine(a: [f64; 3], b: [f64; 9]) -> [f64; 12]
    ensures { result ≡ part 3 a 0 ++ part 9 b 0 }
{
    [
        a[0], a[1], a[2], b[0], b[1], b[2], b[3], b[4], b[5], b[6], b[7], b[8],
    ]
}

pub fn one_and_twelve(x: f64, l: [f64; 12]) -> [f64; 13]
    ensures { result ≡ x ∷ part 12 l 0 }
{
    [
        x, l[0], l[1], l[2], l[3], l[4], l[5], l[6], l[7], l[8], l[9], l[10], l[11],
    ]
}

// All of `from` into `to`.
pub fn store(to: &mut [f64], from: &[f64])
    requires { length to.old ≡ length from.now }
    ensures { to.new ≡ from.now }
{
    to.copy_from_slice(from);
}

// +0 everywhere.
pub fn clear(out: &mut [f64])
    ensures { out.new ≡ replicate (length out.old) zero_f }
{
    out.fill(0.0);
}

// How many of `count` things are in a batch of at most `most` that starts at number `from`.
pub fn batch_size(count: usize, from: usize, most: usize) -> usize
    requires { from ≤ count }
    ensures { result ≡ min (count - from) most }
{
    (count - from).min(most)
}
