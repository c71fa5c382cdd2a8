// The roots of many numbers. Each is worked out from a hint at it, by products of 32 bits and without a branch, so that the compiler does two
// numbers at a time; what comes out is tested, and where the test leaves a doubt `sqrt` works the root out.
ghost use Rattle.std.specs.Prelude.{◌≡◌, ℕ, ◌+◌, ◌*◌, ◌%◌, ◌^◌, ◌<◌, ◌≤◌, length, slice_index, slice_index_or};
ghost use Rattle.std.specs.Float.{nan};
ghost use Rattle.square_root.specs.Computed.{square_root};
ghost use Rattle.square_root.specs.Many.{MOST, digits_of, Told, RootsOf};

// The product of the lower halves.
fn times(a: u64, b: u64) -> u64 {
    (a % 0x1_0000_0000) * (b % 0x1_0000_0000)
}

// c less the upper half of p, in 32 bits.
fn less(c: u64, p: u64) -> u64 {
    (c % 0x1_0000_0000 + 0x1_0000_0000 - (p >> 32)) % 0x1_0000_0000
}

// A hint at 1 / root of t, for t from 1/4 up to 1 with 32 places after the point: to 31 places. Nothing is said of it: a root that it misleads is
// in doubt. The polynomial of degree four, with 28 places, has eight digits right, and each step of Newton's doubles them.
fn inverse_root(t: u64) -> u64 {
    let c3 = less(0xbf93_2c07, times(t, 0x3cde_f228));
    let c2 = less(0xea85_d54f, times(t, c3));
    let c1 = less(0x8fc0_dd72, times(t, c2));
    let y = less(0x37f7_ee98, times(t, c1)) >> 14;
    let z = times(y, less(0x3000_0000, times(t, times(y, y)))) >> 13;
    times(z, less(0xc000_0000, times(t, times(z, z) >> 30))) >> 30
}

// The 53 digits of x as a whole number, doubled where its exponent is odd, so that the root of this has the digits of its root; 0 of a NaN.
fn digits(x: f64) -> u64
    ensures { result ≡ digits_of x }
{
    if x != x {
        return 0;
    }
    let b = x.to_bits();
    let m = b % 0x10_0000_0000_0000 + 0x10_0000_0000_0000;
    if (b >> 52) % 2 == 1 { m } else { 2 * m }
}

// Digits of a root, and 0 where there is no doubt about them. As an Option the guess would cost each number a branch.
#[derive(Clone, Copy)]
struct Guess {
    root: u64,
    doubt: u64,
}

// The root of n * 2^54 from a hint y: its upper 32 digits s, of which four too few are taken, so that they are not above the root's; r is what
// they leave over, the lower digits q come of it, and u and d are what is left then. There is no doubt if 0 <= d <= 2 * root.
fn by_hint(n: u64, y: u64) -> Guess
    ensures { Told n result.root result.doubt }
{
    let s = ((times(n >> 22, y) >> 31) + 0xffff_fffc) % 0x1_0000_0000;
    let r = (n << 10).wrapping_sub(s * s);
    let q = ((times(r >> 5, y) >> 30) + 3) >> 7;
    let u = (r << 21).wrapping_sub(s * q);
    let d = (u << 23).wrapping_sub(q * q);
    let root = (s << 22) + q;
    let e = (2 * root).wrapping_sub(d);
    Guess {
        root,
        doubt: (r >> 37) + (u >> 34) + (d >> 63) + (e >> 63),
    }
}

// The digits of the numbers, and the hints for them.
fn fill_digits(xs: &[f64], ns: &mut [u64; 32], ys: &mut [u64; 32])
    requires { length xs.now ≤ MOST }
    ensures { (k : ℕ) → k < length xs.now → slice_index ns.new k ≡ digits_of (slice_index_or xs.now k nan) }
{
    for k in 0..xs.len() {
        let n = digits(xs[k]);
        ns[k] = n;
        ys[k] = inverse_root(n >> 22);
    }
}

// What the hints lead to, of the first `many`: roots take the places of the digits, and doubts those of the hints.
fn fill_guesses(ns: &mut [u64; 32], ys: &mut [u64; 32], many: usize)
    requires { many ≤ MOST }
    ensures { (k : ℕ) → k < many → Told (slice_index ns.old k) (slice_index ns.new k) (slice_index ys.new k) }
{
    for k in 0..many {
        let w = by_hint(ns[k], ys[k]);
        ns[k] = w.root;
        ys[k] = w.doubt;
    }
}

// The root of x from a guess at its digits, or worked out where that is in doubt.
fn settled(x: f64, root: u64, doubt: u64) -> f64
    requires { Told (digits_of x) root doubt }
    ensures { result ≡ square_root x }
{
    if x != x {
        return x;
    }
    let b = x.to_bits();
    if b < 0x10_0000_0000_0000 {
        return crate::sqrt(x);
    }
    if b >= 0x7ff0_0000_0000_0000 {
        return crate::sqrt(x);
    }
    if doubt != 0 {
        return crate::sqrt(x);
    }
    f64::from_bits(crate::normal_bits(b, root))
}

// The roots of the numbers, each from its guess, take their places.
fn settle(xs: &mut [f64], roots: &[u64; 32], doubts: &[u64; 32])
    requires { (length xs.old ≤ MOST) × ((k : ℕ) → k < length xs.old → Told (digits_of (slice_index_or xs.old k nan)) (slice_index roots.now k) (slice_index doubts.now k)) }
    ensures { RootsOf (length xs.old) xs.old xs.new }
{
    for k in 0..xs.len() {
        xs[k] = settled(xs[k], roots[k], doubts[k]);
    }
}

// The roots of at most 32 numbers take their places.
pub fn sqrt_all(xs: &mut [f64])
    requires { length xs.old ≤ MOST }
    ensures { RootsOf (length xs.old) xs.old xs.new }
{
    let mut ns: [u64; 32] = [0; 32];
    let mut ys: [u64; 32] = [0; 32];
    fill_digits(xs, &mut ns, &mut ys);
    fill_guesses(&mut ns, &mut ys, xs.len());
    settle(xs, &ns, &ys);
}
