// The square root of an f64, correctly rounded, worked out on integers.
#![tactic(auto)]

pub mod many;

ghost use Rattle.std.specs.Prelude.{◌≡◌, ◌+◌, ◌-◌, ◌*◌, ◌%◌, ◌^◌, ◌<◌, ◌≤◌};
ghost use Rattle.square_root.specs.Computed.{square_root};
ghost use Rattle.square_root.specs.Many.{pattern_digits};
ghost use Rattle.square_root.specs.Steps.{Root, RootBits, units_of};

// c0 - c1 * t + c2 * t^2, for t of 32 places after the point and the others of 28, to 14 places.
fn parabola(t: u64, c0: u64, c1: u64, c2: u64) -> u64
    requires { (t < 2 ^ 32) × (c0 < 2 ^ 30) × (c1 < 2 ^ 32) × (c2 ≤ c1) × (t * c1 < c0 * 2 ^ 32) }
    ensures { result < 2 ^ 16 }
{
    let v = c1 - ((t * c2) >> 32);
    (c0 - ((t * v) >> 32)) >> 14
}

// About 1 / root of t, for t from 1/4 up to 1 with 32 places after the point: to 27 places, of which 16 are right.
// No contract speaks of that: whatever it returns, `root27` is right, and it is quick where this is near.
fn inverse_root(t: u64) -> u64
    requires { t < 2 ^ 32 }
    ensures { result < 2 ^ 32 }
{
    let y = if t < 0x8000_0000 {
        parabola(t, 0x328c_671b, 0x5d81_7d4d, 0x4b9d_b3b5)
    } else {
        parabola(t, 0x23be_3f1d, 0x210f_2e39, 0x0d5d_fd97)
    };
    let p = (t * (y * y)) >> 32;
    let d = (0x1_3000_0000 - p) & 0xffff_ffff;
    (y * d) >> 16
}

// A number at most s whose square is at most n.
fn at_most(n: u64, s: u64) -> u64
    requires { s < 2 ^ 27 }
    ensures { result * result ≤ n }
{
    let mut r = s;
    // Not a counted loop: it ends where the square fits, after one turn at most where the guess is good.
    while n < r * r {
        r -= 1;
    }
    r
}

// The largest r with r * r <= n, from any guess s.
fn settle(n: u64, s: u64) -> u64
    requires { (n < 2 ^ 54) × (s < 2 ^ 27) }
    ensures { Root n result }
{
    let mut r = at_most(n, s);
    // The same upwards.
    while (r + 1) * (r + 1) <= n {
        r += 1;
    }
    r
}

// About the root of an n of 53 or 54 bits, which has 27: n / root of n, with 16 digits right, and one step of Newton's.
// It is the root or next to it (docs/DECISIONS.md, "Correction steps"), and no proof leans on that.
pub fn guess27(n: u64) -> u64
    requires { n < 2 ^ 54 }
    ensures { result < 2 ^ 27 }
{
    let t = n >> 22;
    let y = inverse_root(t);
    let g = (t * y) >> 32;
    let rest = if g * g <= n { n - g * g } else { 0 };
    let h = g + (((rest >> 22) * y) >> 33);
    if h < 0x800_0000 { h } else { 0x7ff_ffff }
}

// The largest r with r * r <= n, for an n of 53 or 54 bits.
fn root27(n: u64) -> u64
    requires { n < 2 ^ 54 }
    ensures { Root n result }
{
    settle(n, guess27(n))
}

// The largest r with r * r <= n * 2^54: 54 bits. The upper half of its digits is the root of n,
// the lower half is what is left over, divided by twice that root, or one less.
fn root54(n: u64) -> u64
    requires { (2 ^ 52 ≤ n) × (n < 2 ^ 54) }
    ensures { Root (n * 2 ^ 54) result }
{
    let s = root27(n);
    let a = (n - s * s) << 27;
    let q = a / (2 * s);
    let u = a % (2 * s);
    let r = (s << 27) + q;
    if (u << 27) < q * q { r - 1 } else { r }
}

// The bits of the value nearest to the root of m * 2^l, counted in units of 2^-1074, where s is the root of m or 2 * m.
fn pack(m: u64, l: u64, s: u64) -> u64
    requires { (2 ^ 52 ≤ m) × (m < 2 ^ 53) × (1022 ≤ l) × (l < 3120) × Root (m * 2 ^ (l % 2) * 2 ^ 54) s }
    ensures { RootBits (m * 2 ^ l) result }
{
    (((l >> 1) - 26) << 52) + ((s + 1) >> 1)
}

// The same of the value whose bits are b, which is finite, above zero and not subnormal, where s is the root of its digits.
fn normal_bits(b: u64, s: u64) -> u64
    requires { (2 ^ 52 ≤ b) × (b < 0x7ff0_0000_0000_0000) × Root (pattern_digits b * 2 ^ 54) s }
    ensures { RootBits (units_of b * 2 ^ 1074) result }
{
    pack(
        b % 0x10_0000_0000_0000 + 0x10_0000_0000_0000,
        (b >> 52) + 1073,
        s,
    )
}

// The bits of the value nearest to the root of m * 2^l, with the root of m or 2 * m worked out.
fn root_bits(m: u64, l: u64) -> u64
    requires { (2 ^ 52 ≤ m) × (m < 2 ^ 53) × (1022 ≤ l) × (l < 3120) }
    ensures { RootBits (m * 2 ^ l) result }
{
    pack(m, l, root54(m << (l & 1)))
}

// The same of the value whose bits are b, which is finite and above zero.
fn sqrt_bits(b: u64) -> u64
    requires { (0 < b) × (b < 0x7ff0_0000_0000_0000) }
    ensures { RootBits (units_of b * 2 ^ 1074) result }
{
    let e = b >> 52;
    if e == 0 {
        let s = b.leading_zeros() - 11;
        root_bits(b << s, 1074 - s as u64)
    } else {
        root_bits((b & 0xf_ffff_ffff_ffff) + 0x10_0000_0000_0000, e + 1073)
    }
}

// IEEE 754's squareRoot: -0 for -0, a NaN for a NaN and for what is below zero, and otherwise the value nearest to the root.
// Two values are never equally near (`no_tie` of proofs/Laws.antt): their mean would be a root of one binary digit more than they have,
// and the square of such a number has too many digits to be x. So the rule for ties, to the even value, has nothing to decide.
pub fn sqrt(x: f64) -> f64
    ensures { result ≡ square_root x }
{
    if x != x {
        x
    } else {
        let b = x.to_bits();
        if b >= 0x8000_0000_0000_0000 {
            if b == 0x8000_0000_0000_0000 {
                x
            } else {
                0.0 / 0.0
            }
        } else if b == 0 {
            x
        } else if b >= 0x7ff0_0000_0000_0000 {
            x
        } else {
            f64::from_bits(sqrt_bits(b))
        }
    }
}
