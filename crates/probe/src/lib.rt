// Functions that have no entry point of their own, for comparisons and measurements: no part of the C interface. The crate probe_c exports them.
#![tactic(auto)]

ghost use Rattle.std.specs.Prelude.{◌≡◌, ◌^◌, ◌<◌};
ghost use Rattle.std.specs.Float.{binary64};
ghost use Rattle.std.specs.Float.Ieee.{of_bits};
ghost use Rattle.total_order.specs.Three.{order_of};
ghost use Rattle.probe.specs.Digits.{digits_of};
ghost use Rattle.probe.specs.Among.{root_among};

// The order of three bit patterns, its places as decimal digits.
pub fn probe_order_of_three(a: u64, b: u64, c: u64) -> u32
    ensures { result ≡ digits_of (order_of a b c) }
{
    let o = total_order::order_of_three(a, b, c);
    (o.first * 100 + o.second * 10 + o.third) as u32
}

// The value of a bit pattern.
pub fn probe_number(bits: u64) -> f64
    ensures { result ≡ of_bits binary64 bits }
{
    total_order::number(bits)
}

// The guess from which the upper half of a root's digits is settled; 0 for an operand that is none.
pub fn probe_root_guess(n: u64) -> u64
    ensures { result < 2 ^ 27 }
{
    if n < 0x40_0000_0000_0000 {
        square_root::guess27(n)
    } else {
        0
    }
}

// The square root of x, worked out at a place among the first `many` of 32 numbers, the others being `other`; x where that is no such place.
pub fn probe_sqrt_among(x: f64, other: f64, place: usize, many: usize) -> f64
    ensures { result ≡ root_among x place many }
{
    if many > 32 {
        return x;
    }
    if place >= many {
        return x;
    }
    let mut xs = [other; 32];
    xs[place] = x;
    square_root::many::sqrt_all(&mut xs[..many]);
    xs[place]
}
