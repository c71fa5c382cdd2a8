// The functions of the crate probe, exported under their names and contracts for comparisons and measurements: no part of the C interface.
#![tactic(auto)]

ghost use Rattle.std.specs.Prelude.{◌≡◌, ◌^◌, ◌<◌};
ghost use Rattle.std.specs.Float.{binary64};
ghost use Rattle.std.specs.Float.Ieee.{of_bits};
ghost use Rattle.total_order.specs.Three.{order_of};
ghost use Rattle.probe.specs.Digits.{digits_of};
ghost use Rattle.probe.specs.Among.{root_among};

// The order of three bit patterns, its places as decimal digits.
#[unsafe(no_mangle)]
pub extern "C" fn probe_order_of_three(a: u64, b: u64, c: u64) -> u32
    ensures { result ≡ digits_of (order_of a b c) }
{
    probe::probe_order_of_three(a, b, c)
}

// The value of a bit pattern.
#[unsafe(no_mangle)]
pub extern "C" fn probe_number(bits: u64) -> f64
    ensures { result ≡ of_bits binary64 bits }
{
    probe::probe_number(bits)
}

// The guess from which the upper half of a root's digits is settled; 0 for an operand that is none.
#[unsafe(no_mangle)]
pub extern "C" fn probe_root_guess(n: u64) -> u64
    ensures { result < 2 ^ 27 }
{
    probe::probe_root_guess(n)
}

// The square root of x, worked out at a place among the first `many` of 32 numbers, the others being `other`; x where that is no such place.
#[unsafe(no_mangle)]
pub extern "C" fn probe_sqrt_among(x: f64, other: f64, place: usize, many: usize) -> f64
    ensures { result ≡ root_among x place many }
{
    probe::probe_sqrt_among(x, other, place, many)
}
