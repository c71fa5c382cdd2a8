// IEEE 754's total order on binary64 bit patterns: the value of a pattern, its key, and the order of three.
#![tactic(auto)]

ghost use Rattle.std.specs.Prelude.{◌≡◌};
ghost use Rattle.std.specs.Float.{binary64};
ghost use Rattle.std.specs.Float.Ieee.{of_bits, nan_bits};
ghost use Rattle.total_order.specs.Key.{key_of};
ghost use Rattle.total_order.specs.TotalOrder.{total_order};
ghost use Rattle.total_order.specs.Three.{order_of};

// The places of three patterns in rising order.
#[derive(Clone, Copy)]
pub struct Order {
    pub first: usize,
    pub second: usize,
    pub third: usize,
}

impl Order {
    pub fn new(first: usize, second: usize, third: usize) -> Self
        ensures { result ≡ record { first = first; second = second; third = third } }
    {
        Self {
            first,
            second,
            third,
        }
    }
}

// Whether a bit pattern is a NaN's.
pub fn is_nan(bits: u64) -> bool
    ensures { result ≡ nan_bits binary64 bits }
{
    bits % 0x8000_0000_0000_0000 > 0x7ff0_0000_0000_0000
}

// The value of a bit pattern; a NaN for every NaN pattern, of which `from_bits` takes none.
pub fn number(bits: u64) -> f64
    ensures { result ≡ of_bits binary64 bits }
{
    if is_nan(bits) {
        0.0 / 0.0
    } else {
        f64::from_bits(bits)
    }
}

// The pattern as a signed integer whose low 63 bits are inverted when it is negative. Signed comparison of keys is totalOrder.
pub fn key(bits: u64) -> i64
    ensures { result ≡ key_of bits }
{
    if bits < 0x8000_0000_0000_0000 {
        bits as i64
    } else {
        let low = bits - 0x8000_0000_0000_0000;
        -1 - (low as i64)
    }
}

// IEEE 754's totalOrder of two bit patterns.
pub fn total_order(a: u64, b: u64) -> bool
    ensures { result ≡ total_order a b }
{
    key(a) <= key(b)
}

// The order of three bit patterns, equal ones in the order of their places. Only neighbours are compared and swapped,
// (0,1), (1,2) and (0,1) again: a swap of places 0 and 2 would carry one of two equal patterns past the other.
pub fn order_of_three(a: u64, b: u64, c: u64) -> Order
    ensures { result ≡ order_of a b c }
{
    let ka = key(a);
    let kb = key(b);
    let kc = key(c);
    if ka <= kb {
        if kb <= kc {
            Order::new(0, 1, 2)
        } else if ka <= kc {
            Order::new(0, 2, 1)
        } else {
            Order::new(2, 0, 1)
        }
    } else if ka <= kc {
        Order::new(1, 0, 2)
    } else if kb <= kc {
        Order::new(1, 2, 0)
    } else {
        Order::new(2, 1, 0)
    }
}
