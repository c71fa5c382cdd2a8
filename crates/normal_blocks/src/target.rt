// The target of a factor's blocks: numbers are added to a Hessian and a gradient in place.
ghost use Rattle.std.specs.Prelude.{◌≡◌, ◌+◌, ◌*◌, ◌≤◌, length};
ghost use Rattle.terms.specs.Terms.{add_all, segment, block};
ghost use Rattle.normal_blocks.specs.Target.{number_from, entry_of};

// Number after number, v[from..from + width] is added to h[base..base + width].
pub fn add_run(h: &mut [f64], base: usize, v: &[f64], from: usize, width: usize)
    requires { (base + width ≤ length h.old) × (from + width ≤ length v.now) }
    ensures { h.new ≡ add_all h.old (segment base width (number_from v.now from)) }
{
    for r in 0..width {
        let i = base + r;
        let j = from + r;
        h[i] = h[i] + v[j];
    }
}

// Column after column, the block b is added at row and column `offset` of the Hessian h of order n. A column of b is `stride` numbers, of which `width` count.
pub fn add_block(h: &mut [f64], n: usize, offset: usize, width: usize, b: &[f64], stride: usize)
    requires { (offset + width ≤ n) × (length h.old ≡ n * n) × (width ≤ stride) × (width * stride ≤ length b.now) }
    ensures { h.new ≡ add_all h.old (block n offset width (entry_of stride b.now)) }
{
    for c in 0..width {
        let base = (offset + c) * n + offset;
        let from = c * stride;
        add_run(h, base, b, from, width);
    }
}
