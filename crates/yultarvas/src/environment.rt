// Sums by which a thread shows how it rounds, and whether it keeps subnormal numbers. A compiler that knows
// the operands works such a sum out itself, to nearest, so the operands are parameters all the way up to the
// exported call.
ghost use Rattle.std.specs.Prelude.{◌≡◌};
ghost use Rattle.yultarvas.specs.Environment.{rounds_to_even, keeps_subnormals};

// At 1.0: 2^-53 above it is the middle of it and the next double, 3 * 2^-53 above it the middle of the next
// two. Ties to even go down, then up; any other rounding fails one of the two.
pub(crate) fn rounds_to_even(one: f64) -> bool
    ensures { result ≡ rounds_to_even one }
{
    if one + 1.1102230246251565e-16 == 1.0 {
        return one + 3.3306690738754696e-16 == 1.0000000000000004;
    }
    false
}

// At a subnormal number: twice it is above 0. Where a thread flushes what goes into a sum or what comes out
// of it, that is 0.
pub(crate) fn keeps_subnormals(least: f64) -> bool
    ensures { result ≡ keeps_subnormals least }
{
    0.0 < least + least
}
