// Numbers with a sign.
ghost use Rattle.std.specs.Prelude.{◌≡◌, ◌^◌, ◌<◌, nat_abs};

// A number without its sign. It is a u64 since that of i32::MIN is no i32.
pub fn magnitude(z: i32) -> u64
    ensures { (result ≡ nat_abs z) × (result < 2 ^ 32) }
{
    z.unsigned_abs() as u64
}
