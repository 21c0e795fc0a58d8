//! Exact products.
ghost use Rattle.std.specs.Prelude.{◌≡◌, ◌*◌};

pub fn product(a: u32, b: u32) -> u64
    ensures { result ≡ a * b }
{
    u64::from(a) * u64::from(b)
}
