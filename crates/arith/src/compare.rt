// Products that pass 64 bits, compared. For the crates above.
ghost use Rattle.std.specs.Prelude.{◌≡◌, ◌*◌, ◌≤◌, leb};
ghost use Rattle.units.specs.Units.{U};

// Whether x·s ≤ y·c.
pub fn product_le(x: u64, s: u64, y: u64, c: u64) -> bool
    requires { (s ≤ U) × (c ≤ U) }
    ensures { result ≡ leb (x * s) (y * c) }
{
    u128::from(x) * u128::from(s) <= u128::from(y) * u128::from(c)
}
