// A fraction rounded to the nearest whole number, a tie going up: RULES, "Units and rounding". For muldiv.rt.
ghost use Rattle.std.specs.Prelude.{◌≡◌, ◌+◌, ◌*◌, ◌<◌, ◌^◌};
ghost use Rattle.integers.specs.Signs.{near};

// The magnitude of ±(q + r / d) rounded.
pub fn nearest(neg: bool, q: u64, r: u64, d: u64) -> u64
    requires { (r < d) × (q + 1 < 2 ^ 64) }
    ensures { result ≡ near neg (q * d + r) d }
{
    let h = d - r;
    if neg {
        if h < r { q + 1 } else { q }
    } else {
        if h <= r { q + 1 } else { q }
    }
}
