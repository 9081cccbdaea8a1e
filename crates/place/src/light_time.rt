// The light time of a distance. For this crate, and for the tests of inner rules.
ghost use Rattle.std.specs.Prelude.{◌≡◌, ◌<◌, ◌^◌};
ghost use Rattle.place.specs.Apparent.{light_time};

use arith::muldiv::mul_div_round_wide;
use units::PARTS;

// The same constants stand in specs/Apparent.antt.

// Light takes LIGHT_NS nanoseconds for an AU. The divisor, nanoseconds to a millisecond times parts to an AU, comes as two factors.
const LIGHT_NS: u64 = 499004781984;

const NS_PER_MS: u64 = 1000000;

const LIGHT_STEP: u64 = 10000000;

const LIGHT_REST: u64 = NS_PER_MS * PARTS / LIGHT_STEP;

// In ms.
pub fn light(distance: u64) -> i64
    requires { distance < 2 ^ 46 }
    ensures { result ≡ light_time distance }
{
    mul_div_round_wide(LIGHT_NS, distance, LIGHT_STEP, LIGHT_REST)
}
