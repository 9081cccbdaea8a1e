// The length of a vector rounded down: the floor root of the sum of three squares, which two words of 48 bits hold. For the crates above.
// The root is found bit by bit from the top: RULES, "The floor root bit by bit". What holds of every bit is said in specs/Bits.antt.
#![tactic(auto)]

ghost use Rattle.std.specs.Prelude.{◌≡◌, ◌+◌, ◌*◌, ◌<◌, ◌^◌, nat_abs, ◌+ℤ◌, ◌*ℤ◌};
ghost use Rattle.integers.specs.Root.{root};
ghost use Rattle.roots.specs.Bits.{Worked, read};
ghost use Rattle.roots.specs.Machine.Word.{word};

// A word is below this, 2^48.
const WORD: u64 = 1 << WORD_BITS;

// The bits of a word, and its pairs of bits.
const WORD_BITS: u32 = 48;

const PAIRS: u64 = 24;

// The root of a number as far as it has been read, and the rest: what the number has above the root's square.
#[derive(Clone, Copy)]
struct Working {
    root: u64,
    rest: u64,
}

// The next pair of bits of the number, and with it one bit more of the root. With a 1 the square is by `trial` greater than with a 0, so the
// 1 is kept where the rest has as much.
fn with_pair(w: Working, pair: u64) -> Working
    requires { Worked (read w) w × (w.root < word) × (pair < 4) }
    ensures { Worked (4 * read w + pair) result }
{
    let rest = (w.rest << 2) + pair;
    let trial = (w.root << 2) + 1;
    // The bit and what it takes off are set in the test and used after it: of a result for each way the compiler makes a jump.
    let mut bit: u64 = 0;
    let mut growth: u64 = 0;
    if trial <= rest {
        bit = 1;
        growth = trial;
    }
    Working {
        root: (w.root << 1) + bit,
        rest: rest - growth,
    }
}

// The next word of the number, pair by pair from its top. `left` has what is still to be read of it, moved up to the top.
fn with_word(start: Working, next: u64) -> Working
    requires { Worked (read start) start × (read start < word) × (next < word) }
    ensures { Worked (read start * word + next) result }
{
    let mut w = start;
    let mut left = next;
    for _ in 0..PAIRS {
        let moved = left << 2;
        w = with_pair(w, moved >> WORD_BITS);
        left = moved % WORD;
    }
    w
}

// The floor root of a number of two words, the upper one first. It is not std's: the bits are found as the rule has it.
fn floor_root(n: u128) -> u64
    requires { n < word * word }
    ensures { result ≡ root n }
{
    let none = Working { root: 0, rest: 0 };
    let upper = with_word(none, (n / WORD as u128) as u64);
    with_word(upper, (n % WORD as u128) as u64).root
}

// x·x.
fn square(x: i64) -> u128
    ensures { result ≡ nat_abs x * nat_abs x }
{
    let size = u128::from(x.unsigned_abs());
    size * size
}

// The floor of the length of (x, y, z).
pub fn length(x: i64, y: i64, z: i64) -> u64
    requires { nat_abs (x *ℤ x +ℤ y *ℤ y +ℤ z *ℤ z) < 2 ^ 92 }
    ensures { result ≡ root (nat_abs (x *ℤ x +ℤ y *ℤ y +ℤ z *ℤ z)) }
{
    floor_root(square(x) + square(y) + square(z))
}
