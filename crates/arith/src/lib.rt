// Quotients and square roots of whole numbers, rounded up.
#![tactic(auto)]

ghost use Rattle.std.specs.Prelude.{◌≡◌, ◌<◌, ◌≤◌, ◌^◌};
ghost use Rattle.arith.specs.Quotient.{quotient_up};
ghost use Rattle.arith.specs.Root.{root_up};

mod root_table;

use root_table::ROOTS;

// n / d rounded up; 0 where d is 0.
#[tactic(auto, using(crate::specs::Quotient::quotient_up_by_zero, crate::proofs::Quotients::div_ceil_is_quotient_up))]
pub fn quotient_up(n: u64, d: u64) -> u64
    ensures { result ≡ quotient_up n d }
{
    if d == 0 { 0 } else { n.div_ceil(d) }
}

// The root of n rounded up: a near guess, tested.
pub fn root_up(n: u64) -> u64
    ensures { result ≡ root_up n }
{
    let near = near_root(n);
    let square = near * near;
    if n <= square + 2 * near + 1 && square + 2 <= n + 2 * near {
        // (added, and not chosen by a branch: which of the two it is cannot be foretold)
        near + u64::from(square < n)
    } else {
        root_up_by_isqrt(n)
    }
}

// The root of n rounded up, from that rounded down. (Cold and by itself, so that it takes no room where a root is asked. 0 comes
// here, for the least guess is 1, and a sensor without influence has it in every row.)
#[cold]
#[inline(never)]
#[tactic(auto, using(crate::proofs::Roots::root_of_zero, crate::proofs::Roots::exact_is_root_up, crate::proofs::Roots::next_is_root_up))]
fn root_up_by_isqrt(n: u64) -> u64
    ensures { result ≡ root_up n }
{
    if n == 0 {
        return 0;
    }
    let below = n.isqrt();
    if below * below < n { below + 1 } else { below }
}

// From here up the straight line between two roots of the table is more than one below the root: 2^42.
const CORRECTED_FROM: u64 = 4_398_046_511_104;

// A guess is at most this: 2^31.
const LARGEST_GUESS: u64 = 2_147_483_648;

// Near the root of n, for n below 2^62, as from a printed table: the root of its first ten bits, and the straight line to the next,
// which is corrected by its slope where it is too far below. No proof rests on how near.
fn near_root(n: u64) -> u64
    ensures { result ≤ 2 ^ 31 }
{
    // (fewer than 32; of 0 and 1 alike)
    let half = (n | 1).leading_zeros() / 2 % 32;
    let m = n << (2 * half);
    let line = Line::at(m);
    let height = line.height(m);
    let root = if n < CORRECTED_FROM {
        height
    } else {
        line.corrected(m, height)
    };
    // (one less before and one more after: the root of a square is not passed)
    (root.wrapping_sub(1) >> half) % LARGEST_GUESS + 1
}

// A segment of the table is so wide: 2^54, that is the first ten bits of a number of 64.
const SEGMENT: u64 = 18_014_398_509_481_984;

// The first ten bits of 2^62, where the table begins, and how many segments it has.
const FIRST_SEGMENT: usize = 256;

const SEGMENTS: usize = 768;

// Within a segment a number is counted in parts of 2^22, of which there are 2^32.
const PART: u64 = 4_194_304;

const PARTS: u64 = 4_294_967_296;

// The straight line from a root of the table to the next.
#[derive(Clone, Copy)]
struct Line {
    pub lower: u32,
    pub rise: u32,
}

impl Line {
    // The line on which the root of m is, for m from 2^62 up.
    fn at(m: u64) -> Line {
        let i = ((m / SEGMENT) as usize)
            .saturating_sub(FIRST_SEGMENT)
            .min(SEGMENTS - 1);
        Line {
            lower: ROOTS[i],
            // (wrapping, for nothing says here that the roots rise)
            rise: ROOTS[i + 1].wrapping_sub(ROOTS[i]),
        }
    }

    // Its height at m.
    fn height(self, m: u64) -> u64
        ensures { result < 2 ^ 33 }
    {
        let behind = (m / PART % PARTS) as u32;
        u64::from(self.lower) + u64::from(self.rise) * u64::from(behind) / PARTS
    }

    // A step from a height of the line towards the root of m: what its square lacks of m, by the slope, which is the rise over the
    // width of a segment. In two steps, 2^16 and 2^38, so that the product fits.
    fn corrected(self, m: u64, height: u64) -> u64
        requires { height < 2 ^ 33 }
    {
        let lacking = m.wrapping_sub(height.wrapping_mul(height));
        height + (lacking / 65_536).wrapping_mul(u64::from(self.rise)) / 274_877_906_944
    }
}
