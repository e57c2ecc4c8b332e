// What the benchmark measures and the library for C does not export: roots rounded up, many in one call.
#![tactic(auto)]

ghost use Rattle.std.specs.Prelude.{◌≡◌};
ghost use Rattle.timing.specs.Roots.{content};

// The roots of all numbers, rounded up, in the first places of what is lent; where fewer places are lent than there are numbers, nothing is written.
pub fn timing_roots(numbers: &[u64], roots: &mut [u64])
    ensures { roots.new ≡ content numbers.now roots.old }
{
    if numbers.len() <= roots.len() {
        // by an index, for after `roots.iter_mut().zip(numbers)` a proof knows nothing of what was written
        for (i, number) in numbers.iter().enumerate() {
            roots[i] = arith::root_up(*number);
        }
    }
}
