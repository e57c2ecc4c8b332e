// What libtiming.a exports for the benchmark: the function of timing with its contract.
#![tactic(auto)]

ghost use Rattle.std.specs.Prelude.{◌≡◌};
ghost use Rattle.timing.specs.Roots.{content};

// The roots of all numbers, rounded up; where fewer places are lent than there are numbers, nothing is written.
#[unsafe(no_mangle)]
pub extern "C" fn timing_roots(numbers: &[u64], roots: &mut [u64])
    ensures { roots.new ≡ content numbers.now roots.old }
{
    timing::timing_roots(numbers, roots)
}
