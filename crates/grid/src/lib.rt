// The two axes of a map, their rules, and what makes a map.
#![tactic(auto)]

ghost use Rattle.std.specs.Prelude.{◌≡◌, ◌&&◌, ◌*◌, ◌<◌, ◌≤◌, length, get_or};
ghost use Rattle.refusal.specs.Outcome.{refusal};
ghost use Rattle.refusal.specs.Table.{told};
ghost use Rattle.grid.specs.Every.{every};
ghost use Rattle.grid.specs.Axis.{within, rises, axis_numbers, first_step, valid_numbers};
ghost use Rattle.grid.specs.Counted.{Counted};
ghost use Rattle.grid.specs.Fault.{fault_number, fault_index, fault_of};
ghost use Rattle.grid.specs.Map.{counted_numbers, valid_speeds, valid_torques, valid_grid};

use refusal::Refusal;

// The numbers that a place of the data may hold, both ends among them. (`RangeInclusive` of std is not `Copy`.)
#[derive(Clone, Copy)]
pub struct Range {
    pub lowest: u16,
    pub highest: u16,
}

impl Range {
    // Whether a number is in the range, both ends in it.
    #[tactic(auto, unfolding(crate::specs::Axis::within))]
    pub fn contains(self, number: u16) -> bool
        ensures { result ≡ within self number }
    {
        (self.lowest <= number) & (number <= self.highest)
    }
}

// The range of a speed, in rpm.
pub const SPEED_RANGE: Range = Range {
    lowest: 1,
    highest: 3000,
};

// The range of a torque, in Nm.
pub const TORQUE_RANGE: Range = Range {
    lowest: 0,
    highest: 50_000,
};

// The largest entry of a map, in hundredths of Nm.
pub const LARGEST_ENTRY: u32 = 10_000_000;

// An axis: its numbers, and how many there are. What stands past the count means nothing.
#[derive(Clone, Copy)]
pub struct Axis<const N: usize> {
    pub numbers: [u16; N],
    pub count: usize,
}

pub type SpeedAxis = Axis<32>;

pub type TorqueAxis = Axis<64>;

// The axes of a map: speeds in rpm and torques in Nm, both at the wheel.
#[derive(Clone, Copy, Default)]
pub struct Grid {
    pub speeds: SpeedAxis,
    pub torques: TorqueAxis,
}

// An axis with no numbers.
impl<const N: usize> Default for Axis<N> {
    ghost is_default = { λ axis. axis.count ≡ 0 };

    fn default() -> Axis<N> {
        Axis {
            numbers: [0; N],
            count: 0,
        }
    }
}

impl<const N: usize> Axis<N> {
    // Its numbers, as far as they are counted; all of them where the count is more than its places.
    pub fn counted_numbers(&self) -> &[u16]
        ensures numbers { result.now ≡ counted_numbers self.now }
        ensures long { self.now.count ≤ N → length result.now ≡ self.now.count }
    {
        &self.numbers[..self.count.min(N)]
    }
}

// The first number of an axis that is wrong, by its index.
#[derive(Clone, Copy)]
pub enum AxisFault {
    // 4: it is not in its range.
    OutOfRange(usize),
    // 5: it does not rise.
    NotRising(usize),
}

impl AxisFault {
    // The number's index.
    pub fn index(self) -> usize
        ensures { result ≡ fault_index self }
    {
        match self {
            AxisFault::OutOfRange(i) | AxisFault::NotRising(i) => i,
        }
    }

    // Its refusal, told with a place.
    pub fn refusal(self, place: usize) -> Refusal
        ensures { told result ≡ refusal (fault_number self) place }
    {
        match self {
            AxisFault::OutOfRange(_) => Refusal::OutOfRange(place),
            AxisFault::NotRising(_) => Refusal::NotRising(place),
        }
    }
}

// Whether number i is above the one before; the first has none before it.
#[tactic(auto, unfolding(crate::specs::Axis::rises))]
fn above_previous(numbers: &[u16], i: usize) -> bool
    requires { i < length numbers.now }
    ensures { result ≡ rises numbers.now i }
{
    i == 0 || numbers[i - 1] < numbers[i]
}

// Looks for a wrong number, left to right; of one number, the range is tested before the order.
pub fn check_axis(numbers: &[u16], range: Range) -> Result<(), AxisFault>
    ensures { fault_of result ≡ axis_numbers range numbers.now (length numbers.now) }
{
    for (i, number) in numbers.iter().enumerate() {
        if !range.contains(*number) {
            return Err(AxisFault::OutOfRange(i));
        }
        if !above_previous(numbers, i) {
            return Err(AxisFault::NotRising(i));
        }
    }
    Ok(())
}

impl Grid {
    // How many points it has, where neither axis counts more than its places.
    pub fn points(&self) -> usize
        ensures points { self.now.speeds.count ≤ 32 → self.now.torques.count ≤ 64 → result ≡ self.now.speeds.count * self.now.torques.count }
        ensures at_most { self.now.speeds.count ≤ 32 → self.now.torques.count ≤ 64 → result ≤ 2048 }
    {
        self.speeds.count.saturating_mul(self.torques.count)
    }
}

impl TorqueAxis {
    // Whether the first torque is not above the step from it to the second.
    #[tactic(auto, unfolding(crate::specs::Axis::first_step))]
    pub fn first_step_holds(&self) -> bool
        ensures { result ≡ first_step self.now.numbers }
    {
        let [first, second, ..] = self.numbers;
        first <= second.saturating_sub(first)
    }
}

// Whether number i, which has one before it, is in its range and above that one.
// There is no branch, so that a loop over it runs on several numbers at once.
fn later_valid(numbers: &[u16], range: Range, i: usize) -> bool
    requires { (0 < i) × (i < length numbers.now) }
    ensures { result ≡ (within range (get_or numbers.now i 0) && rises numbers.now i) }
{
    range.contains(numbers[i]) & (numbers[i - 1] < numbers[i])
}

// Whether each of the numbers is in its range and above the one before. By an index: over `numbers.iter().zip(&numbers[1..])`,
// which proves, the nearest point takes 6 % longer, for the number before is then carried along.
fn numbers_valid(numbers: &[u16], range: Range) -> bool
    requires { 0 < length numbers.now }
    ensures { result ≡ every (λ i. within range (get_or numbers.now i 0) && rises numbers.now i) (length numbers.now) }
{
    let mut valid = range.contains(numbers[0]);
    for i in 1..numbers.len() {
        valid &= later_valid(numbers, range, i);
    }
    valid
}

// The numbers of an axis as far as they are counted; none where its count is not from two to its places.
pub fn counted<const N: usize>(axis: &Axis<N>) -> Option<&[u16]>
    ensures { Counted N axis.now.numbers axis.now.count result }
{
    if axis.count < 2 || N < axis.count {
        return None;
    }
    Some(axis.counted_numbers())
}

// Whether an axis has two numbers or more, no more than it has places, each in its range and above the one before.
pub fn axis_valid<const N: usize>(axis: &Axis<N>, range: Range) -> bool
    ensures { result ≡ valid_numbers N range axis.now.numbers axis.now.count }
{
    counted(axis).is_some_and(|numbers| numbers_valid(numbers, range))
}

// Whether a speed axis keeps its rules: 2 to 32 numbers, 1 to 3,000 rpm each, rising.
#[tactic(auto, unfolding(crate::specs::Map::valid_speeds))]
pub fn speeds_valid(axis: &SpeedAxis) -> bool
    ensures { result ≡ valid_speeds axis.now.numbers axis.now.count }
{
    axis_valid(axis, SPEED_RANGE)
}

// Whether a torque axis keeps its rules: 2 to 64 numbers, 0 to 50,000 Nm each, rising, with the rule of the first step.
pub fn torques_valid(axis: &TorqueAxis) -> bool
    ensures { result ≡ valid_torques axis.now.numbers axis.now.count }
{
    axis_valid(axis, TORQUE_RANGE) && axis.first_step_holds()
}

// Whether both axes of a grid keep their rules.
#[tactic(auto, unfolding(crate::specs::Map::valid_grid))]
pub fn grid_valid(grid: &Grid) -> bool
    ensures { result ≡ valid_grid grid.now }
{
    speeds_valid(&grid.speeds) && torques_valid(&grid.torques)
}
