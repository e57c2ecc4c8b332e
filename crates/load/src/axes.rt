// The axes of a map that is loaded, with 4, 5 and 6 of them.
ghost use Rattle.std.specs.Prelude.{◌≡◌, ◌≤◌, ◌&&◌, length};
ghost use Rattle.grid.specs.Axis.{◌to◌, within, valid_numbers};
ghost use Rattle.load.specs.Load.{all_within, axes_within};
ghost use Rattle.load.specs.Axes.{AxisCanHold, IsAxis, IsGrid};

use grid::{Axis, Grid, Range, SPEED_RANGE, TORQUE_RANGE, axis_valid};
use refusal::Refusal;

// Whether a number, which may be larger than an axis can hold, is in the range.
#[tactic(auto, unfolding(grid::specs::Axis::within))]
fn within(range: Range, n: u32) -> bool
    ensures { result ≡ within range n }
{
    u32::from(range.lowest) <= n && n <= u32::from(range.highest)
}

// Whether all numbers are in the range.
fn all_within(range: Range, numbers: &[u32]) -> bool
    ensures { result ≡ all_within range numbers.now }
{
    let mut all = true;
    for n in numbers {
        all &= within(range, *n);
    }
    all
}

// The axis of these numbers, which it can hold.
fn axis_of<const N: usize>(numbers: &[u32]) -> Axis<N>
    requires places { length numbers.now ≤ N }
    requires small { AxisCanHold numbers.now }
    ensures { IsAxis numbers.now result }
{
    let mut places = [0u16; N];
    for (i, n) in numbers.iter().enumerate() {
        places[i] = *n as u16;
    }
    Axis {
        numbers: places,
        count: numbers.len(),
    }
}

// Whether the numbers of both axes are in their ranges.
fn axes_within(speeds: &[u32], torques: &[u32]) -> bool
    ensures { result ≡ axes_within speeds.now torques.now }
{
    all_within(SPEED_RANGE, speeds) && all_within(TORQUE_RANGE, torques)
}

// Whether both axes keep the rules of their numbers.
fn axes_valid(grid: &Grid) -> bool
    ensures { result ≡
        (valid_numbers 32 (1 to 3000) grid.now.speeds.numbers grid.now.speeds.count
        && valid_numbers 64 (0 to 50000) grid.now.torques.numbers grid.now.torques.count) }
{
    axis_valid(&grid.speeds, SPEED_RANGE) && axis_valid(&grid.torques, TORQUE_RANGE)
}

// The grid of these speeds and torques: 4 of both, then 5 of both, then 6. (Once all numbers are in their ranges, what breaks the
// rules of an axis is a number that does not rise.)
pub fn grid_of(speeds: &[u32], torques: &[u32]) -> Result<Grid, Refusal>
    requires speeds { (2 ≤ length speeds.now) × (length speeds.now ≤ 32) }
    requires torques { (2 ≤ length torques.now) × (length torques.now ≤ 64) }
    ensures { IsGrid speeds.now torques.now result }
{
    if !axes_within(speeds, torques) {
        return Err(Refusal::OutOfRange(0));
    }
    let grid = Grid {
        speeds: axis_of(speeds),
        torques: axis_of(torques),
    };
    if !axes_valid(&grid) {
        return Err(Refusal::NotRising(0));
    }
    if !grid.torques.first_step_holds() {
        return Err(Refusal::FirstTorqueAboveStep(0));
    }
    Ok(grid)
}
