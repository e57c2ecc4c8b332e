// The numbers that a caller hands over to be written as component data, and the tests of them that come before those of the rows.
#![tactic(auto)]

ghost use Rattle.std.specs.Prelude.{◌≡◌, ◌∷◌, ◌≤◌, IfOk};
ghost use Rattle.refusal.specs.Table.{outcome_of, outcome_as};
ghost use Rattle.sensor.specs.Sensor.{sensors_check};
ghost use Rattle.component.specs.Answers.{number_of, outputs_of};
ghost use Rattle.numbers.specs.Check.{axle_check, axis_check, axes_check, measured_check, numbers_check};

use component::Kind;
use grid::{Axis, Grid, Range};
use refusal::Refusal;
use sensor::Sensor;

// The numbers of component data but for its rows. The kind and the line are numbers, for any that is handed over is refused
// in its place. What the kind does not have is not looked at: of kind 1 the sensors, of kind 2 the right one.
#[derive(Clone, Copy)]
pub struct Numbers {
    // 1 standard, 2 measured, 3 measured with an output sensor on each half shaft
    pub kind: u16,
    // the axle line, 1 to 5: SR, SRT, SP, HR, HRT
    pub line: u16,
    // thousandths
    pub ratio: u16,
    pub grid: Grid,
    pub input: Sensor,
    // of kind 3 the left one
    pub output: Sensor,
    pub right: Sensor,
}

// Tags 1 to 3, and the kind that the first one says.
#[tactic(auto, using(component::proofs::KindNumbers::kind_within), unfolding(crate::specs::Check::axle_check))]
fn axle_check(numbers: &Numbers) -> Result<Kind, Refusal>
    ensures answer { outcome_as (λ kind. tt) result ≡ axle_check numbers.now.kind numbers.now.line numbers.now.ratio }
    ensures kind { IfOk result (λ kind. number_of kind ≡ numbers.now.kind) }
{
    let Some(kind) = Kind::from_number(numbers.kind) else {
        return Err(Refusal::OutOfRange(0));
    };
    if !component::LINES.contains(numbers.line) {
        return Err(Refusal::OutOfRange(0));
    }
    if !component::RATIOS.contains(numbers.ratio) {
        return Err(Refusal::RatioOutOfRange(0));
    }
    Ok(kind)
}

fn axis_check<const N: usize>(axis: &Axis<N>, range: Range) -> Result<(), Refusal>
    ensures { outcome_of result ≡ axis_check N range axis.now.numbers axis.now.count }
{
    let Some(numbers) = grid::counted(axis) else {
        return Err(Refusal::WrongLength(0));
    };
    grid::check_axis(numbers, range).map_err(|fault| fault.refusal(0))
}

#[tactic(auto, unfolding(crate::specs::Check::axes_check))]
fn axes_check(grid: &Grid) -> Result<(), Refusal>
    ensures { outcome_of result ≡ axes_check grid.now }
{
    axis_check(&grid.speeds, grid::SPEED_RANGE)?;
    axis_check(&grid.torques, grid::TORQUE_RANGE)?;
    if !grid.torques.first_step_holds() {
        return Err(Refusal::FirstTorqueAboveStep(0));
    }
    Ok(())
}

// The sensors of a measured kind. (The kind, here and below, is that of the numbers: a struct of both would be made and opened at
// once.)
#[tactic(auto, unfolding(sensor::specs::Sensor::sensors_check))]
fn sensors_check(numbers: &Numbers, kind: Kind) -> Result<(), Refusal>
    ensures { outcome_of result ≡ sensors_check (numbers.now.input ∷ outputs_of (number_of kind) numbers.now.output numbers.now.right) }
{
    numbers.input.check()?;
    numbers.output.check()?;
    if let Kind::Measured = kind {
        return Ok(());
    }
    numbers.right.check()
}

// The sensors, and how many torques the rows have: one of each sensor at each point.
#[tactic(auto, unfolding(crate::specs::Check::measured_check))]
fn measured_check(numbers: &Numbers, kind: Kind, row_torque_count: usize) -> Result<(), Refusal>
    requires kind { number_of kind ≡ numbers.now.kind }
    requires counts { (numbers.now.grid.speeds.count ≤ 32) × (numbers.now.grid.torques.count ≤ 64) }
    ensures { outcome_of result ≡ measured_check numbers.now row_torque_count }
{
    if let Kind::Standard = kind {
        return Ok(());
    }
    sensors_check(numbers, kind)?;
    let points = numbers.grid.points();
    if row_torque_count != usize::from(kind.number()) * points {
        return Err(Refusal::WrongLength(0));
    }
    Ok(())
}

// The tests of the numbers in the reader's order, and of how many torques the rows have; each refusal with place 0.
#[tactic(auto, unfolding(crate::specs::Check::numbers_check))]
pub fn check(numbers: &Numbers, row_torque_count: usize) -> Result<(), Refusal>
    ensures { outcome_of result ≡ numbers_check numbers.now row_torque_count }
{
    let kind = axle_check(numbers)?;
    axes_check(&numbers.grid)?;
    measured_check(numbers, kind, row_torque_count)
}
