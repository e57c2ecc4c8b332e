// The library for C and Rust: include/axle.h says the same for a C programmer. The crate axle_c exports these functions.
// Each answer has the refusal's number, 0 where there is none, its place, and the values apart from them; an axis is an array
// and a count. C has no `Result` and no enum with values. No function requires anything of its caller but that what is lent is there.
#![tactic(auto)]

ghost use Rattle.std.specs.Prelude.{◌≡◌, length};
ghost use Rattle.refusal.specs.Table.{outcome_of};
ghost use Rattle.grid.specs.Parts.{grid_of};
ghost use Rattle.lookup.specs.Loss.{loss_answer};
ghost use Rattle.lookup.specs.Losses.{losses_outcome};
ghost use Rattle.lookup.specs.Nearest.{nearest_answer};
ghost use Rattle.listing.specs.Listing.{listing, listed};
ghost use Rattle.buffer.specs.Written.{content_of};
ghost use Rattle.writer.specs.Written.{written, file_after};
ghost use Rattle.axle.specs.Interface.{status_of, loss_of, losses_of, nearest_of, length_of, written_of, steps_of, drag_of, numbers_in};
ghost use Rattle.axle.specs.Build.{BuiltOf, LoadedOf, BuildsForC, LoadsForC};
ghost use Rattle.axle.specs.Losses.{LossesForC};
ghost use Rattle.axle.specs.Steps.{StepsForC};
ghost use Rattle.axle.specs.Drag.{DragForC};

use cell::Point;
use grid::{Axis, Grid};
use lookup::{GridPoint, LossesRefusal};
use loss::Steps;
use numbers::Numbers;
use refusal::Refusal;
use sensor::Sensor;

// The number of a refusal in document 01's table and its place, as each answer for C holds them; where it is of a number of a
// field, 1 and that number's index, and else 0 and 0. All are 0 where nothing is refused.
#[derive(Clone, Copy)]
pub struct Status {
    pub refusal: u32,
    pub has_index: u32,
    pub place: usize,
    pub index: usize,
}

// A map that was built: its axes. Where the build is refused the counts are 0 and the numbers mean nothing.
#[repr(C)]
#[derive(Clone, Copy)]
pub struct AxleBuilt {
    pub refusal: u32,
    pub has_index: u32,
    pub place: usize,
    pub index: usize,
    pub speeds: [u16; 32],
    pub speed_count: usize,
    pub torques: [u16; 64],
    pub torque_count: usize,
}

// A map that was loaded: its axes. Where the load is refused the counts are 0 and the numbers mean nothing.
#[repr(C)]
#[derive(Clone, Copy)]
pub struct AxleAxes {
    pub refusal: u32,
    pub place: usize,
    pub speeds: [u16; 32],
    pub speed_count: usize,
    pub torques: [u16; 64],
    pub torque_count: usize,
}

// A loss in hundredths of Nm, 0 where it is refused.
#[repr(C)]
#[derive(Clone, Copy)]
pub struct AxleLoss {
    pub refusal: u32,
    pub place: usize,
    pub loss: i64,
}

// Of many questions, why they are refused; where it is of a point, 1 and which, from 0, and else 0 and 0. All are 0 where nothing is
// refused.
#[repr(C)]
#[derive(Clone, Copy)]
pub struct AxleLosses {
    pub refusal: u32,
    pub has_point: u32,
    pub place: usize,
    pub point: usize,
}

// A speed in rpm and a torque in Nm, both 0 where it is refused.
#[repr(C)]
#[derive(Clone, Copy)]
pub struct AxleNearest {
    pub refusal: u32,
    pub place: usize,
    pub speed: u16,
    pub torque: u16,
}

// How many bytes a listing has, 0 where it is refused.
#[repr(C)]
#[derive(Clone, Copy)]
pub struct AxleLength {
    pub refusal: u32,
    pub place: usize,
    pub length: usize,
}

// How many bytes a file has that was written, 0 where the call is refused.
#[repr(C)]
#[derive(Clone, Copy)]
pub struct AxleWritten {
    pub refusal: u32,
    pub has_index: u32,
    pub place: usize,
    pub index: usize,
    pub length: usize,
}

// The steps of a sensor's uncertainty in grains, all 0 where the call is refused.
#[repr(C)]
#[derive(Clone, Copy)]
pub struct AxleSteps {
    pub refusal: u32,
    pub has_index: u32,
    pub place: usize,
    pub index: usize,
    pub temperature_on_sensitivity: u64,
    pub temperature_on_zero: u64,
    pub calibration: u64,
    pub parasitic_loads: u64,
    pub uncertainty: u64,
}

// The drag of a retarder in hundredths of Nm, 0 where it is refused.
#[repr(C)]
#[derive(Clone, Copy)]
pub struct AxleDrag {
    pub refusal: u32,
    pub place: usize,
    pub drag: u32,
}

// The numbers of component data but for its rows, plain ones, as C hands them over. A sensor's nine numbers are in the order of the data; of kind 3 output is the left one.
#[repr(C)]
#[derive(Clone, Copy)]
pub struct AxleNumbers {
    pub kind: u16,
    pub line: u16,
    pub ratio: u16,
    pub speeds: [u16; 32],
    pub speed_count: usize,
    pub torques: [u16; 64],
    pub torque_count: usize,
    pub input: [u16; 9],
    pub output: [u16; 9],
    pub right: [u16; 9],
}

fn status_of<T>(answer: &Result<T, Refusal>) -> Status
    ensures { result ≡ status_of answer.now }
{
    match answer {
        Ok(_) => Status {
            refusal: 0,
            has_index: 0,
            place: 0,
            index: 0,
        },
        Err(x) => Status {
            refusal: u32::from(x.number()),
            has_index: u32::from(x.index().is_some()),
            place: x.place(),
            index: x.index().unwrap_or(0),
        },
    }
}

impl From<Result<Grid, Refusal>> for AxleBuilt {
    ghost from_gives = { λ answer built. BuiltOf answer built };

    fn from(answer: Result<Grid, Refusal>) -> AxleBuilt {
        let status = status_of(&answer);
        let Grid { speeds, torques } = answer.unwrap_or_default();
        // (an array goes from one struct into another by a local)
        let speed_numbers = speeds.numbers;
        let torque_numbers = torques.numbers;
        AxleBuilt {
            refusal: status.refusal,
            has_index: status.has_index,
            place: status.place,
            index: status.index,
            speeds: speed_numbers,
            speed_count: speeds.count,
            torques: torque_numbers,
            torque_count: torques.count,
        }
    }
}

impl From<Result<Grid, Refusal>> for AxleAxes {
    ghost from_gives = { λ answer loaded. LoadedOf answer loaded };

    fn from(answer: Result<Grid, Refusal>) -> AxleAxes {
        let status = status_of(&answer);
        let grid = answer.unwrap_or_default();
        let speeds = grid.speeds.numbers;
        let torques = grid.torques.numbers;
        AxleAxes {
            refusal: status.refusal,
            place: status.place,
            speeds,
            speed_count: grid.speeds.count,
            torques,
            torque_count: grid.torques.count,
        }
    }
}

impl From<Result<i64, Refusal>> for AxleLoss {
    ghost from_gives = { λ answer loss. loss ≡ loss_of (outcome_of answer) };

    fn from(answer: Result<i64, Refusal>) -> AxleLoss {
        let status = status_of(&answer);
        AxleLoss {
            refusal: status.refusal,
            place: status.place,
            loss: answer.unwrap_or(0),
        }
    }
}

impl From<Result<(), LossesRefusal>> for AxleLosses {
    ghost from_gives = { λ answer losses. losses ≡ losses_of (losses_outcome answer) };

    fn from(answer: Result<(), LossesRefusal>) -> AxleLosses {
        match answer {
            Ok(()) => AxleLosses {
                refusal: 0,
                has_point: 0,
                place: 0,
                point: 0,
            },
            Err(LossesRefusal { refusal, point }) => AxleLosses {
                refusal: u32::from(refusal.number()),
                has_point: u32::from(point.is_some()),
                place: refusal.place(),
                point: point.unwrap_or(0),
            },
        }
    }
}

impl From<Result<GridPoint, Refusal>> for AxleNearest {
    ghost from_gives = { λ answer nearest. nearest ≡ nearest_of (outcome_of answer) };

    fn from(answer: Result<GridPoint, Refusal>) -> AxleNearest {
        let status = status_of(&answer);
        let point = answer.unwrap_or_default();
        AxleNearest {
            refusal: status.refusal,
            place: status.place,
            speed: point.speed,
            torque: point.torque,
        }
    }
}

impl From<Result<usize, Refusal>> for AxleLength {
    ghost from_gives = { λ answer length. length ≡ length_of (outcome_of answer) };

    fn from(answer: Result<usize, Refusal>) -> AxleLength {
        let status = status_of(&answer);
        AxleLength {
            refusal: status.refusal,
            place: status.place,
            length: answer.unwrap_or(0),
        }
    }
}

impl From<Result<usize, Refusal>> for AxleWritten {
    ghost from_gives = { λ answer written. written ≡ written_of (outcome_of answer) };

    fn from(answer: Result<usize, Refusal>) -> AxleWritten {
        let status = status_of(&answer);
        AxleWritten {
            refusal: status.refusal,
            has_index: status.has_index,
            place: status.place,
            index: status.index,
            length: answer.unwrap_or(0),
        }
    }
}

impl From<Result<Steps, Refusal>> for AxleSteps {
    ghost from_gives = { λ answer steps. steps ≡ steps_of (outcome_of answer) };

    fn from(answer: Result<Steps, Refusal>) -> AxleSteps {
        let status = status_of(&answer);
        let steps = answer.unwrap_or_default();
        AxleSteps {
            refusal: status.refusal,
            has_index: status.has_index,
            place: status.place,
            index: status.index,
            temperature_on_sensitivity: steps.temperature_on_sensitivity,
            temperature_on_zero: steps.temperature_on_zero,
            calibration: steps.calibration,
            parasitic_loads: steps.parasitic_loads,
            uncertainty: u64::from(steps.uncertainty),
        }
    }
}

impl From<Result<u32, Refusal>> for AxleDrag {
    ghost from_gives = { λ answer drag. drag ≡ drag_of (outcome_of answer) };

    fn from(answer: Result<u32, Refusal>) -> AxleDrag {
        let status = status_of(&answer);
        AxleDrag {
            refusal: status.refusal,
            place: status.place,
            drag: answer.unwrap_or(0),
        }
    }
}

// The axes that C lends.
fn grid_of(speeds: &[u16; 32], speed_count: usize, torques: &[u16; 64], torque_count: usize) -> Grid
    ensures { result ≡ grid_of speeds.now speed_count torques.now torque_count }
{
    Grid {
        speeds: Axis {
            numbers: *speeds,
            count: speed_count,
        },
        torques: Axis {
            numbers: *torques,
            count: torque_count,
        },
    }
}

impl From<AxleNumbers> for Numbers {
    ghost from_gives = { λ handed numbers. numbers ≡ numbers_in handed };

    fn from(handed: AxleNumbers) -> Numbers {
        Numbers {
            kind: handed.kind,
            line: handed.line,
            ratio: handed.ratio,
            grid: grid_of(
                &handed.speeds,
                handed.speed_count,
                &handed.torques,
                handed.torque_count,
            ),
            input: Sensor::from(handed.input),
            output: Sensor::from(handed.output),
            right: Sensor::from(handed.right),
        }
    }
}

// Builds the map of component data: its axes in the answer, its entries in the lent slice.
pub fn axle_build(data: &[u8], entries: &mut [u32]) -> AxleBuilt
    ensures { BuildsForC «data».now entries.old entries.new result }
{
    map::build(data, entries).into()
}

// Loads a listing: the axes of its map in the answer, its entries in the lent slice.
pub fn axle_load(text: &[u8], entries: &mut [u32]) -> AxleAxes
    ensures { LoadsForC text.now entries.old entries.new result }
{
    load::load(text, entries).into()
}

// The loss at a point of a map, speed in tenths of rpm and torque in hundredths of Nm.
pub fn axle_loss(
    speeds: &[u16; 32],
    speed_count: usize,
    torques: &[u16; 64],
    torque_count: usize,
    entries: &[u32],
    speed: u32,
    torque: u32,
) -> AxleLoss
    ensures { result ≡
        loss_of
        (loss_answer (grid_of speeds.now speed_count torques.now torque_count)
        entries.now (record { speed = speed; torque = torque })) }
{
    let grid = grid_of(speeds, speed_count, torques, torque_count);
    lookup::loss(&grid, entries, Point { speed, torque }).into()
}

// The losses at many points of a map, speeds in tenths of rpm and torques in hundredths of Nm, in the first places of what is lent.
pub fn axle_losses(
    speeds: &[u16; 32],
    speed_count: usize,
    torques: &[u16; 64],
    torque_count: usize,
    entries: &[u32],
    points: &[Point],
    losses: &mut [i64],
) -> AxleLosses
    ensures { LossesForC
        (grid_of speeds.now speed_count torques.now torque_count) entries.now points.now
        losses.old losses.new result }
{
    let grid = grid_of(speeds, speed_count, torques, torque_count);
    lookup::losses(&grid, entries, points, losses).into()
}

// The nearest grid point, speed in tenths of rpm and torque in hundredths of Nm.
pub fn axle_nearest(
    speeds: &[u16; 32],
    speed_count: usize,
    torques: &[u16; 64],
    torque_count: usize,
    speed: u32,
    torque: u32,
) -> AxleNearest
    ensures { result ≡
        nearest_of
        (nearest_answer (grid_of speeds.now speed_count torques.now torque_count) (record { speed = speed; torque = torque })) }
{
    let grid = grid_of(speeds, speed_count, torques, torque_count);
    lookup::nearest(&grid, Point { speed, torque }).into()
}

// Writes the listing of a map from the start of the lent text.
pub fn axle_listing(
    speeds: &[u16; 32],
    speed_count: usize,
    torques: &[u16; 64],
    torque_count: usize,
    entries: &[u32],
    text: &mut [u8],
) -> AxleLength
    ensures answer { result ≡
        length_of
        (listed (grid_of speeds.now speed_count torques.now torque_count) entries.now (length text.old)) }
    ensures text_after { text.new ≡
        content_of
        (listed (grid_of speeds.now speed_count torques.now torque_count) entries.now (length text.old))
        (listing (grid_of speeds.now speed_count torques.now torque_count) entries.now)
        text.old }
{
    let grid = grid_of(speeds, speed_count, torques, torque_count);
    listing::write(&grid, entries, text).into()
}

// Writes component data from its numbers, and the torques of its rows in the order of the data, to the first bytes of the lent file.
pub fn axle_write(numbers: AxleNumbers, rows: &[u32], file: &mut [u8]) -> AxleWritten
    ensures answer { result ≡ written_of (written (numbers_in numbers) rows.now (length file.old)) }
    ensures file_after { file.new ≡ file_after (numbers_in numbers) rows.now file.old }
{
    let numbers = Numbers::from(numbers);
    writer::write(&numbers, rows, file).into()
}

// The steps of a sensor's uncertainty, of its nine numbers in the order of the data and a torque in hundredths of Nm.
pub fn axle_steps(sensor: &[u16; 9], torque: u32) -> AxleSteps
    ensures { StepsForC sensor.now torque result }
{
    loss::sensor_steps(Sensor::from(*sensor), torque).into()
}

// The drag of a retarder, from its readings and bearing losses in hundredths of Nm, the step-up ratio in thousandths and the drive
// speed in tenths of rpm.
pub fn axle_retarder_drag(
    readings: &[u32],
    bearing_losses: &[u32],
    ratio: u32,
    speed: u32,
) -> AxleDrag
    ensures { DragForC readings.now bearing_losses.now ratio speed result }
{
    retarder::drag(readings, bearing_losses, ratio, speed).into()
}
