// What libaxle.a exports, which include/axle.h declares: the functions of axle with their contracts. (They stand here again, for
// a crate is a library or a static library.)
#![tactic(auto)]

ghost use Rattle.std.specs.Prelude.{◌≡◌, length};
ghost use Rattle.grid.specs.Parts.{grid_of};
ghost use Rattle.lookup.specs.Loss.{loss_answer};
ghost use Rattle.lookup.specs.Nearest.{nearest_answer};
ghost use Rattle.listing.specs.Listing.{listing, listed};
ghost use Rattle.buffer.specs.Written.{content_of};
ghost use Rattle.writer.specs.Written.{written, file_after};
ghost use Rattle.axle.specs.Interface.{loss_of, nearest_of, length_of, written_of, numbers_in};
ghost use Rattle.axle.specs.Build.{BuildsForC, LoadsForC};
ghost use Rattle.axle.specs.Losses.{LossesForC};
ghost use Rattle.axle.specs.Steps.{StepsForC};
ghost use Rattle.axle.specs.Drag.{DragForC};

use axle::{
    AxleAxes, AxleBuilt, AxleDrag, AxleLength, AxleLoss, AxleLosses, AxleNearest, AxleNumbers,
    AxleSteps, AxleWritten,
};
use cell::Point;

// Builds the map of component data: its axes in the answer, its entries in the lent slice.
#[unsafe(no_mangle)]
pub extern "C" fn axle_build(data: &[u8], entries: &mut [u32]) -> AxleBuilt
    ensures { BuildsForC «data».now entries.old entries.new result }
{
    axle::axle_build(data, entries)
}

// Loads a listing: the axes of its map in the answer, its entries in the lent slice.
#[unsafe(no_mangle)]
pub extern "C" fn axle_load(text: &[u8], entries: &mut [u32]) -> AxleAxes
    ensures { LoadsForC text.now entries.old entries.new result }
{
    axle::axle_load(text, entries)
}

// The loss at a point of a map, speed in tenths of rpm and torque in hundredths of Nm.
#[unsafe(no_mangle)]
pub extern "C" fn axle_loss(
    speeds: &[u16; 32],
    speed_count: usize,
    torques: &[u16; 64],
    torque_count: usize,
    entries: &[u32],
    speed: u32,
    torque: u32,
) -> AxleLoss
    ensures { result ≡
        loss_of
        (loss_answer (grid_of speeds.now speed_count torques.now torque_count)
        entries.now (record { speed = speed; torque = torque })) }
{
    axle::axle_loss(
        speeds,
        speed_count,
        torques,
        torque_count,
        entries,
        speed,
        torque,
    )
}

// The losses at many points of a map.
#[unsafe(no_mangle)]
pub extern "C" fn axle_losses(
    speeds: &[u16; 32],
    speed_count: usize,
    torques: &[u16; 64],
    torque_count: usize,
    entries: &[u32],
    points: &[Point],
    losses: &mut [i64],
) -> AxleLosses
    ensures { LossesForC
        (grid_of speeds.now speed_count torques.now torque_count) entries.now points.now
        losses.old losses.new result }
{
    axle::axle_losses(
        speeds,
        speed_count,
        torques,
        torque_count,
        entries,
        points,
        losses,
    )
}

// The nearest grid point, speed in tenths of rpm and torque in hundredths of Nm.
#[unsafe(no_mangle)]
pub extern "C" fn axle_nearest(
    speeds: &[u16; 32],
    speed_count: usize,
    torques: &[u16; 64],
    torque_count: usize,
    speed: u32,
    torque: u32,
) -> AxleNearest
    ensures { result ≡
        nearest_of
        (nearest_answer (grid_of speeds.now speed_count torques.now torque_count) (record { speed = speed; torque = torque })) }
{
    axle::axle_nearest(speeds, speed_count, torques, torque_count, speed, torque)
}

// Writes the listing of a map from the start of the lent text.
#[unsafe(no_mangle)]
pub extern "C" fn axle_listing(
    speeds: &[u16; 32],
    speed_count: usize,
    torques: &[u16; 64],
    torque_count: usize,
    entries: &[u32],
    text: &mut [u8],
) -> AxleLength
    ensures answer { result ≡
        length_of
        (listed (grid_of speeds.now speed_count torques.now torque_count) entries.now (length text.old)) }
    ensures text_after { text.new ≡
        content_of
        (listed (grid_of speeds.now speed_count torques.now torque_count) entries.now (length text.old))
        (listing (grid_of speeds.now speed_count torques.now torque_count) entries.now)
        text.old }
{
    axle::axle_listing(speeds, speed_count, torques, torque_count, entries, text)
}

// Writes component data from its numbers, and the torques of its rows in the order of the data, to the first bytes of the lent file.
#[unsafe(no_mangle)]
pub extern "C" fn axle_write(numbers: AxleNumbers, rows: &[u32], file: &mut [u8]) -> AxleWritten
    ensures answer { result ≡ written_of (written (numbers_in numbers) rows.now (length file.old)) }
    ensures file_after { file.new ≡ file_after (numbers_in numbers) rows.now file.old }
{
    axle::axle_write(numbers, rows, file)
}

// The steps of a sensor's uncertainty, of its nine numbers in the order of the data and a torque in hundredths of Nm.
#[unsafe(no_mangle)]
pub extern "C" fn axle_steps(sensor: &[u16; 9], torque: u32) -> AxleSteps
    ensures { StepsForC sensor.now torque result }
{
    axle::axle_steps(sensor, torque)
}

// The drag of a retarder, from its readings and bearing losses in hundredths of Nm, the step-up ratio in thousandths and the drive
// speed in tenths of rpm.
#[unsafe(no_mangle)]
pub extern "C" fn axle_retarder_drag(
    readings: &[u32],
    bearing_losses: &[u32],
    ratio: u32,
    speed: u32,
) -> AxleDrag
    ensures { DragForC readings.now bearing_losses.now ratio speed result }
{
    axle::axle_retarder_drag(readings, bearing_losses, ratio, speed)
}
