// The drag of a retarder, on the line between two speed points of its table (document 02, C-17).
#![tactic(auto)]

ghost use Rattle.std.specs.Prelude.{◌≡◌, ◌*◌, ◌-◌, ◌≤◌, ◌<◌, length, IfOk};
ghost use Rattle.arith.specs.Fraction.{round_up};
ghost use Rattle.refusal.specs.Table.{outcome_of};
ghost use Rattle.retarder.specs.SpeedPoints.{speed_point};
ghost use Rattle.retarder.specs.Drag.{point_drag, within_limits, drag_fits, drags_fit, speed_within, exact_drag, retarder_speed, drag_answer};
ghost use Rattle.retarder.specs.Laws.{OnSegment, DragsFit, DragAccurate};

use lookup::ScaledAxis;
use refusal::Refusal;

// The speed points of a retarder that is tested as a stand-alone unit, in rpm (source document 002, 5.1.6.2.1).
const SPEED_POINTS: [u16; 13] = [
    200, 400, 600, 900, 1200, 1600, 2000, 2500, 3000, 3500, 4000, 4500, 5000,
];

// A retarder speed is in ten-thousandths of rpm.
const UNITS_PER_RPM: u64 = 10_000;

// The limits of a step-up ratio, in thousandths.
const LOWEST_RATIO: u32 = 100;

const HIGHEST_RATIO: u32 = 10_000;

// A line takes two points.
const FEWEST_READINGS: usize = 2;

// The largest drag, in hundredths of Nm.
const LARGEST_DRAG: u32 = 10_000_000;

// The retarder speed: a drive speed in tenths of rpm times a step-up ratio in thousandths. Nothing of it is rounded.
fn retarder_speed(ratio: u32, speed: u32) -> u64
    ensures { result ≡ retarder_speed ratio speed }
{
    u64::from(speed) * u64::from(ratio)
}

// Speed point i, as a retarder speed.
fn speed_point(i: usize) -> u64
    requires { i < 13 }
    ensures { result ≡ speed_point i }
{
    UNITS_PER_RPM * u64::from(SPEED_POINTS[i])
}

// Whether the ratio and the count of readings are within their limits, and there are as many bearing losses.
fn within_limits(readings: &[u32], bearing_losses: &[u32], ratio: u32) -> bool
    ensures { result ≡ within_limits readings.now bearing_losses.now ratio }
{
    let count = readings.len();
    (LOWEST_RATIO <= ratio && ratio <= HIGHEST_RATIO)
        && ((FEWEST_READINGS <= count && count <= SPEED_POINTS.len())
            && bearing_losses.len() == count)
}

// Whether a reading is not below its bearing loss, and its drag not above the largest.
fn drag_fits(reading: u32, bearing_loss: u32) -> bool
    ensures { result ≡ drag_fits reading bearing_loss }
{
    reading
        .checked_sub(bearing_loss)
        .is_some_and(|drag| drag <= LARGEST_DRAG)
}

// The same of every reading.
fn drags_fit(readings: &[u32], bearing_losses: &[u32]) -> bool
    requires { length bearing_losses.now ≡ length readings.now }
    ensures { result ≡ drags_fit readings.now bearing_losses.now }
{
    for (i, reading) in readings.iter().enumerate() {
        if !drag_fits(*reading, bearing_losses[i]) {
            return false;
        }
    }
    true
}

// Whether the retarder speed v is within the speed points that have a reading.
fn speed_within(readings: &[u32], v: u64) -> bool
    requires { (1 ≤ length readings.now) × (length readings.now ≤ 13) }
    ensures { result ≡ speed_within readings.now v }
{
    speed_point(0) <= v && v <= speed_point(readings.len() - 1)
}

// The drag at a speed point.
fn point_drag(readings: &[u32], bearing_losses: &[u32], i: usize) -> u64
    requires drags { DragsFit readings.now bearing_losses.now }
    requires reading { i < length readings.now }
    requires bearing_loss { i < length bearing_losses.now }
    ensures drag { result ≡ point_drag readings.now bearing_losses.now i }
    ensures bound { result ≤ 10000000 }
{
    u64::from(readings[i] - bearing_losses[i])
}

// A part of a segment times a drag.
fn weighted(part: u64, drag: u64) -> u64
    requires part { part ≤ 5000000 }
    requires drag { drag ≤ 10000000 }
    ensures value { result ≡ part * drag }
    ensures bound { result ≤ 50000000000000 }
{
    part * drag
}

// The drag at the retarder speed v, on the segment from speed point i to the next.
fn drag_on(readings: &[u32], bearing_losses: &[u32], v: u64, i: usize) -> u32
    requires drags { DragsFit readings.now bearing_losses.now }
    requires counts { (length readings.now ≤ 13) × (length bearing_losses.now ≡ length readings.now) }
    requires segment { OnSegment readings.now v i }
    ensures { result ≡ round_up (exact_drag readings.now bearing_losses.now v i) }
{
    let x = speed_point(i);
    let y = speed_point(i + 1);
    let lower = weighted(y - v, point_drag(readings, bearing_losses, i));
    let upper = weighted(v - x, point_drag(readings, bearing_losses, i + 1));
    // in 32 bits: it is at most the larger of the two drags
    arith::quotient_up(lower + upper, y - x) as u32
}

// The drag of a retarder in hundredths of Nm, at a drive speed in tenths of rpm and a step-up ratio in thousandths, from the
// readings at the first speed points and the bearing loss of the rig at each, both in hundredths of Nm. 45 is tested first, then 46,
// then 47.
pub fn drag(
    readings: &[u32],
    bearing_losses: &[u32],
    ratio: u32,
    speed: u32,
) -> Result<u32, Refusal>
    ensures answer { outcome_of result ≡ drag_answer readings.now bearing_losses.now ratio speed }
    ensures accurate { IfOk result (DragAccurate readings.now bearing_losses.now (retarder_speed ratio speed)) }
{
    if !within_limits(readings, bearing_losses, ratio) {
        return Err(Refusal::RetarderOutOfLimits);
    }
    if !drags_fit(readings, bearing_losses) {
        return Err(Refusal::DragOutOfRange);
    }
    let v = retarder_speed(ratio, speed);
    if !speed_within(readings, v) {
        return Err(Refusal::RetarderSpeedOutside);
    }
    let points = ScaledAxis {
        numbers: &SPEED_POINTS[..readings.len()],
        scale: UNITS_PER_RPM,
    };
    Ok(drag_on(readings, bearing_losses, v, points.neighbour(v)))
}
