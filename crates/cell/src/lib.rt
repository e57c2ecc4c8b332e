// A cell of a map, and the loss within it.
#![tactic(auto)]

ghost use Rattle.std.specs.Prelude.{◌≡◌, ◌*◌, ◌<◌, ◌≤◌, ◌^◌};
ghost use Rattle.arith.specs.Fraction.{◌less◌over◌};
ghost use Rattle.cell.specs.Rounding.{ceiling};
ghost use Rattle.cell.specs.Interpolation.{cell_numbers, interpolation, CellThere, CellBounds};

use grid::Grid;

// A query's point: speed in tenths of rpm and torque in hundredths of Nm.
#[repr(C)]
#[derive(Clone, Copy)]
pub struct Point {
    pub speed: u32,
    pub torque: u32,
}

// A cell: its speeds x in tenths of rpm, its torques y in hundredths of Nm, and the entries e at its corners, by speed and then by torque.
#[derive(Clone, Copy)]
pub struct CellNumbers {
    pub x0: u64,
    pub x1: u64,
    pub y0: u64,
    pub y1: u64,
    pub e00: u64,
    pub e01: u64,
    pub e10: u64,
    pub e11: u64,
}

// The cell whose lower speed is number i and whose lower torque is number j. It takes any axes and entries; a map that
// was tested would ask more of a caller.
#[tactic(auto, unfolding(crate::specs::Interpolation::cell_numbers))]
pub fn cell_numbers(grid: &Grid, entries: &[u32], i: usize, j: usize) -> CellNumbers
    requires { CellThere grid.now.torques.count entries.now (record { speed = i; torque = j }) }
    ensures { result ≡
        cell_numbers grid.now.speeds.numbers grid.now.torques.numbers grid.now.torques.count entries.now
        (record { speed = i; torque = j }) }
{
    let speeds = &grid.speeds.numbers;
    let torques = &grid.torques.numbers;
    let lower = i * grid.torques.count + j;
    let upper = lower + grid.torques.count;
    CellNumbers {
        x0: 10 * u64::from(speeds[i]),
        x1: 10 * u64::from(speeds[i + 1]),
        y0: 100 * u64::from(torques[j]),
        y1: 100 * u64::from(torques[j + 1]),
        e00: u64::from(entries[lower]),
        e01: u64::from(entries[lower + 1]),
        e10: u64::from(entries[upper]),
        e11: u64::from(entries[upper + 1]),
    }
}

// The loss in a cell, rounded up at the end alone. What counts for the loss and, below the first torque, what counts against it are kept apart.
#[tactic(auto, unfolding(crate::specs::Interpolation::interpolation))]
pub fn interpolate(cell: CellNumbers, point: Point) -> i64
    requires { CellBounds cell point }
    ensures { result ≡ ceiling (interpolation cell point) }
{
    let speed = u64::from(point.speed);
    let torque = u64::from(point.torque);
    let a0 = cell.x1.saturating_sub(speed);
    let a1 = speed.saturating_sub(cell.x0);
    let b0 = cell.y1.saturating_sub(torque);
    let b1 = torque.saturating_sub(cell.y0);
    let c1 = cell.y0.saturating_sub(torque);
    let plus = weighted(a0, b0, cell.e00)
        + weighted(a0, b1, cell.e01)
        + weighted(a1, b0, cell.e10)
        + weighted(a1, b1, cell.e11);
    let minus = weighted(a0, c1, cell.e01) + weighted(a1, c1, cell.e11);
    ceiling(plus, minus, (cell.x1 - cell.x0) * (cell.y1 - cell.y0))
}

// An entry times a share in speed and a share in torque.
fn weighted(speed: u64, torque: u64, entry: u64) -> u64
    requires speed { speed ≤ 30000 }
    requires torque { torque ≤ 5000000 }
    requires entry { entry ≤ 10000000 }
    ensures value { result ≡ speed * torque * entry }
    ensures bound { result ≤ 1500000000000000000 }
{
    speed * torque * entry
}

// (plus - minus) / denominator rounded up, "also under zero". Both are below 2^63, so the casts fit.
#[tactic(auto, using(crate::proofs::Rounding::ceilings))]
fn ceiling(plus: u64, minus: u64, denominator: u64) -> i64
    requires denominator { 0 < denominator }
    requires plus { plus < 2 ^ 63 }
    requires minus { minus < 2 ^ 63 }
    ensures { result ≡ ceiling (plus less minus over denominator) }
{
    if minus <= plus {
        arith::quotient_up(plus - minus, denominator) as i64
    } else {
        -(((minus - plus) / denominator) as i64)
    }
}
