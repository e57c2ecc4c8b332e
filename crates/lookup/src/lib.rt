// The loss at a point of a map, the losses at many points, and the nearest grid point.
#![tactic(auto)]

ghost use Rattle.std.specs.Prelude.{◌≡◌, true, ℕ, ◌*◌, ◌<◌, ◌≤◌, ◌-◌, ◌^◌, length, get_or, None, OnOk};
ghost use Rattle.refusal.specs.Outcome.{first_refusal};
ghost use Rattle.refusal.specs.Table.{outcome_of, outcome_as};
ghost use Rattle.grid.specs.Lists.{overwritten};
ghost use Rattle.grid.specs.Map.{counted_numbers, valid_grid};
ghost use Rattle.lookup.specs.Loss.{Rise, neighbour, map_loss, loss_answer};
ghost use Rattle.lookup.specs.Nearest.{distance, nearest_number, nearest_answer};
ghost use Rattle.lookup.specs.Losses.{point_at, point_check, point_losses, losses_answer, losses_outcome, LeavesLosses, EachLoss, WithinMap, LossesDecided};

use cell::Point;
use grid::Grid;
use lent::Map;
use refusal::Refusal;

// A point of a grid: a speed in rpm and a torque in Nm.
#[derive(Clone, Copy, Default)]
pub struct GridPoint {
    pub speed: u16,
    pub torque: u16,
}

// The numbers of an axis, two or more that rise and no more than 16 bits can count, and how many units each of them counts.
#[derive(Clone, Copy)]
pub struct ScaledAxis<'a> {
    pub numbers: &'a [u16],
    pub scale: u64,
    pub ghost two: { 2 ≤ length numbers.now },
    pub ghost few: { length numbers.now < 2 ^ 16 },
    pub ghost rising: { Rise numbers.now },
    pub ghost positive: { 0 < scale },
    pub ghost fits: { scale ≤ 10000 },
}

// Both axes of a grid, speeds in tenths of rpm and torques in hundredths of Nm.
#[tactic(auto, using(crate::proofs::Axes::counts))]
fn scaled_axes(grid: &Grid) -> (ScaledAxis<'_>, ScaledAxis<'_>)
    requires { valid_grid grid.now ≡ true }
    ensures speeds { (result.0.numbers.now ≡ counted_numbers grid.now.speeds) × (result.0.scale ≡ 10) }
    ensures torques { (result.1.numbers.now ≡ counted_numbers grid.now.torques) × (result.1.scale ≡ 100) }
{
    let speeds = ScaledAxis {
        numbers: grid.speeds.counted_numbers(),
        scale: 10,
    };
    let torques = ScaledAxis {
        numbers: grid.torques.counted_numbers(),
        scale: 100,
    };
    (speeds, torques)
}

// The lower neighbour of v among numbers that rise: how many of those between the first and the last are at or below v. None of
// them ends the loop, so that it runs on several at once, and no branch depends on v.
fn lower_neighbour(numbers: &[u16], v: u64) -> usize
    requires count { (2 ≤ length numbers.now) × (length numbers.now < 2 ^ 16) }
    requires rising { Rise numbers.now }
    ensures { result ≡ neighbour numbers.now 1 v }
{
    // (no number is above the largest that 16 bits hold)
    let most = v.min(65_535) as u16;
    let mut below: u16 = 0;
    for i in 1..numbers.len() - 1 {
        below += u16::from(numbers[i] <= most);
    }
    usize::from(below)
}

impl ScaledAxis<'_> {
    // Number i, in the units of a query.
    fn at(&self, i: usize) -> u64
        requires { i < length self.now.numbers.now }
        ensures { result ≡ self.now.scale * get_or self.now.numbers.now i 0 }
    {
        self.scale * u64::from(self.numbers[i])
    }

    fn last(&self) -> u64
        ensures { result ≡ self.now.scale * get_or self.now.numbers.now (length self.now.numbers.now - 1) 0 }
    {
        self.at(self.numbers.len() - 1)
    }

    // The index of the lower neighbour of v: the last number at or below v, but for the last of all; the first where v is
    // below all.
    #[tactic(auto, using(crate::proofs::Axes::neighbour_unscaled))]
    pub fn neighbour(&self, v: u64) -> usize
        ensures { result ≡ neighbour self.now.numbers.now self.now.scale v }
    {
        lower_neighbour(self.numbers, v / self.scale)
    }

    // How far a number is from v.
    fn distance(&self, number: u16, v: u64) -> u64
        ensures { result ≡ distance (self.now.scale * number) v }
    {
        (self.scale * u64::from(number)).abs_diff(v)
    }

    // The number that is nearest to v: one of its two neighbours, the lower one where both are equally near.
    fn nearest(&self, v: u64) -> u16
        ensures { result ≡ nearest_number self.now.numbers.now self.now.scale v }
    {
        let i = self.neighbour(v);
        let lower = self.numbers[i];
        let upper = self.numbers[i + 1];
        if self.distance(upper, v) < self.distance(lower, v) {
            upper
        } else {
            lower
        }
    }
}

// The loss at a point in hundredths of Nm. 22 is tested first, then 20, then 21. (Grid and entries are what a caller lends: a
// struct of the two would be made for each call and opened by the test.)
#[tactic(auto, using(crate::proofs::Axes::counts), unfolding(crate::specs::Loss::loss_answer))]
pub fn loss(grid: &Grid, entries: &[u32], point: Point) -> Result<i64, Refusal>
    ensures { outcome_of result ≡ loss_answer grid.now entries.now point }
{
    let map = lent::tested_map(grid, entries)?;
    loss_of(&map, point)
}

// Whether a point is within the limits of a map that was tested: 20, then 21. (Inlined, and so is `loss_of`, so that a loop over
// points finds the limits of the axes once.)
#[inline(always)]
#[tactic(auto, using(crate::proofs::Axes::counts), unfolding(crate::specs::Loss::loss_answer))]
fn check_point(map: &Map, point: Point) -> Result<(), Refusal>
    ensures { outcome_as (λ within. map_loss map.now.grid.now map.now.entries.now point) result
        ≡ loss_answer map.now.grid.now map.now.entries.now point }
{
    let (speeds, torques) = scaled_axes(map.grid);
    let speed = u64::from(point.speed);
    if speed < speeds.at(0) || speeds.last() < speed {
        return Err(Refusal::SpeedOutside);
    }
    if torques.last() < u64::from(point.torque) {
        return Err(Refusal::TorqueAbove);
    }
    Ok(())
}

// The loss at a point of a map that was tested, in hundredths of Nm: 20, then 21.
#[inline(always)]
pub fn loss_of(map: &Map, point: Point) -> Result<i64, Refusal>
    ensures { outcome_of result ≡ loss_answer map.now.grid.now map.now.entries.now point }
{
    check_point(map, point)?;
    Ok(loss_within(map, point))
}

// Why many questions are refused: the refusal, and which point it is of, from 0, where it is of one (20, 21).
#[derive(Clone, Copy)]
pub struct LossesRefusal {
    pub refusal: Refusal,
    pub point: Option<usize>,
}

impl From<Refusal> for LossesRefusal {
    ghost from_gives = { λ refusal losses_refusal. losses_refusal ≡ record { refusal = refusal; point = None } };

    fn from(refusal: Refusal) -> LossesRefusal {
        LossesRefusal {
            refusal,
            point: None,
        }
    }
}

// Whether all points are within the limits of a map that was tested, or the first that is not.
fn check_points(map: &Map, points: &[Point]) -> Result<(), LossesRefusal>
    ensures { losses_outcome result
        ≡ first_refusal (point_check map.now.grid.now map.now.entries.now points.now) 0 (length points.now) }
{
    for (i, point) in points.iter().enumerate() {
        if let Err(refusal) = check_point(map, *point) {
            return Err(LossesRefusal {
                refusal,
                point: Some(i),
            });
        }
    }
    Ok(())
}

// The losses at points that are within the limits of a map, in the first places of what is lent. By an index, for after
// `losses.iter_mut()` a proof knows nothing of what was written.
fn write_losses(map: &Map, points: &[Point], losses: &mut [i64])
    requires within { (i : ℕ) → i < length points.now → WithinMap map.now.grid.now (point_at points.now i) }
    requires room { length points.now ≤ length losses.old }
    ensures { losses.new
        ≡ overwritten (point_losses map.now.grid.now map.now.entries.now points.now) losses.old }
{
    for (i, point) in points.iter().enumerate() {
        losses[i] = loss_within(map, *point);
    }
}

// The losses at many points of a map, which is tested once, in hundredths of Nm: in the order of the points, in the first places
// of what is lent. 22 is tested first; then 11, with as many as there are points; then 20 and 21 of each point in their order. A
// refusal writes nothing.
#[tactic(auto, using(crate::proofs::ManyPoints::losses_decided))]
pub fn losses(
    grid: &Grid,
    entries: &[u32],
    points: &[Point],
    losses: &mut [i64],
) -> Result<(), LossesRefusal>
    ensures leaves { LeavesLosses
        (losses_answer grid.now entries.now points.now (length losses.old)) losses.old losses.new result }
    ensures single { OnOk result (EachLoss grid.now entries.now points.now losses.new) }
    ensures decided { LossesDecided grid.now entries.now points.now (length losses.old) }
{
    let tested = lent::tested_map(grid, entries)?;
    if losses.len() < points.len() {
        return Err(Refusal::TooShort(points.len()).into());
    }
    check_points(&tested, points)?;
    write_losses(&tested, points, losses);
    Ok(())
}

// The loss at a point within the limits of a map.
#[tactic(auto, using(crate::proofs::Axes::counts))]
fn loss_within(map: &Map, point: Point) -> i64
    requires { WithinMap map.now.grid.now point }
    ensures { result ≡ map_loss map.now.grid.now map.now.entries.now point }
{
    let (speeds, torques) = scaled_axes(map.grid);
    let i = speeds.neighbour(u64::from(point.speed));
    let j = torques.neighbour(u64::from(point.torque));
    let cell = cell::cell_numbers(map.grid, map.entries, i, j);
    cell::interpolate(cell, point)
}

// The nearest grid point. 22 is tested for the axes; no entry is asked for.
#[tactic(auto, using(crate::proofs::Axes::counts), unfolding(crate::specs::Nearest::nearest_answer))]
pub fn nearest(grid: &Grid, point: Point) -> Result<GridPoint, Refusal>
    ensures { outcome_of result ≡ nearest_answer grid.now point }
{
    if !grid::grid_valid(grid) {
        return Err(Refusal::NotAMap);
    }
    let (speeds, torques) = scaled_axes(grid);
    Ok(GridPoint {
        speed: speeds.nearest(u64::from(point.speed)),
        torque: torques.nearest(u64::from(point.torque)),
    })
}
