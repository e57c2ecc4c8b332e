// Builds a map and asks it: the code that demand 3 is said of.
#![tactic(auto)]

ghost use Rattle.asking.specs.Answers.{Asks, AsksLosses};

use cell::Point;
use grid::Grid;
use lookup::LossesRefusal;
use refusal::Refusal;

// The build's answer, and the answer to the query, which is refused with 22 where the build refuses.
#[derive(Clone, Copy)]
pub struct Asked {
    pub built: Result<Grid, Refusal>,
    pub loss: Result<i64, Refusal>,
}

// Builds the map of component data in the lent entries, then asks it for the loss at a point.
pub fn ask(data: &[u8], entries: &mut [u32], point: Point) -> Asked
    ensures { Asks «data».now entries.old entries.new point result }
{
    let built = map::build(data, entries);
    let loss = match &built {
        Ok(grid) => lookup::loss(grid, entries, point),
        Err(_) => Err(Refusal::NotAMap),
    };
    Asked { built, loss }
}

// The build's answer, and that of many questions asked together, which are refused with 22 where the build refuses.
#[derive(Clone, Copy)]
pub struct AskedLosses {
    pub built: Result<Grid, Refusal>,
    pub losses: Result<(), LossesRefusal>,
}

// Builds the map of component data in the lent entries, then asks it for the losses at many points, in the lent losses.
pub fn ask_losses(
    data: &[u8],
    entries: &mut [u32],
    points: &[Point],
    losses: &mut [i64],
) -> AskedLosses
    ensures { AsksLosses
        «data».now entries.old entries.new points.now losses.old losses.new result }
{
    let built = map::build(data, entries);
    let losses = match &built {
        Ok(grid) => lookup::losses(grid, entries, points, losses),
        Err(_) => Err(Refusal::NotAMap.into()),
    };
    AskedLosses { built, losses }
}
