// One row: its sensors with their torques, and its refusal (7 to 10) or its entry.
#![tactic(auto)]

ghost use Rattle.std.specs.Prelude.{◌≡◌, ◌+◌, ◌≤◌, ◌<◌, ◌^◌, IfOk, IfSome};
ghost use Rattle.refusal.specs.Table.{outcome_of};
ghost use Rattle.loss.specs.Measured.{output, UncertaintyBounded};
ghost use Rattle.loss.specs.SensorSteps.{steps_at};
ghost use Rattle.rows.specs.Rows.{near_axis};

use grid::LARGEST_ENTRY;
use loss::{Measurement, PreparedSensor, Steps};
use refusal::Refusal;

// A sensor with its torque in a row, in hundredths of Nm.
#[derive(Clone, Copy)]
pub struct Reading<'a> {
    pub sensor: &'a PreparedSensor,
    pub torque: u32,
}

impl Reading<'_> {
    // The steps of its uncertainty, or 7; the torque is at a place of the data.
    #[inline(always)]
    fn steps(self, place: usize) -> Result<Steps, Refusal>
        ensures answer { outcome_of result ≡ steps_at self.entry.sensor.now.sensor self.entry.torque place }
        ensures bounded { IfOk result UncertaintyBounded }
    {
        self.sensor.steps(self.torque, place)
    }
}

// Whether an output torque, in hundredths, is at most 5.00 Nm from its axis torque.
#[tactic(auto, unfolding(crate::specs::Rows::near_axis))]
fn near_axis(torque: u16, output: u32) -> bool
    ensures { result ≡ near_axis torque output }
{
    output.abs_diff(100 * u32::from(torque)) <= 500
}

// The readings of a row. Where there is a right output, output is the left one. (Its place is handed on beside it, for a refusal
// alone tells it; and one output or two are told by `match`, for there is no list to go through.)
#[derive(Clone, Copy)]
pub struct Row<'a> {
    pub ratio: u16,
    pub input: Reading<'a>,
    pub output: Reading<'a>,
    pub right: Option<Reading<'a>>,
}

impl Row<'_> {
    ghost use Rattle.rows.specs.Answers.{row_of, uncertainty_outcome, row_outcome};

    // The outputs' torques together.
    fn output_torque(&self) -> u32
        requires output { self.now.output.torque ≤ 5000000 }
        requires right { IfSome self.now.right (λ r. r.torque ≤ 5000000) }
        ensures { result ≡ output (row_of self.now) }
    {
        self.output.torque + self.right.map_or(0, |right| right.torque)
    }

    // The loss uncertainty in grains, or 7, first for the input and then for each output. The row's first byte is at a place.
    fn uncertainty(&self, place: usize) -> Result<u32, Refusal>
        requires { place + 8 < 2 ^ 64 }
        ensures { outcome_of result ≡ uncertainty_outcome (row_of self.now) place }
    {
        let input = self.input.steps(place)?;
        let output = self.output.steps(place + 4)?;
        let right = match self.right {
            Some(right) => Some(right.steps(place + 8)?),
            None => None,
        };
        Ok(loss::row_uncertainty(self.ratio, input, output, right))
    }

    // The entry of a row whose first byte is at a place of the data, or its refusal: 7 for the input and for each
    // output, then 8 and 9 for the outputs together, and 10.
    pub fn entry(&self, axis_torque: u16, place: usize) -> Result<u32, Refusal>
        requires { place + 8 < 2 ^ 64 }
        ensures { outcome_of result ≡ row_outcome axis_torque (row_of self.now) place }
    {
        let uncertainty = self.uncertainty(place)?;
        let measurement = Measurement {
            ratio: self.ratio,
            input: self.input.torque,
            output: self.output_torque(),
        };
        if !near_axis(axis_torque, measurement.output) {
            return Err(Refusal::OffAxisTorque(place + 4));
        }
        if measurement.loss().is_none() {
            return Err(Refusal::NegativeLoss(place));
        }
        let entry = measurement.entry(uncertainty);
        if u64::from(LARGEST_ENTRY) < entry {
            return Err(Refusal::EntryTooLarge(place));
        }
        // fits: it is at most the largest entry
        Ok(entry as u32)
    }
}
