// The rows of a listing, one after the other, in their runs: what is kept of them, and whether the next one breaks its run.
ghost use Rattle.std.specs.Prelude.{◌≡◌};
ghost use Rattle.load.specs.Runs.{kept_in, kept_loss, NoRuns, with_first_run_row, with_later_run_row};
ghost use Rattle.load.specs.Answers.{TellsFirstRun, TellsLaterRun, TorqueKept, TorqueDue, FewRows, AddsRow, TellsWholeRuns};

use crate::first_row;
use listing_lines::Row;

// The counts of the rows so far, the last row's speed, and the speeds and torques as far as an axis has places. A run may be
// longer than that, and there may be more runs: then there is no map, but a later row may still break its run.
#[derive(Clone, Copy)]
pub struct Runs {
    pub row_count: usize,
    // How many rows the first run has.
    pub first_run: usize,
    // How many runs are whole, and how many rows there are behind them.
    pub run_count: usize,
    pub last_run: usize,
    pub last_speed: u32,
    pub speeds: [u32; 32],
    pub torques: [u32; 64],
}

// No rows.
impl Default for Runs {
    ghost is_default = { λ runs. NoRuns runs };

    fn default() -> Runs {
        Runs {
            row_count: 0,
            first_run: 0,
            run_count: 0,
            last_run: 0,
            last_speed: 0,
            speeds: [0; 32],
            torques: [0; 64],
        }
    }
}

// Keeps a number in its place, where there is one.
#[tactic(auto, unfolding(crate::specs::Runs::kept_in))]
pub fn keep(places: &mut [u32], place: usize, n: u32)
    ensures { places.new ≡ kept_in places.old place n }
{
    if place < places.len() {
        places[place] = n;
    }
}

// A loss as it is kept: one that 32 bits do not hold is too large for any map, and so is what is kept of it.
pub fn kept_loss(loss: u64) -> u32
    ensures { result ≡ kept_loss loss }
{
    loss.min(u64::from(u32::MAX)) as u32
}

impl Runs {
    // Whether the next row goes on with the first run.
    fn in_first_run(&self, next: Row) -> bool
        ensures { TellsFirstRun self.now next result }
    {
        self.first_run == self.row_count && (self.row_count == 0 || next.speed == self.last_speed)
    }

    // Whether the next row, which has to have this torque, goes on with a later run.
    fn in_later_run(&self, next: Row, torque: u32) -> bool
        ensures { TellsLaterRun self.now next torque result }
    {
        next.torque == torque && (self.last_run == 0 || next.speed == self.last_speed)
    }

    // The torque of the first run at the place of the next row. None where it is not kept, for the first run has too many.
    fn kept_torque(&self) -> Option<u32>
        ensures { TorqueKept self.now result }
    {
        if 64 < self.first_run || 64 <= self.last_run {
            return None;
        }
        Some(self.torques[self.last_run])
    }

    // The torque that the next row of a later run has to have. Where it is not kept, the row that stands a run before the next is
    // read again, and the text behind it is answered, else the text as it is. (There is such a row, and so neither of the two
    // answers with torque 0 is given.)
    fn torque_due<'a>(&self, run_before: &'a [u8]) -> (u32, &'a [u8])
        ensures { TorqueDue self.now run_before.now result }
    {
        if let Some(torque) = self.kept_torque() {
            return (torque, run_before);
        }
        if run_before.is_empty() {
            return (0, run_before);
        }
        match first_row(run_before, 0) {
            Ok((row, later)) => (row.torque, later),
            Err(_) => (0, run_before),
        }
    }

    // One row more, in the first run.
    fn add_to_first_run(&mut self, next: Row)
        requires { FewRows self.old }
        ensures { self.new ≡ with_first_run_row self.old next }
    {
        keep(&mut self.torques, self.row_count, next.torque);
        keep(&mut self.speeds, 0, next.speed);
        self.row_count += 1;
        self.first_run += 1;
        self.run_count = 1;
        self.last_run = 0;
        self.last_speed = next.speed;
    }

    // One row more, in a later run.
    fn add_to_later_run(&mut self, next: Row)
        requires { FewRows self.old }
        ensures { self.new ≡ with_later_run_row self.old next }
    {
        keep(&mut self.speeds, self.run_count, next.speed);
        self.row_count += 1;
        self.last_run += 1;
        if self.last_run == self.first_run {
            self.last_run = 0;
            self.run_count += 1;
        }
        self.last_speed = next.speed;
    }

    // Adds the next row, and answers the text from the row a run before the next one on, as far as that row has to be read
    // again. None where the row breaks its run.
    pub fn add<'a>(&mut self, next: Row, run_before: &'a [u8]) -> Option<&'a [u8]>
        requires { FewRows self.old }
        ensures { AddsRow self.old self.new next run_before.now result }
    {
        if self.in_first_run(next) {
            self.add_to_first_run(next);
            return Some(run_before);
        }
        let (torque, later) = self.torque_due(run_before);
        if !self.in_later_run(next, torque) {
            return None;
        }
        self.add_to_later_run(next);
        Some(later)
    }

    // Whether the last run is whole, and there are as many runs, and rows in each, as an axis may have numbers.
    pub fn whole_runs(&self) -> bool
        ensures { TellsWholeRuns self.now result }
    {
        (self.last_run == 0)
            & (2 <= self.run_count)
            & (self.run_count <= 32)
            & (2 <= self.first_run)
            & (self.first_run <= 64)
    }
}
