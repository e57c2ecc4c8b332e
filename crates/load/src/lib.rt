// Loads a listing: a map from its text.
#![tactic(auto)]

ghost use Rattle.std.specs.Prelude.{◌≡◌, ◌<◌, length};
ghost use Rattle.load.specs.Answers.{BehindHeader, FirstRow, ReadsRows, WritesEntries, Loads};

mod axes;
mod runs;

use axes::grid_of;
use grid::Grid;
use listing_lines::{Row, first_line, read_row, trimmed};
use refusal::Refusal;
use runs::{Runs, keep, kept_loss};

// The text behind the header, or 40.
fn behind_header(text: &[u8]) -> Result<&[u8], Refusal>
    ensures { BehindHeader text.now result }
{
    let Some((line, body)) = first_line(text) else {
        return Err(Refusal::WrongHeader);
    };
    if trimmed(line) == listing::header().as_slice() {
        Ok(body)
    } else {
        Err(Refusal::WrongHeader)
    }
}

// The row of the first line of a text, which stands at this offset, and the text behind it; or 41.
fn first_row(text: &[u8], at: usize) -> Result<(Row, &[u8]), Refusal>
    requires { 0 < length text.now }
    ensures { FirstRow text.now at result }
{
    let Some((line, later)) = first_line(text) else {
        return Err(Refusal::WrongLine(at));
    };
    let Some(row) = read_row(trimmed(line)) else {
        return Err(Refusal::WrongLine(at));
    };
    Ok((row, later))
}

// All rows of a text: 40, then 41 and 42 line by line. Their losses are kept as far as there are places.
fn read_rows(text: &[u8], losses: &mut [u32]) -> Result<Runs, Refusal>
    ensures { ReadsRows text.now losses.new result }
{
    let body = behind_header(text)?;
    let mut runs = Runs::default();
    let mut rest = body;
    let mut run_before = body;
    while !rest.is_empty() {
        let at = text.len() - rest.len();
        let (row, later) = first_row(rest, at)?;
        keep(losses, runs.row_count, kept_loss(row.loss));
        let Some(next_before) = runs.add(row, run_before) else {
            return Err(Refusal::BrokenRun(at));
        };
        run_before = next_before;
        rest = later;
    }
    Ok(runs)
}

// The losses are the entries: 10, then 11, then they are written.
fn write_entries(losses: &[u32], entries: &mut [u32]) -> Result<(), Refusal>
    ensures { WritesEntries losses.now entries.old entries.new result }
{
    if !lent::entries_valid(losses, losses.len()) {
        return Err(Refusal::EntryTooLarge(0));
    }
    if entries.len() < losses.len() {
        return Err(Refusal::TooShort(losses.len()));
    }
    entries[..losses.len()].copy_from_slice(losses);
    Ok(())
}

// Loads a listing: answers the axes of its map, and puts its entries into the lent slice, speeds outer and torques within. Where it
// refuses, the slice stays as it was; where it accepts, so does what stands past the last entry.
pub fn load(text: &[u8], entries: &mut [u32]) -> Result<Grid, Refusal>
    ensures { Loads text.now entries.old entries.new result }
{
    let mut losses = [0; 2048];
    let runs = read_rows(text, &mut losses)?;
    if !runs.whole_runs() {
        return Err(Refusal::BrokenRun(text.len()));
    }
    let speeds = &runs.speeds[..runs.run_count];
    let torques = &runs.torques[..runs.first_run];
    let grid = grid_of(speeds, torques)?;
    write_entries(&losses[..runs.row_count], entries)?;
    Ok(grid)
}
