// Builds a loss map from component data.
#![tactic(auto)]

ghost use Rattle.std.specs.Prelude.{◌≡◌, ◌+◌, ◌*◌, ◌≤◌, length, replicate};
ghost use Rattle.refusal.specs.Outcome.{first_refusal};
ghost use Rattle.refusal.specs.Table.{outcome_of};
ghost use Rattle.grid.specs.Lists.{tabulate, joined, overwritten};
ghost use Rattle.grid.specs.LossMap.{CountsWithin, EntriesWritten};
ghost use Rattle.component.specs.Answers.{component_of};
ghost use Rattle.layout.specs.Rules.{Rules};
ghost use Rattle.rows.specs.Rows.{row_start};
ghost use Rattle.rows.specs.Answers.{speed_part_check, speed_part_entries, bench_of};
ghost use Rattle.map.specs.Answers.{stretch, standard_at, standard_row, BuildsEntries, Builds};

use component::{Component, Rows};
use grid::Grid;
use refusal::Refusal;
use rows::Bench;

// The row builder: gets the mutable part of the lent entries from index speed * torque count on, and puts the
// speed's row at its start.
fn build_row(row: &[u32], entries: &mut [u32])
    requires { length row.now ≤ length entries.old }
    ensures { entries.new ≡ overwritten row.now entries.old }
{
    entries[..row.len()].copy_from_slice(row);
}

// Each speed's row, one stretch after the other, from rows that were reckoned before: that of a speed starts step places
// after the one before, 0 where all speeds share a row. (A closure that gives a speed's row would need a contract of its own
// at both calls.) By an index, for after `chunks_exact_mut` a proof knows nothing of what was written.
fn build_rows(from: &[u32], step: usize, size: usize, speeds: usize, entries: &mut [u32])
    requires from { speeds * step + size ≤ length from.now + step }
    requires entries { speeds * size ≤ length entries.old }
    ensures { entries.new ≡ overwritten (joined (stretch from.now step size) speeds) entries.old }
{
    for speed in 0..speeds {
        let source = speed * step;
        build_row(&from[source..source + size], &mut entries[speed * size..]);
    }
}

// The standard row, which all speeds share. An entry fits 32 bits, as `standard_entry` says. By an index, as above.
fn standard_row(component: &Component, torques: &[u16]) -> [u32; 64]
    requires { length torques.now ≤ 64 }
    ensures { result ≡
        overwritten
        (tabulate (standard_at component.now.line component.now.ratio torques.now) (length torques.now))
        (replicate 64 0) }
{
    let mut row = [0u32; 64];
    for (i, torque) in torques.iter().enumerate() {
        row[i] = loss::standard_entry(component.line, component.ratio, *torque) as u32;
    }
    row
}

// Standard entries: the row that all speeds share, once for each speed.
#[tactic(auto, using(crate::proofs::Copying::same_row, grid::proofs::Lists::length_tabulate), unfolding(crate::specs::Answers::standard_row))]
fn build_standard(component: &Component, speeds: usize, torques: &[u16], entries: &mut [u32])
    requires torques { length torques.now ≤ 64 }
    requires entries { speeds * length torques.now ≤ length entries.old }
    ensures { entries.new ≡
        overwritten
        (joined (standard_row component.now.line component.now.ratio torques.now) speeds)
        entries.old }
{
    let row = standard_row(component, torques);
    build_rows(&row, 0, torques.len(), speeds, entries);
}

// Measured entries: all rows are checked before the first entry is written. (Rows, bench and torques as in `fill_rows`.)
#[tactic(auto, using(crate::proofs::Copying::own_stretch, rows::proofs::RowParts::speed_size))]
fn build_measured(
    rows: Rows,
    bench: &Bench,
    speeds: usize,
    torques: &[u16],
    entries: &mut [u32],
) -> Result<(), Refusal>
    requires rows { row_start (bench_of bench.now) (speeds * length torques.now) ≤ length rows.bytes.now }
    requires points { speeds * length torques.now ≤ 2048 }
    requires entries { speeds * length torques.now ≤ length entries.old }
    ensures answer { outcome_of result ≡
        first_refusal (speed_part_check (bench_of bench.now) torques.now rows.entry.bytes.now rows.entry.start)
        0 speeds }
    ensures entries_written { EntriesWritten result entries.new
        (joined (speed_part_entries (bench_of bench.now) torques.now rows.entry.bytes.now) speeds) entries.old }
{
    let mut buffer = [0u32; 2048];
    rows::fill_rows(rows, bench, speeds, torques, &mut buffer)?;
    build_rows(&buffer, torques.len(), torques.len(), speeds, entries);
    Ok(())
}

// The entries of data that was read: 11, then the rows in order, then the entries are written. (No sensor is refused here: its
// numbers were read, and are in their ranges.)
fn build_entries(component: &Component, entries: &mut [u32]) -> Result<(), Refusal>
    requires rules { Rules (component_of component.now) }
    requires counts { CountsWithin component.now.grid }
    ensures { BuildsEntries entries.old entries.new component.now result }
{
    let speeds = component.grid.speeds.count;
    let torques = component.grid.torques.counted_numbers();
    // (of a count and a slice, not `Grid::points`, for the rows are as many as these)
    let points = speeds * torques.len();
    if entries.len() < points {
        return Err(Refusal::TooShort(points));
    }
    match &component.measured {
        None => {
            build_standard(component, speeds, torques, entries);
            Ok(())
        }
        Some(measured) => {
            let bench = Bench::new(
                component.ratio,
                measured.input,
                measured.output,
                measured.right,
            )?;
            build_measured(measured.rows, &bench, speeds, torques, entries)
        }
    }
}

// Builds the map of component data: answers its axes, and puts its entries into the lent slice, the row of one speed
// after that of another. Where it refuses, the slice stays as it was; where it accepts, so does what stands past the
// last entry.
pub fn build(data: &[u8], entries: &mut [u32]) -> Result<Grid, Refusal>
    ensures { Builds «data».now entries.old entries.new result }
{
    let component = component::read(data)?;
    build_entries(&component, entries)?;
    Ok(component.grid)
}
