// The rows of readings: what a row is, and all rows of a map in their order.
#![tactic(auto)]

ghost use Rattle.std.specs.Prelude.{◌≡◌, ◌+◌, ◌*◌, ◌≤◌, ◌∷◌, length, IfOk, OnOk};
ghost use Rattle.refusal.specs.Outcome.{first_refusal};
ghost use Rattle.refusal.specs.Table.{outcome_of, outcome_as};
ghost use Rattle.grid.specs.Lists.{tabulate, joined, overwritten};
ghost use Rattle.sensor.specs.Sensor.{sensors_check};
ghost use Rattle.component.specs.Component.{sensor_count, row_length};
ghost use Rattle.component.specs.Answers.{output_sensors};
ghost use Rattle.rows.specs.Rows.{torque_at, row_at, row_start};
ghost use Rattle.rows.specs.Answers.{bench_of, bench_with, row_of, part_check, part_entry, speed_part_check, speed_part_entries};

mod row;

use component::Rows;
use loss::PreparedSensor;
use refusal::Refusal;
use row::{Reading, Row};
use sensor::Sensor;

// What all rows share: the ratio and the sensors. Where there is a right output, output is the left one.
#[derive(Clone, Copy)]
pub struct Bench {
    pub ratio: u16,
    pub input: PreparedSensor,
    pub output: PreparedSensor,
    pub right: Option<PreparedSensor>,
}

// The torque at an index of the rows' bytes. (By an index, here and below: two or three torques of a row are read once each, and
// what is cut for a row would be cut again for each of them.)
#[tactic(auto, using(crate::proofs::FourBytes::four_at), unfolding(crate::specs::Rows::torque_at))]
fn torque_at(bytes: &[u8], at: usize) -> u32
    requires { at + 4 ≤ length bytes.now }
    ensures { result ≡ torque_at bytes.now at }
{
    u32::from_be_bytes([bytes[at], bytes[at + 1], bytes[at + 2], bytes[at + 3]])
}

// A sensor with the torque at an index of the rows' bytes.
fn reading_at<'a>(sensor: &'a PreparedSensor, bytes: &[u8], at: usize) -> Reading<'a>
    requires { at + 4 ≤ length bytes.now }
    ensures sensor { result.sensor.now.sensor ≡ sensor.now.sensor }
    ensures torque { result.torque ≡ torque_at bytes.now at }
{
    Reading {
        sensor,
        torque: torque_at(bytes, at),
    }
}

impl Bench {
    // 32 where a number of a sensor is outside its range, with place 0.
    pub fn new(
        ratio: u16,
        input: Sensor,
        output: Sensor,
        right: Option<Sensor>,
    ) -> Result<Bench, Refusal>
        ensures answer { outcome_as (λ bench. tt) result ≡ sensors_check (input ∷ output_sensors output right) }
        ensures bench { IfOk result (λ bench. bench_of bench ≡ bench_with ratio input output right) }
    {
        let input = PreparedSensor::new(input)?;
        let output = PreparedSensor::new(output)?;
        let right = match right {
            Some(right) => Some(PreparedSensor::new(right)?),
            None => None,
        };
        Ok(Bench {
            ratio,
            input,
            output,
            right,
        })
    }

    // How many bytes a row has: four for each torque.
    fn row_length(&self) -> usize
        ensures { result ≡ row_length (sensor_count (bench_of self.now).outputs) }
    {
        if self.right.is_some() { 12 } else { 8 }
    }

    // The row that starts at an index of the rows' bytes.
    #[tactic(auto, unfolding(crate::specs::Rows::row_at, crate::specs::Rows::outputs_at))]
    fn row_at(&self, bytes: &[u8], at: usize) -> Row<'_>
        requires { at + row_length (sensor_count (bench_of self.now).outputs) ≤ length bytes.now }
        ensures { row_of result ≡ row_at (bench_of self.now) bytes.now at }
    {
        Row {
            ratio: self.ratio,
            input: reading_at(&self.input, bytes, at),
            output: reading_at(&self.output, bytes, at + 4),
            right: self
                .right
                .as_ref()
                .map(|right| reading_at(right, bytes, at + 8)),
        }
    }
}

// The rows of one speed: their entries are written to the first places of what is lent. By an index, for a refusal tells
// the row's place, and after `entries.iter_mut()` a proof knows nothing of what was written. (Rows, bench and torques are three:
// each speed has its own part of the rows, and a struct of the three would be made anew for it.)
fn fill_speed(
    rows: Rows,
    bench: &Bench,
    torques: &[u16],
    entries: &mut [u32],
) -> Result<(), Refusal>
    requires rows { row_start (bench_of bench.now) (length torques.now) ≤ length rows.bytes.now }
    requires entries { length torques.now ≤ length entries.old }
    ensures answer { outcome_of result ≡
        first_refusal (part_check (bench_of bench.now) torques.now rows.entry.bytes.now rows.entry.start)
        0 (length torques.now) }
    ensures filled { OnOk result (entries.new ≡
        overwritten (tabulate (part_entry (bench_of bench.now) rows.entry.bytes.now) (length torques.now))
        entries.old) }
{
    let length = bench.row_length();
    for (i, torque) in torques.iter().enumerate() {
        let at = length * i;
        let row = bench.row_at(rows.bytes, at);
        let entry = row.entry(*torque, rows.start + at)?;
        entries[i] = entry;
    }
    Ok(())
}

// The rows of all speeds, one speed after the other; by an index as above.
pub fn fill_rows(
    rows: Rows,
    bench: &Bench,
    speeds: usize,
    torques: &[u16],
    entries: &mut [u32],
) -> Result<(), Refusal>
    requires rows { row_start (bench_of bench.now) (speeds * length torques.now) ≤ length rows.bytes.now }
    requires entries { speeds * length torques.now ≤ length entries.old }
    ensures answer { outcome_of result ≡
        first_refusal (speed_part_check (bench_of bench.now) torques.now rows.entry.bytes.now rows.entry.start)
        0 speeds }
    ensures filled { OnOk result (entries.new ≡
        overwritten (joined (speed_part_entries (bench_of bench.now) torques.now rows.entry.bytes.now) speeds)
        entries.old) }
{
    let length = bench.row_length();
    for speed in 0..speeds {
        let first = speed * torques.len();
        let at = length * first;
        let of_speed = Rows {
            start: rows.start + at,
            bytes: &rows.bytes[at..],
        };
        fill_speed(of_speed, bench, torques, &mut entries[first..])?;
    }
    Ok(())
}
