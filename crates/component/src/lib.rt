// Reads component data: a run of fields, each a tag, a length in two bytes and a body.
#![tactic(auto)]

ghost use Rattle.std.specs.Prelude.{false, ◌≡◌, ◌+◌, ◌*◌, ◌≤◌, length, IfOk, IfSome, MatchOption};
ghost use Rattle.refusal.specs.Table.{outcome_as};
ghost use Rattle.grid.specs.Axis.{◌to◌, within};
ghost use Rattle.grid.specs.LossMap.{CountsWithin};
ghost use Rattle.component.specs.Component.{output_tags, rows_tag, row_length, kind_number, axle_fields, axes_fields, sensor_fields, measured_fields, kind_fields};
ghost use Rattle.component.specs.Answers.{number_of, RunOf, axle_of, axes_of, outputs_in, measured_in, kind_in, RowsWithin, Reads};

mod rows;

use fields::{Allowed, Cursor, Outside, Width};
use grid::{Grid, Range};
use refusal::Refusal;
pub use rows::Rows;
use sensor::Sensor;

// What only measured data has.
#[derive(Clone, Copy)]
pub struct Measured<'a> {
    pub input: Sensor,
    // the output sensor; of one on each half shaft the left one
    pub output: Sensor,
    // the right one, where there is one on each half shaft
    pub right: Option<Sensor>,
    pub rows: Rows<'a>,
}

// The numbers that component data says.
#[derive(Clone, Copy)]
pub struct Component<'a> {
    // the axle line, 1 to 5: SR, SRT, SP, HR, HRT; a number, for it is the index of the table of lines, and an enum would be
    // turned back into it
    pub line: u16,
    // thousandths
    pub ratio: u16,
    pub grid: Grid,
    // standard data has none
    pub measured: Option<Measured<'a>>,
}

// The kinds of component data.
#[derive(Clone, Copy)]
pub enum Kind {
    Standard,
    Measured,
    // measured, with an output sensor on each half shaft
    HalfShafts,
}

impl Kind {
    // Its number in the data, which for a measured kind is that of its sensors.
    pub fn number(self) -> u16
        ensures { result ≡ number_of self }
    {
        match self {
            Kind::Standard => 1,
            Kind::Measured => 2,
            Kind::HalfShafts => 3,
        }
    }

    // The kind of a number, where one has it. (`TryFrom` would need an error that says nothing.)
    #[tactic(auto, using(grid::proofs::AxisLaws::not_within))]
    pub fn from_number(number: u16) -> Option<Kind>
        ensures { MatchOption result (within (1 to 3) number ≡ false) (λ kind. number_of kind ≡ number) }
    {
        match number {
            1 => Some(Kind::Standard),
            2 => Some(Kind::Measured),
            3 => Some(Kind::HalfShafts),
            _ => None,
        }
    }
}

impl Component<'_> {
    pub fn kind(&self) -> Kind
        ensures { number_of result ≡ kind_number (kind_in self.now.measured) }
    {
        match self.measured {
            None => Kind::Standard,
            Some(measured) => match measured.right {
                None => Kind::Measured,
                Some(_) => Kind::HalfShafts,
            },
        }
    }
}

// The ranges of tags 1 to 3.
pub const KINDS: Range = Range {
    lowest: 1,
    highest: 3,
};

pub const LINES: Range = Range {
    lowest: 1,
    highest: 5,
};

pub const RATIOS: Range = Range {
    lowest: 1000,
    highest: 20_000,
};

#[derive(Clone, Copy)]
struct Axle {
    pub kind: Kind,
    // a number, as in `Component`
    pub line: u16,
    pub ratio: u16,
}

// Tags 1 to 3; a tag stands here as the number that document 01 gives it. Each run of fields gives what it says, and the cursor
// past it.
#[tactic(auto, unfolding(crate::specs::Component::axle_fields))]
fn read_axle(start: Cursor<'_>) -> Result<(Axle, Cursor<'_>), Refusal>
    ensures { RunOf start.entry axle_fields axle_of result }
{
    let kind = start.number(1, Width::One, KINDS, Outside::KindOrLine)?;
    let line = kind.next.number(2, Width::One, LINES, Outside::KindOrLine)?;
    let ratio = line.next.number(3, Width::Two, RATIOS, Outside::Ratio)?;
    let axle = Axle {
        // there is one, for the number is in its range
        kind: Kind::from_number(kind.value).unwrap(),
        line: line.value,
        ratio: ratio.value,
    };
    Ok((axle, ratio.next))
}

// Tags 4 and 5.
#[tactic(auto, using(fields::proofs::Bodies::first_step_lem), unfolding(crate::specs::Component::axes_fields))]
fn read_axes(start: Cursor<'_>) -> Result<(Grid, Cursor<'_>), Refusal>
    ensures answer { RunOf start.entry axes_fields axes_of result }
    ensures counts { IfOk result (λ run. CountsWithin run.0) }
{
    let speeds = start.axis(4, grid::SPEED_RANGE)?;
    let torques = speeds.next.axis(5, grid::TORQUE_RANGE)?;
    let grid = Grid {
        speeds: speeds.value,
        torques: torques.value,
    };
    if !grid.torques.first_step_holds() {
        return Err(Refusal::FirstTorqueAboveStep(torques.start));
    }
    Ok((grid, torques.next))
}

// The output sensors, on their way into `Measured`.
#[derive(Clone, Copy)]
struct Outputs {
    pub output: Sensor,
    pub right: Option<Sensor>,
}

// Tag 7, and where a measured kind has a sensor on each half shaft tag 9.
#[tactic(auto, unfolding(crate::specs::Component::output_tags, crate::specs::Component::sensor_fields))]
fn read_outputs(start: Cursor<'_>, kind: Kind) -> Result<(Outputs, Cursor<'_>), Refusal>
    ensures { RunOf start.entry (λ bytes at. sensor_fields bytes at (output_tags (number_of kind))) outputs_in result }
{
    let output = start.sensor(7)?;
    if let Kind::Measured = kind {
        let outputs = Outputs {
            output: output.value,
            right: None,
        };
        return Ok((outputs, output.next));
    }
    let right = output.next.sensor(9)?;
    let outputs = Outputs {
        output: output.value,
        right: Some(right.value),
    };
    Ok((outputs, right.next))
}

// The tag of the rows. It answers for any number, and a `Kind` would ask more of a caller.
#[tactic(auto, unfolding(crate::specs::Component::rows_tag))]
pub fn rows_tag(kind: u16) -> u8
    ensures { result ≡ rows_tag kind }
{
    if kind == 2 { 8 } else { 10 }
}

// How many bytes the rows of a measured kind have: four for each sensor at each point. (That the points are few is a clause
// here and where it is handed on: a type for a number of points would be made and opened at once.)
fn rows_length(kind: Kind, points: usize) -> usize
    requires { points ≤ 2048 }
    ensures { result ≡ row_length (number_of kind) * points }
{
    4 * usize::from(kind.number()) * points
}

// From tag 6 on, for so many points.
#[tactic(auto, unfolding(crate::specs::Component::measured_fields))]
fn read_measured(
    start: Cursor<'_>,
    kind: Kind,
    points: usize,
) -> Result<(Measured<'_>, Cursor<'_>), Refusal>
    requires { points ≤ 2048 }
    ensures answer { RunOf start.entry (λ bytes at. measured_fields bytes at (number_of kind) points) measured_in result }
    ensures rows_within { IfOk result (λ run. RowsWithin (length start.entry.data.now) run.0.rows) }
{
    let input = start.sensor(6)?;
    let (outputs, next) = read_outputs(input.next, kind)?;
    let allowed = Allowed::Exactly(rows_length(kind, points));
    let rows = next.field(rows_tag(kind.number()), allowed)?;
    let measured = Measured {
        input: input.value,
        output: outputs.output,
        right: outputs.right,
        rows: Rows {
            start: rows.start,
            bytes: rows.value,
        },
    };
    Ok((measured, rows.next))
}

// What follows the axes.
#[tactic(auto, unfolding(crate::specs::Component::kind_fields))]
fn read_kind(
    start: Cursor<'_>,
    kind: Kind,
    points: usize,
) -> Result<(Option<Measured<'_>>, Cursor<'_>), Refusal>
    requires { points ≤ 2048 }
    ensures answer { RunOf start.entry (λ bytes at. kind_fields bytes at (number_of kind) points) kind_in result }
    ensures rows_within { IfOk result (λ run. IfSome run.0 (λ m. RowsWithin (length start.entry.data.now) m.rows)) }
{
    if let Kind::Standard = kind {
        return Ok((None, start));
    }
    let (measured, next) = read_measured(start, kind, points)?;
    Ok((Some(measured), next))
}

// Reads the fields in their order; then nothing may follow.
#[tactic(auto, unfolding(crate::specs::Component::component))]
pub fn read(data: &[u8]) -> Result<Component<'_>, Refusal>
    ensures { Reads «data».now result }
{
    let (axle, next) = read_axle(Cursor { data, at: 0 })?;
    let (grid, next) = read_axes(next)?;
    let points = grid.points();
    let (measured, next) = read_kind(next, axle.kind, points)?;
    let end = next.at;
    if end < data.len() {
        return Err(Refusal::TrailingBytes(end));
    }
    Ok(Component {
        line: axle.line,
        ratio: axle.ratio,
        grid,
        measured,
    })
}
