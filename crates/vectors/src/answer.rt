// What each kind of case is answered.
use crate::case::{Case, Kind};
use crate::print::Hexadecimal;
use crate::{bytes, print};
use cell::Point;
use component::Component;
use grid::Grid;
use lookup::LossesRefusal;
use numbers::Numbers;
use refusal::Refusal;
use sensor::Sensor;
use std::io;
use std::io::{Cursor, Write};

// One entry more may be lent than the largest map has.
pub const ENTRIES: usize = 2049;

// What may be lent, as it is before.
static LENT_ENTRIES: [u32; ENTRIES] = [0xA5A5_A5A5; ENTRIES];

static LENT_BYTES: [u8; 65_536] = [0xA5; 65_536];

// One more than a case has questions.
static LENT_LOSSES: [i64; 256] = [-0x5A5A_5A5A; 256];

// So many torques of rows can be written, and so many readings and bearing losses together be handed over.
const MOST_TORQUES: usize = 8192;

// Why a case is not answered, or not to its end.
#[derive(Drop)]
enum Fault {
    // It lends or hands over more than there is room for, a lent map, numbers, a sensor or a retarder's numbers are not whole, or its letter is none of the nine.
    NoCase,
    Output(io::Error),
}

impl From<io::Error> for Fault {
    fn from(error: io::Error) -> Fault {
        Fault::Output(error)
    }
}

// The answers to a case. The entries are those of lent maps, which builds and reports are lent too.
pub fn write(out: &mut impl Write, case: &Case, entries: &mut [u32; ENTRIES]) -> io::Result<()> {
    match write_whole(out, case, entries) {
        Ok(()) => Ok(()),
        Err(Fault::NoCase) => writeln!(out, "no case"),
        Err(Fault::Output(error)) => Err(error),
    }
}

// (The functions below that have arrays of their own are not inlined, so that no case takes the stack of another.)
fn write_whole(
    out: &mut impl Write,
    case: &Case,
    entries: &mut [u32; ENTRIES],
) -> Result<(), Fault> {
    match case.kind.ok_or(Fault::NoCase)? {
        Kind::Read => write_reading(out, case.body)?,
        Kind::Program => write_report(out, case.body, entries)?,
        Kind::Build => write_build(out, case, entries)?,
        Kind::Map => write_map(out, case, entries)?,
        Kind::Write => write_file(out, case)?,
        Kind::Steps => write_steps(out, case.body)?,
        Kind::Load => write_loading(out, case)?,
        Kind::Drag => write_drag(out, case.body)?,
        Kind::Losses => write_losses(out, case)?,
    }
    Ok(())
}

// The numbers that data says.
fn write_reading(out: &mut impl Write, data: &[u8]) -> io::Result<()> {
    match component::read(data) {
        Ok(component) => print::write_component(out, &component),
        Err(refusal) => print::write_refusal_with_index(out, refusal),
    }
}

// What the map program writes for data.
#[inline(never)]
fn write_report(out: &mut impl Write, data: &[u8], entries: &mut [u32; ENTRIES]) -> io::Result<()> {
    let mut text = LENT_BYTES;
    let length = report::write(data, entries, &mut text);
    write_text(out, length, &text)
}

// The map of data, built in lent entries.
#[inline(never)]
fn write_build(
    out: &mut impl Write,
    case: &Case,
    entries: &mut [u32; ENTRIES],
) -> Result<(), Fault> {
    if entries.len() < case.entries {
        return Err(Fault::NoCase);
    }
    *entries = LENT_ENTRIES;
    match map::build(case.body, &mut entries[..case.entries]) {
        Ok(grid) => {
            let count = grid.points();
            write_kept(out, "entries", entries, &LENT_ENTRIES, count)?;
            write_again(out, case.body)?;
            write_answers(out, case, &grid, &entries[..case.entries])
        }
        Err(refusal) => {
            print::write_refusal_with_index(out, refusal)?;
            write_kept(out, "entries", entries, &LENT_ENTRIES, 0)?;
            Ok(())
        }
    }
}

// A map as a caller may lend it, whatever its numbers are. As many entries as the largest map has are lent whatever the body has, the
// one more only where the body has it.
#[inline(never)]
fn write_map(out: &mut impl Write, case: &Case, entries: &mut [u32; ENTRIES]) -> Result<(), Fault> {
    let mut body = case.body;
    let grid = bytes::next_grid(&mut body).ok_or(Fault::NoCase)?;
    if (body.len() / 4).clamp(ENTRIES - 1, ENTRIES) < case.entries {
        return Err(Fault::NoCase);
    }
    bytes::decode_fitting(body, entries);
    write_answers(out, case, &grid, &entries[..case.entries])
}

// A map's listing in the lent text, and the answers to the questions. (The grid and the entries, here and below, as they are lent.)
fn write_answers(
    out: &mut impl Write,
    case: &Case,
    grid: &Grid,
    entries: &[u32],
) -> Result<(), Fault> {
    let mut text = LENT_BYTES;
    let lent = text.get_mut(..case.room).ok_or(Fault::NoCase)?;
    let length = listing::write(grid, entries, lent);
    write_text(out, length, &text)?;
    write_kept(out, "text", &text, &LENT_BYTES, length.unwrap_or(0))?;
    if let Ok(length) = length {
        write_loaded_back(out, grid, entries, &text[..length.min(text.len())])?;
    }
    for question in case.questions.chunks_exact(8) {
        write_answer(out, grid, entries, question)?;
    }
    Ok(())
}

// Whether a listing that was printed loads to its own map.
fn write_loaded_back(
    out: &mut impl Write,
    grid: &Grid,
    entries: &[u32],
    text: &[u8],
) -> io::Result<()> {
    let mut loaded = LENT_ENTRIES;
    let lent = loaded.get_mut(..grid.points());
    let back = lent.and_then(|lent| {
        let axes = load::load(text, lent).ok()?;
        let count = axes.points();
        Some(same_axes(&axes, grid) && lent.get(..count) == entries.get(..count))
    });
    if back == Some(true) {
        writeln!(out, "loads back")
    } else {
        writeln!(out, "loads otherwise")
    }
}

fn same_axes(a: &Grid, b: &Grid) -> bool {
    a.speeds.counted_numbers() == b.speeds.counted_numbers()
        && a.torques.counted_numbers() == b.torques.counted_numbers()
}

// The map that a listing loads to, in lent entries.
#[inline(never)]
fn write_loading(out: &mut impl Write, case: &Case) -> Result<(), Fault> {
    let mut entries = LENT_ENTRIES;
    let lent = entries.get_mut(..case.entries).ok_or(Fault::NoCase)?;
    match load::load(case.body, lent) {
        Ok(grid) => {
            let count = grid.points();
            let map = entries.get(..count).ok_or(Fault::NoCase)?;
            print::write_map(out, &grid, map)?;
            write_kept(out, "entries", &entries, &LENT_ENTRIES, count)?;
            write_listed_again(out, &grid, map, case.body)?;
        }
        Err(refusal) => {
            print::write_refusal_with_index(out, refusal)?;
            write_kept(out, "entries", &entries, &LENT_ENTRIES, 0)?;
        }
    }
    Ok(())
}

// Whether the map listed again is the text that it was loaded from, without the blanks at the ends of its lines.
fn write_listed_again(
    out: &mut impl Write,
    grid: &Grid,
    entries: &[u32],
    text: &[u8],
) -> io::Result<()> {
    let mut listing = LENT_BYTES;
    let length = listing::write(grid, entries, &mut listing).unwrap_or(0);
    let mut unpadded = LENT_BYTES;
    let written = write_unpadded(text, &mut unpadded);
    if written == Some(length) && listing.get(..length) == unpadded.get(..length) {
        writeln!(out, "listed again")
    } else {
        writeln!(out, "listed otherwise")
    }
}

// Writes the lines of a text without the blanks at their ends, and answers their length. None where they do not fit, or the last
// has no line feed.
fn write_unpadded(text: &[u8], unpadded: &mut [u8]) -> Option<usize> {
    let mut out = Cursor::new(unpadded);
    let mut rest = text;
    // No text has more lines than bytes.
    for _ in 0..text.len() {
        if rest.is_empty() {
            break;
        }
        let (line, later) = listing_lines::first_line(rest)?;
        out.write_all(listing_lines::trimmed(line)).ok()?;
        out.write_all(b"\n").ok()?;
        rest = later;
    }
    // fits: it is a place in the lent bytes
    Some(out.position() as usize)
}

// The loss and the nearest point.
fn write_answer(
    out: &mut impl Write,
    grid: &Grid,
    entries: &[u32],
    mut question: &[u8],
) -> Result<(), Fault> {
    let speed = bytes::next_u32(&mut question).ok_or(Fault::NoCase)?;
    let torque = bytes::next_u32(&mut question).ok_or(Fault::NoCase)?;
    let point = Point { speed, torque };
    match lookup::loss(grid, entries, point) {
        Ok(loss) => writeln!(out, "loss {loss}")?,
        Err(refusal) => writeln!(out, "{refusal}")?,
    }
    match lookup::nearest(grid, point) {
        Ok(point) => writeln!(out, "nearest {} {}", point.speed, point.torque)?,
        Err(refusal) => writeln!(out, "{refusal}")?,
    }
    Ok(())
}

// The losses at all points of a lent map, asked in one call.
#[inline(never)]
fn write_losses(out: &mut impl Write, case: &Case) -> Result<(), Fault> {
    let mut body = case.body;
    let grid = bytes::next_grid(&mut body).ok_or(Fault::NoCase)?;
    let mut entries = LENT_ENTRIES;
    let map_entries = bytes::decode(body, &mut entries).ok_or(Fault::NoCase)?;
    let mut points = [Point {
        speed: 0,
        torque: 0,
    }; 255];
    let asked = bytes::decode_points(case.questions, &mut points).ok_or(Fault::NoCase)?;
    let mut losses = LENT_LOSSES;
    let lent = losses.get_mut(..case.room).ok_or(Fault::NoCase)?;
    let count = match lookup::losses(&grid, map_entries, asked, lent) {
        Ok(()) => {
            writeln!(out, "answered {}", asked.len())?;
            for loss in losses.iter().take(asked.len()) {
                writeln!(out, "loss {loss}")?;
            }
            asked.len()
        }
        Err(LossesRefusal { refusal, point }) => {
            print::write_refusal_of_point(out, refusal, point)?;
            0
        }
    };
    write_kept(out, "losses", &losses, &LENT_LOSSES, count)?;
    Ok(())
}

// The text that was written, or the refusal. (Each answer matches its own result, for each is written in other words.)
fn write_text(out: &mut impl Write, length: Result<usize, Refusal>, text: &[u8]) -> io::Result<()> {
    match length {
        Ok(length) => out.write_all(&text[..length.min(text.len())]),
        Err(refusal) => writeln!(out, "{refusal}"),
    }
}

// Whether what was lent is as it was before, but for the first count.
fn write_kept<T: PartialEq>(
    out: &mut impl Write,
    name: &str,
    lent: &[T],
    before: &[T],
    count: usize,
) -> io::Result<()> {
    if lent.get(count..) == before.get(count..) {
        writeln!(out, "{name} kept")
    } else {
        writeln!(out, "{name} changed")
    }
}

// The file that is written from numbers in the lent bytes.
#[inline(never)]
fn write_file(out: &mut impl Write, case: &Case) -> Result<(), Fault> {
    let mut body = case.body;
    let numbers = bytes::next_numbers(&mut body).ok_or(Fault::NoCase)?;
    let mut rows = [0; MOST_TORQUES];
    let torques = bytes::decode(body, &mut rows).ok_or(Fault::NoCase)?;
    let mut file = LENT_BYTES;
    let lent = file.get_mut(..case.room).ok_or(Fault::NoCase)?;
    let length = writer::write(&numbers, torques, lent);
    match length {
        Ok(length) => {
            let written = &file[..length.min(file.len())];
            writeln!(out, "written {length}\n{}", Hexadecimal(written))?;
        }
        Err(refusal) => print::write_refusal_with_index(out, refusal)?,
    }
    write_kept(out, "file", &file, &LENT_BYTES, length.unwrap_or(0))?;
    Ok(())
}

// The steps of a sensor at a torque.
fn write_steps(out: &mut impl Write, body: &[u8]) -> Result<(), Fault> {
    let mut body = body;
    let sensor = bytes::next_sensor(&mut body).ok_or(Fault::NoCase)?;
    let torque = bytes::next_u32(&mut body).ok_or(Fault::NoCase)?;
    match loss::sensor_steps(sensor, torque) {
        Ok(steps) => print::write_steps(out, steps)?,
        Err(refusal) => print::write_refusal_with_index(out, refusal)?,
    }
    Ok(())
}

// The drag of a retarder.
#[inline(never)]
fn write_drag(out: &mut impl Write, body: &[u8]) -> Result<(), Fault> {
    let mut body = body;
    let ratio = bytes::next_u32(&mut body).ok_or(Fault::NoCase)?;
    let speed = bytes::next_u32(&mut body).ok_or(Fault::NoCase)?;
    // (no `From` makes a `u32` a `usize`)
    let count = bytes::next_u32(&mut body).ok_or(Fault::NoCase)? as usize;
    let mut room = [0; MOST_TORQUES];
    let torques = bytes::decode(body, &mut room).ok_or(Fault::NoCase)?;
    let readings = torques.get(..count).ok_or(Fault::NoCase)?;
    let bearing_losses = torques.get(count..).ok_or(Fault::NoCase)?;
    match retarder::drag(readings, bearing_losses, ratio, speed) {
        Ok(drag) => writeln!(out, "drag {drag}")?,
        Err(refusal) => print::write_refusal_with_index(out, refusal)?,
    }
    Ok(())
}

// Whether data that was accepted comes out the same when its numbers are written again.
fn write_again(out: &mut impl Write, data: &[u8]) -> io::Result<()> {
    // no accepted data is longer
    let mut file = [0; 24_853];
    if written_again(data, &mut file) == Some(data) {
        writeln!(out, "written again")
    } else {
        writeln!(out, "written otherwise")
    }
}

// The numbers of data, written to a file that has just the room that the data needs. None where they are not written.
fn written_again<'a>(data: &[u8], file: &'a mut [u8]) -> Option<&'a [u8]> {
    let component = component::read(data).ok()?;
    let mut rows = [0; MOST_TORQUES];
    let row_bytes = component
        .measured
        .map_or(&data[..0], |measured| measured.rows.bytes);
    let torques = bytes::decode(row_bytes, &mut rows)?;
    let lent = file.get_mut(..data.len())?;
    let length = writer::write(&numbers_of(&component), torques, lent).ok()?;
    lent.get(..length)
}

// (No `From`: nothing but this program goes that way.)
fn numbers_of(component: &Component) -> Numbers {
    let none = Sensor::from([0; 9]);
    let (input, output, right) = match component.measured {
        Some(measured) => (
            measured.input,
            measured.output,
            measured.right.unwrap_or(none),
        ),
        None => (none, none, none),
    };
    Numbers {
        kind: component.kind().number(),
        line: component.line,
        ratio: component.ratio,
        grid: component.grid,
        input,
        output,
        right,
    }
}
