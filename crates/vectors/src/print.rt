// How answers are written.
use component::{Component, Measured};
use grid::Grid;
use loss::Steps;
use refusal::Refusal;
use std::io::Write;
use std::{fmt, io};

// Numbers, each after a space.
#[derive(Clone, Copy)]
struct Spaced<'a>(&'a [u16]);

impl fmt::Display for Spaced<'_> {
    fn fmt<W: fmt::Write>(&self, f: &mut fmt::Formatter<W>) -> fmt::Result {
        for number in self.0 {
            write!(f, " {number}")?;
        }
        Ok(())
    }
}

// Bytes as hexadecimal digits.
#[derive(Clone, Copy)]
pub struct Hexadecimal<'a>(pub &'a [u8]);

impl fmt::Display for Hexadecimal<'_> {
    fn fmt<W: fmt::Write>(&self, f: &mut fmt::Formatter<W>) -> fmt::Result {
        for byte in self.0 {
            write!(f, "{byte:02X}")?;
        }
        Ok(())
    }
}

// A refusal, and which number of its field it was where that is told.
pub fn write_refusal_with_index(out: &mut impl Write, refusal: Refusal) -> io::Result<()> {
    match refusal.index() {
        Some(index) => writeln!(out, "{refusal} number {index}"),
        None => writeln!(out, "{refusal}"),
    }
}

// A refusal, and which point it is of where it is of one.
pub fn write_refusal_of_point(
    out: &mut impl Write,
    refusal: Refusal,
    point: Option<usize>,
) -> io::Result<()> {
    match point {
        Some(point) => writeln!(out, "{refusal} point {point}"),
        None => writeln!(out, "{refusal}"),
    }
}

fn write_numbers(out: &mut impl Write, name: &str, numbers: &[u16]) -> io::Result<()> {
    write!(out, " {name}{}", Spaced(numbers))
}

fn write_measured(out: &mut impl Write, measured: &Measured) -> io::Result<()> {
    write_numbers(out, "input", &measured.input.numbers())?;
    write_numbers(out, "output", &measured.output.numbers())?;
    if let Some(right) = measured.right {
        write_numbers(out, "right", &right.numbers())?;
    }
    let start = measured.rows.start;
    let end = start.saturating_add(measured.rows.bytes.len());
    write!(out, " rows {start} to {end}")
}

pub fn write_component(out: &mut impl Write, component: &Component) -> io::Result<()> {
    let kind = component.kind().number();
    let Component {
        line,
        ratio,
        grid,
        measured,
    } = component;
    write!(out, "kind {kind} line {line} ratio {ratio}")?;
    write_numbers(out, "speeds", grid.speeds.counted_numbers())?;
    write_numbers(out, "torques", grid.torques.counted_numbers())?;
    if let Some(measured) = measured {
        write_measured(out, measured)?;
    }
    writeln!(out)
}

// A map that was loaded.
pub fn write_map(out: &mut impl Write, grid: &Grid, entries: &[u32]) -> io::Result<()> {
    write!(out, "loaded")?;
    write_numbers(out, "speeds", grid.speeds.counted_numbers())?;
    write_numbers(out, "torques", grid.torques.counted_numbers())?;
    write!(out, " entries")?;
    for entry in entries {
        write!(out, " {entry}")?;
    }
    writeln!(out)
}

// a, b, g, h and U, in grains.
pub fn write_steps(out: &mut impl Write, steps: Steps) -> io::Result<()> {
    let Steps {
        temperature_on_sensitivity: a,
        temperature_on_zero: b,
        calibration: g,
        parasitic_loads: h,
        uncertainty,
    } = steps;
    writeln!(out, "steps {a} {b} {g} {h} {uncertainty}")
}
