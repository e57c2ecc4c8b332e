// Numbers taken from the front of bytes, most significant byte first. None where there are too few bytes.
use cell::Point;
use grid::{Axis, Grid};
use numbers::Numbers;
use sensor::Sensor;

fn next<const N: usize>(bytes: &mut &[u8]) -> Option<[u8; N]> {
    let (first, rest) = bytes.split_first_chunk()?;
    *bytes = rest;
    Some(*first)
}

fn next_u16(bytes: &mut &[u8]) -> Option<u16> {
    next(bytes).map(u16::from_be_bytes)
}

pub fn next_u32(bytes: &mut &[u8]) -> Option<u32> {
    next(bytes).map(u32::from_be_bytes)
}

fn next_usize(bytes: &mut &[u8]) -> Option<usize> {
    next(bytes).map(usize::from_be_bytes)
}

fn next_array<const N: usize>(bytes: &mut &[u8]) -> Option<[u16; N]> {
    let mut numbers = [0; N];
    for number in numbers.iter_mut() {
        *number = next_u16(bytes)?;
    }
    Some(numbers)
}

pub fn next_sensor(bytes: &mut &[u8]) -> Option<Sensor> {
    next_array(bytes).map(Sensor::from)
}

// The axes of a lent map, or of numbers to be written.
pub fn next_grid(bytes: &mut &[u8]) -> Option<Grid> {
    let speed_count = next_usize(bytes)?;
    let torque_count = next_usize(bytes)?;
    Some(Grid {
        speeds: Axis {
            numbers: next_array(bytes)?,
            count: speed_count,
        },
        torques: Axis {
            numbers: next_array(bytes)?,
            count: torque_count,
        },
    })
}

// Numbers to be written, but for the torques of the rows.
pub fn next_numbers(bytes: &mut &[u8]) -> Option<Numbers> {
    Some(Numbers {
        kind: next_u16(bytes)?,
        line: next_u16(bytes)?,
        ratio: next_u16(bytes)?,
        grid: next_grid(bytes)?,
        input: next_sensor(bytes)?,
        output: next_sensor(bytes)?,
        right: next_sensor(bytes)?,
    })
}

// All the numbers there are, at the front of the room. None where there is too little room.
pub fn decode<'a>(mut bytes: &[u8], room: &'a mut [u32]) -> Option<&'a [u32]> {
    let numbers = room.get_mut(..bytes.len() / 4)?;
    for number in numbers.iter_mut() {
        *number = next_u32(&mut bytes)?;
    }
    Some(numbers)
}

// As many of the numbers as there are and as fit, at the front of the room; what stands behind them stays.
pub fn decode_fitting(mut bytes: &[u8], room: &mut [u32]) {
    for number in room.iter_mut() {
        let Some(next) = next_u32(&mut bytes) else {
            break;
        };
        *number = next;
    }
}

// All the points there are, at the front of the room. None where there is too little room.
pub fn decode_points<'a>(mut bytes: &[u8], room: &'a mut [Point]) -> Option<&'a [Point]> {
    let points = room.get_mut(..bytes.len() / 8)?;
    for point in points.iter_mut() {
        *point = Point {
            speed: next_u32(&mut bytes)?,
            torque: next_u32(&mut bytes)?,
        };
    }
    Some(points)
}
