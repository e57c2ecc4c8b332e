// The listing of a map and the line of a refusal, written as text to the first bytes of a lent buffer.
#![tactic(auto, using(crate::proofs::Sets::texts), unfolding(grid::specs::Lists::joined, crate::specs::Listing::row, crate::specs::Listing::rows))]

ghost use Rattle.std.specs.Prelude.{◌≡◌, ◌*◌, ◌≤◌, length};
ghost use Rattle.refusal.specs.Table.{told, outcome_of};
ghost use Rattle.buffer.specs.Written.{HasRoom, Appends, fitted, content_of};
ghost use Rattle.listing.specs.Listing.{header as first_line, line, row, rows, refusal_line, listing, listed};

use buffer::Writer;
use grid::Grid;
use lent::Map;
use refusal::Refusal;

// The first line of a listing, without its line feed.
#[tactic(auto, unfolding(crate::specs::Listing::header))]
pub fn header() -> [u8; 17]
    ensures { result ≡ first_line }
{
    *b"speed,torque,loss"
}

// How many bytes the line of one entry takes. All bytes are counted before the first is written, for a listing that has no room
// leaves the text as it was. (What is counted and what is written share the three numbers and nothing else.)
fn line_length(speed: u16, torque: u16, loss: u32) -> usize
    ensures { (result ≡ length (line speed torque loss)) × (result ≤ 66) }
{
    // (no `From` makes a `u32` a `usize`, here and below)
    let loss_length = buffer::digit_count(loss as usize / 100) + 3;
    buffer::digit_count(usize::from(speed))
        + buffer::digit_count(usize::from(torque))
        + loss_length
        + 3
}

// Writes the line of one entry.
fn write_line(speed: u16, torque: u16, loss: u32, text: &mut Writer)
    requires { HasRoom (length (line speed torque loss)) text.old }
    ensures { Appends (line speed torque loss) text.old text.new }
{
    text.decimal(usize::from(speed));
    text.byte(b',');
    text.decimal(usize::from(torque));
    text.byte(b',');
    text.hundredths(loss as usize);
    text.byte(b'\n');
}

// How many bytes the lines of one speed take. By a loop: of `torques.iter().zip(losses).map(..).sum()` it proves that the sum
// fits, but no proof was found that each call of the closure, which holds the speed, answers a line's length.
fn row_length(speed: u16, torques: &[u16], losses: &[u32]) -> usize
    requires { (length torques.now ≤ 64) × (length torques.now ≤ length losses.now) }
    ensures { (result ≡ length (row speed torques.now (length torques.now) losses.now 0)) × (result ≤ 4224) }
{
    let mut total = 0;
    for (torque, loss) in torques.iter().zip(losses) {
        total += line_length(speed, *torque, *loss);
    }
    total
}

// Writes the lines of one speed. By an index: over `torques.iter().zip(losses)` a listing takes up to 16 % longer.
fn write_row(speed: u16, torques: &[u16], losses: &[u32], text: &mut Writer)
    requires enough { length torques.now ≤ length losses.now }
    requires room { HasRoom (length (row speed torques.now (length torques.now) losses.now 0)) text.old }
    ensures { Appends (row speed torques.now (length torques.now) losses.now 0) text.old text.new }
{
    for (j, torque) in torques.iter().enumerate() {
        write_line(speed, *torque, losses[j], text);
    }
}

// How many bytes the listing of a map takes. By an index, here and below: of entries cut so it is known that they are as many
// as the torques, and no line tests it; by a method of `Map` that gives a speed's entries a listing takes 10 % longer. By a loop,
// for in a `map` and `sum` the closure does not know that i is below the count.
fn listing_length(map: &Map) -> usize
    ensures { result ≡ length (listing map.now.grid.now map.now.entries.now) }
{
    let torques = map.torques();
    let mut total = 18;
    for (i, speed) in map.speeds().iter().enumerate() {
        let first = i * torques.len();
        total += row_length(*speed, torques, &map.entries[first..first + torques.len()]);
    }
    total
}

// Writes the listing of a map.
fn write_listing(map: &Map, text: &mut Writer)
    requires { HasRoom (length (listing map.now.grid.now map.now.entries.now)) text.old }
    ensures { Appends (listing map.now.grid.now map.now.entries.now) text.old text.new }
{
    let torques = map.torques();
    text.bytes(&header());
    text.bytes(b"\n");
    for (i, speed) in map.speeds().iter().enumerate() {
        let first = i * torques.len();
        let losses = &map.entries[first..first + torques.len()];
        write_row(*speed, torques, losses, text);
    }
}

// Writes the listing of a map from the start of the text, and answers its length. 22 is tested first, then 11, whose place is that
// length. (Grid and entries are what a caller lends: a struct of the two would be made for each call and opened by the test.)
pub fn write(grid: &Grid, entries: &[u32], text: &mut [u8]) -> Result<usize, Refusal>
    ensures answer { outcome_of result ≡ listed grid.now entries.now (length text.old) }
    ensures text_after { text.new ≡ content_of (outcome_of result) (listing grid.now entries.now) text.old }
{
    let map = lent::tested_map(grid, entries)?;
    let needed = listing_length(&map);
    if text.len() < needed {
        return Err(Refusal::TooShort(needed));
    }
    let mut lines = Writer { text, at: 0 };
    write_listing(&map, &mut lines);
    Ok(lines.at)
}

// Writes the line of a refusal.
fn write_refusal_line(x: Refusal, line: &mut Writer)
    requires { HasRoom (length (refusal_line (told x))) line.old }
    ensures { Appends (refusal_line (told x)) line.old line.new }
{
    line.bytes(b"refused ");
    line.decimal(usize::from(x.number()));
    line.bytes(b" at ");
    line.decimal(x.place());
    line.byte(b'\n');
}

// Writes the line of a refusal from the start of the text, or answers 11 with the bytes needed. (The test of room stands here and
// in `write`: a helper would take the writing as a closure, which has to say what it writes.)
pub fn write_refusal(x: Refusal, text: &mut [u8]) -> Result<usize, Refusal>
    ensures answer { outcome_of result ≡ fitted 11 (refusal_line (told x)) (length text.old) }
    ensures text_after { text.new ≡ content_of (outcome_of result) (refusal_line (told x)) text.old }
    ensures short { length (refusal_line (told x)) ≤ 53 }
{
    let bytes_needed = 13
        + buffer::digit_count(usize::from(x.number()))
        + buffer::digit_count(x.place());
    if text.len() < bytes_needed {
        return Err(Refusal::TooShort(bytes_needed));
    }
    let mut line = Writer { text, at: 0 };
    write_refusal_line(x, &mut line);
    Ok(line.at)
}
