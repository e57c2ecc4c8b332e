// What the map program writes for component data: the listing of its map, or the line of its refusal.
#![tactic(auto)]

ghost use Rattle.std.specs.Prelude.{◌≡◌, take};
ghost use Rattle.refusal.specs.Table.{outcome_of};
ghost use Rattle.report.specs.Report.{Reports, ProgramWrites, text_length};

use refusal::Refusal;

// Builds the map into the lent entries, and writes the report from the start of the lent text.
pub fn write(data: &[u8], entries: &mut [u32], text: &mut [u8]) -> Result<usize, Refusal>
    ensures { Reports «data».now entries.old entries.new text.old text.new result }
{
    match map::build(data, entries) {
        Ok(grid) => listing::write(&grid, entries, text),
        Err(x) => listing::write_refusal(x, text),
    }
}

// How long a text is: one that was written, or one that had no room.
fn text_length(answer: Result<usize, Refusal>) -> usize
    ensures { result ≡ text_length (outcome_of answer) }
{
    answer.unwrap_or_else(Refusal::place)
}

// What the map program writes for its input, of which the first 32,768 bytes count, from the start of the text, and how long it is.
// The room for entries and text is in the types, and is always enough.
pub fn program_output(input: &[u8], entries: &mut [u32; 2048], text: &mut [u8; 65536]) -> usize
    ensures { ProgramWrites (take 32768 input.now) entries.old entries.new text.old text.new result }
{
    let count = input.len().min(32_768);
    text_length(write(&input[..count], entries, text))
}
