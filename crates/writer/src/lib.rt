// Writes component data from its numbers, so that a file is made by the library that reads it.
#![tactic(auto)]

ghost use Rattle.std.specs.Prelude.{◌≡◌, length};
ghost use Rattle.refusal.specs.Table.{outcome_of};
ghost use Rattle.layout.specs.Length.{longest};
ghost use Rattle.buffer.specs.Written.{fitted, content_of};
ghost use Rattle.writer.specs.Written.{after_build, Writes};

use buffer::Writer;
use numbers::Numbers;
use refusal::Refusal;

// Copies data to the first bytes of the file, where there is room for it. (`listing` has the same test for its own texts.)
fn write_fitting(data: &[u8], file: &mut [u8]) -> Result<usize, Refusal>
    ensures answer { outcome_of result ≡ fitted 30 «data».now (length file.old) }
    ensures file_after { file.new ≡ content_of (outcome_of result) «data».now file.old }
{
    let length = data.len();
    if file.len() < length {
        return Err(Refusal::FileTooShort(length));
    }
    file[..length].copy_from_slice(data);
    Ok(length)
}

// Builds the map of data, which tests its rows, and copies the data where it is accepted.
#[tactic(auto, unfolding(crate::specs::Written::after_build))]
fn write_accepted(data: &[u8], entries: &mut [u32], file: &mut [u8]) -> Result<usize, Refusal>
    ensures answer { outcome_of result ≡ after_build «data».now (length entries.old) (length file.old) }
    ensures file_after { file.new ≡ content_of (outcome_of result) «data».now file.old }
{
    map::build(data, entries).map_err(Refusal::without_place)?;
    write_fitting(data, file)
}

// Writes component data from its numbers to the first bytes of the file, and answers its length. The rows are the torques in the order of the data, in hundredths of Nm.
// Where it refuses, the file stays as it was; where it accepts, so does what stands past the data.
pub fn write(numbers: &Numbers, rows: &[u32], file: &mut [u8]) -> Result<usize, Refusal>
    ensures { Writes numbers.now rows.now file.old file.new result }
{
    numbers::check(numbers, rows.len())?;
    // room for the longest data, and for the entries of the largest map
    let mut room = [0u8; 24853];
    let mut entries = [0u32; 2048];
    let mut data = Writer {
        text: &mut room,
        at: 0,
    };
    encoding::encode(numbers, rows, &mut data);
    let length = data.at;
    write_accepted(&room[..length], &mut entries, file)
}
