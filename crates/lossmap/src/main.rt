// The map program: reads component data from standard input, and writes the listing of its map or the line of its refusal to standard output. Where it cannot read, or not write all, it says so on standard error.
#![tactic(auto)]

ghost use Rattle.std.specs.Prelude.{◌≤◌, length, take, IfOk};
ghost use Rattle.lossmap.specs.Input.{IsInput, Outputs};

use std::io;
use std::io::{Read, Write};

// Reads until the input ends or the room is full, and says how many bytes it read. `read_to_end` would need a heap.
fn read_input<R: Read>(reader: &mut R, room: &mut [u8]) -> io::Result<usize>
    ensures within { IfOk result (λ n. n ≤ length room.old) }
    ensures whole { IfOk result (λ n. IsInput (R.remaining reader.old) (length room.old) (take n room.new)) }
{
    let mut length = 0;
    while length < room.len() {
        let count = reader.read(&mut room[length..])?;
        if count == 0 {
            break;
        }
        length += count;
    }
    Ok(length)
}

// Reads the input, as far as its first 32,768 bytes, and puts what the program writes for it at the start of the text; answers how
// long that is. The room for the input is made here, so that the contract holds it.
fn answer<R: Read>(
    reader: &mut R,
    entries: &mut [u32; 2048],
    text: &mut [u8; 65536],
) -> io::Result<usize>
    ensures within { IfOk result (λ n. n ≤ 65536) }
    ensures output { IfOk result (λ n. Outputs (R.remaining reader.old) entries.old entries.new text.old text.new n) }
{
    let mut input = [0u8; 32768];
    let length = read_input(reader, &mut input)?;
    Ok(report::program_output(&input[..length], entries, text))
}

// Writes the answer to the input; an error is what went wrong, in words, for it is only printed.
fn run(rt: &HostRuntime) -> Result<(), &'static str> {
    let mut entries = [0u32; 2048];
    let mut text = [0u8; 65536];
    let mut stdin = rt.stdin();
    let count = answer(&mut stdin, &mut entries, &mut text).map_err(
        |_| "could not read standard input",
    )?;
    rt.stdout()
        .write_all(&text[..count])
        .map_err(|_| "could not write all of the answer")
}

fn main(rt: HostRuntime) {
    if let Err(words) = run(&rt) {
        // Where standard error fails too, nothing is left to be done.
        let _ = eprintln!(rt; "lossmap: {words}");
    }
}
