// Runs the libraries over cases given on standard input, and writes what they answer, so that it can be compared with another implementation.
// A case is a head of 12 bytes, a body, and so many questions of 8 bytes (speed in tenths of rpm, torque in hundredths of Nm). All numbers are most significant byte first. The head:
//   1 byte: r to read data into numbers, p for what the map program writes, b to build a map of data, m for a map as a caller may lend it, w to write data from numbers, s for the steps of a sensor, l to load a listing, d for the drag of a retarder, a for all questions to a lent map in one call;
//   2 bytes: how many entries are lent;
//   4 bytes: how many bytes are lent for the listing, or for the file that is written, or how many losses;
//   4 bytes: the length of the body: data, a lent map, numbers to be written, a sensor with its torque, the text of a listing, or a retarder's numbers;
//   1 byte: how many questions follow the body.
// A lent map is its axes, which are the count of speeds and the count of torques, 8 bytes each, and the 32 speeds and 64 torques of 2 bytes; then the lent entries of 4 bytes. Entries of m that the head lends and the body lacks are what the last case of m, b or p left there, at first 0; entries past the room are not looked at.
// Numbers to be written are kind, line and ratio, 2 bytes each, the axes as in a lent map, the input, output and right sensor, nine numbers of 2 bytes each, and the torques of the rows, 4 bytes each.
// A sensor is nine numbers of 2 bytes each, with its torque of 4 bytes.
// A retarder's numbers are the step-up ratio, the drive speed, how many readings there are, the readings, and to the end the bearing losses, 4 bytes each.
#![tactic(auto)]

mod answer;
mod bytes;
mod case;
mod print;

use case::Head;
use std::io;
use std::io::{Cursor, Write};

// No input has more cases.
const MOST_CASES: u64 = 1_000_000_000;

fn main(rt: HostRuntime) -> io::Result<()> {
    let mut stdin = rt.stdin();
    let mut stdout = rt.stdout();
    let mut buffer = [0; 65_536];
    // What is lent as the entries of a map, which one case leaves to the next.
    let mut entries = [0; answer::ENTRIES];
    // The answers to a case, which are written at once. No case has more: of a listing with its questions, a report and a file in
    // hexadecimal digits none is longer.
    let mut answers = [0; 65_536];
    for number in 0..MOST_CASES {
        let Some(head) = Head::read(&mut stdin) else {
            break;
        };
        // (before the body is read, for whoever sends it may wait for this line)
        writeln!(stdout, "case {number}")?;
        let Some(case) = head.case(&mut stdin, &mut buffer) else {
            // The input ends within the case, or cannot be read.
            break;
        };
        let mut out = Cursor::new(&mut answers[..]);
        answer::write(&mut out, &case, &mut entries)?;
        // fits: it is a place in answers
        let length = out.position() as usize;
        stdout.write_all(&answers[..length.min(answers.len())])?;
    }
    Ok(())
}
