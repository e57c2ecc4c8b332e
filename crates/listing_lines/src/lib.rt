// The lines of a listing that is loaded: where a line ends, its blanks, and the row that it says.
#![tactic(auto)]

ghost use Rattle.std.specs.Prelude.{◌≡◌, ◌≤◌, true, length, option_copied, EachIndex, slice_index};
ghost use Rattle.std.specs.List.{prefix_len};
ghost use Rattle.listing_lines.specs.Blanks.{is_blank, trimmed};
ghost use Rattle.listing_lines.specs.Form.{is_digit, is_number, value, leading_number, after_comma, trailing_hundredths, row_in};
ghost use Rattle.listing_lines.specs.Printed.{TrimmedPart};
ghost use Rattle.listing_lines.specs.Answers.{FirstLine, numbered};

use memchr::memchr;

// What a row says, whatever the numbers are: speed in rpm, torque in Nm, loss in hundredths of Nm.
#[derive(Clone, Copy)]
pub struct Row {
    pub speed: u32,
    pub torque: u32,
    pub loss: u64,
}

// The first line of a text, without its line feed, and the text behind it. None where the text has no line feed.
pub fn first_line(text: &[u8]) -> Option<(&[u8], &[u8])>
    ensures { FirstLine text.now result }
{
    let end = memchr(b'\n', text)?;
    Some((&text[..end], &text[end + 1..]))
}

fn is_blank(byte: u8) -> bool
    ensures { result ≡ is_blank byte }
{
    byte == b' ' || byte == b'\t'
}

// The part of a line that has no blanks at its ends.
#[tactic(auto, unfolding(crate::specs::Blanks::trimmed))]
pub fn trimmed(line: &[u8]) -> &[u8]
    ensures answer { result.now ≡ trimmed line.now }
    ensures part { TrimmedPart line.now result.now }
{
    let first = line.iter().take_while(|byte| is_blank(**byte)).count();
    let rest = &line[first..];
    let last = rest
        .iter()
        .rev()
        .take_while(|byte| is_blank(**byte))
        .count();
    &rest[..rest.len() - last]
}

fn is_digit(byte: u8) -> bool
    ensures { result ≡ is_digit byte }
{
    byte.is_ascii_digit()
}

// The number that up to nine digits say.
fn value(digits: &[u8]) -> u32
    requires few { length digits.now ≤ 9 }
    requires digits { EachIndex digits.now (λ i. is_digit (slice_index digits.now i) ≡ true) }
    ensures { result ≡ value digits.now }
{
    let mut value = 0;
    for digit in digits {
        value = 10 * value + u32::from(*digit - b'0');
    }
    value
}

// How many digits a line begins with.
fn digit_count(line: &[u8]) -> usize
    ensures { result ≡ prefix_len is_digit line.now }
{
    line.iter().take_while(|byte| is_digit(**byte)).count()
}

// Whether digits are one to nine without leading zeros.
fn is_number(digits: &[u8]) -> bool
    ensures { result ≡ is_number digits.now }
{
    match digits.len() {
        0 => false,
        1 => true,
        2..=9 => digits[0] != b'0',
        _ => false,
    }
}

// The number at the start of a line, and what follows it.
#[tactic(auto, unfolding(crate::specs::Form::leading_number))]
fn leading_number(line: &[u8]) -> Option<(u32, &[u8])>
    ensures { numbered result ≡ leading_number line.now }
{
    let (digits, rest) = line.split_at(digit_count(line));
    if is_number(digits) {
        Some((value(digits), rest))
    } else {
        None
    }
}

// What follows a comma at the start of a line.
#[tactic(auto, unfolding(crate::specs::Form::after_comma))]
fn after_comma(line: &[u8]) -> Option<&[u8]>
    ensures { option_copied result ≡ after_comma line.now }
{
    if line.is_empty() || line[0] != b',' {
        return None;
    }
    Some(&line[1..])
}

// The hundredths that a point and two digits say, where nothing follows them.
#[tactic(auto, unfolding(crate::specs::Form::trailing_hundredths))]
fn trailing_hundredths(line: &[u8]) -> Option<u32>
    ensures { result ≡ trailing_hundredths line.now }
{
    if line.len() == 3 && line[0] == b'.' && is_digit(line[1]) && is_digit(line[2]) {
        Some(value(&line[1..]))
    } else {
        None
    }
}

// The row that a line without blanks at its ends says. None where it has not the form of one.
#[tactic(auto, unfolding(crate::specs::Form::row_in))]
pub fn read_row(line: &[u8]) -> Option<Row>
    ensures { result ≡ row_in line.now }
{
    let (speed, rest) = leading_number(line)?;
    let (torque, rest) = leading_number(after_comma(rest)?)?;
    let (whole, rest) = leading_number(after_comma(rest)?)?;
    let part = trailing_hundredths(rest)?;
    Some(Row {
        speed,
        torque,
        loss: 100 * u64::from(whole) + u64::from(part),
    })
}
