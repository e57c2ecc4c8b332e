// The fields of component data. The cursor is a value, and each method returns the one past the field that it read.
#![tactic(auto)]

ghost use Rattle.std.specs.Prelude.{◌≡◌, ◌++◌, ◌+◌, ◌*◌, ◌/◌, ◌≤◌, ◌<◌, ◌^◌, length, take, drop, IfOk};
ghost use Rattle.refusal.specs.Table.{told, outcome_of, outcome_as};
ghost use Rattle.fields.specs.Bytes.{number_of, pairs, between};
ghost use Rattle.fields.specs.Field.{head, field, exactly, numbers as numbers_from, number, axis};
ghost use Rattle.fields.specs.Sensor.{sensor};
ghost use Rattle.fields.specs.Answers.{allowed_of, head_of, number_bytes, outside_of, field_of, Due, axis_field_of, axis_numbers_of};

use grid::{Axis, Range};
use refusal::Refusal;
use sensor::Sensor;

// The number of one byte or two, most significant first.
#[tactic(auto, using(crate::proofs::Pairs::one_byte, crate::proofs::Pairs::two_bytes_lem))]
fn number_of(bytes: &[u8]) -> u16
    requires { (1 ≤ length bytes.now) × (length bytes.now ≤ 2) }
    ensures { result ≡ number_of bytes.now }
{
    if bytes.len() == 1 {
        u16::from(bytes[0])
    } else {
        u16::from_be_bytes([bytes[0], bytes[1]])
    }
}

// Writes the numbers that a body says, two bytes each, to the first places of what is lent. By an index, for after
// `numbers.iter_mut().zip(pairs)` a proof knows nothing of what was written.
#[tactic(auto, using(crate::proofs::Pairs::filled))]
fn fill(body: &[u8], numbers: &mut [u16])
    requires { length body.now ≤ length numbers.old * 2 }
    ensures { numbers.new ≡ pairs body.now ++ drop (length body.now / 2) numbers.old }
{
    let (pairs, _) = body.as_chunks::<2>();
    for (i, pair) in pairs.iter().enumerate() {
        numbers[i] = u16::from_be_bytes(*pair);
    }
}

// The lengths that a body may have.
#[derive(Clone, Copy)]
pub enum Allowed {
    // So many bytes.
    Exactly(usize),
    // From the first to the second many numbers of two bytes.
    Numbers(usize, usize),
}

impl Allowed {
    fn contains(self, length: usize) -> bool
        ensures { result ≡ allowed_of self length }
    {
        match self {
            Allowed::Exactly(bytes) => length == bytes,
            Allowed::Numbers(fewest, most) => {
                (length % 2 == 0) & ((fewest <= length / 2) & (length / 2 <= most))
            }
        }
    }
}

// How many bytes a field of one number has. (No trait over `u8` and `u16`: either is read to a `u16`.)
#[derive(Clone, Copy)]
pub enum Width {
    One,
    Two,
}

impl Width {
    fn bytes(self) -> usize
        ensures answer { result ≡ number_bytes self }
        ensures one_or_two { (1 ≤ result) × (result ≤ 2) }
    {
        match self {
            Width::One => 1,
            Width::Two => 2,
        }
    }
}

// What a number is that may be outside its range, and so how it is refused.
#[derive(Clone, Copy)]
pub enum Outside {
    // 4.
    KindOrLine,
    // 31.
    Ratio,
}

impl Outside {
    fn refusal(self, place: usize) -> Refusal
        ensures { told result ≡ outside_of self place }
    {
        match self {
            Outside::KindOrLine => Refusal::OutOfRange(place),
            Outside::Ratio => Refusal::RatioOutOfRange(place),
        }
    }
}

// The reading place in data.
#[derive(Clone, Copy)]
pub struct Cursor<'a> {
    pub data: &'a [u8],
    pub at: usize,
}

// A field that was read: kind is the tag that stands there, which document 01 wants beside the cursor, value what its body says,
// start the place of the body's first byte, and next the cursor past it.
#[derive(Clone, Copy)]
pub struct Field<'a, T> {
    pub kind: u8,
    pub value: T,
    pub start: usize,
    pub next: Cursor<'a>,
}

impl<'a> Field<'a, &'a [u8]> {
    // The same field, with what its body says in place of the body.
    fn with_value<T>(self, value: T) -> Field<'a, T>
        ensures { result ≡ record { kind = self.entry.kind; value = value; start = self.entry.start; next = self.entry.next } }
    {
        Field {
            kind: self.kind,
            value,
            start: self.start,
            next: self.next,
        }
    }
}

// Writes the numbers of an axis body to the first places of what is lent; place is where the body starts in the data. (The two
// are handed on by themselves, here and below: of a `Field` only they would be read.) By a `match`, for the closure of a
// `map_err` would have to say itself that the place fits.
fn read_numbers(body: &[u8], place: usize, range: Range, numbers: &mut [u16]) -> Result<(), Refusal>
    requires { (length body.now ≤ length numbers.old * 2) × (place + length body.now < 2 ^ 64) }
    ensures { outcome_as (λ nothing. take (length body.now / 2) numbers.new) result ≡ axis range body.now place }
{
    fill(body, numbers);
    match grid::check_axis(&numbers[..body.len() / 2], range) {
        Ok(()) => Ok(()),
        Err(fault) => Err(fault.refusal(place + 2 * fault.index())),
    }
}

// The sensor that a body of 18 bytes says; place is where the body starts in the data.
fn read_sensor(body: &[u8], place: usize) -> Result<Sensor, Refusal>
    requires { (length body.now ≡ 18) × (place + 18 < 2 ^ 64) }
    ensures { outcome_of result ≡ sensor body.now place }
{
    let mut numbers = [0; 9];
    fill(body, &mut numbers);
    match sensor::sensor_fault(&numbers) {
        Some(index) => Err(Refusal::SensorOutOfRange {
            place: place + 2 * index,
            index,
        }),
        None => Ok(Sensor::from(numbers)),
    }
}

impl<'a> Cursor<'a> {
    // The field that is due here, with its body: its head is right, and the body is there.
    pub fn field(self, tag: u8, allowed: Allowed) -> Result<Field<'a, &'a [u8]>, Refusal>
        ensures answer { outcome_as head_of result ≡ head self.entry.data.now self.entry.at tag (allowed_of allowed) }
        ensures due { IfOk result (λ field. Due self.entry tag field) }
        ensures body { IfOk result (λ field. field.value.now ≡ between self.entry.data.now field.start field.next.at) }
    {
        let data = self.data;
        let at = self.at;
        if data.len() <= at {
            return Err(Refusal::WrongTag(at));
        }
        if data.len() - at < 3 {
            return Err(Refusal::Incomplete(at));
        }
        let kind = data[at];
        if kind != tag {
            return Err(Refusal::WrongTag(at));
        }
        let start = at + 3;
        let length = usize::from(number_of(&data[at + 1..start]));
        if !allowed.contains(length) {
            return Err(Refusal::WrongLength(at));
        }
        if data.len() - start < length {
            return Err(Refusal::Incomplete(at));
        }
        let end = start + length;
        Ok(Field {
            kind,
            value: &data[start..end],
            start,
            next: Cursor { data, at: end },
        })
    }

    // The field of one number.
    pub fn number(
        self,
        tag: u8,
        width: Width,
        range: Range,
        outside: Outside,
    ) -> Result<Field<'a, u16>, Refusal>
        ensures answer { outcome_as field_of result ≡ field self.entry.data.now self.entry.at tag (exactly (number_bytes width)) (number range (outside_of outside)) }
        ensures due { IfOk result (λ field. Due self.entry tag field) }
        ensures in_range { IfOk result (λ field. (range.lowest ≤ field.value) × (field.value ≤ range.highest)) }
    {
        let found = self.field(tag, Allowed::Exactly(width.bytes()))?;
        let value = number_of(found.value);
        if !range.contains(value) {
            return Err(outside.refusal(found.start));
        }
        Ok(found.with_value(value))
    }

    // The field of axis numbers, from two to as many as places are lent. They are written to the first of these, and the value is
    // how many there are. What a refusal leaves there is not said.
    pub fn axis_numbers(
        self,
        tag: u8,
        range: Range,
        numbers: &mut [u16],
    ) -> Result<Field<'a, usize>, Refusal>
        ensures answer { outcome_as (axis_numbers_of numbers.new) result ≡ field self.entry.data.now self.entry.at tag (numbers_from 2 (length numbers.old)) (axis range) }
        ensures due { IfOk result (λ field. Due self.entry tag field) }
        ensures count_within { IfOk result (λ field. (2 ≤ field.value) × (field.value ≤ length numbers.old)) }
    {
        let found = self.field(tag, Allowed::Numbers(2, numbers.len()))?;
        read_numbers(found.value, found.start, range, numbers)?;
        Ok(found.with_value(found.value.len() / 2))
    }

    // The field of an axis, of two numbers to as many as the axis has places.
    pub fn axis<const N: usize>(self, tag: u8, range: Range) -> Result<Field<'a, Axis<N>>, Refusal>
        ensures answer { outcome_as axis_field_of result ≡ field self.entry.data.now self.entry.at tag (numbers_from 2 N) (axis range) }
        ensures due { IfOk result (λ field. Due self.entry tag field) }
        ensures count_within { IfOk result (λ field. (2 ≤ field.value.count) × (field.value.count ≤ N)) }
    {
        let mut numbers = [0; N];
        let found = self.axis_numbers(tag, range, &mut numbers)?;
        Ok(Field {
            kind: found.kind,
            value: Axis {
                numbers,
                count: found.value,
            },
            start: found.start,
            next: found.next,
        })
    }

    // The field of a sensor.
    pub fn sensor(self, tag: u8) -> Result<Field<'a, Sensor>, Refusal>
        ensures answer { outcome_as field_of result ≡ field self.entry.data.now self.entry.at tag (exactly 18) sensor }
        ensures due { IfOk result (λ field. Due self.entry tag field) }
    {
        let found = self.field(tag, Allowed::Exactly(18))?;
        let value = read_sensor(found.value, found.start)?;
        Ok(found.with_value(value))
    }
}
