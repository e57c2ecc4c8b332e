// Lays out numbers as the fields of component data, in a lent buffer.
#![tactic(auto, using(crate::proofs::Encoded::fields))]

ghost use Rattle.std.specs.Prelude.{ℕ, List, ◌≡◌, [], ◌∷◌, ◌+◌, ◌*◌, ◌≤◌, ◌<◌, length, refl};
ghost use Rattle.std.specs.List.{flat_map};
ghost use Rattle.refusal.specs.Outcome.{accepted};
ghost use Rattle.component.specs.Component.{sensor_tags};
ghost use Rattle.component.specs.Answers.{number_of, outputs_of};
ghost use Rattle.layout.specs.Layout.{two_bytes, four_bytes, field_bytes, sensor_bytes, measured_bytes, layout};
ghost use Rattle.layout.specs.Length.{longest};
ghost use Rattle.numbers.specs.Check.{numbers_check};
ghost use Rattle.numbers.specs.Says.{says};
ghost use Rattle.buffer.specs.Written.{HasRoom, Appends};

use buffer::Writer;
use component::Kind;
use numbers::Numbers;

// A number of a field, which stands there as so many bytes, the most significant first.
trait FieldNumber: Copy {
    const SIZE: usize;

    ghost SIZE: { ℕ };

    ghost bytes_of: { Self → List ℕ };

    fn write(self, file: &mut Writer)
        requires { HasRoom (length (bytes_of self)) file.old }
        ensures { Appends (bytes_of self) file.old file.new };

    ghost size_of: { (n : Self) → length (bytes_of n) ≡ SIZE };
}

impl FieldNumber for u8 {
    const SIZE: usize = 1;

    ghost SIZE = { 1 };

    ghost bytes_of = { λ n. n ∷ [] };

    fn write(self, file: &mut Writer) {
        file.byte(self);
    }

    ghost size_of = { λ n. refl };
}

impl FieldNumber for u16 {
    const SIZE: usize = 2;

    ghost SIZE = { 2 };

    ghost bytes_of = { two_bytes };

    fn write(self, file: &mut Writer) {
        file.bytes(&self.to_be_bytes());
    }

    ghost size_of = { λ n. refl };
}

impl FieldNumber for u32 {
    const SIZE: usize = 4;

    ghost SIZE = { 4 };

    ghost bytes_of = { four_bytes };

    fn write(self, file: &mut Writer) {
        file.bytes(&self.to_be_bytes());
    }

    ghost size_of = { λ n. refl };
}

// Writes the field of numbers: its tag, the length of its body, and the numbers.
fn write_field<T: FieldNumber>(tag: u8, numbers: &[T], file: &mut Writer)
    requires size { T.SIZE * length numbers.now < 65536 }
    requires room { HasRoom (3 + T.SIZE * length numbers.now) file.old }
    ensures { Appends (field_bytes tag (flat_map T.bytes_of numbers.now)) file.old file.new }
{
    let size = T::SIZE * numbers.len();
    tag.write(file);
    // fits: `size` asks for it
    (size as u16).write(file);
    for number in numbers {
        number.write(file);
    }
}

// The sensors of a measured kind. (The kind, here and below, is that of the numbers, which `encode` found.)
fn write_sensors(numbers: &Numbers, kind: Kind, file: &mut Writer)
    requires measured { 2 ≤ number_of kind }
    requires room { HasRoom 63 file.old }
    ensures sensors { Appends
        (sensor_bytes (sensor_tags (number_of kind)) (numbers.now.input ∷ outputs_of (number_of kind) numbers.now.output numbers.now.right))
        file.old file.new }
    ensures at_most { file.new.at ≤ file.old.at + 63 }
{
    write_field(6, &numbers.input.numbers(), file);
    write_field(7, &numbers.output.numbers(), file);
    if let Kind::HalfShafts = kind {
        write_field(9, &numbers.right.numbers(), file);
    }
}

// From tag 6 on; standard data ends there. The sensors take at most 63 bytes, and the rows 24,579.
fn write_measured(numbers: &Numbers, kind: Kind, rows: &[u32], file: &mut Writer)
    requires kind { number_of kind ≡ numbers.now.kind }
    requires passed { numbers_check numbers.now (length rows.now) ≡ accepted tt }
    requires room { HasRoom 24642 file.old }
    ensures { Appends (measured_bytes (says numbers.now rows.now).kind) file.old file.new }
{
    if let Kind::Standard = kind {
        return;
    }
    write_sensors(numbers, kind, file);
    write_field(component::rows_tag(kind.number()), rows, file);
}

// Lays out numbers that passed their tests, with the torques of their rows. A tag stands here as the number that document 01 gives it.
pub fn encode(numbers: &Numbers, rows: &[u32], file: &mut Writer)
    requires passed { numbers_check numbers.now (length rows.now) ≡ accepted tt }
    requires room { HasRoom longest file.old }
    ensures { Appends (layout (says numbers.now rows.now)) file.old file.new }
{
    // There is one, for the numbers have passed their tests; so the two casts fit. (It is found again here: a struct of numbers
    // and kind that have passed would be made for this one caller.)
    let kind = Kind::from_number(numbers.kind).unwrap();
    write_field(1, &[numbers.kind as u8], file);
    write_field(2, &[numbers.line as u8], file);
    write_field(3, &[numbers.ratio], file);
    write_field(4, numbers.grid.speeds.counted_numbers(), file);
    write_field(5, numbers.grid.torques.counted_numbers(), file);
    write_measured(numbers, kind, rows, file);
}
