// The refusals of document 01, "Refusals", and of document 02: a case for each number.
#![tactic(auto)]

ghost use Rattle.std.specs.Prelude.{◌≡◌};
ghost use Rattle.refusal.specs.Outcome.{at_place};
ghost use Rattle.refusal.specs.Table.{number, place, index, told};

use std::fmt;

// Each case holds the place that is given with it; those without one have place 0. (A struct of a kind and a place would let
// these have another.) The cases of a ratio and of a sensor also give which number of the field it was, from 0.
#[derive(Clone, Copy)]
pub enum Refusal {
    // 1: a head or a body that the end of the data cuts off. The head's offset.
    Incomplete(usize),
    // 2: another tag than the one due, or data that ends before the field. The head's offset.
    WrongTag(usize),
    // 3: a length that the field cannot have. The head's offset.
    WrongLength(usize),
    // 4: a kind, a line or an axis number that is not in its range. The number's offset.
    OutOfRange(usize),
    // 5: an axis number that does not rise. The number's offset.
    NotRising(usize),
    // 6: a first torque above the step to the second. Its offset.
    FirstTorqueAboveStep(usize),
    // 7: a measured torque above its sensor's nominal torque. Its offset.
    AboveNominal(usize),
    // 8: an output torque more than 5.00 Nm off its axis torque. Its offset.
    OffAxisTorque(usize),
    // 9: a measured loss that is negative. The row's offset.
    NegativeLoss(usize),
    // 10: an entry above 10,000,000 hundredths of Nm. The row's offset.
    EntryTooLarge(usize),
    // 11: fewer entries lent than the map has, or a lent buffer too short for its text. How many are needed.
    TooShort(usize),
    // 12: data that goes on past the last field. The next byte's offset.
    TrailingBytes(usize),
    // 20: a query's speed below or above its axis.
    SpeedOutside,
    // 21: a query's torque above its axis.
    TorqueAbove,
    // 22: what is lent is no map.
    NotAMap,
    // 30: a lent buffer shorter than the file. The length needed.
    FileTooShort(usize),
    // 31: a ratio that is not in its range. The number's offset; it is number 0, the only one of its field.
    RatioOutOfRange(usize),
    // 32: a number of a sensor that is not in its range. The number's offset, and which of the nine it was.
    SensorOutOfRange { place: usize, index: usize },
    // 40: a text loaded as a listing whose first line is not its header, or has no line feed.
    WrongHeader,
    // 41: a line of it that has not the form of a row, or no line feed. The offset of the line's first byte.
    WrongLine(usize),
    // 42: a row that breaks its run. The offset of its line's first byte. Or runs that are not whole, or more or fewer of them, or of
    // their rows, than an axis has numbers. The text's length.
    BrokenRun(usize),
    // 45: of a retarder, a step-up ratio or a count of readings outside its limits, or another count of bearing losses.
    RetarderOutOfLimits,
    // 46: a retarder's drag under zero, its reading being less than the bearing loss, or above 10,000,000 hundredths of Nm.
    DragOutOfRange,
    // 47: a retarder speed below or above the points that have a reading.
    RetarderSpeedOutside,
}

impl Refusal {
    // The number of the table's column "Returned".
    pub fn number(self) -> u8
        ensures { result ≡ number self }
    {
        match self {
            Refusal::Incomplete(_) => 1,
            Refusal::WrongTag(_) => 2,
            Refusal::WrongLength(_) => 3,
            Refusal::OutOfRange(_) => 4,
            Refusal::NotRising(_) => 5,
            Refusal::FirstTorqueAboveStep(_) => 6,
            Refusal::AboveNominal(_) => 7,
            Refusal::OffAxisTorque(_) => 8,
            Refusal::NegativeLoss(_) => 9,
            Refusal::EntryTooLarge(_) => 10,
            Refusal::TooShort(_) => 11,
            Refusal::TrailingBytes(_) => 12,
            Refusal::SpeedOutside => 20,
            Refusal::TorqueAbove => 21,
            Refusal::NotAMap => 22,
            Refusal::FileTooShort(_) => 30,
            Refusal::RatioOutOfRange(_) => 31,
            Refusal::SensorOutOfRange { .. } => 32,
            Refusal::WrongHeader => 40,
            Refusal::WrongLine(_) => 41,
            Refusal::BrokenRun(_) => 42,
            Refusal::RetarderOutOfLimits => 45,
            Refusal::DragOutOfRange => 46,
            Refusal::RetarderSpeedOutside => 47,
        }
    }

    // The place that is given with it.
    pub fn place(self) -> usize
        ensures { result ≡ place self }
    {
        match self {
            Refusal::Incomplete(p)
            | Refusal::WrongTag(p)
            | Refusal::WrongLength(p)
            | Refusal::OutOfRange(p)
            | Refusal::NotRising(p)
            | Refusal::FirstTorqueAboveStep(p)
            | Refusal::AboveNominal(p)
            | Refusal::OffAxisTorque(p)
            | Refusal::NegativeLoss(p)
            | Refusal::EntryTooLarge(p)
            | Refusal::TooShort(p)
            | Refusal::TrailingBytes(p)
            | Refusal::FileTooShort(p)
            | Refusal::RatioOutOfRange(p)
            | Refusal::SensorOutOfRange { place: p, .. }
            | Refusal::WrongLine(p)
            | Refusal::BrokenRun(p) => p,
            Refusal::SpeedOutside => 0,
            Refusal::TorqueAbove => 0,
            Refusal::NotAMap => 0,
            Refusal::WrongHeader => 0,
            Refusal::RetarderOutOfLimits => 0,
            Refusal::DragOutOfRange => 0,
            Refusal::RetarderSpeedOutside => 0,
        }
    }

    // Which number of its field it was, from 0, where that is told.
    pub fn index(self) -> Option<usize>
        ensures { result ≡ index self }
    {
        match self {
            Refusal::RatioOutOfRange(_) => Some(0),
            Refusal::SensorOutOfRange { index, .. } => Some(index),
            _ => None,
        }
    }

    // The same refusal with place 0.
    pub fn without_place(self) -> Refusal
        ensures { told result ≡ at_place 0 (told self) }
    {
        match self {
            Refusal::Incomplete(_) => Refusal::Incomplete(0),
            Refusal::WrongTag(_) => Refusal::WrongTag(0),
            Refusal::WrongLength(_) => Refusal::WrongLength(0),
            Refusal::OutOfRange(_) => Refusal::OutOfRange(0),
            Refusal::NotRising(_) => Refusal::NotRising(0),
            Refusal::FirstTorqueAboveStep(_) => Refusal::FirstTorqueAboveStep(0),
            Refusal::AboveNominal(_) => Refusal::AboveNominal(0),
            Refusal::OffAxisTorque(_) => Refusal::OffAxisTorque(0),
            Refusal::NegativeLoss(_) => Refusal::NegativeLoss(0),
            Refusal::EntryTooLarge(_) => Refusal::EntryTooLarge(0),
            Refusal::TooShort(_) => Refusal::TooShort(0),
            Refusal::TrailingBytes(_) => Refusal::TrailingBytes(0),
            Refusal::SpeedOutside => Refusal::SpeedOutside,
            Refusal::TorqueAbove => Refusal::TorqueAbove,
            Refusal::NotAMap => Refusal::NotAMap,
            Refusal::FileTooShort(_) => Refusal::FileTooShort(0),
            Refusal::RatioOutOfRange(_) => Refusal::RatioOutOfRange(0),
            Refusal::SensorOutOfRange { index, .. } => {
                Refusal::SensorOutOfRange { place: 0, index }
            }
            Refusal::WrongHeader => Refusal::WrongHeader,
            Refusal::WrongLine(_) => Refusal::WrongLine(0),
            Refusal::BrokenRun(_) => Refusal::BrokenRun(0),
            Refusal::RetarderOutOfLimits => Refusal::RetarderOutOfLimits,
            Refusal::DragOutOfRange => Refusal::DragOutOfRange,
            Refusal::RetarderSpeedOutside => Refusal::RetarderSpeedOutside,
        }
    }
}

// In words for people. The map program writes the same line by `listing::write_refusal`, whose bytes are proved.
impl fmt::Display for Refusal {
    fn fmt<W: fmt::Write>(&self, f: &mut fmt::Formatter<W>) -> fmt::Result {
        write!(f, "refused {} at {}", self.number(), self.place())
    }
}
