// The torque sensors of tags 6, 7 and 9: their nine numbers and ranges.
#![tactic(auto)]

ghost use Rattle.std.specs.Prelude.{◌≡◌, IfOk};
ghost use Rattle.refusal.specs.Table.{outcome_of};
ghost use Rattle.sensor.specs.Sensor.{sensor_check, check_without_place, sensor_of, sensor_numbers, SensorRules};
ghost use Rattle.sensor.specs.Fault.{sensor_fault_of};

use grid::Range;
use refusal::Refusal;

// The nine numbers of a sensor, in the order of the data.
#[derive(Clone, Copy)]
pub struct Sensor {
    // N, nominal torque in Nm
    pub nominal: u16,
    // w, influence of temperature on sensitivity, ppm
    pub sensitivity: u16,
    // z, influence of temperature on zero, ppm
    pub zero: u16,
    // c, calibration, ppm
    pub calibration: u16,
    // k, calibration advancement, thousandths
    pub advancement: u16,
    // s, parasitic sensitivity, ppm
    pub parasitic: u16,
    // p, parasitic share, thousandths
    pub share: u16,
    // d, temperature difference, tenths of K
    pub difference: u16,
    // R, reference span, K
    pub span: u16,
}

// The ranges of the nine numbers.
const RANGES: [Range; 9] = [
    Range {
        lowest: 1,
        highest: 50000,
    },
    Range {
        lowest: 0,
        highest: 10000,
    },
    Range {
        lowest: 0,
        highest: 10000,
    },
    Range {
        lowest: 0,
        highest: 10000,
    },
    Range {
        lowest: 1000,
        highest: 10000,
    },
    Range {
        lowest: 0,
        highest: 10000,
    },
    Range {
        lowest: 0,
        highest: 1000,
    },
    Range {
        lowest: 0,
        highest: 500,
    },
    Range {
        lowest: 10,
        highest: 100,
    },
];

// The index of the first number that is outside its range, left to right.
pub fn sensor_fault(numbers: &[u16; 9]) -> Option<usize>
    ensures { sensor_fault_of result ≡ sensor_check numbers.now }
{
    numbers
        .iter()
        .zip(&RANGES)
        .position(|(number, range)| !range.contains(*number))
}

impl From<[u16; 9]> for Sensor {
    ghost from_gives = { λ numbers sensor. sensor ≡ sensor_of numbers };

    fn from(numbers: [u16; 9]) -> Sensor {
        let [
            nominal,
            sensitivity,
            zero,
            calibration,
            advancement,
            parasitic,
            share,
            difference,
            span,
        ] = numbers;
        Sensor {
            nominal,
            sensitivity,
            zero,
            calibration,
            advancement,
            parasitic,
            share,
            difference,
            span,
        }
    }
}

impl Sensor {
    // And back: its nine numbers.
    pub fn numbers(self) -> [u16; 9]
        ensures { result ≡ sensor_numbers self }
    {
        [
            self.nominal,
            self.sensitivity,
            self.zero,
            self.calibration,
            self.advancement,
            self.parasitic,
            self.share,
            self.difference,
            self.span,
        ]
    }

    // 32, with the index, where one of its numbers is outside its range; with place 0, for a sensor that is handed over stands at no offset.
    pub fn check(self) -> Result<(), Refusal>
        ensures answer { outcome_of result ≡ check_without_place self }
        ensures rules { IfOk result (λ done. SensorRules self) }
    {
        match sensor_fault(&self.numbers()) {
            None => Ok(()),
            Some(index) => Err(Refusal::SensorOutOfRange { place: 0, index }),
        }
    }
}
