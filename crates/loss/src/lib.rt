// The loss of an axle: the standard loss of a line, the steps of a sensor's uncertainty, and the measured loss of a row of readings.
#![tactic(auto)]

ghost use Rattle.std.specs.Prelude.{◌≡◌, ◌+◌, ◌*◌, ◌≤◌, ◌<◌, ◌^◌, ◌∷◌, IfOk, IfSome};
ghost use Rattle.arith.specs.Quotient.{quotient_up};
ghost use Rattle.arith.specs.Fraction.{Same, ◌over◌};
ghost use Rattle.refusal.specs.Table.{outcome_of, outcome_as};
ghost use Rattle.sensor.specs.Sensor.{check_without_place, SensorRules};
ghost use Rattle.loss.specs.Standard.{line_of, Usable, standard_entry};
ghost use Rattle.loss.specs.Rate.{sensitivity_rate};
ghost use Rattle.loss.specs.Measured.{grains_up, temperature_on_sensitivity, temperature_on_zero, calibration, parasitic_loads, fixed_parts, sensor_uncertainty, scaled_uncertainty, sum_of_squares, loss_uncertainty, allowance, LossSays, UncertaintyBounded, right_uncertainty, entry_of};
ghost use Rattle.loss.specs.SensorSteps.{steps_at, steps_answer, StepsRoundedUp};

use refusal::Refusal;
use sensor::Sensor;

// An axle line: efficiency in percent, and the two drag constants in Nm.
#[derive(Clone, Copy)]
struct Line {
    pub efficiency: u64,
    pub t0: u64,
    pub t1: u64,
}

// Lines 1 to 5: SR, SRT, SP, HR, HRT. There is no line 0.
const LINES: [Line; 6] = [
    NO_LINE,
    Line {
        efficiency: 98,
        t0: 70,
        t1: 20,
    },
    Line {
        efficiency: 96,
        t0: 80,
        t1: 20,
    },
    Line {
        efficiency: 96,
        t0: 80,
        t1: 20,
    },
    Line {
        efficiency: 97,
        t0: 70,
        t1: 20,
    },
    Line {
        efficiency: 95,
        t0: 90,
        t1: 20,
    },
];

// What the table does not have: a line without loss.
const NO_LINE: Line = Line {
    efficiency: 100,
    t0: 0,
    t1: 0,
};

// The line of a number.
fn line_of(number: u16) -> Line
    ensures line { result ≡ line_of number }
    ensures usable { Usable result }
{
    LINES.get(usize::from(number)).copied().unwrap_or(NO_LINE)
}

// The standard entry: the exact loss rounded up to a hundredth of Nm. It takes any number as the line; a
// narrower type would ask more of a caller.
pub fn standard_entry(line: u16, ratio: u16, torque: u16) -> u64
    ensures entry { result ≡ standard_entry line ratio torque }
    ensures bound { result < 2 ^ 32 }
{
    let Line { efficiency, t0, t1 } = line_of(line);
    let constant = efficiency * t0 * 1000;
    let turning = efficiency * t1 * u64::from(ratio);
    let loaded = 1000 * (100 - efficiency) * u64::from(torque);
    (constant + turning + loaded).div_ceil(10 * efficiency)
}

// n / d rounded up, where the sum fits. Quicker in each row than `div_ceil`, which looks at the remainder.
#[tactic(auto, using(arith::proofs::Quotients::quotient_up_sum))]
fn rounded_up(n: u64, d: u64) -> u64
    requires { (0 < d) × (n + d ≤ 2 ^ 64) }
    ensures { result ≡ quotient_up n d }
{
    (n + (d - 1)) / d
}

// A product of three numbers of a sensor and its torque.
fn product(a: u16, b: u16, c: u32) -> u64
    ensures { result ≡ a * b * c }
{
    u64::from(a) * u64::from(b) * u64::from(c)
}

// The steps of a sensor's uncertainty, each rounded up to a grain: the four parts in the order of the annex (source document 002,
// Annex VII, 4.4.6), then the root over them. a, which depends on the torque, is a method of `PreparedSensor`.

// The rate at which a grows with the torque is in so many parts of a grain: 2^46, which is above any torque times the divisor of a,
// so that rounding the rate down changes no a; it is reckoned in two steps of 2^23.
const RATE_PARTS: u64 = 70_368_744_177_664;

const RATE_STEP: u64 = 8_388_608;

// The rate at a hundredth of Nm, rounded down.
fn sensitivity_rate(sensor: Sensor) -> u64
    requires { SensorRules sensor }
    ensures { result ≡ sensitivity_rate sensor }
{
    let n = RATE_STEP * product(sensor.sensitivity, sensor.difference, 1);
    let d = 100_000 * u64::from(sensor.span);
    n / d * RATE_STEP + n % d * RATE_STEP / d
}

// b: temperature on zero; U_TK0 times the root of 3.
#[tactic(auto, unfolding(crate::specs::Measured::grains_up, crate::specs::Measured::temperature_on_zero))]
fn temperature_on_zero(sensor: Sensor) -> u64
    ensures { result ≡ grains_up (temperature_on_zero sensor) }
{
    arith::quotient_up(
        product(sensor.zero, sensor.difference, u32::from(sensor.nominal)),
        1000 * u64::from(sensor.span),
    )
}

// g: calibration; U_cal.
#[tactic(auto, unfolding(crate::specs::Measured::grains_up, crate::specs::Measured::calibration))]
fn calibration(sensor: Sensor) -> u64
    ensures { result ≡ grains_up (calibration sensor) }
{
    arith::quotient_up(
        product(sensor.calibration, sensor.nominal, 10),
        u64::from(sensor.advancement),
    )
}

// h: parasitic loads; U_para times the root of 3.
#[tactic(auto, unfolding(crate::specs::Measured::grains_up, crate::specs::Measured::parasitic_loads))]
fn parasitic_loads(sensor: Sensor) -> u64
    ensures { result ≡ grains_up (parasitic_loads sensor) }
{
    arith::quotient_up(
        product(sensor.parasitic, sensor.share, u32::from(sensor.nominal)),
        100_000,
    )
}

// U: the root of 4 * (a*a + b*b + 3*g*g + h*h) / 3, rounded up; U_T,in or U_T,out.
#[tactic(auto, using(crate::proofs::Parts::uncertainty_at_most), unfolding(crate::specs::Measured::sensor_uncertainty))]
fn sensor_uncertainty(a: u64, b: u64, g: u64, h: u64) -> u64
    requires { (a ≤ 25000000) × (b ≤ 25000000) × (g ≤ 5000000) × (h ≤ 5000000) }
    ensures uncertainty { result ≡ sensor_uncertainty a b g h }
    ensures bound { result ≤ 43000000 }
{
    let squares = a * a + b * b + 3 * (g * g) + h * h;
    arith::root_up(rounded_up(4 * squares, 3))
}

// All five: a, b, g, h and U.
#[derive(Clone, Copy, Default)]
pub struct Steps {
    pub temperature_on_sensitivity: u64,
    pub temperature_on_zero: u64,
    pub calibration: u64,
    pub parasitic_loads: u64,
    pub uncertainty: u32,
}

// The steps that do not depend on the torque: b, g and h.
#[derive(Clone, Copy)]
struct FixedParts {
    pub temperature_on_zero: u64,
    pub calibration: u64,
    pub parasitic_loads: u64,
}

#[tactic(auto, unfolding(crate::specs::Measured::fixed_parts))]
fn fixed_parts(sensor: Sensor) -> FixedParts
    ensures { result ≡ fixed_parts sensor }
{
    FixedParts {
        temperature_on_zero: temperature_on_zero(sensor),
        calibration: calibration(sensor),
        parasitic_loads: parasitic_loads(sensor),
    }
}

// A sensor whose numbers are in their ranges, with what is reckoned of it before its torques are known.
#[derive(Clone, Copy)]
pub struct PreparedSensor {
    pub sensor: Sensor,
    fixed: FixedParts,
    rate: u64,
    pub ghost rules: { SensorRules sensor },
    pub ghost own: { fixed ≡ fixed_parts sensor },
    pub ghost own_rate: { rate ≡ sensitivity_rate sensor },
}

impl PreparedSensor {
    // 32, with place 0, where a number of the sensor is outside its range.
    pub fn new(sensor: Sensor) -> Result<PreparedSensor, Refusal>
        ensures answer { outcome_as (λ prepared. tt) result ≡ check_without_place sensor }
        ensures sensor { IfOk result (λ prepared. prepared.sensor ≡ sensor) }
    {
        sensor.check()?;
        Ok(PreparedSensor {
            sensor,
            fixed: fixed_parts(sensor),
            rate: sensitivity_rate(sensor),
        })
    }

    // a: temperature on sensitivity, at a torque in hundredths, by the rate and so without a division; the annex's U_TKC times the
    // root of 3.
    #[tactic(auto, unfolding(crate::specs::Measured::grains_up, crate::specs::Measured::temperature_on_sensitivity))]
    fn temperature_on_sensitivity(&self, torque: u32) -> u64
        requires { torque ≤ 100 * self.now.sensor.nominal }
        ensures part { result ≡ grains_up (temperature_on_sensitivity self.now.sensor torque) }
        ensures bound { result ≤ 25000000 }
    {
        let parts = u128::from(self.rate) * u128::from(torque) + u128::from(RATE_PARTS - 1);
        (parts / u128::from(RATE_PARTS)) as u64
    }

    // The steps at a torque in hundredths, in the order of the annex. 7, at a place, where it is above the nominal torque. (Inlined,
    // so that no row of readings calls it for each sensor.)
    #[inline(always)]
    pub fn steps(&self, torque: u32, place: usize) -> Result<Steps, Refusal>
        ensures answer { outcome_of result ≡ steps_at self.now.sensor torque place }
        ensures rounded_up { IfOk result (StepsRoundedUp self.now.sensor torque) }
        ensures bounded { IfOk result UncertaintyBounded }
    {
        if 100 * u32::from(self.sensor.nominal) < torque {
            return Err(Refusal::AboveNominal(place));
        }
        let a = self.temperature_on_sensitivity(torque);
        let b = self.fixed.temperature_on_zero;
        let g = self.fixed.calibration;
        let h = self.fixed.parasitic_loads;
        let uncertainty = sensor_uncertainty(a, b, g, h);
        Ok(Steps {
            temperature_on_sensitivity: a,
            temperature_on_zero: b,
            calibration: g,
            parasitic_loads: h,
            // fits: it is at most 43,000,000
            uncertainty: uncertainty as u32,
        })
    }
}

// The steps of any sensor at any torque in hundredths; or 32, then 7, both with place 0.
pub fn sensor_steps(sensor: Sensor, torque: u32) -> Result<Steps, Refusal>
    ensures answer { outcome_of result ≡ steps_answer sensor torque }
    ensures rounded_up { IfOk result (StepsRoundedUp sensor torque) }
{
    PreparedSensor::new(sensor)?.steps(torque, 0)
}

// A torque or an uncertainty times a ratio in thousandths.
fn at_ratio(n: u32, ratio: u16) -> u64
    ensures product { result ≡ n * ratio }
    ensures bound { result < 2 ^ 48 }
{
    u64::from(n) * u64::from(ratio)
}

// A sensor's uncertainty times a factor in thousandths, rounded up to a grain.
#[tactic(auto, unfolding(crate::specs::Measured::scaled_uncertainty))]
fn scaled_uncertainty(factor: u16, uncertainty: u32) -> u64
    ensures { result ≡ scaled_uncertainty factor uncertainty }
{
    rounded_up(at_ratio(uncertainty, factor), 1000)
}

// The root of the sum of the squares, rounded up: the loss uncertainty in grains.
#[tactic(auto, unfolding(crate::specs::Measured::loss_uncertainty))]
fn loss_uncertainty(parts: &[u64]) -> u64
    requires { sum_of_squares parts.now < 2 ^ 64 }
    ensures { result ≡ loss_uncertainty parts.now }
{
    arith::root_up(parts.iter().map(|part| part * part).sum())
}

// The loss uncertainty of a row, from the steps of its sensors; where there is a right output, output is the left one. It fits 32
// bits whatever the ratio is.
pub fn row_uncertainty(ratio: u16, input: Steps, output: Steps, right: Option<Steps>) -> u32
    requires input { UncertaintyBounded input }
    requires output { UncertaintyBounded output }
    requires right { IfSome right UncertaintyBounded }
    ensures { result ≡ loss_uncertainty (scaled_uncertainty ratio input.uncertainty ∷ output.uncertainty ∷ right_uncertainty right) }
{
    let at_wheel = scaled_uncertainty(ratio, input.uncertainty);
    let output = u64::from(output.uncertainty);
    let uncertainty = match right {
        Some(right) => loss_uncertainty(&[at_wheel, output, u64::from(right.uncertainty)]),
        None => loss_uncertainty(&[at_wheel, output]),
    };
    uncertainty as u32
}

// What a row was measured to: the ratio, the input torque, and the output torques together, in hundredths of Nm. What is
// reckoned of it is in half micronewton metres: 20,000 to a hundredth of Nm, so that 5 % of a loss is whole.
#[derive(Clone, Copy)]
pub struct Measurement {
    pub ratio: u16,
    pub input: u32,
    pub output: u32,
}

impl Measurement {
    // The input torque times the ratio.
    fn gained(self) -> u64
        ensures gained { result ≡ 20 * (self.input * self.ratio) }
        ensures bound { result < 2 ^ 53 }
    {
        20 * at_ratio(self.input, self.ratio)
    }

    // The measured loss: input torque times the ratio, less the output torque; nothing where that is under zero.
    #[tactic(auto, using(crate::proofs::Values::loss_says))]
    pub fn loss(self) -> Option<u64>
        ensures { LossSays self.ratio self.input self.output result }
    {
        self.gained().checked_sub(20_000 * u64::from(self.output))
    }

    // The allowance: a twentieth of the measured loss or 1 Nm at the input times the ratio, whichever is more.
    pub fn allowance(self) -> u64
        ensures allowance { Same (result over 20000) (allowance self.ratio self.input self.output) }
        ensures bound { result < 2 ^ 48 }
    {
        let twentieth_spent = 1000 * u64::from(self.output);
        let twentieth = at_ratio(self.input, self.ratio).saturating_sub(twentieth_spent);
        let newton_metre = 2_000 * u64::from(self.ratio);
        twentieth.max(newton_metre)
    }

    // The entry, from the loss uncertainty in grains: what that has above the allowance is added to the measured loss, and
    // the sum rounded up to a hundredth.
    #[tactic(auto, using(crate::proofs::OneDenominator::same_is, crate::proofs::Values::entry_is))]
    pub fn entry(self, uncertainty: u32) -> u64
        ensures { result ≡ entry_of self.ratio self.input self.output uncertainty }
    {
        let more = (200 * u64::from(uncertainty)).saturating_sub(self.allowance());
        let spent = 20_000 * u64::from(self.output);
        rounded_up((self.gained() + more).saturating_sub(spent), 20_000)
    }
}
