// A decimal number, and its floats by whole numbers and powers of ten.
ghost use Rattle.std.specs.Prelude.{◌≡◌, ◌≤◌, pos};
ghost use Rattle.star_number.specs.Number.{most_whole, in_range};
ghost use Rattle.star_number.specs.Held.{scaled_by, ten_to, front_with, float_held, bare_held, uncertain_held};

use super::Number;

// The greatest whole number and the greatest power of ten that are taken.
const MOST_WHOLE: u64 = 9007199254740992;

const MOST_POWER: u64 = 22;

// Ten to the 0 up to 22.
static POWERS_OF_TEN: [f64; 23] = [
    1e0, 1e1, 1e2, 1e3, 1e4, 1e5, 1e6, 1e7, 1e8, 1e9, 1e10, 1e11, 1e12, 1e13, 1e14, 1e15, 1e16,
    1e17, 1e18, 1e19, 1e20, 1e21, 1e22,
];

// A power of ten, and whether it divides.
#[derive(Clone, Copy, Debug, PartialEq, Eq)]
pub struct Power {
    pub over: bool,
    pub tens: u64,
}

// A number before its bracket: its sign, its digits as a whole number, and their power of ten.
#[derive(Clone, Copy, Debug, PartialEq, Eq)]
pub struct Decimal {
    pub negative: bool,
    pub digits: u64,
    pub power: Power,
}

// Ten to this power, and to 22 where it is above.
fn power_of_ten(tens: u64) -> f64
    ensures { result ≡ ten_to tens }
{
    POWERS_OF_TEN[tens.min(MOST_POWER) as usize]
}

impl Power {
    // Whether a whole number with this power of ten is taken.
    fn takes(self, whole: u64) -> bool
        ensures { result ≡ in_range whole (pos self.tens) }
    {
        whole <= MOST_WHOLE && self.tens <= MOST_POWER
    }

    // A whole number times the power of ten, or divided by it.
    fn scale(self, whole: u64) -> f64
        requires { whole ≤ most_whole }
        ensures { result ≡ scaled_by self.over whole (ten_to self.tens) }
    {
        let whole = whole as f64;
        let ten = power_of_ten(self.tens);
        if self.over { whole / ten } else { whole * ten }
    }
}

impl Decimal {
    // The float that it is.
    fn float(self) -> f64
        requires { self.digits ≤ most_whole }
        ensures { result ≡ float_held (front_with self 0) }
    {
        let x = self.power.scale(self.digits);
        if self.negative { -x } else { x }
    }

    // The number that it is without a bracket.
    pub(crate) fn bare(self) -> Number
        ensures { result ≡ bare_held (front_with self 0) }
    {
        if self.power.takes(self.digits) {
            Number::Float(self.float())
        } else {
            Number::TooWide
        }
    }

    // The number that it is with an uncertainty of these digits.
    pub(crate) fn uncertain(self, digits: u64) -> Number
        ensures { result ≡ uncertain_held (front_with self 0) digits }
    {
        if self.power.takes(self.digits) && self.power.takes(digits) {
            Number::Uncertain(self.float(), self.power.scale(digits))
        } else {
            Number::TooWide
        }
    }
}
