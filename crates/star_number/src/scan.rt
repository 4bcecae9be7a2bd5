// The pieces of a number before its bracket, from the front of a content.
ghost use Rattle.std.specs.Prelude.{◌≡◌, true, ◌+◌, ◌-◌, ◌*◌, ◌≤◌, pos, ◌-ℤ◌, length, drop};
ghost use Rattle.star_number.specs.Pieces.{is_digit, sign_bytes};
ghost use Rattle.star_number.specs.Taken.{sign_at, fraction_at, exponent_at};
ghost use Rattle.star_number.specs.Held.{most_counted, counted, signed_by, letter_next, digits_held, fraction_held, exponent_held, exponent_found, power_held, front_held, front_found};

use super::decimal::{Decimal, Power};
use star_lex::scan::byte_at;

// Whole numbers are counted up to here: above every limit, and more than a content has bytes.
const MOST_COUNTED: u64 = 10000000000000000000;

const TENTH_OF_MOST: u64 = 1000000000000000000;

// Powers of ten are counted up to here, the first that is too great.
const BEYOND_POWER: u64 = 23;

// Digits: where they end, and the whole number of them and the digits before.
#[derive(Clone, Copy, Debug, PartialEq, Eq)]
pub struct Run {
    pub end: usize,
    pub value: u64,
}

// An optional point and digits: where they end, how many digits, and the whole number that all digits are.
#[derive(Clone, Copy, Debug, PartialEq, Eq)]
pub struct FractionRun {
    pub end: usize,
    pub after: usize,
    pub value: u64,
}

// An optional exponent: where it ends, its sign and its whole number.
#[derive(Clone, Copy, Debug, PartialEq, Eq)]
pub struct SignedRun {
    pub end: usize,
    pub negative: bool,
    pub value: u64,
}

// A whole number with one digit more.
fn with_digit(value: u64, byte: u8) -> u64
    requires { is_digit byte ≡ true }
    ensures { result ≡ counted (value * 10 + (byte - 48)) }
{
    if TENTH_OF_MOST <= value {
        return MOST_COUNTED;
    }
    value * 10 + u64::from(byte - b'0')
}

// The digits from a place within the content on, after those that gave a value.
pub(crate) fn digits(content: &[u8], from: usize, value: u64) -> Run
    requires value_le_most { value ≤ most_counted }
    requires from_in_bounds { from ≤ length content.now }
    ensures { result ≡ digits_held value from (drop from content.now) }
{
    let mut n = value;
    for (i, &b) in content[from..].iter().enumerate() {
        if !b.is_ascii_digit() {
            return Run {
                end: from + i,
                value: n,
            };
        }
        n = with_digit(n, b);
    }
    Run {
        end: content.len(),
        value: n,
    }
}

// How many bytes an optional sign takes.
fn sign_length(content: &[u8], at: usize) -> usize
    ensures { result ≡ length (sign_bytes (sign_at (drop at content.now))) }
{
    if byte_at(content, at, b'+') || byte_at(content, at, b'-') {
        1
    } else {
        0
    }
}

// An optional point and the digits after it.
fn fraction_at(content: &[u8], at: usize, value: u64) -> FractionRun
    requires value_le_most { value ≤ most_counted }
    requires at_in_bounds { at ≤ length content.now }
    ensures { result ≡ fraction_held value at (fraction_at (drop at content.now)) }
{
    if !byte_at(content, at, b'.') {
        return FractionRun {
            end: at,
            after: 0,
            value,
        };
    }
    let run = digits(content, at + 1, value);
    FractionRun {
        end: run.end,
        after: run.end - (at + 1),
        value: run.value,
    }
}

// Whether the letter of an exponent stands at a place.
fn is_letter(content: &[u8], at: usize) -> bool
    ensures { result ≡ letter_next (drop at content.now) }
{
    byte_at(content, at, b'e') || byte_at(content, at, b'E')
}

// An optional exponent, if it is well formed.
fn exponent_at(content: &[u8], at: usize) -> Option<SignedRun>
    ensures { result ≡ exponent_found (exponent_held at (exponent_at (drop at content.now))) }
{
    if !is_letter(content, at) {
        return Some(SignedRun {
            end: at,
            negative: false,
            value: 0,
        });
    }
    let sign = at + 1;
    let from = sign + sign_length(content, sign);
    let run = digits(content, from, 0);
    if run.end == from {
        return None;
    }
    Some(SignedRun {
        end: run.end,
        negative: byte_at(content, sign, b'-'),
        value: run.value,
    })
}

impl SignedRun {
    // The power of ten that it is as a written exponent, less the digits after the point.
    fn power(self, after: u64) -> Power
        ensures { result ≡ power_held (signed_by self.negative self.value -ℤ pos after) }
    {
        if self.negative {
            let tens = (self.value.min(BEYOND_POWER) + after.min(BEYOND_POWER)).min(BEYOND_POWER);
            return Power {
                over: 0 < tens,
                tens,
            };
        }
        if after <= self.value {
            Power {
                over: false,
                tens: (self.value - after).min(BEYOND_POWER),
            }
        } else {
            Power {
                over: true,
                tens: (after - self.value).min(BEYOND_POWER),
            }
        }
    }
}

// The pieces of a content before its bracket and where they end, if they are well formed: there is a digit, and the exponent is well formed.
pub(crate) fn front_of(content: &[u8]) -> Option<(Decimal, usize)>
    ensures { result ≡ front_found (front_held content.now) }
{
    let from = sign_length(content, 0);
    let whole = digits(content, from, 0);
    let all = fraction_at(content, whole.end, whole.value);
    let written = exponent_at(content, all.end)?;
    if whole.end - from + all.after == 0 {
        return None;
    }
    let decimal = Decimal {
        negative: byte_at(content, 0, b'-'),
        digits: all.value,
        power: written.power(all.after as u64),
    };
    Some((decimal, written.end))
}
