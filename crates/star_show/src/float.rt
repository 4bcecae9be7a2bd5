// Floats, by their bits.
use std::fmt;

// A float, printed as the sixteen hexadecimal digits of its bits; as 0 where it is no number.
#[derive(Clone, Copy)]
pub struct Bits(pub f64);

impl fmt::Display for Bits {
    fn fmt<W: fmt::Write>(&self, f: &mut fmt::Formatter<W>) -> fmt::Result {
        let bits = if self.0.is_nan() { 0 } else { self.0.to_bits() };
        write!(f, "{bits:016x}")
    }
}
