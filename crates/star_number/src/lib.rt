// A content as a number with its uncertainty. Contents of any length are taken.
#![tactic(auto)]

mod decimal;
mod scan;

ghost use Rattle.std.specs.Prelude.{◌≡◌, drop, unwrap_or};
ghost use Rattle.star_number.specs.Forms.{form, form_of};
ghost use Rattle.star_number.specs.Taken.{bracket_at, taken, word_number, number_in};
ghost use Rattle.star_number.specs.Held.{bracket_held, bracket_as};

use star_lex::kind::Kind;

// What a value is: a float, a float with its uncertainty, unknown, not applicable, a number that is too wide, or text.
#[derive(Clone, Copy, Debug, PartialEq)]
pub enum Number {
    Float(f64),
    Uncertain(f64, f64),
    Unknown,
    NotApplicable,
    TooWide,
    Text,
}

// A number for those who have no such enum: which case it is, from 1, with its floats, 0 where it has none.
#[repr(C)]
#[derive(Clone, Copy, Debug, PartialEq)]
pub struct Form {
    pub form: u32,
    pub value: f64,
    pub uncertainty: f64,
}

// What follows a place where the other pieces of a number end: digits in round brackets up to the end, or nothing. None outside where something else does.
fn bracket_at(content: &[u8], at: usize) -> Option<Option<u64>>
    ensures { bracket_as result ≡ bracket_held (bracket_at (drop at content.now)) }
{
    if content.len() <= at {
        return Some(None);
    }
    if content[at] != b'(' {
        return None;
    }
    let run = scan::digits(content, at + 1, 0);
    if run.end == at + 1 {
        return None;
    }
    if &content[run.end..] == b")".as_slice() {
        Some(Some(run.value))
    } else {
        None
    }
}

// The number that a word is, if it is one.
fn word_number(content: &[u8]) -> Option<Number>
    ensures { unwrap_or result Number.Text ≡ word_number (taken content.now) }
{
    let (decimal, end) = scan::front_of(content)?;
    match bracket_at(content, end)? {
        Some(digits) => Some(decimal.uncertain(digits)),
        None => Some(decimal.bare()),
    }
}

// What a value of this kind and content is.
pub fn number_of(kind: u32, content: &[u8]) -> Number
    ensures { result ≡ number_in kind content.now }
{
    if kind != Kind::Word.number() {
        return Number::Text;
    }
    if content == b"?".as_slice() {
        return Number::Unknown;
    }
    if content == b".".as_slice() {
        return Number::NotApplicable;
    }
    word_number(content).unwrap_or(Number::Text)
}

impl Form {
    fn new(number: u32, value: f64, uncertainty: f64) -> Self
        ensures { result ≡ form number value uncertainty }
    {
        Form {
            form: number,
            value,
            uncertainty,
        }
    }
}

impl From<Number> for Form {
    ghost from_gives = { λ number form. form ≡ form_of number };

    fn from(number: Number) -> Self {
        match number {
            Number::Float(value) => Form::new(1, value, 0.0),
            Number::Uncertain(value, uncertainty) => Form::new(2, value, uncertainty),
            Number::Unknown => Form::new(3, 0.0, 0.0),
            Number::NotApplicable => Form::new(4, 0.0, 0.0),
            Number::TooWide => Form::new(5, 0.0, 0.0),
            Number::Text => Form::new(6, 0.0, 0.0),
        }
    }
}
