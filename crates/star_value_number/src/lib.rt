// The k-th value of a name row as a number with its uncertainty.
#![tactic(auto)]

ghost use Rattle.std.specs.Prelude.{◌≡◌};
ghost use Rattle.star_find.specs.Lending.{seen};
ghost use Rattle.star_value_number.specs.Forms.{value_number, value_form_of};
ghost use Rattle.star_value_number.specs.Answers.{number_answer, number_or_refusal};

use star_find::{Lent, Missing};
use star_number::{Form, Number};

// A value's number as its form through C, preceded by the refusal; a refused one has form 0.
#[repr(C)]
#[derive(Clone, Copy)]
pub struct ValueForm {
    pub refusal: u32,
    pub form: u32,
    pub value: f64,
    pub uncertainty: f64,
}

// A value's number, or a refusal of any number, as its form.
#[tactic(auto, unfolding(crate::specs::Forms::value_form_of))]
pub fn value_form(number: Result<Number, u32>) -> ValueForm
    ensures { result ≡ value_form_of (number_or_refusal number) }
{
    match number {
        Ok(number) => {
            let f = Form::from(number);
            ValueForm {
                refusal: 0,
                form: f.form,
                value: f.value,
                uncertainty: f.uncertainty,
            }
        }
        Err(refusal) => ValueForm {
            refusal,
            form: 0,
            value: 0.0,
            uncertainty: 0.0,
        },
    }
}

impl From<Result<Number, Missing>> for ValueForm {
    ghost from_gives = { λ answer form. form ≡ value_form_of (number_answer answer) };

    fn from(answer: Result<Number, Missing>) -> ValueForm {
        match answer {
            Ok(number) => value_form(Ok(number)),
            Err(missing) => value_form(Err(missing.number())),
        }
    }
}

// What the k-th value of a name row is as a number, k from 1.
pub fn value_number(lent: &Lent, name: u32, k: u32) -> Result<Number, Missing>
    ensures { number_answer result ≡ value_number (seen lent.now) lent.now.counts name k }
{
    let found = star_value::locate(lent, name, k)?;
    let kind = star_rows::word(lent.tokens, star_rows::TOKEN_WIDTH, found.token, 0);
    Ok(star_number::number_of(kind, lent.contents().part(found.token)))
}
