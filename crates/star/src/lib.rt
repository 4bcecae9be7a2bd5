// What other languages call: each function is the library's own of that name, with its contract. include/star.h is the C header.
#![tactic(auto)]

ghost use Rattle.std.specs.Prelude.{◌≡◌};
ghost use Rattle.star_text.specs.Compare.{compare_of};
ghost use Rattle.star_read.specs.Answer.{tables, ReadsIn};
ghost use Rattle.star_find.specs.Find.{lent, find_block, find_frame, find_name};
ghost use Rattle.star_value.specs.Values.{value_at, value_span};
ghost use Rattle.star_slots.specs.Lookup.{find_slot};
ghost use Rattle.star_index.specs.Index.{Checks};
ghost use Rattle.star_build.specs.Build.{Builds};
ghost use Rattle.star_number.specs.Taken.{number_in};
ghost use Rattle.star_number.specs.Forms.{form_of};
ghost use Rattle.star_value_number.specs.Forms.{value_number, value_form_of};
ghost use Rattle.star_write.specs.Answer.{Writes, DropsStops};
ghost use Rattle.star_convert.specs.Convert.{Converts};
ghost use Rattle.star_check.specs.Fits.{FitsChecked};

use star_check::Checked;
use star_find::{Found, Lent};
use star_number::Form;
use star_read::Answer;
use star_rows::{Counts, Tables};
use star_text::Comparison;
use star_value::{Span, Value};
use star_value_number::ValueForm;
use star_write::Written;

// Reads a file into the five tables: layout 0 is today's, 1 that of 1991, and any other number is refused before all else. On a refusal the counts and
// every word of every table are 0.
#[unsafe(no_mangle)]
pub extern "C" fn star_read(
    file: &[u8],
    layout: u32,
    tokens: &mut [u32],
    sets: &mut [u32],
    names: &mut [u32],
    packets: &mut [u32],
    values: &mut [u32],
) -> Answer
    ensures { ReadsIn layout file.now
        (tables tokens.old sets.old names.old packets.old values.old)
        (tables tokens.new sets.new names.new packets.new values.new) result }
{
    let mut tables = Tables {
        tokens,
        sets,
        names,
        packets,
        values,
    };
    Answer::from(star_read::read_layout(file, layout, &mut tables))
}

// The first data block with this code.
#[unsafe(no_mangle)]
pub extern "C" fn star_find_block(
    file: &[u8],
    tokens: &[u32],
    sets: &[u32],
    names: &[u32],
    packets: &[u32],
    values: &[u32],
    counts: Counts,
    code: &[u8],
) -> Found
    ensures { result ≡ find_block (lent file.now tokens.now sets.now names.now packets.now
        values.now) counts code.now }
{
    let lent = Lent {
        file,
        tokens,
        sets,
        names,
        packets,
        values,
        counts,
    };
    Found::from(lent.find_block(code))
}

// The first frame of a set with this code.
#[unsafe(no_mangle)]
pub extern "C" fn star_find_frame(
    file: &[u8],
    tokens: &[u32],
    sets: &[u32],
    names: &[u32],
    packets: &[u32],
    values: &[u32],
    counts: Counts,
    set: u32,
    code: &[u8],
) -> Found
    ensures { result ≡ find_frame (lent file.now tokens.now sets.now names.now packets.now
        values.now) counts set code.now }
{
    let lent = Lent {
        file,
        tokens,
        sets,
        names,
        packets,
        values,
        counts,
    };
    Found::from(lent.find_frame(set, code))
}

// The first name of a set with these bytes or, for a data block, of the nearest earlier global block that does not answer 13.
#[unsafe(no_mangle)]
pub extern "C" fn star_find_name(
    file: &[u8],
    tokens: &[u32],
    sets: &[u32],
    names: &[u32],
    packets: &[u32],
    values: &[u32],
    counts: Counts,
    set: u32,
    name: &[u8],
) -> Found
    ensures { result ≡ find_name (lent file.now tokens.now sets.now names.now packets.now
        values.now) counts set name.now }
{
    let lent = Lent {
        file,
        tokens,
        sets,
        names,
        packets,
        values,
        counts,
    };
    Found::from(lent.find_name(set, name))
}

// Compares two names or codes as reading and the lookups of a block, a frame and a name do: whether they are equal, and how many pairs of bytes were compared.
#[unsafe(no_mangle)]
pub extern "C" fn star_compare(a: &[u8], b: &[u8]) -> Comparison
    ensures { result ≡ compare_of a.now b.now }
{
    star_text::compare(a, b)
}

// Kind and packet of the k-th value of a name row, k from 1.
#[unsafe(no_mangle)]
pub extern "C" fn star_value_at(
    file: &[u8],
    tokens: &[u32],
    sets: &[u32],
    names: &[u32],
    packets: &[u32],
    values: &[u32],
    counts: Counts,
    name: u32,
    k: u32,
) -> Value
    ensures { result ≡ value_at (lent file.now tokens.now sets.now names.now packets.now
        values.now) counts name k }
{
    let lent = Lent {
        file,
        tokens,
        sets,
        names,
        packets,
        values,
        counts,
    };
    Value::from(star_value::value_at(&lent, name, k))
}

// Where the k-th value of a name row, k from 1, lies in the file; 0 and 0 where it is refused.
#[unsafe(no_mangle)]
pub extern "C" fn star_value_part(
    file: &[u8],
    tokens: &[u32],
    sets: &[u32],
    names: &[u32],
    packets: &[u32],
    values: &[u32],
    counts: Counts,
    name: u32,
    k: u32,
) -> Span
    ensures { result ≡ value_span (lent file.now tokens.now sets.now names.now packets.now
        values.now) counts name k }
{
    let lent = Lent {
        file,
        tokens,
        sets,
        names,
        packets,
        values,
        counts,
    };
    star_value::value_span(&lent, name, k)
}

// What a value of this kind and content is as a number.
#[unsafe(no_mangle)]
pub extern "C" fn star_number_of(kind: u32, content: &[u8]) -> Form
    ensures { result ≡ form_of (number_in kind content.now) }
{
    Form::from(star_number::number_of(kind, content))
}

// What the k-th value of a name row, k from 1, is as a number; form 0 where it is refused.
#[unsafe(no_mangle)]
pub extern "C" fn star_value_number(
    file: &[u8],
    tokens: &[u32],
    sets: &[u32],
    names: &[u32],
    packets: &[u32],
    values: &[u32],
    counts: Counts,
    name: u32,
    k: u32,
) -> ValueForm
    ensures { result ≡ value_form_of (value_number (lent file.now tokens.now sets.now names.now packets.now
        values.now) counts name k) }
{
    let lent = Lent {
        file,
        tokens,
        sets,
        names,
        packets,
        values,
        counts,
    };
    ValueForm::from(star_value_number::value_number(&lent, name, k))
}

// Reads a file into the five tables and writes its plain form. On a refusal length, counts, tables and output are all 0.
#[unsafe(no_mangle)]
pub extern "C" fn star_write(
    file: &[u8],
    tokens: &mut [u32],
    sets: &mut [u32],
    names: &mut [u32],
    packets: &mut [u32],
    values: &mut [u32],
    out: &mut [u8],
) -> Written
    ensures { Writes file.now
        (tables tokens.old sets.old names.old packets.old values.old)
        (tables tokens.new sets.new names.new packets.new values.new)
        out.old out.new result }
{
    let mut tables = Tables {
        tokens,
        sets,
        names,
        packets,
        values,
    };
    Written::from(star_write::write(file, &mut tables, out))
}

// Reads a file of a layout into the five tables and writes its plain form in the other: layout 0 is today's, 1 that of 1991, and any other number is refused before all else. On a refusal
// length, counts, tables and output are all 0.
#[unsafe(no_mangle)]
pub extern "C" fn star_convert(
    file: &[u8],
    layout: u32,
    tokens: &mut [u32],
    sets: &mut [u32],
    names: &mut [u32],
    packets: &mut [u32],
    values: &mut [u32],
    out: &mut [u8],
) -> Written
    ensures { Converts layout file.now
        (tables tokens.old sets.old names.old packets.old values.old)
        (tables tokens.new sets.new names.new packets.new values.new)
        out.old out.new result }
{
    let mut tables = Tables {
        tokens,
        sets,
        names,
        packets,
        values,
    };
    Written::from(star_convert::convert(file, layout, &mut tables, out))
}

// Reads an old file, whose loops may have header stops, into the five tables and writes its plain form without the header stops. On a refusal length, counts, tables and output are all 0.
#[unsafe(no_mangle)]
pub extern "C" fn star_drop_header_stops(
    file: &[u8],
    tokens: &mut [u32],
    sets: &mut [u32],
    names: &mut [u32],
    packets: &mut [u32],
    values: &mut [u32],
    out: &mut [u8],
) -> Written
    ensures { DropsStops file.now
        (tables tokens.old sets.old names.old packets.old values.old)
        (tables tokens.new sets.new names.new packets.new values.new)
        out.old out.new result }
{
    let mut tables = Tables {
        tokens,
        sets,
        names,
        packets,
        values,
    };
    Written::from(star_write::drop_header_stops(file, &mut tables, out))
}

// Reads a file into the five tables and answers whether every name and code has at most 32 bytes. After yes or no the tables hold the reading; on a refusal yes, counts and
// tables are all 0.
#[unsafe(no_mangle)]
pub extern "C" fn star_fits_32(
    file: &[u8],
    tokens: &mut [u32],
    sets: &mut [u32],
    names: &mut [u32],
    packets: &mut [u32],
    values: &mut [u32],
) -> Checked
    ensures { FitsChecked file.now
        (tables tokens.old sets.old names.old packets.old values.old)
        (tables tokens.new sets.new names.new packets.new values.new) result }
{
    let mut tables = Tables {
        tokens,
        sets,
        names,
        packets,
        values,
    };
    Checked::from(star_check::fits_32(file, &mut tables))
}

// Reads a file into the five tables and builds an index of its names in the slots. On a refusal counts, tables and slots are all 0.
#[unsafe(no_mangle)]
pub extern "C" fn star_index_build(
    file: &[u8],
    tokens: &mut [u32],
    sets: &mut [u32],
    names: &mut [u32],
    packets: &mut [u32],
    values: &mut [u32],
    slots: &mut [u32],
) -> Answer
    ensures { Builds file.now
        (tables tokens.old sets.old names.old packets.old values.old)
        (tables tokens.new sets.new names.new packets.new values.new)
        slots.old slots.new result }
{
    let mut tables = Tables {
        tokens,
        sets,
        names,
        packets,
        values,
    };
    Answer::from(star_build::build(file, &mut tables, slots))
}

// Reads a file into the five tables and checks that the slots are an index of its names. On a refusal counts and tables are all 0; the slots are not written.
#[unsafe(no_mangle)]
pub extern "C" fn star_index_check(
    file: &[u8],
    tokens: &mut [u32],
    sets: &mut [u32],
    names: &mut [u32],
    packets: &mut [u32],
    values: &mut [u32],
    slots: &[u32],
) -> Answer
    ensures { Checks file.now slots.now
        (tables tokens.old sets.old names.old packets.old values.old)
        (tables tokens.new sets.new names.new packets.new values.new) result }
{
    let mut tables = Tables {
        tokens,
        sets,
        names,
        packets,
        values,
    };
    Answer::from(star_index::check(file, &mut tables, slots))
}

// The name of a set with these bytes, through the slots, or for a data block one of the nearest earlier global block that does not answer 13.
#[unsafe(no_mangle)]
pub extern "C" fn star_index_find(
    file: &[u8],
    tokens: &[u32],
    sets: &[u32],
    names: &[u32],
    packets: &[u32],
    values: &[u32],
    counts: Counts,
    slots: &[u32],
    set: u32,
    name: &[u8],
) -> Found
    ensures { result ≡ find_slot (lent file.now tokens.now sets.now names.now packets.now
        values.now) counts slots.now set name.now }
{
    let lent = Lent {
        file,
        tokens,
        sets,
        names,
        packets,
        values,
        counts,
    };
    Found::from(star_slots::find(&lent, slots, set, name))
}
