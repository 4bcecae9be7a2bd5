// Calls of the library, over the last file and the tables that are lent.
use crate::plain;
use star_find::{Lent, Missing};
use star_number::Number;
use star_rows::Tables;
use star_show::float::Bits;
use star_show::kept::{FILLED, Kept};
use star_show::print::Outcome;
use star_show::{print, words};
use star_text::refusal::Refusal;
use star_write::PlainForm;
use std::io;

// Makes a call with as many words of the five tables as are lent, none of them 0 before, and with the slots that are lent, and keeps what it leaves there.
pub(crate) fn call<R, F: FnOnce(&mut Tables, &mut [u32]) -> R>(kept: &mut Kept, f: F) -> R
    requires { F.IsAlwaysCallable f }
{
    let [a, b, c, d, e, s] = kept.lent_sizes();
    let [mut tokens, mut sets, mut names, mut packets, mut values] = [[FILLED; 1024]; 5];
    let mut slots = kept.slots();
    let answer = f(
        &mut Tables {
            tokens: words::first_mut(&mut tokens, a),
            sets: words::first_mut(&mut sets, b),
            names: words::first_mut(&mut names, c),
            packets: words::first_mut(&mut packets, d),
            values: words::first_mut(&mut values, e),
        },
        words::first_mut(&mut slots, s),
    );
    kept.store([tokens, sets, names, packets, values, slots]);
    answer
}

// Reads a file of a layout and prints what came out.
pub fn read(rt: &impl Print, file: &[u8], layout: u32, kept: &mut Kept) -> io::Result<()> {
    print!(rt; " | ")?;
    kept.show(rt, file, layout)?;
    Ok(())
}

// Asks whether the names and codes of a file fit and prints what came out.
pub fn fits(rt: &impl Print, file: &[u8], kept: &mut Kept) -> io::Result<()> {
    let checked = call(kept, |tables, _| star_check::fits_32(file, tables));
    kept.keep(checked.map(|fits| fits.counts));
    let yes = checked.map_or(0, |fits| u32::from(fits.yes));
    print!(rt; " | {} {yes}", Outcome(checked.err()))?;
    kept.print(rt, checked.is_ok())
}

// Writes the plain form of a file into so many bytes and prints what came out.
pub fn write(rt: &impl Print, file: &[u8], size: u32) -> io::Result<()> {
    let mut room = [b'?'; 8192];
    let out = words::first_mut(&mut room, size);
    let written = plain::write(file, out);
    print!(rt; " | ")?;
    plain::print(rt, written, out)
}

// Keeps the counts of what was written, and prints it and what is kept of the tables.
fn print_written(
    rt: &impl Print,
    written: Result<PlainForm, Refusal>,
    out: &[u8],
    kept: &mut Kept,
) -> io::Result<()> {
    kept.keep(written.map(|plain| plain.counts));
    print!(rt; " | ")?;
    plain::print(rt, written, out)?;
    kept.print(rt, written.is_ok())
}

// Converts a file of the layout that is given into so many bytes and prints what came out.
pub fn turn(rt: &impl Print, given: &[u8], file: &[u8], kept: &mut Kept) -> io::Result<()> {
    let layout = words::number(given);
    let mut room = [b'?'; 8192];
    let out = words::first_mut(&mut room, words::number(words::rest(given)));
    let written = call(
        kept,
        |tables, _| star_convert::convert(file, layout, tables, out),
    );
    print_written(rt, written, out, kept)
}

// Drops the header stops of an old file into so many bytes and prints what came out.
pub fn drop(rt: &impl Print, file: &[u8], size: u32, kept: &mut Kept) -> io::Result<()> {
    let mut room = [b'?'; 8192];
    let out = words::first_mut(&mut room, size);
    let written = call(
        kept,
        |tables, _| star_write::drop_header_stops(file, tables, out),
    );
    print_written(rt, written, out, kept)
}

// Prints what a lookup found: refusal and row.
pub fn print_found(rt: &impl Print, found: Result<u32, Missing>) -> io::Result<()> {
    match found {
        Ok(row) => print!(rt; " | 0 {row}"),
        Err(missing) => print!(rt; " | {} 0", missing.number()),
    }
}

// The last file with the tables that are lent and their counts, as lookup takes them.
pub fn lent<'a, 'b>(file: &'a [u8], kept: &'b Kept) -> Lent<'a, 'b> {
    let [tokens, sets, names, packets, values] = kept.lent_tables();
    Lent {
        file,
        tokens,
        sets,
        names,
        packets,
        values,
        counts: kept.counts,
    }
}

// Looks up what a line asks for in the tables that are lent: the data block, the frame and the name with these bytes, and the k-th value of a name row, of
// which it prints refusal, kind, packet and part.
pub fn look(rt: &impl Print, given: &[u8], file: &[u8], kept: &Kept) -> io::Result<()> {
    let lent = lent(file, kept);
    let set = words::number(given);
    let given = words::rest(given);
    let name = words::number(given);
    let given = words::rest(given);
    let k = words::number(given);
    let bytes = words::rest(given);
    print_found(rt, lent.find_block(bytes))?;
    print_found(rt, lent.find_frame(set, bytes))?;
    print_found(rt, lent.find_name(set, bytes))?;
    match star_value::value_at(&lent, name, k) {
        Ok(value) => print!(rt; " | 0 {} {} | ", value.kind, value.packet)?,
        Err(missing) => print!(rt; " | {} 0 0 | ", missing.number())?,
    }
    let part = star_value::value_part(&lent, name, k);
    print::escaped(rt, part, part.len())
}

// Compares two contents and prints what came out.
pub fn pairs(rt: &impl Print, a: &[u8], b: &[u8]) -> io::Result<()> {
    let compared = star_text::compare(a, b);
    print!(rt; " | {} {}", u8::from(compared.equal), compared.pairs)
}

// Prints a form, and its floats by their bits.
fn print_form(rt: &impl Print, number: Number) -> io::Result<()> {
    let number = star_number::Form::from(number);
    print!(rt;
        "{} {} {}",
        number.form,
        Bits(number.value),
        Bits(number.uncertainty)
    )
}

// Takes a content of a kind as a number and prints its form.
pub fn number(rt: &impl Print, given: &[u8], content: &[u8]) -> io::Result<()> {
    print!(rt; " | ")?;
    print_form(rt, star_number::number_of(words::number(given), content))
}

// Looks a value up as a number in the tables that are lent and prints refusal and form.
pub fn value(rt: &impl Print, given: &[u8], file: &[u8], kept: &Kept) -> io::Result<()> {
    let lent = lent(file, kept);
    let k = words::number(words::rest(given));
    match star_value_number::value_number(&lent, words::number(given), k) {
        Ok(number) => {
            print!(rt; " | 0 ")?;
            print_form(rt, number)
        }
        Err(missing) => print!(rt; " | {} 0 {} {}", missing.number(), Bits(0.0), Bits(0.0)),
    }
}
