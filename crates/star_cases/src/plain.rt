// The plain form of a file: read back, and written again.
use crate::calls;
use star_show::kept::Kept;
use star_show::print::Outcome;
use star_show::{compare, print, words};
use star_text::refusal::Refusal;
use star_write::PlainForm;
use std::io;

// Writes the plain form of a file, with tables that have room.
pub fn write(file: &[u8], out: &mut [u8]) -> Result<PlainForm, Refusal> {
    calls::call(
        &mut Kept::new(),
        |tables, _| star_write::write(file, tables, out),
    )
}

// The bytes of a plain form, or 0 where it is refused.
fn length(written: Result<PlainForm, Refusal>) -> u32 {
    written.map_or(0, |plain| plain.length)
}

// Prints refusal, place and length of a plain form, and the plain form.
pub fn print(rt: &impl Print, written: Result<PlainForm, Refusal>, out: &[u8]) -> io::Result<()> {
    let length = length(written);
    print!(rt; "{} {length} | ", Outcome(written.err()))?;
    print::escaped(rt, out, length as usize)
}

// Writes a plain form again and compares the bytes.
fn write_again(rt: &impl Print, form: &[u8]) -> io::Result<()> {
    let mut out = [b'?'; 8192];
    let written = write(form, &mut out);
    let again = words::first(&out, length(written));
    compare::say(rt, star_text::compare(form, again).equal)
}

// Writes the plain form of a file whose reading is kept, prints it, and if it was written, reads it and writes it again.
pub fn run(rt: &impl Print, file: &[u8], kept: &Kept) -> io::Result<()> {
    let mut out = [b'?'; 8192];
    let written = write(file, &mut out);
    print(rt, written, &out)?;
    let Ok(plain) = written else {
        return Ok(());
    };
    let form = words::first(&out, plain.length);
    print!(rt; " | tables, tokens, bytes:")?;
    compare::read_back(rt, file, kept, form)?;
    write_again(rt, form)
}
