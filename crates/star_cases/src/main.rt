// Runs the lines of standard input, and prints each with what came out of it. The first letter of a line says what it is:
//     case FILE               a file through the split, reading, and the plain form of an accepted file, read back and written again; the line is
//                             printed without its first word
//     1048576 bytes           the same for a file of so many bytes that no line can hold
//     read FILE               reads a file into the tables that are lent
//     fits FILE               reads a file into the tables that are lent and asks whether its names and codes have at most 32 bytes; 1 for yes, 0 for no
//     write N                 writes the plain form of the last file into N bytes
//     set T I W               makes word I of table T, counted from 0, be W; words 1 to 5 of table 0 are the five counts, and words 6 to 10 how
//                             many words of each table are lent; the slots of an index are table 6, and word 11 of table 0 is how many are lent
//     look SET NAME K BYTES   looks for the data block, the frame of a set and the name of a set with these bytes, and for the k-th value of a name row
//     pairs A B               compares two contents; 1 where they are equal, else 0, and how many pairs of bytes were compared
//     number KIND CONTENT     takes a content of a kind as a number; the floats are printed by their bits
//     value NAME K            the k-th value of a name row as a number, in the tables that are lent
//     build N                 reads the last file into the tables that are lent and builds an index of it in N slots
//     index W W ..            reads the last file into the tables that are lent and checks that these slots are an index of it
//     ask SET BYTES           looks for the name of a set with these bytes through the slots that are lent, and without them
//     hash BYTES              the hash of these bytes
//     old LAYOUT              reads the last file in a layout into the tables that are lent
//     turn LAYOUT N           reads the last file in a layout and writes its plain form in the other into N bytes
//     drop N                  reads the last file by the old rules, with header stops, and writes its plain form without them into N bytes
// Any other line is a remark.
#![tactic(auto)]

mod calls;
mod command;
mod index;
mod plain;

use crate::command::Command;
use star_show::kept::Kept;
use star_show::{notation, split, words};
use std::io;

// Runs a file through the split, reading, and writing where it is accepted.
fn run_file(rt: &impl Print, file: &[u8]) -> io::Result<()> {
    print!(rt; " | ")?;
    split::run(rt, file)?;
    print!(rt; "\n  read ")?;
    let mut kept = Kept::new();
    if kept.show(rt, file, 0)? {
        print!(rt; "\n  plain ")?;
        plain::run(rt, file, &kept)?;
    }
    Ok(())
}

// Runs the first bytes of a long file, so many.
fn run_first(rt: &impl Print, file: &mut [u8; 1048577], size: u32) -> io::Result<()> {
    file[..10].copy_from_slice(b"data_a _x ");
    run_file(rt, words::first(file, size))
}

// Runs a long file of so many bytes.
fn run_long(rt: &impl Print, size: u32) -> io::Result<()> {
    let mut file = [b'v'; 1048577];
    run_first(rt, &mut file, size)
}

// Compares the first word and what follows it.
fn run_pairs(rt: &impl Print, given: &[u8]) -> io::Result<()> {
    let mut a = [0; 8192];
    let mut b = [0; 8192];
    calls::pairs(
        rt,
        notation::unescape(words::word(given), &mut a),
        notation::unescape(words::rest(given), &mut b),
    )
}

// Takes what follows a kind as the content of a value.
fn run_number(rt: &impl Print, given: &[u8]) -> io::Result<()> {
    let mut room = [0; 8192];
    let content = notation::unescape(words::rest(given), &mut room);
    calls::number(rt, given, content)
}

// Takes the hash of what is given.
fn run_hash(rt: &impl Print, given: &[u8]) -> io::Result<()> {
    let mut room = [0; 8192];
    index::hash(rt, notation::unescape(given, &mut room))
}

// Does what a line says with what it is given, over the last file.
fn run_on(rt: &impl Print, line: &[u8], file: &[u8], kept: &mut Kept) -> io::Result<()> {
    let given = words::rest(line);
    match Command::from(line) {
        Command::Case => run_file(rt, file),
        Command::Long => run_long(rt, words::number(line)),
        Command::Read => calls::read(rt, file, 0, kept),
        Command::Old => calls::read(rt, file, words::number(given), kept),
        Command::Turn => calls::turn(rt, given, file, kept),
        Command::Drop => calls::drop(rt, file, words::number(given), kept),
        Command::Fits => calls::fits(rt, file, kept),
        Command::Write => calls::write(rt, file, words::number(given)),
        Command::Set => {
            let i = words::rest(given);
            let word = words::rest(i);
            kept.set(words::number(given), words::number(i), words::number(word));
            Ok(())
        }
        Command::Look => calls::look(rt, given, file, kept),
        Command::Pairs => run_pairs(rt, given),
        Command::Number => run_number(rt, given),
        Command::Value => calls::value(rt, given, file, kept),
        Command::Build => index::build(rt, file, words::number(given), kept),
        Command::Index => index::check(rt, given, file, kept),
        Command::Ask => index::ask(rt, given, file, kept),
        Command::Hash => run_hash(rt, given),
        Command::Remark => Ok(()),
    }
}

// Prints a line, but of a case its file alone, and what comes out of it over the file of the last line that has one.
fn run_line(rt: &impl Print, line: &[u8], last: &[u8], kept: &mut Kept) -> io::Result<()> {
    let mut room = [0; 8192];
    let file = notation::unescape(words::rest(last), &mut room);
    match Command::from(line) {
        Command::Case => rt.write_all(words::rest(line))?,
        _ => rt.write_all(line)?,
    }
    run_on(rt, line, file, kept)?;
    print!(rt; "\n")
}

// Runs each line. Before the first line that has a file, what follows the first word of the first line is the file.
fn run_lines(rt: &impl Print, lines: &[u8], kept: &mut Kept) -> io::Result<()> {
    let mut last = None;
    for line in lines.split_inclusive(|b| *b == b'\n') {
        let line = line.strip_suffix(b"\n").unwrap_or(line);
        let with_file = match last {
            Some(with_file) if !Command::from(line).has_file() => with_file,
            _ => line,
        };
        last = Some(with_file);
        run_line(rt, line, with_file, kept)?;
    }
    Ok(())
}

// Runs each line of standard input, of as many bytes as there is room for.
fn main(rt: HostRuntime) -> io::Result<()> {
    let mut lines = [0; 65536];
    let n = star_input::read_full(&mut rt.stdin(), &mut lines)?;
    run_lines(&rt, &lines[..n], &mut Kept::new())
}
