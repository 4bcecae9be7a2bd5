// The index beside the names: built, checked and looked up through, over the last file and the tables and slots that are lent.
use crate::calls;
use star_show::kept::{FILLED, Kept, Table};
use star_show::print::Outcome;
use star_show::words;
use std::io;

// Builds an index of a file in so many slots, none of them 0 before, and prints what came out.
pub fn build(rt: &impl Print, file: &[u8], size: u32, kept: &mut Kept) -> io::Result<()> {
    kept.lend_slots([FILLED; 1024], size);
    let built = calls::call(kept, |tables, slots| star_build::build(file, tables, slots));
    kept.keep(built);
    print!(rt; " | {} | ", Outcome(built.err()))?;
    kept.print_slots(rt)?;
    kept.print(rt, built.is_ok())
}

// Checks that the slots of these numbers are an index of a file and prints what came out.
pub fn check(rt: &impl Print, given: &[u8], file: &[u8], kept: &mut Kept) -> io::Result<()> {
    let mut slots = [FILLED; 1024];
    let size = words::numbers(given, &mut slots);
    kept.lend_slots(slots, size);
    let checked = calls::call(kept, |tables, slots| star_index::check(file, tables, slots));
    kept.keep(checked);
    print!(rt; " | {}", Outcome(checked.err()))?;
    kept.print(rt, checked.is_ok())
}

// Asks a set for a name, through the slots that are lent and without them, and prints what was found.
pub fn ask(rt: &impl Print, given: &[u8], file: &[u8], kept: &Kept) -> io::Result<()> {
    let lent = calls::lent(file, kept);
    let slots = kept.lent(Table::Slots);
    let set = words::number(given);
    let name = words::rest(given);
    calls::print_found(rt, star_slots::find(&lent, slots, set, name))?;
    calls::print_found(rt, lent.find_name(set, name))
}

// Prints the hash of these bytes.
pub fn hash(rt: &impl Print, bytes: &[u8]) -> io::Result<()> {
    print!(rt; " | {:016x}", star_hash::fnv(star_hash::BASIS, bytes))
}
