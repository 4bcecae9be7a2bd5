// The split of a file.
use crate::kept::FILLED;
use crate::print::{Outcome, Rows};
use std::io;

// Splits a file and prints refusal, place and count, and its rows where it is accepted; on a refusal, any word that is not 0.
pub fn run(rt: &impl Print, file: &[u8]) -> io::Result<()> {
    let mut words = [FILLED; 1024];
    let split = star_split::read_tokens(file, &mut words);
    let count = split.unwrap_or(0);
    print!(rt; "{} {count}", Outcome(split.err()))?;
    if split.is_ok() {
        print!(rt; " | ")?;
    }
    let rows = Rows::new(&words, count, star_rows::TOKEN_WIDTH);
    print!(rt; "{rows}")
}
