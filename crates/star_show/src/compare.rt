// A file and its plain form, compared.
use crate::kept::{Kept, Table};
use std::io;

// Says whether something is the same.
pub fn say(rt: &impl Print, same: bool) -> io::Result<()> {
    let word = if same { "same" } else { "OTHER" };
    print!(rt; " {word}")
}

// Whether two files have tokens of equal kinds and contents, one by one, in tables of 1,024 words.
fn same_tokens(file: &[u8], rows: &[u32], form: &[u8], back: &[u32]) -> bool {
    (0..341usize).all(|n| {
        rows.get(n * 3) == back.get(n * 3)
            && star_text::compare(
                star_lex::content(file, rows, n),
                star_lex::content(form, back, n),
            )
            .equal
    })
}

// Reads a plain form and compares with its file, whose reading is kept: tables 2 to 5 word for word, then kinds and contents of the tokens.
pub fn read_back(rt: &impl Print, file: &[u8], kept: &Kept, form: &[u8]) -> io::Result<()> {
    let mut back = Kept::new();
    let _ = back.read(form, 0);
    say(rt, kept.same_rows(&back))?;
    say(
        rt,
        same_tokens(
            file,
            kept.lent(Table::Tokens),
            form,
            back.lent(Table::Tokens),
        ),
    )
}
