// Refusals, rows of words, and bytes, as they are printed.
use star_text::refusal::Refusal;
use std::{fmt, io};

// What a call answers: refusal and place, both 0 where it is accepted.
#[derive(Clone, Copy)]
pub struct Outcome(pub Option<Refusal>);

impl fmt::Display for Outcome {
    fn fmt<W: fmt::Write>(&self, f: &mut fmt::Formatter<W>) -> fmt::Result {
        match self.0 {
            None => write!(f, "0 0"),
            Some(refusal) => write!(f, "{} {}", refusal.reason.number(), refusal.place),
        }
    }
}

// Words in rows of one width, parted by commas: those of the first rows, so many, and any other that is not 0.
#[derive(Clone, Copy)]
pub struct Rows<'a> {
    words: &'a [u32],
    counted: usize,
    width: usize,
}

impl<'a> Rows<'a> {
    pub fn new(words: &'a [u32], rows: u32, width: u32) -> Self {
        Rows {
            words,
            counted: rows as usize * width as usize,
            width: width as usize,
        }
    }

    // What stands before the word at a place.
    fn separator(&self, at: usize) -> &'static str {
        match at.checked_rem(self.width) {
            _ if at == 0 => "",
            Some(0) => ",",
            _ => " ",
        }
    }
}

impl fmt::Display for Rows<'_> {
    fn fmt<W: fmt::Write>(&self, f: &mut fmt::Formatter<W>) -> fmt::Result {
        for (at, word) in self.words.iter().enumerate() {
            if at < self.counted || *word != 0 {
                let separator = self.separator(at);
                write!(f, "{separator}{word}")?;
            }
        }
        Ok(())
    }
}

// The letter that stands for a byte after `\`.
fn letter(b: u8) -> Option<u8> {
    match b {
        9 => Some(b't'),
        10 => Some(b'n'),
        11 => Some(b'v'),
        12 => Some(b'f'),
        13 => Some(b'r'),
        b'\\' => Some(b'\\'),
        _ => None,
    }
}

// Writes bytes in the notation of the input: the first, so many, and any other that is not 0. They need not be text, which a `Display` would write.
pub fn escaped(rt: &impl Print, bytes: &[u8], counted: usize) -> io::Result<()> {
    for (at, b) in bytes.iter().enumerate() {
        if at < counted || *b != 0 {
            match letter(*b) {
                Some(letter) => rt.write_all(&[b'\\', letter])?,
                None => rt.write_all(&[*b])?,
            }
        }
    }
    Ok(())
}
