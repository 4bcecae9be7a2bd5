// Where strings and text fields close, and the kind of a word. The functions on strings and text fields are lent the class table; where it has the
// class of each byte, they answer what the split says.
#![tactic(auto)]

pub mod word;

ghost use Rattle.std.specs.Prelude.{◌≡◌, true, ◌&&◌, ◌+◌, ◌≤◌, ◌<◌, eqb, length, get_or, drop};
ghost use Rattle.star_text.specs.Bytes.{is_terminate};
ghost use Rattle.star_text.specs.Classes.{Classes};
ghost use Rattle.star_lex.specs.Rules.{today};
ghost use Rattle.star_lex.specs.Split.{quoted, line_end, field, starts, white_next};
ghost use Rattle.star_lex.specs.Answer.{end_of};
ghost use Rattle.star_lex.specs.LineEnd.{LineEnd};

// The class of bytes that end a line.
const TERMINATE: u8 = 3;

// Whether white space or the end of the file stands at a place.
pub fn white_at(classes: &[u8; 256], file: &[u8], at: usize) -> bool
    ensures { Classes classes.now → result ≡ white_next (drop at file.now) }
{
    match file.get(at) {
        Some(b) => star_text::is_white(classes, *b),
        None => true,
    }
}

// Whether a quoted string closes at a place: its quote stands there, with white space or the end after it.
fn quote_closes(classes: &[u8; 256], file: &[u8], at: usize, quote: u8) -> bool
    requires { at < length file.now }
    ensures { Classes classes.now → result ≡ (eqb (get_or file.now at 0) quote && white_next (drop (at + 1) file.now)) }
{
    file[at] == quote && white_at(classes, file, at + 1)
}

// Where the quoted string whose content begins at `from` closes, or the file's length.
pub fn quote_end(classes: &[u8; 256], file: &[u8], from: usize, quote: u8) -> usize
    ensures { Classes classes.now → result ≡ end_of (length file.now) from (quoted quote (drop from file.now)) }
{
    for at in from..file.len() {
        if quote_closes(classes, file, at, quote) {
            return at;
        }
        if star_text::is_terminate(classes, file[at]) {
            return file.len();
        }
    }
    file.len()
}

// The next terminate from `from` on, or the file's length. A text field closes from there on where it closes from `from` on.
fn line_end(classes: &[u8; 256], file: &[u8], from: usize) -> usize
    ensures lower_bound { from ≤ result }
    ensures line_end { Classes classes.now → LineEnd file.now from result }
{
    star_text::run_end(classes, file, from, TERMINATE)
}

// Whether 13 stands at a place, directly followed by 10.
fn is_pair(file: &[u8], at: usize) -> bool
    requires { at < length file.now }
    ensures { result ≡ (eqb (get_or file.now at 0) 13 && starts 10 (drop (at + 1) file.now)) }
{
    file[at..].starts_with(b"\r\n")
}

// How many bytes the line end at a place takes; 1 where none begins.
pub fn line_end_length(file: &[u8], at: usize) -> usize
    ensures lower_bound { (1 ≤ result) × (result ≤ 2) }
    ensures value { at < length file.now → is_terminate (get_or file.now at 0) ≡ true → result ≡ line_end today (drop at file.now) }
{
    if at >= file.len() {
        return 1;
    }
    if is_pair(file, at) { 2 } else { 1 }
}

// Where the text field whose content begins at `from` closes, or the file's length.
pub fn field_end(classes: &[u8; 256], file: &[u8], from: usize) -> usize
    ensures { Classes classes.now → result ≡ end_of (length file.now) from (field today (drop from file.now)) }
{
    let mut next = from;
    // A `for` would be no plainer: each turn goes on after the line end that it has found.
    while next < file.len() {
        let at = line_end(classes, file, next);
        if at >= file.len() {
            return file.len();
        }
        next = at + line_end_length(file, at);
        if star_lex::scan::byte_at(file, next, b';') {
            return at;
        }
    }
    file.len()
}
