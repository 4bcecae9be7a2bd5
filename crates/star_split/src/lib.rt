// The split of a STAR File into tokens, which are stored as table 1.
#![tactic(auto)]

ghost use Rattle.std.specs.Prelude.{◌≡◌, List, ◌+◌, ◌≤◌, ◌<◌, length, get_or, drop, true, false, ◌&&◌, eqb};
ghost use Rattle.star_rows.specs.Rows.{stored};
ghost use Rattle.star_rows.specs.Widths.{token_width};
ghost use Rattle.star_text.specs.Bytes.{most_bytes, is_white};
ghost use Rattle.star_text.specs.Classes.{Classes};
ghost use Rattle.star_text.specs.Outcome.{accepted};
ghost use Rattle.star_lex.specs.Kinds.{number};
ghost use Rattle.star_lex.specs.Rules.{today};
ghost use Rattle.star_lex.specs.Tokens.{Placed, token_row, opening};
ghost use Rattle.star_lex.specs.Split.{quoted, field, field_lexeme, quoted_lexeme, word_from, split as split_split, lexeme as split_lexeme};
ghost use Rattle.star_lex.specs.Answer.{tokens_in, tokens_answer, split_answer, Splits, scanned_at};
ghost use Rattle.star_split.specs.Found.{scanned};

use star_lex::kind::Kind;
use star_text::refusal::{Reason, Refusal};

// The classes of bytes that white space and line ends begin with.
const BLANK: u8 = 2;

const TERMINATE: u8 = 3;

// The words of a row of table 1.
const WIDTH: usize = star_rows::TOKEN_WIDTH as usize;

// What stands at a place outside tokens: white space or a comment, with where it ends, or a token, with the span of its content and where it ends.
enum Found {
    Gap(usize),
    Token {
        kind: Kind,
        start: usize,
        end: usize,
        next: usize,
    },
}

// The text field whose `;` stands at `at`.
fn text_field(classes: &[u8; 256], file: &[u8], at: usize) -> Result<Found, Reason>
    requires at_in_bounds { at < length file.now }
    requires classes { Classes classes.now }
    ensures { scanned result ≡ scanned_at at (field_lexeme today (field today (drop (at + 1) file.now)) (drop (at + 1) file.now)) }
{
    let end = star_scan::field_end(classes, file, at + 1);
    if end == file.len() {
        return Err(Reason::OpenField);
    }
    let next = end + star_scan::line_end_length(file, end) + 1;
    if star_scan::white_at(classes, file, next) {
        Ok(Found::Token {
            kind: Kind::Field,
            start: at + 1,
            end,
            next,
        })
    } else {
        Err(Reason::OpenField)
    }
}

// The quoted string whose quote stands at `at`, a token of this kind.
fn quoted_string(
    classes: &[u8; 256],
    file: &[u8],
    at: usize,
    kind: Kind,
    quote: u8,
) -> Result<Found, Reason>
    requires at_in_bounds { at < length file.now }
    requires kind_len { length (opening (number kind)) ≡ 1 }
    requires quote_value { is_white quote ≡ false }
    requires classes { Classes classes.now }
    ensures { scanned result ≡ scanned_at at (quoted_lexeme (number kind) (quoted quote (drop (at + 1) file.now))) }
{
    let end = star_scan::quote_end(classes, file, at + 1, quote);
    if end == file.len() {
        Err(Reason::OpenQuote)
    } else {
        Ok(Found::Token {
            kind,
            start: at + 1,
            end,
            next: end + 1,
        })
    }
}

// The word that begins at `at`.
fn word_at(classes: &[u8; 256], file: &[u8], at: usize) -> Result<Found, Reason>
    requires at_in_bounds { at < length file.now }
    requires at_value { is_white (get_or file.now at 0) ≡ false }
    requires classes { Classes classes.now }
    ensures { scanned result ≡ scanned_at at (word_from today (get_or file.now at 0) (drop (at + 1) file.now)) }
{
    let end = star_text::run_end(classes, file, at + 1, BLANK);
    let kind = star_scan::word::word_kind(&file[at..end])?;
    Ok(Found::Token {
        kind,
        start: at + kind.lead(),
        end,
        next: end,
    })
}

// Whether a text field begins with this byte: `;` as first byte of a line.
fn opens_field(line: bool, b: u8) -> bool
    ensures { result ≡ (line && eqb b 59) }
{
    line && b == b';'
}

// What stands at a place outside tokens; whether a line starts there.
fn lexeme(classes: &[u8; 256], file: &[u8], at: usize, line: bool) -> Result<Found, Reason>
    requires at_in_bounds { at < length file.now }
    requires classes { Classes classes.now }
    ensures { scanned result ≡ scanned_at at (split_lexeme today line (get_or file.now at 0) (drop (at + 1) file.now)) }
{
    let b = file[at];
    if star_text::is_white(classes, b) {
        return Ok(Found::Gap(at + 1));
    }
    if b == b'#' {
        return Ok(Found::Gap(star_text::run_end(classes, file, at + 1, TERMINATE)));
    }
    if opens_field(line, b) {
        return text_field(classes, file, at);
    }
    if b == b'\'' {
        return quoted_string(classes, file, at, Kind::SingleQuoted, b);
    }
    if b == b'"' {
        return quoted_string(classes, file, at, Kind::DoubleQuoted, b);
    }
    word_at(classes, file, at)
}

// The tokens of a file: rows that fit are written, and all are counted.
fn split(classes: &[u8; 256], file: &[u8], table: &mut [u32]) -> Result<u32, Refusal>
    requires file_len_bound { length file.now ≤ most_bytes }
    requires classes { Classes classes.now }
    ensures value { tokens_answer result ≡ split_answer (split_split today 0 true 0 file.now) }
    ensures table_after { (ps : List Placed) → split_split today 0 true 0 file.now ≡ accepted ps
        → table.new ≡ stored token_width token_row ps table.old }
{
    let mut at = 0;
    let mut line = true;
    let mut count: usize = 0;
    // A `for` would be no plainer: each turn goes on after what it has found.
    while at < file.len() {
        let found = lexeme(classes, file, at, line).map_err(|reason| Refusal {
            reason,
            place: at as u32,
        })?;
        line = star_text::is_terminate(classes, file[at]);
        match found {
            Found::Gap(next) => {
                at = next;
            }
            Found::Token {
                kind,
                start,
                end,
                next,
            } => {
                star_rows::put_row(table, count, [kind.number(), start as u32, end as u32]);
                count += 1;
                at = next;
            }
        }
    }
    Ok(count as u32)
}

// The refusals 1 to 7 in their order, or the number of tokens; then the table has their rows.
fn split_in(file: &[u8], table: &mut [u32]) -> Result<u32, Refusal>
    ensures value { tokens_answer result ≡ split_answer (tokens_in file.now (length table.old)) }
    ensures table_after { (ps : List Placed) → tokens_in file.now (length table.old) ≡ accepted ps
        → table.new ≡ stored token_width token_row ps table.old }
{
    if star_text::MOST_BYTES < file.len() {
        return Err(Refusal {
            reason: Reason::TooLong,
            place: 0,
        });
    }
    let at = star_text::first_refused(file);
    if at < file.len() {
        return Err(Refusal {
            reason: Reason::BadByte,
            place: at as u32,
        });
    }
    let classes = star_text::class_table();
    let count = split(&classes, file, table)?;
    if table.len() / WIDTH < count as usize {
        return Err(Refusal {
            reason: Reason::NoRoom,
            place: 1,
        });
    }
    Ok(count)
}

// Splits a file into tokens, stores them as table 1 and answers their number; on a refusal every word of the table is 0.
pub fn read_tokens(file: &[u8], table: &mut [u32]) -> Result<u32, Refusal>
    ensures { Splits file.now table.old table.new (tokens_answer result) }
{
    let found = split_in(file, table);
    let count = found.unwrap_or(0);
    star_rows::clear_from(table, count as usize * WIDTH);
    found
}
