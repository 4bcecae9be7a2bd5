// Writing the plain form of a STAR File, of either layout, or of an old file without its header stops, into lent bytes.
#![tactic(auto)]

ghost use Rattle.std.specs.Prelude.{◌≡◌, Bool, List, ℕ, length};
ghost use Rattle.star_lex.specs.Plain.{plain_of};
ghost use Rattle.star_lex.specs.Holds.{Holds, file_tokens};
ghost use Rattle.star_read.specs.Read.{Sizes, Way, read_via};
ghost use Rattle.star_rows.specs.Tables.{Same};
ghost use Rattle.star_read.specs.Answer.{read_answer, held, sizes, answer_of, Leaves};
ghost use Rattle.star_plain.specs.Kept.{kept_row};
ghost use Rattle.star_write.specs.Write.{writing_of};
ghost use Rattle.star_write.specs.Answer.{write_answer, written_of, Leaving, Writes, WritesIn, DropsStops};

use star_rows::{Counts, Tables};
use star_text::refusal::{Reason, Refusal};

// A plain form that was written: its length, and the number of rows of each table of the file.
#[derive(Clone, Copy)]
pub struct PlainForm {
    pub length: u32,
    pub counts: Counts,
}

// What writing answers through C: refusal and place, both 0 when written, the length of the plain form, and the number of rows of each table.
#[repr(C)]
#[derive(Clone, Copy)]
pub struct Written {
    pub refusal: u32,
    pub place: u32,
    pub length: u32,
    pub tokens: u32,
    pub sets: u32,
    pub names: u32,
    pub packets: u32,
    pub values: u32,
}

impl From<Result<PlainForm, Refusal>> for Written {
    ghost from_gives = { λ r w. w ≡ written_of r };

    fn from(written: Result<PlainForm, Refusal>) -> Written {
        match written {
            Ok(form) => Written {
                refusal: 0,
                place: 0,
                length: form.length,
                tokens: form.counts.tokens,
                sets: form.counts.sets,
                names: form.counts.names,
                packets: form.counts.packets,
                values: form.counts.values,
            },
            Err(refusal) => Written {
                refusal: refusal.reason.number(),
                place: refusal.place,
                length: 0,
                tokens: 0,
                sets: 0,
                names: 0,
                packets: 0,
                values: 0,
            },
        }
    }
}

// The number of tokens that were read, 0 on a refusal.
fn token_count(read: Result<Counts, Refusal>) -> usize
    ensures { result ≡ (answer_of read).tokens }
{
    match read {
        Ok(counts) => counts.tokens as usize,
        Err(_) => 0,
    }
}

// A refusal with its place.
fn refusing(reason: Reason, place: u32) -> Refusal
    ensures { result ≡ record { reason = reason; place = place } }
{
    Refusal { reason, place }
}

// What writing answers after reading has answered, where the plain form has that size: refusal 1 if it is too long, then 7 if the output is too short.
fn answer(read: Result<Counts, Refusal>, size: usize, room: usize) -> Result<PlainForm, Refusal>
    ensures { (way : Way) (file : List ℕ) (words : Sizes) (without : Bool) → answer_of read ≡ read_answer (read_via way file words)
        → ((answer_of read).refusal ≡ 0 → size ≡ length (plain_of (kept_row without (file_tokens file))))
        → written_of result ≡ write_answer (writing_of (read_via way file words) without room) }
{
    let counts = read?;
    if size > star_text::MOST_BYTES {
        return Err(refusing(Reason::TooLong, 0));
    }
    if size > room {
        return Err(refusing(Reason::NoRoom, 6));
    }
    Ok(PlainForm {
        length: size as u32,
        counts,
    })
}

// Writes the plain form, with header stops or without, of a file that was read into the five tables. On a refusal tables and output are all 0.
fn finish(
    file: &[u8],
    read: Result<Counts, Refusal>,
    tables: &mut Tables,
    out: &mut [u8],
    without: bool,
) -> Result<PlainForm, Refusal>
    requires { (answer_of read).refusal ≡ 0 → Holds file.now tables.old.tokens.now (answer_of read).tokens }
    ensures writes { (way : Way) (words : Sizes) → answer_of read ≡ read_answer (read_via way file.now words)
        → words ≡ sizes (held tables.old)
        → Leaves (read_via way file.now words) words (held tables.old)
        → Leaving (writing_of (read_via way file.now words) without (length out.old))
        (held tables.old) (held tables.new) out.old out.new (written_of result) }
    ensures same { Same tables.old tables.new }
{
    let tokens = &mut *tables.tokens;
    let size = star_plain::put_plain(file, tokens, token_count(read), out, without);
    let written = answer(read, size, out.len());
    if written.is_err() {
        star_read::clear_tables(tables);
    }
    written
}

// Reads a file of a layout into the five tables and writes its plain form in that layout: 0 is today's, 1 that of 1991, and any other number is refused before all else. On a refusal
// tables and output are all 0.
pub fn write_layout(
    file: &[u8],
    layout: u32,
    tables: &mut Tables,
    out: &mut [u8],
) -> Result<PlainForm, Refusal>
    ensures writes { WritesIn layout file.now (held tables.old) (held tables.new) out.old out.new (written_of result) }
    ensures same { Same tables.old tables.new }
{
    let read = star_read::read_layout(file, layout, tables);
    finish(file, read, tables, out, false)
}

// Reads an old file, whose loops may have header stops, into the five tables, and writes its plain form without the header stops. On a refusal tables and output are all 0.
pub fn drop_header_stops(
    file: &[u8],
    tables: &mut Tables,
    out: &mut [u8],
) -> Result<PlainForm, Refusal>
    ensures writes { DropsStops file.now (held tables.old) (held tables.new) out.old out.new (written_of result) }
    ensures same { Same tables.old tables.new }
{
    let read = star_read::read_old(file, tables);
    finish(file, read, tables, out, true)
}

// Reads a file of today's layout into the five tables and writes its plain form. On a refusal tables and output are all 0.
pub fn write(file: &[u8], tables: &mut Tables, out: &mut [u8]) -> Result<PlainForm, Refusal>
    ensures writes { Writes file.now (held tables.old) (held tables.new) out.old out.new (written_of result) }
    ensures same { Same tables.old tables.new }
{
    write_layout(file, 0, tables, out)
}
