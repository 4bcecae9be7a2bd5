// Checks of a file: it is read, and yes or no is answered beside the reading.
#![tactic(auto)]

ghost use Rattle.std.specs.Prelude.{◌≡◌, leb, length};
ghost use Rattle.star_rows.specs.Tables.{Same};
ghost use Rattle.star_lex.specs.Rules.{old_bench};
ghost use Rattle.star_lex.specs.Fits.{is_limited, fits, all_fit};
ghost use Rattle.star_lex.specs.Kinds.{number};
ghost use Rattle.star_lex.specs.Holds.{Holds, file_tokens};
ghost use Rattle.star_lex.specs.Table.{content_in, or_empty};
ghost use Rattle.star_read.specs.Answer.{held};
ghost use Rattle.star_check.specs.Check.{checked_of};
ghost use Rattle.star_check.specs.Fits.{FitsChecked};

use star_lex::kind::Kind;
use star_rows::{Counts, Tables};
use star_text::refusal::Refusal;

// The most bytes that a name or a code may have for a bench with the earlier limit.
const OLD_LONGEST: usize = 32;

// The words of a row of table 1.
const WIDTH: usize = star_rows::TOKEN_WIDTH as usize;

// What a check answers of a file that is accepted: yes or no, and the number of rows of each table.
#[derive(Clone, Copy)]
pub struct Fits {
    pub yes: bool,
    pub counts: Counts,
}

// What a check answers through C: refusal and place, both 0 when accepted, 1 for yes and 0 for no, and the number of rows of each table.
#[repr(C)]
#[derive(Clone, Copy)]
pub struct Checked {
    pub refusal: u32,
    pub place: u32,
    pub yes: u32,
    pub tokens: u32,
    pub sets: u32,
    pub names: u32,
    pub packets: u32,
    pub values: u32,
}

impl From<Result<Fits, Refusal>> for Checked {
    ghost from_gives = { λ r c. c ≡ checked_of r };

    fn from(checked: Result<Fits, Refusal>) -> Checked {
        match checked {
            Ok(fits) => Checked {
                refusal: 0,
                place: 0,
                yes: fits.yes as u32,
                tokens: fits.counts.tokens,
                sets: fits.counts.sets,
                names: fits.counts.names,
                packets: fits.counts.packets,
                values: fits.counts.values,
            },
            Err(refusal) => Checked {
                refusal: refusal.reason.number(),
                place: refusal.place,
                yes: 0,
                tokens: 0,
                sets: 0,
                names: 0,
                packets: 0,
                values: 0,
            },
        }
    }
}

// Whether the content of row `n` of table 1, counted from 0, is within the earlier limit; one that points outside is empty.
fn is_short(file: &[u8], tokens: &[u32], n: usize) -> bool
    ensures { result ≡ leb (length (or_empty (content_in file.now tokens.now n))) old_bench.longest }
{
    star_lex::content(file, tokens, n).len() <= OLD_LONGEST
}

// Whether tokens of this kind have that limit: names and the codes of blocks and frames.
fn is_limited(kind: Kind) -> bool
    ensures { result ≡ is_limited (number kind) }
{
    matches!(kind, Kind::Block | Kind::Frame | Kind::Name)
}

// Whether the token of that row, with the number of its kind, is within that limit.
fn fits_old(file: &[u8], tokens: &[u32], n: usize, kind: u32) -> bool
    ensures { result ≡ fits old_bench.longest
        (record { kind = kind; content = or_empty (content_in file.now tokens.now n) }) }
{
    match Kind::try_from(kind) {
        Ok(kind) => !is_limited(kind) || is_short(file, tokens, n),
        Err(_) => true,
    }
}

// Whether all tokens are within that limit. It is called by proved layers only, which hand it table 1 of the file.
fn all_fit(file: &[u8], tokens: &[u32], count: usize) -> bool
    requires { Holds file.now tokens.now count }
    ensures { result ≡ all_fit old_bench.longest (file_tokens file.now) }
{
    for n in 0..count {
        if !fits_old(file, tokens, n, tokens[n * WIDTH]) {
            return false;
        }
    }
    true
}

// Reads a file into the five tables and answers whether every name and code has at most 32 bytes, so that a bench with that limit reads the file as well. After yes or no
// the tables hold the reading; on a refusal every word of every table is 0.
pub fn fits_32(file: &[u8], tables: &mut Tables) -> Result<Fits, Refusal>
    ensures checked { FitsChecked file.now (held tables.old) (held tables.new) (checked_of result) }
    ensures same { Same tables.old tables.new }
{
    let counts = star_read::read(file, tables)?;
    let tokens = &mut *tables.tokens;
    let yes = all_fit(file, tokens, counts.tokens as usize);
    Ok(Fits { yes, counts })
}
