// The plain form of the first rows of a table 1, with header stops or without.
ghost use Rattle.std.specs.Prelude.{◌≡◌, List, ◌++◌, ℕ, ◌*◌, ◌≤◌, length, drop};
ghost use Rattle.star_text.specs.Bytes.{most_bytes};
ghost use Rattle.star_plain.specs.Put.{Filled};
ghost use Rattle.star_plain.specs.Kept.{plain_rows, kept_plain, headed_at, is_dropped};

use super::token;
use star_lex::kind::Kind;

// The words of a row of table 1.
const WIDTH: usize = star_rows::TOKEN_WIDTH as usize;

// The kinds of `stop_` and of names.
const STOP: u32 = Kind::Stop as u32;

const NAME: u32 = Kind::Name as u32;

// Whether a name or a header stop stands directly before a row of table 1: `stop_` is passed over, since it stands after one exactly where the tokens before it do. It is called by
// proved layers only, which lend so many rows; what stands in the file does not matter.
fn is_headed(tokens: &[u32], n: usize) -> bool
    requires { n * 3 ≤ length tokens.now }
    ensures { (file : List ℕ) → result ≡ headed_at file tokens.now n }
{
    for m in (0..n).rev() {
        let kind = tokens[m * WIDTH];
        if kind != STOP {
            return kind == NAME;
        }
    }
    false
}

// Whether a row of table 1, of this kind, is a header stop that is dropped.
fn is_dropped(tokens: &[u32], n: usize, kind: u32, without: bool) -> bool
    requires { n * 3 ≤ length tokens.now }
    ensures { (file : List ℕ) → result ≡ is_dropped without file tokens.now n kind }
{
    if kind != STOP {
        return false;
    }
    without && is_headed(tokens, n)
}

// How many bytes a token takes: none if it is dropped. A struct of kind and content is no plainer: `token_length`, which is public, takes the two apart, with kinds of any number.
#[tactic(auto, unfolding(crate::specs::Kept::kept_plain))]
fn kept_length(dropped: bool, kind: u32, content: &[u8]) -> usize
    ensures { result ≡ length (kept_plain dropped kind content.now) }
{
    if dropped {
        return 0;
    }
    token::token_length(kind, content)
}

// Writes a token, unless it is dropped, at the start of the room that is left, and answers how many bytes. It is called by proved layers only, which lend room enough.
#[tactic(auto, unfolding(crate::specs::Kept::kept_plain))]
fn put_kept(out: &mut [u8], dropped: bool, kind: u32, content: &[u8]) -> usize
    requires { length (kept_plain dropped kind content.now) ≤ length out.old }
    ensures { Filled (kept_plain dropped kind content.now) out.old out.new result }
{
    if dropped {
        return 0;
    }
    token::put_token(out, kind, content)
}

// How many bytes the rows take. It is called by proved layers only, which hand it rows within the limit.
pub(crate) fn plain_length(file: &[u8], tokens: &[u32], count: usize, without: bool) -> usize
    requires file_len_bound { 1 ≤ count → length file.now ≤ most_bytes }
    requires count_le_most_bytes { count ≤ most_bytes }
    requires count_in_bounds { count * 3 ≤ length tokens.now }
    ensures { result ≡ length (plain_rows without file.now tokens.now count) }
{
    let mut total = 0;
    for n in 0..count {
        let kind = tokens[n * WIDTH];
        let dropped = is_dropped(tokens, n, kind, without);
        total += kept_length(dropped, kind, star_lex::content(file, tokens, n));
    }
    total
}

// Writes the rows in order, each into the room that is left. It is called by proved layers only, which lend such rows, and room enough.
pub(crate) fn put_tokens(file: &[u8], tokens: &[u32], count: usize, out: &mut [u8], without: bool)
    requires count_in_bounds { count * 3 ≤ length tokens.now }
    requires count_in_bounds_2 { length (plain_rows without file.now tokens.now count) ≤ length out.old }
    ensures { out.new ≡ plain_rows without file.now tokens.now count
        ++ drop (length (plain_rows without file.now tokens.now count)) out.old }
{
    let mut at = 0;
    for n in 0..count {
        let kind = tokens[n * WIDTH];
        let content = star_lex::content(file, tokens, n);
        let dropped = is_dropped(tokens, n, kind, without);
        at += put_kept(&mut out[at..], dropped, kind, content);
    }
}
