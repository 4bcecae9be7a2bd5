// Table 1 of a STAR File: the kinds of tokens, and what a row of the table says.
#![tactic(auto)]

pub mod kind;
pub mod rows;
pub mod scan;
pub mod word;

ghost use Rattle.std.specs.Prelude.{◌≡◌};
ghost use Rattle.star_lex.specs.Answer.{is_some};
ghost use Rattle.star_lex.specs.Table.{content_in, or_empty, start_in, first_byte, further};

// The words of a row of table 1.
const WIDTH: usize = star_rows::TOKEN_WIDTH as usize;

// Whether table 1 has a row `n`, counted from 0, and that row spans a part of the file.
pub fn has_content(file: &[u8], tokens: &[u32], n: usize) -> bool
    ensures { result ≡ is_some (content_in file.now tokens.now n) }
{
    if tokens.len() / WIDTH <= n {
        return false;
    }
    let start = tokens[n * WIDTH + 1];
    let end = tokens[n * WIDTH + 2];
    if end < start {
        return false;
    }
    end as usize <= file.len()
}

// The content of the token in row `n` of table 1, counted from 0: the part of the file that the row spans. It is empty, at the file's start, where the
// table has no such row, and where the span is no part of the file.
pub fn content<'a>(file: &'a [u8], tokens: &[u32], n: usize) -> &'a [u8]
    ensures result_value { result.now ≡ or_empty (content_in file.now tokens.now n) }
    ensures ref_ptr_value { result.ref_ptr ≡ further file.entry.ref_ptr (start_in file.now tokens.now n) }
{
    if !has_content(file, tokens, n) {
        return &file[0..0];
    }
    let start = tokens[n * WIDTH + 1] as usize;
    let end = tokens[n * WIDTH + 2] as usize;
    &file[start..end]
}

// The first byte of the token in row `n` of table 1, counted from 0; 0 where the table has no such row, and where the row says that less stands before
// its content than its kind does.
pub fn first_byte(tokens: &[u32], n: usize) -> u32
    ensures { result ≡ first_byte tokens.now n }
{
    if n >= tokens.len() / WIDTH {
        return 0;
    }
    let start = tokens[n * WIDTH + 1] as usize;
    let before = word::lead(tokens[n * WIDTH]);
    start.saturating_sub(before) as u32
}
