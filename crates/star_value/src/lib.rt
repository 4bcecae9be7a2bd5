// The k-th value of a name row, by its links: its kind and packet, its part of the file, and where that lies. The tables, the counts and the numbers may hold anything, and nothing is written.
#![tactic(auto)]

ghost use Rattle.std.specs.Prelude.{◌≡◌};
ghost use Rattle.star_lex.specs.Table.{further};
ghost use Rattle.star_find.specs.Lending.{found_of, seen};
ghost use Rattle.star_value.specs.Values.{first_value, is_link, follow as values_follow, value_row, locate as values_locate, value_at, value_part, value_span};
ghost use Rattle.star_value.specs.Answers.{first_of, located_of, valued_of};

use star_find::{Lent, Missing};

// What a value is, through C: refusal, kind and packet, both 0 where it is refused.
#[repr(C)]
#[derive(Clone, Copy)]
pub struct Value {
    pub refusal: u32,
    pub kind: u32,
    pub packet: u32,
}

// Where the part of a value lies in the file: its first byte and the byte after it, both 0 where it is refused.
#[repr(C)]
#[derive(Clone, Copy)]
pub struct Span {
    pub start: usize,
    pub end: usize,
}

// A value that was asked for, by its packet and its token row.
#[derive(Clone, Copy)]
pub struct Located {
    pub packet: u32,
    pub token: u32,
}

// A value that was asked for, by its kind and its packet.
#[derive(Clone, Copy)]
pub struct Valued {
    pub kind: u32,
    pub packet: u32,
}

impl From<Result<Valued, Missing>> for Value {
    ghost from_gives = { λ answer value. value ≡ valued_of answer };

    fn from(answer: Result<Valued, Missing>) -> Value {
        match answer {
            Ok(valued) => Value {
                refusal: 0,
                kind: valued.kind,
                packet: valued.packet,
            },
            Err(missing) => Value {
                refusal: missing.number(),
                kind: 0,
                packet: 0,
            },
        }
    }
}

// The first value row of a name row among so many rows.
fn first_value(values: &[u32], rows: u32, name: u32) -> Option<u32>
    ensures { result ≡ first_of (first_value values.now name rows 1) }
{
    for row in 1..=rows {
        if star_rows::word(values, star_rows::VALUE_WIDTH, row, 0) == name {
            return Some(row);
        }
    }
    None
}

// Whether a link other than 0 leads to a later row within the count, of the same name row.
#[tactic(auto, unfolding(crate::specs::Values::is_link))]
fn is_link(values: &[u32], rows: u32, name: u32, row: u32, next: u32) -> bool
    ensures { result ≡ is_link values.now rows name row next }
{
    row < next && next <= rows && star_rows::word(values, star_rows::VALUE_WIDTH, next, 0) == name
}

// The row that so many links lead to from a row on: there is none at a link of 0, and one that leads elsewhere is outside.
fn follow(values: &[u32], rows: u32, name: u32, links: u32, row: u32) -> Result<u32, Missing>
    ensures { found_of result ≡ values_follow values.now rows name links row }
{
    let mut at = row;
    for _ in 0..links {
        let next = star_rows::word(values, star_rows::VALUE_WIDTH, at, 3);
        if next == 0 {
            return Err(Missing::NotFound);
        }
        if !is_link(values, rows, name, at, next) {
            return Err(Missing::Outside);
        }
        at = next;
    }
    Ok(at)
}

// The k-th value row of a name row, k from 1: the first, and k - 1 links from there.
fn value_row(values: &[u32], rows: u32, name: u32, k: u32) -> Result<u32, Missing>
    ensures { found_of result ≡ value_row values.now rows name k }
{
    if k == 0 {
        return Err(Missing::NotFound);
    }
    let links = k - 1;
    match first_value(values, rows, name) {
        Some(first) => follow(values, rows, name, links, first),
        None => Err(Missing::NotFound),
    }
}

// The value that is asked for, by its packet and its token row.
pub fn locate(lent: &Lent, name: u32, k: u32) -> Result<Located, Missing>
    ensures { located_of result ≡ values_locate (seen lent.now) lent.now.counts name k }
{
    if !lent.row_there(lent.counts.names, name) {
        return Err(Missing::Outside);
    }
    let row = value_row(lent.values, lent.counts.values, name, k)?;
    let token = star_rows::word(lent.values, star_rows::VALUE_WIDTH, row, 2);
    if !lent.contents().has_part(token) {
        return Err(Missing::Outside);
    }
    Ok(Located {
        packet: star_rows::word(lent.values, star_rows::VALUE_WIDTH, row, 1),
        token,
    })
}

// Kind and packet of the k-th value of a name row, k from 1.
pub fn value_at(lent: &Lent, name: u32, k: u32) -> Result<Valued, Missing>
    ensures { valued_of result ≡ value_at (seen lent.now) lent.now.counts name k }
{
    let found = locate(lent, name, k)?;
    Ok(Valued {
        kind: star_rows::word(lent.tokens, star_rows::TOKEN_WIDTH, found.token, 0),
        packet: found.packet,
    })
}

// The token row of a value that is asked for; one that is refused has row 0, which has no words and no content.
fn token_row(lent: &Lent, name: u32, k: u32) -> u32
    ensures { result ≡ (values_locate (seen lent.now) lent.now.counts name k).token }
{
    match locate(lent, name, k) {
        Ok(found) => found.token,
        Err(_) => 0,
    }
}

// The k-th value of a name row, k from 1, as that part of the file; an empty part where it is refused.
pub fn value_part<'a>(lent: &Lent<'a, '_>, name: u32, k: u32) -> &'a [u8]
    ensures result_value { result.now ≡ value_part (seen lent.now) lent.now.counts name k }
    ensures ref_ptr_value { result.ref_ptr ≡ further lent.now.file.ref_ptr (value_span (seen lent.now) lent.now.counts name k).start }
{
    lent.contents().part(token_row(lent, name, k))
}

// Where the k-th value of a name row, k from 1, lies in the file, for those who cannot be handed a part of it.
pub fn value_span(lent: &Lent, name: u32, k: u32) -> Span
    ensures { result ≡ value_span (seen lent.now) lent.now.counts name k }
{
    let token = token_row(lent, name, k);
    Span {
        start: star_rows::word(lent.tokens, star_rows::TOKEN_WIDTH, token, 1) as usize,
        end: star_rows::word(lent.tokens, star_rows::TOKEN_WIDTH, token, 2) as usize,
    }
}
