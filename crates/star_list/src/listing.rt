// The text that the program prints for an input, made in lent bytes: as much of it as the room takes.
ghost use Rattle.std.specs.Prelude.{◌≡◌, [], ◌∷◌, ◌++◌, ◌+◌, ◌≤◌, length, take, drop};
ghost use Rattle.star_lex.specs.Holds.{Holds, file_tokens};
ghost use Rattle.star_read.specs.Read.{read_of};
ghost use Rattle.star_read.specs.Answer.{held, sizes};
ghost use Rattle.star_list.specs.Decimal.{decimal};
ghost use Rattle.star_list.specs.Listing.{code_lines, refused_line, counts_line, text_of, listing_of};
ghost use Rattle.star_list.specs.Put.{PutWithin, code_line};

use star_lex::kind::Kind;
use star_rows::{Counts, Tables};

// The words of a row of table 1.
const WIDTH: usize = star_rows::TOKEN_WIDTH as usize;

// The bytes of an input that is read.
const MOST_BYTES: usize = 8192;

// Puts a byte at a place, if it is in the room, and answers the next place. The routines below are called by proved layers only, whose places are
// far below the largest number.
fn put_byte(out: &mut [u8], at: usize, byte: u8) -> usize
    requires { at ≤ 9223372036854775808 }
    ensures { PutWithin (byte ∷ []) at out.old out.new result }
{
    if at < out.len() {
        out[at] = byte;
        return at + 1;
    }
    at + 1
}

// Puts these bytes at a place, and answers the place after them.
fn put_bytes(out: &mut [u8], at: usize, bytes: &[u8]) -> usize
    requires { at + length bytes.now ≤ 9223372036854775808 }
    ensures { PutWithin bytes.now at out.old out.new result }
{
    let mut next = at;
    for b in bytes {
        next = put_byte(out, next, *b);
    }
    next
}

// Puts a number's decimal digits.
fn put_decimal(out: &mut [u8], at: usize, n: u32) -> usize
    requires { at + n ≤ 4611686018427387904 }
    ensures put_within { PutWithin (decimal n) at out.old out.new result }
    ensures upper_bound { result ≤ at + n + 1 }
{
    if n < 10 {
        return put_byte(out, at, 48 + n as u8);
    }
    let last = put_decimal(out, at, n / 10);
    put_byte(out, last, 48 + (n % 10) as u8)
}

// Puts a number and the byte after it.
fn put_number(out: &mut [u8], at: usize, n: u32, after: u8) -> usize
    requires { at + n ≤ 4611686018427387904 }
    ensures put_within { PutWithin (decimal n ++ (after ∷ [])) at out.old out.new result }
    ensures upper_bound { result ≤ at + n + 2 }
{
    let end = put_decimal(out, at, n);
    put_byte(out, end, after)
}

// Puts a refusal and its place.
fn put_refused(out: &mut [u8], refusal: u32, place: u32) -> usize
    ensures { PutWithin (refused_line refusal place) 0 out.old out.new result }
{
    let word = put_bytes(out, 0, b"refused ");
    let number = put_number(out, word, refusal, b' ');
    put_number(out, number, place, b'\n')
}

// Puts a token's content on a line of its own, if the token is a data block's heading.
fn put_code(out: &mut [u8], at: usize, kind: u32, content: &[u8]) -> usize
    requires { at + length content.now ≤ 4611686018427387904 }
    ensures { PutWithin (code_line kind content.now) at out.old out.new result }
{
    if kind != Kind::Block.number() {
        return at;
    }
    let end = put_bytes(out, at, content);
    put_byte(out, end, b'\n')
}

// Puts the code of each data block, in file order. Table 1 of the file is lent.
fn put_codes(out: &mut [u8], file: &[u8], tokens: &[u32], count: usize) -> usize
    requires { Holds file.now tokens.now count }
    ensures put_within { PutWithin (code_lines (file_tokens file.now)) 0 out.old out.new result }
    ensures upper_bound { result ≤ 2305843009213693952 }
{
    let mut at = 0;
    for n in 0..count {
        let content = star_lex::content(file, tokens, n);
        at = put_code(out, at, tokens[n * WIDTH], content);
    }
    at
}

// Puts the number of rows of each table.
fn put_counts(out: &mut [u8], at: usize, counts: Counts) -> usize
    requires { at ≤ 2305843009213693952 }
    ensures { PutWithin (counts_line counts.tokens counts.sets counts.names counts.packets counts.values)
        at out.old out.new result }
{
    let tokens = put_number(out, at, counts.tokens, b' ');
    let sets = put_number(out, tokens, counts.sets, b' ');
    let names = put_number(out, sets, counts.names, b' ');
    let packets = put_number(out, names, counts.packets, b' ');
    put_number(out, packets, counts.values, b'\n')
}

// Reads a file into the five tables, and puts what is printed of the reading.
fn put_reading(out: &mut [u8], file: &[u8], tables: &mut Tables) -> usize
    ensures { PutWithin (text_of (read_of file.now (sizes (held tables.old)))) 0 out.old out.new result }
{
    match star_read::read(file, tables) {
        Ok(counts) => {
            let at = put_codes(out, file, tables.tokens, counts.tokens as usize);
            put_counts(out, at, counts)
        }
        Err(refusal) => put_refused(out, refusal.reason.number(), refusal.place),
    }
}

// Puts what the program prints for an input at the start of the room, as much as it takes, and answers how many bytes that is in all.
pub fn listing(input: &[u8], out: &mut [u8]) -> usize
    ensures value { result ≡ length (listing_of input.now) }
    ensures out_after { out.new ≡ take (length out.old) (listing_of input.now)
        ++ drop (length (listing_of input.now)) out.old }
{
    if input.len() > MOST_BYTES {
        return put_bytes(out, 0, b"too long\n");
    }
    let mut tokens: [u32; 16384] = [0; 16384];
    let mut sets: [u32; 16384] = [0; 16384];
    let mut names: [u32; 16384] = [0; 16384];
    let mut packets: [u32; 16384] = [0; 16384];
    let mut values: [u32; 16384] = [0; 16384];
    let mut tables = Tables {
        tokens: &mut tokens,
        sets: &mut sets,
        names: &mut names,
        packets: &mut packets,
        values: &mut values,
    };
    put_reading(out, input, &mut tables)
}
