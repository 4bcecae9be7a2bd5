// The plain form of the rows of a table 1, with header stops or without, put into a lent room.
#![tactic(auto)]

mod plain;
pub mod room;
pub mod token;

ghost use Rattle.std.specs.Prelude.{◌≡◌, length};
ghost use Rattle.star_plain.specs.Kept.{rows_taken, plain_in, has_place, room_with};

// How many rows of table 1 are taken where so many are asked for: none where the table has not so many, or the file or they are over the size limit.
fn rows_taken(file: &[u8], tokens: &[u32], count: usize) -> usize
    ensures { result ≡ rows_taken file.now tokens.now count }
{
    if file.len() > star_text::MOST_BYTES {
        return 0;
    }
    if count > star_text::MOST_BYTES {
        return 0;
    }
    if count * 3 > tokens.len() {
        return 0;
    }
    count
}

// Whether a plain form of this size is within the size limit and the room.
fn has_place(size: usize, room: usize) -> bool
    ensures { result ≡ has_place size room }
{
    size <= star_text::MOST_BYTES && size <= room
}

// Puts the plain form of the rows of a table 1, with header stops or without, into a room, and answers its length. Where it is longer than the size limit or the room, and past
// its end, the room's bytes are 0.
pub fn put_plain(file: &[u8], tokens: &[u32], count: usize, out: &mut [u8], without: bool) -> usize
    ensures value { result ≡ length (plain_in without file.now tokens.now count) }
    ensures out_after { out.new ≡ room_with (length out.old) (plain_in without file.now tokens.now count) }
{
    let rows = rows_taken(file, tokens, count);
    let size = plain::plain_length(file, tokens, rows, without);
    if !has_place(size, out.len()) {
        star_rows::clear_from(out, 0);
        return size;
    }
    plain::put_tokens(file, tokens, rows, out, without);
    star_rows::clear_from(out, size);
    size
}
