// Whether table 1 has rows.
ghost use Rattle.std.specs.Prelude.{◌≡◌};
ghost use Rattle.star_lex.specs.Room.{has_rows};

// The words of a row of table 1.
const WIDTH: usize = star_rows::TOKEN_WIDTH as usize;

// Whether a table of so many words has that many rows of tokens, at most one for each byte that a file may have.
pub fn has_rows(count: usize, words: usize) -> bool
    ensures { result ≡ has_rows count words }
{
    count <= words / WIDTH && count <= star_text::MOST_BYTES
}
