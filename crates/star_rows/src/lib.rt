// Rows of a table: a lent slice of words holds rows of one width, one after the other.
#![tactic(auto)]

ghost use Rattle.std.specs.Prelude.{◌≡◌};
ghost use Rattle.star_rows.specs.Rows.{put_row, filled_from, word_of, has_room};

// The words of a row of each of the five tables.
pub const TOKEN_WIDTH: u32 = 3;

pub const SET_WIDTH: u32 = 3;

pub const NAME_WIDTH: u32 = 4;

pub const PACKET_WIDTH: u32 = 3;

pub const VALUE_WIDTH: u32 = 4;

// The five tables of a file, lent to be written.
#[derive(Drop)]
pub struct Tables<'a> {
    pub tokens: &'a mut [u32],
    pub sets: &'a mut [u32],
    pub names: &'a mut [u32],
    pub packets: &'a mut [u32],
    pub values: &'a mut [u32],
}

// How many rows each table has.
#[repr(C)]
#[derive(Clone, Copy)]
pub struct Counts {
    pub tokens: u32,
    pub sets: u32,
    pub names: u32,
    pub packets: u32,
    pub values: u32,
}

// Writes a row as row `n` of its width, counted from 0, if it fits.
pub fn put_row<const N: usize>(table: &mut [u32], n: usize, row: [u32; N])
    ensures { table.new ≡ put_row row.entry n table.old }
{
    if N == 0 {
        return;
    }
    let rows = table.len() / N;
    if n < rows {
        let at = n * N;
        for i in 0..N {
            table[at + i] = row[i];
        }
    }
}

// Sets every element of the table from `from` on to 0, the default of its type.
pub fn clear_from<T: Copy + Default>(table: &mut [T], from: usize)
    ensures { (zero : T) → ((x : T) → T.is_default x → x ≡ zero) → table.new ≡ filled_from from zero table.old }
{
    if from < table.len() {
        table[from..].fill_with(|| T::default());
    }
}

// Word `i`, counted from 0, of row `row` of a table, counted from 1; 0 where there is none.
pub fn word(table: &[u32], width: u32, row: u32, i: u32) -> u32
    ensures { result ≡ word_of table.now width row i }
{
    if row == 0 {
        return 0;
    }
    let at = (row - 1) as usize * width as usize + i as usize;
    table.get(at).copied().unwrap_or(0)
}

// Whether a table of so many words has room for so many rows of a width.
pub fn fits(rows: u32, width: u32, words: usize) -> bool
    ensures { result ≡ has_room rows width words }
{
    rows as usize * width as usize <= words
}
