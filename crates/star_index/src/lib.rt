// The check of an index beside the names: slots that hold each name row once, else 0, none of them 0 between a row's home and its slot.
#![tactic(auto)]

ghost use Rattle.std.specs.Prelude.{◌≡◌, true, false, cond, ℕ, suc, ◌+◌, ◌-◌, ◌*◌, ◌≤◌, ◌<◌, eqb, ltb, length, get_or, set as list_set};
ghost use Rattle.star_rows.specs.Tables.{Same};
ghost use Rattle.star_read.specs.Answer.{held, answer_of};
ghost use Rattle.star_slots.specs.Slots.{slot_at};
ghost use Rattle.star_slots.specs.Inner.{table_home};
ghost use Rattle.star_index.specs.Index.{JustOne, is_indexed, Checks};
ghost use Rattle.star_index.specs.Inner.{run_start, in_run, slot_fits, slots_fit, mark as inner_mark, place_of, Unmarked, Marked, Apart, Cleaned};

use star_find::Contents;
use star_rows::{Counts, Tables};
use star_text::refusal::{Reason, Refusal};

// The mark of a name row: above every token row.
const MARK: u32 = 2147483648;

// The words of a row of table 3.
const WIDTH: usize = star_rows::NAME_WIDTH as usize;

// Where the run of full slots begins that ends after a slot which holds this number.
fn begin_after(begin: usize, row: u32, at: usize) -> usize
    requires { at < 18446744073709551615 }
    ensures { result ≡ cond (eqb row 0) (suc at) begin }
{
    if row == 0 { at + 1 } else { begin }
}

// Where the run of full slots begins that ends at the end.
fn last_run(slots: &[u32]) -> usize
    ensures { result ≡ run_start slots.now (length slots.now) }
{
    let mut begin = 0;
    let mut at = 0;
    while at < slots.len() {
        begin = begin_after(begin, slots[at], at);
        at += 1;
    }
    begin
}

// Whether all slots from a home to this full slot are full.
fn in_run(begin: usize, last: usize, home: usize, at: usize) -> bool
    ensures { result ≡ in_run begin last home at }
{
    if home <= at {
        return begin <= home;
    }
    if begin == 0 { last <= home } else { false }
}

// Whether a slot is 0 or holds a row whose home is in its run.
fn slot_fits(
    file: &[u8],
    tokens: &[u32],
    count: u32,
    names: &[u32],
    rows: u32,
    slots: usize,
    last: usize,
    begin: usize,
    row: u32,
    at: usize,
) -> bool
    ensures { result ≡ slot_fits rows (table_home file.now tokens.now count names.now slots) last begin row at }
{
    if row == 0 {
        return true;
    }
    if rows < row {
        return false;
    }
    in_run(
        begin,
        last,
        star_slots::home_at(
            &Contents {
                file,
                tokens,
                count,
            },
            names,
            slots,
            row,
        ),
        at,
    )
}

// Whether every slot does; where a run begins is carried along.
fn slots_fit(
    file: &[u8],
    tokens: &[u32],
    count: u32,
    names: &[u32],
    rows: u32,
    slots: &[u32],
) -> bool
    ensures { result ≡ slots_fit rows (table_home file.now tokens.now count names.now (length slots.now))
        slots.now (length slots.now) }
{
    let last = last_run(slots);
    let mut begin = 0;
    let mut at = 0;
    while at < slots.len() {
        let row = slots[at];
        if !slot_fits(
            file,
            tokens,
            count,
            names,
            rows,
            slots.len(),
            last,
            begin,
            row,
            at,
        ) {
            return false;
        }
        begin = begin_after(begin, row, at);
        at += 1;
    }
    true
}

// Marks a name row that is not marked, and answers whether it was not.
fn mark(names: &mut [u32], row: u32) -> bool
    requires le_row { 1 ≤ row }
    requires row_in_bounds { row * 4 ≤ length names.old }
    ensures value { result ≡ ltb (get_or names.old (place_of (row - 1)) 0) inner_mark }
    ensures names_after { names.new ≡ cond result
        (list_set names.old (place_of (row - 1)) (get_or names.old (place_of (row - 1)) 0 + inner_mark)) names.old }
{
    let place = (row - 1) as usize * WIDTH + 1;
    let word = names[place];
    if word < MARK {
        names[place] = word + MARK;
        return true;
    }
    false
}

// Marks the rows that the slots hold, and answers whether none of them is in two.
fn mark_rows(names: &mut [u32], rows: u32, slots: &[u32]) -> bool
    requires unmarked { Unmarked names.old rows }
    requires by_index { (at : ℕ) → at < length slots.now → slot_at slots.now at ≤ rows }
    ensures apart { result ≡ true → Apart slots.now (length slots.now)
        × Marked slots.now (length slots.now) rows names.old names.new }
    ensures fact { result ≡ false → Apart slots.now (length slots.now) → ⊥ }
{
    let mut at = 0;
    while at < slots.len() {
        let row = slots[at];
        if row == 0 {
            at += 1;
            continue;
        }
        if !mark(names, row) {
            return false;
        }
        at += 1;
    }
    true
}

// Takes the marks away, and answers whether every row had one.
fn unmark(names: &mut [u32], rows: usize) -> bool
    requires { rows * 4 ≤ length names.old }
    ensures cleaned { result ≡ true → Cleaned rows names.old names.new }
    ensures by_index { result ≡ false → (i : ℕ) × (i < rows) × (get_or names.old (place_of i) 0 < inner_mark) }
{
    let mut i = 0;
    while i < rows {
        let place = i * WIDTH + 1;
        let word = names[place];
        if word < MARK {
            return false;
        }
        names[place] = word - MARK;
        i += 1;
    }
    true
}

// Whether each row is in just one slot. Rows are marked meanwhile; where each is, table 3 is left as it was.
fn once_each(names: &mut [u32], rows: u32, slots: &[u32]) -> bool
    requires unmarked { Unmarked names.old rows }
    requires by_index { (at : ℕ) → at < length slots.now → slot_at slots.now at ≤ rows }
    ensures by_index_2 { result ≡ true → ((row : ℕ) → 1 ≤ row → row ≤ rows → JustOne slots.now row) × (names.new ≡ names.old) }
    ensures fact { result ≡ false → ((row : ℕ) → 1 ≤ row → row ≤ rows → JustOne slots.now row) → ⊥ }
{
    if !mark_rows(names, rows, slots) {
        return false;
    }
    unmark(names, rows as usize)
}

// Whether the slots are an index of the name rows; where they are, table 3 is left as it was.
fn is_indexed(
    file: &[u8],
    tokens: &[u32],
    count: u32,
    names: &mut [u32],
    rows: u32,
    slots: &[u32],
) -> bool
    requires { Unmarked names.old rows }
    ensures value { result ≡ is_indexed rows (table_home file.now tokens.now count names.old (length slots.now))
        slots.now }
    ensures names_unchanged { result ≡ true → names.new ≡ names.old }
{
    if slots.len() <= rows as usize {
        return false;
    }
    if !slots_fit(file, tokens, count, names, rows, slots) {
        return false;
    }
    once_each(names, rows, slots)
}

// Reads a file into the five tables and checks that the slots are an index of its names: else refusal 15. On a refusal every word of every table is 0.
pub fn check(file: &[u8], tables: &mut Tables, slots: &[u32]) -> Result<Counts, Refusal>
    ensures checks { Checks file.now slots.now (held tables.old) (held tables.new) (answer_of result) }
    ensures same { Same tables.old tables.new }
{
    let counts = star_read::read(file, tables)?;
    let tokens = &mut *tables.tokens;
    let names = &mut *tables.names;
    if is_indexed(file, tokens, counts.tokens, names, counts.names, slots) {
        return Ok(counts);
    }
    Err(star_read::refuse_for(tables, Reason::NoIndex, 0))
}
