// Reading a STAR File from lent bytes into five lent tables.
#![tactic(auto)]

ghost use Rattle.std.specs.Prelude.{◌≡◌, ℕ, length, IfOk};
ghost use Rattle.star_text.specs.Outcome.{refused, accepted, then};
ghost use Rattle.star_text.specs.Refusal.{number};
ghost use Rattle.star_rows.specs.Tables.{Same};
ghost use Rattle.star_lex.specs.Rules.{layout_rules, at_stops};
ghost use Rattle.star_lex.specs.Split.{placed, tokens_of};
ghost use Rattle.star_lex.specs.Holds.{file_tokens};
ghost use Rattle.star_grammar.specs.Machine.{Run};
ghost use Rattle.star_grammar.specs.Layout.{today_row};
ghost use Rattle.star_parse.specs.Parsed.{parsed_of};
ghost use Rattle.star_unique.specs.Repeat.{nothing, first_repeat};
ghost use Rattle.star_read.specs.Read.{token_place, decide, room_for, rows_fit, grammar_of, read_by};
ghost use Rattle.star_read.specs.Answer.{held, sizes, answer_of, Leaves, Gives, Reads, ReadsOld, ReadsIn};
ghost use Rattle.star_read.specs.Judged.{layout_number, DecodesLayout, Places, HoldsToday, Known, told, judged_of, Ran, Numbered, later, ClearedBehind, Tries};

use star_parse::Stopped;
use star_rows::{Counts, Tables};
use star_text::refusal::{Reason, Refusal};
use star_unique::Compared;

// What reading answers through C: refusal and place, both 0 when accepted, and the number of rows of each table.
#[repr(C)]
#[derive(Clone, Copy)]
pub struct Answer {
    pub refusal: u32,
    pub place: u32,
    pub tokens: u32,
    pub sets: u32,
    pub names: u32,
    pub packets: u32,
    pub values: u32,
}

// A refusal through C: it counts no rows.
fn refusing(refusal: u32, place: u32) -> Answer
    ensures { result ≡ record { refusal = refusal; place = place; tokens = 0; sets = 0; names = 0; packets = 0; values = 0 } }
{
    Answer {
        refusal,
        place,
        tokens: 0,
        sets: 0,
        names: 0,
        packets: 0,
        values: 0,
    }
}

impl From<Result<Counts, Refusal>> for Answer {
    ghost from_gives = { λ r a. a ≡ answer_of r };

    fn from(read: Result<Counts, Refusal>) -> Answer {
        match read {
            Ok(counts) => Answer {
                refusal: 0,
                place: 0,
                tokens: counts.tokens,
                sets: counts.sets,
                names: counts.names,
                packets: counts.packets,
                values: counts.values,
            },
            Err(refusal) => refusing(refusal.reason.number(), refusal.place),
        }
    }
}

// The layouts of a file, with their numbers in the interface.
#[derive(Clone, Copy)]
enum Layout {
    Today = 0,
    Of1991 = 1,
}

impl Layout {
    // Its number in the interface.
    fn number(self) -> u32
        ensures { result ≡ layout_number self }
    {
        self as u32
    }
}

// A number that is no layout's.
#[derive(Clone, Copy)]
struct NoLayout;

impl TryFrom<u32> for Layout {
    type Error = NoLayout;

    ghost try_from_gives = { DecodesLayout };

    fn try_from(number: u32) -> Result<Self, NoLayout> {
        match number {
            0 => Ok(Layout::Today),
            1 => Ok(Layout::Of1991),
            _ => Err(NoLayout),
        }
    }
}

// The first byte of the token that has so many before it, or the file's length.
fn place_of(file: &[u8], tokens: &[u32], count: usize, before: usize) -> u32
    requires { Places file.now tokens.now count }
    ensures { result ≡ token_place (length file.now) (placed (tokens_of file.now)) before }
{
    if before < count {
        star_lex::first_byte(tokens, before)
    } else {
        file.len() as u32
    }
}

// Refusal 7 for this table.
fn no_room(table: u32) -> Refusal
    ensures { result ≡ record { reason = Reason.NoRoom; place = table } }
{
    Refusal {
        reason: Reason::NoRoom,
        place: table,
    }
}

// Refusal 7 for the lowest table of 2 to 5 that is too short for its rows.
fn room(rows: Counts, tables: &Tables) -> Result<(), Refusal>
    ensures { told result ≡ judged_of (room_for rows.sets rows.names rows.packets rows.values
        (sizes (held tables.now)) (accepted (parsed_of (Ok rows)))) }
{
    if !star_rows::fits(rows.sets, star_rows::SET_WIDTH, tables.sets.len()) {
        return Err(no_room(2));
    }
    if !star_rows::fits(rows.names, star_rows::NAME_WIDTH, tables.names.len()) {
        return Err(no_room(3));
    }
    if !star_rows::fits(rows.packets, star_rows::PACKET_WIDTH, tables.packets.len()) {
        return Err(no_room(4));
    }
    if !star_rows::fits(rows.values, star_rows::VALUE_WIDTH, tables.values.len()) {
        return Err(no_room(5));
    }
    Ok(())
}

// How many tokens stand before the one at which the rows' reader stopped, or all of them.
fn tokens_passed(rows: Result<Counts, Stopped>) -> usize
    ensures { result ≡ (parsed_of rows).tokens }
{
    match rows {
        Ok(counts) => counts.tokens as usize,
        Err(stopped) => stopped.tokens as usize,
    }
}

// What the grammar, names and codes, and the room of tables 2 to 5 decide; `taken` tokens stand before the first that is taken. Where nothing is refused, the rows' counts.
fn judge(
    file: &[u8],
    tables: &Tables,
    count: usize,
    taken: usize,
    rows: Result<Counts, Stopped>,
) -> Result<Counts, Refusal>
    requires { Places file.now tables.now.tokens.now count }
    ensures decides { (x : Run) → Numbered x → Ran x count (parsed_of rows)
        → told result ≡ judged_of (then (decide (length file.now) (placed (tokens_of file.now)) taken x)
        (rows_fit (sizes (held tables.now)))) }
    ensures counts { IfOk result (λ counts. rows ≡ Ok counts) }
{
    if taken < tokens_passed(rows) {
        return Err(Refusal {
            reason: Reason::Taken,
            place: place_of(file, tables.tokens, count, taken),
        });
    }
    match rows {
        Ok(counts) => {
            room(counts, tables)?;
            Ok(counts)
        }
        Err(stopped) => Err(Refusal {
            reason: stopped.reason,
            place: place_of(file, tables.tokens, count, stopped.tokens as usize),
        }),
    }
}

// Sets every word of the five tables to 0, as every refusal leaves them.
pub fn clear_tables(tables: &mut Tables)
    ensures leaves { (n place : ℕ) → Leaves (refused n place) (sizes (held tables.old)) (held tables.new) }
    ensures same { Same tables.old tables.new }
{
    tables.tokens.fill(0);
    tables.sets.fill(0);
    tables.names.fill(0);
    tables.packets.fill(0);
    tables.values.fill(0);
}

// A refusal of any number, as C is given it: the counts and every word of every table are 0.
pub fn refuse(tables: &mut Tables, refusal: u32, place: u32) -> Answer
    ensures gives { Gives (refused refusal place) (held tables.old) (held tables.new) result }
    ensures same { Same tables.old tables.new }
{
    clear_tables(tables);
    refusing(refusal, place)
}

// A refusal for a reason: every word of every table is 0.
pub fn refuse_for(tables: &mut Tables, reason: Reason, place: u32) -> Refusal
    ensures gives { Gives (refused (number reason) place) (held tables.old) (held tables.new)
        (answer_of (Err result)) }
    ensures same { Same tables.old tables.new }
{
    clear_tables(tables);
    Refusal { reason, place }
}

// Clears tables 2 to 5 behind their rows.
fn clear_behind(tables: &mut Tables, rows: Counts)
    ensures cleared { ClearedBehind (parsed_of (Ok rows)) (later (held tables.old)) (later (held tables.new)) }
    ensures tokens_unchanged { tables.new.tokens.now ≡ tables.old.tokens.now }
    ensures same { Same tables.old tables.new }
{
    star_rows::clear_from(
        tables.sets,
        rows.sets as usize * star_rows::SET_WIDTH as usize,
    );
    star_rows::clear_from(
        tables.names,
        rows.names as usize * star_rows::NAME_WIDTH as usize,
    );
    star_rows::clear_from(
        tables.packets,
        rows.packets as usize * star_rows::PACKET_WIDTH as usize,
    );
    star_rows::clear_from(
        tables.values,
        rows.values as usize * star_rows::VALUE_WIDTH as usize,
    );
}

// Reads the rows of a file whose tokens table 1 holds, with the kinds of today's layout, and whose loops may have header stops or not. A refusal leaves the tables to be cleared.
fn read_tables(
    file: &[u8],
    layout: Layout,
    stops: bool,
    found: Compared,
    tables: &mut Tables,
) -> Result<Counts, Refusal>
    requires holds_today { HoldsToday (layout_number layout) file.now tables.old.tokens.now found.count }
    requires taken_value { found.taken ≡ first_repeat nothing (today_row (at_stops (layout_rules (layout_number layout)) stops) (file_tokens file.now)) }
    ensures tries { Tries (then (grammar_of (at_stops (layout_rules (layout_number layout)) stops) (length file.now) (placed (tokens_of file.now)))
        (rows_fit (sizes (held tables.old)))) (held tables.old) (held tables.new) (answer_of result) }
    ensures same { Same tables.old tables.new }
{
    let count = found.count as usize;
    let tokens = &mut *tables.tokens;
    let sets = &mut *tables.sets;
    let names = &mut *tables.names;
    let packets = &mut *tables.packets;
    let values = &mut *tables.values;
    let rows = star_parse::read_rows(tokens, count, sets, names, packets, values, stops);
    let counts = judge(file, tables, count, found.taken, rows)?;
    clear_behind(tables, counts);
    star_frames::from_today(layout.number(), tables.tokens, count);
    Ok(counts)
}

// Reads a file of a layout, with header stops or without, into the five tables. A refusal leaves the tables to be cleared.
fn try_read(
    file: &[u8],
    layout: Layout,
    stops: bool,
    tables: &mut Tables,
) -> Result<Counts, Refusal>
    ensures tries { Tries (read_by (at_stops (layout_rules (layout_number layout)) stops) file.now (sizes (held tables.old)))
        (held tables.old) (held tables.new) (answer_of result) }
    ensures same { Same tables.old tables.new }
{
    let found = star_unique::read_tokens(file, layout.number(), tables.tokens)?;
    read_tables(file, layout, stops, found, tables)
}

// Reads a file of a layout, with header stops or without, into the five tables, and clears them on a refusal.
fn read_as(file: &[u8], layout: Layout, stops: bool, tables: &mut Tables) -> Result<Counts, Refusal>
    ensures gives { Gives (read_by (at_stops (layout_rules (layout_number layout)) stops) file.now (sizes (held tables.old)))
        (held tables.old) (held tables.new) (answer_of result) }
    ensures same { Same tables.old tables.new }
{
    let read = try_read(file, layout, stops, tables);
    if read.is_err() {
        clear_tables(tables);
    }
    read
}

// Reads a file into the five tables, by today's layout. On a refusal every word of every table is 0.
pub fn read(file: &[u8], tables: &mut Tables) -> Result<Counts, Refusal>
    ensures reads { Reads file.now (held tables.old) (held tables.new) (answer_of result) }
    ensures same { Same tables.old tables.new }
{
    read_as(file, Layout::Today, false, tables)
}

// Reads an old file, whose loops may have header stops, into the five tables, by today's layout. On a refusal every word of every table is 0.
pub fn read_old(file: &[u8], tables: &mut Tables) -> Result<Counts, Refusal>
    ensures reads { ReadsOld file.now (held tables.old) (held tables.new) (answer_of result) }
    ensures same { Same tables.old tables.new }
{
    read_as(file, Layout::Today, true, tables)
}

// Reads a file into the five tables: layout 0 is today's, 1 that of 1991, and any other number is refused before all else. On a refusal every word of
// every table is 0.
pub fn read_layout(file: &[u8], layout: u32, tables: &mut Tables) -> Result<Counts, Refusal>
    ensures reads { ReadsIn layout file.now (held tables.old) (held tables.new) (answer_of result) }
    ensures same { Same tables.old tables.new }
{
    match Layout::try_from(layout) {
        Ok(layout) => read_as(file, layout, false, tables),
        Err(_) => Err(refuse_for(tables, Reason::NoLayout, 0)),
    }
}
