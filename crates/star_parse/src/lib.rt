// The grammar over tokens: one pass over table 1 that makes the rows of tables 2 to 5.
#![tactic(auto)]

mod header;
mod packets;
mod progress;

ghost use Rattle.std.specs.Prelude.{◌≡◌, false, List, ℕ, ◌+◌, ◌*◌, ◌≤◌, length};
ghost use Rattle.star_rows.specs.Widths.{token_width};
ghost use Rattle.star_text.specs.Bytes.{most_bytes};
ghost use Rattle.star_lex.specs.Rules.{Rules, today, at_stops};
ghost use Rattle.star_grammar.specs.Tables.{no_rows};
ghost use Rattle.star_grammar.specs.Machine.{Where, in_block, set_of, start, within, run};
ghost use Rattle.star_parse.specs.Parsed.{kind_tokens, four_tables, rows_run, parsed_of, Answers};
ghost use Rattle.star_lex.specs.Room.{has_rows};
ghost use Rattle.star_parse.specs.Reached.{going, reached, kind_number};
ghost use Rattle.star_parse.specs.Reader.{Ahead, NoEntry, Headed, Ready, Onward, Leads, Whole};

use progress::{Progress, SetKind, block_kind, next_is};
use star_grammar::sort::Sort;
use star_lex::rows::has_rows;
use star_rows::Counts;
use star_text::refusal::Reason;

// Why a read of rows is refused, and how many tokens stand before the bad one.
#[derive(Clone, Copy, Debug, PartialEq, Eq)]
pub struct Stopped {
    pub reason: Reason,
    pub tokens: u32,
}

// An item: a name and one value.
fn read_item(
    tokens: &[u32],
    count: usize,
    set: u32,
    p: Progress,
    names: &mut [u32],
    values: &mut [u32],
) -> Result<Progress, Stopped>
    requires ready { Ready count tokens.now (going p) }
    requires ahead { Ahead count tokens.now p.at 6 }
    ensures { Onward count tokens.now (p.at + 1) (reached result)
        ((rules : Rules) (w : Where) (sets packets : List ℕ) → set_of w ≡ set
        → Leads rules count tokens.now (within w) (going p) (four_tables sets names.old packets values.old)
        (within w) (reached result) (four_tables sets names.new packets values.new)) }
{
    let p = p.put_name(set, 0, 0, names);
    if next_is(tokens, count, p.at, Sort::Value) {
        Ok(p.put_value(p.names, 0, 0, values))
    } else {
        Err(p.stop(Reason::OutOfPlace))
    }
}

// The entries of a set, items and loops, up to a token that begins none.
fn read_entries(
    tokens: &[u32],
    count: usize,
    set: u32,
    p: Progress,
    names: &mut [u32],
    packets: &mut [u32],
    values: &mut [u32],
    stops: bool,
) -> Result<Progress, Stopped>
    requires { Ready count tokens.now (going p) }
    ensures onward { Onward count tokens.now p.at (reached result)
        ((w : Where) (sets : List ℕ) → set_of w ≡ set
        → Leads (at_stops today stops) count tokens.now (within w) (going p) (four_tables sets names.old packets.old values.old)
        (within w) (reached result) (four_tables sets names.new packets.new values.new)) }
    ensures no_entry { (reached result).refusal ≡ 0 → NoEntry count tokens.now (reached result).at }
{
    let mut p = p;
    loop {
        if next_is(tokens, count, p.at, Sort::Name) {
            p = read_item(tokens, count, set, p, names, values)?;
        } else if next_is(tokens, count, p.at, Sort::Loop) {
            p = header::read_loop(tokens, count, set, p, names, packets, values, stops)?;
        } else {
            return Ok(p);
        }
    }
}

// A save frame of a block, which may be a global block: its heading, its entries and `save_`.
fn read_frame(
    tokens: &[u32],
    count: usize,
    block: u32,
    p: Progress,
    sets: &mut [u32],
    names: &mut [u32],
    packets: &mut [u32],
    values: &mut [u32],
    stops: bool,
) -> Result<Progress, Stopped>
    requires ready { Ready count tokens.now (going p) }
    requires ahead { Ahead count tokens.now p.at 2 }
    ensures { Onward count tokens.now (p.at + 1) (reached result)
        (Leads (at_stops today stops) count tokens.now
        (within (in_block block)) (going p) (four_tables sets.old names.old packets.old values.old)
        (within (in_block block)) (reached result) (four_tables sets.new names.new packets.new values.new)) }
{
    let p = p.put_set(SetKind::SaveFrame, block, sets);
    let p = read_entries(tokens, count, p.sets, p, names, packets, values, stops)?;
    if next_is(tokens, count, p.at, Sort::FrameEnd) {
        Ok(p.passed())
    } else {
        Err(p.stop(Reason::OutOfPlace))
    }
}

// A block of this kind, a data block or a global block: its first token, and its entries and frames.
fn read_block(
    tokens: &[u32],
    count: usize,
    kind: SetKind,
    p: Progress,
    sets: &mut [u32],
    names: &mut [u32],
    packets: &mut [u32],
    values: &mut [u32],
    stops: bool,
) -> Result<Progress, Stopped>
    requires ready { Ready count tokens.now (going p) }
    requires headed { Headed count tokens.now p.at (kind_number kind) }
    ensures { Onward count tokens.now (p.at + 1) (reached result)
        (Leads (at_stops today stops) count tokens.now
        start (going p) (four_tables sets.old names.old packets.old values.old)
        start (reached result) (four_tables sets.new names.new packets.new values.new)) }
{
    let mut p = p.put_set(kind, 0, sets);
    let block = p.sets;
    loop {
        p = read_entries(tokens, count, block, p, names, packets, values, stops)?;
        if !next_is(tokens, count, p.at, Sort::Frame) {
            return Ok(p);
        }
        p = read_frame(tokens, count, block, p, sets, names, packets, values, stops)?;
    }
}

// The blocks of a file, from its first token on.
fn read_blocks(
    tokens: &[u32],
    count: usize,
    sets: &mut [u32],
    names: &mut [u32],
    packets: &mut [u32],
    values: &mut [u32],
    stops: bool,
) -> Result<Progress, Stopped>
    requires token_width_in_bounds { count * token_width ≤ length tokens.now }
    requires count_le_most_bytes { count ≤ most_bytes }
    ensures { Whole count (run (at_stops today stops) start (kind_tokens count tokens.now) no_rows)
        (four_tables sets.old names.old packets.old values.old) (reached result)
        (four_tables sets.new names.new packets.new values.new) }
{
    let mut p = Progress::begin();
    while (p.at as usize) < count {
        let Some(kind) = block_kind(tokens, count, p.at) else {
            return Err(p.stop(Reason::OutOfPlace));
        };
        p = read_block(tokens, count, kind, p, sets, names, packets, values, stops)?;
    }
    Ok(p)
}

// Reads the rows of the tables from the kinds of the first tokens of table 1, with header stops or without. Refusal 14, with nothing stored, where the table has not that many, or
// where they are more than a file can have.
pub fn read_rows(
    tokens: &[u32],
    count: usize,
    sets: &mut [u32],
    names: &mut [u32],
    packets: &mut [u32],
    values: &mut [u32],
    stops: bool,
) -> Result<Counts, Stopped>
    ensures answers { Answers count (rows_run stops count tokens.now)
        (four_tables sets.old names.old packets.old values.old) (parsed_of result)
        (four_tables sets.new names.new packets.new values.new) }
    ensures values_unchanged { has_rows count (length tokens.now) ≡ false
        → four_tables sets.new names.new packets.new values.new
        ≡ four_tables sets.old names.old packets.old values.old }
{
    if !has_rows(count, tokens.len()) {
        return Err(Stopped {
            reason: Reason::NoLayout,
            tokens: 0,
        });
    }
    let p = read_blocks(tokens, count, sets, names, packets, values, stops)?;
    Ok(Counts {
        tokens: p.at,
        sets: p.sets,
        names: p.names,
        packets: p.packets,
        values: p.values,
    })
}
