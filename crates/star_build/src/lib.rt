// The builder of an index beside the names: each name row goes to the first slot that holds 0 from its home on.
#![tactic(auto)]

ghost use Rattle.std.specs.Prelude.{◌≡◌, ◌<◌, length};
ghost use Rattle.star_rows.specs.Tables.{Same};
ghost use Rattle.star_read.specs.Answer.{held, answer_of};
ghost use Rattle.star_slots.specs.Inner.{table_home};
ghost use Rattle.star_build.specs.Build.{first_free, filled, Builds};

use star_find::Contents;
use star_rows::{Counts, Tables};
use star_text::refusal::{Reason, Refusal};

// The first slot that holds 0, from a home on round once.
fn free_from(slots: &[u32], home: usize) -> usize
    requires { home < length slots.now }
    ensures value { result ≡ first_free slots.now (length slots.now) home }
    ensures upper_bound { result < length slots.now }
{
    let mut at = home;
    let mut unseen = slots.len();
    while 0 < unseen {
        if slots[at] == 0 {
            return at;
        }
        at = star_slots::next_slot(slots.len(), at);
        unseen -= 1;
    }
    at
}

// Puts the name rows in order, each in the first slot that holds 0 from its home on.
fn fill(file: &[u8], tokens: &[u32], count: u32, names: &[u32], rows: u32, slots: &mut [u32])
    requires { 0 < length slots.old }
    ensures { slots.new ≡ filled (table_home file.now tokens.now count names.now (length slots.old))
        slots.old rows }
{
    let mut row: u32 = 0;
    while row < rows {
        row += 1;
        let contents = Contents {
            file,
            tokens,
            count,
        };
        let home = star_slots::home_at(&contents, names, slots.len(), row);
        let at = free_from(slots, home);
        slots[at] = row;
    }
}

// Reads a file into the five tables and builds an index of its names in the slots: refusal 7 with place 8 where slots are not more than names. On a refusal
// every word of every table and every slot are 0.
pub fn build(file: &[u8], tables: &mut Tables, slots: &mut [u32]) -> Result<Counts, Refusal>
    ensures builds { Builds file.now (held tables.old) (held tables.new) slots.old slots.new (answer_of result) }
    ensures same { Same tables.old tables.new }
{
    slots.fill(0);
    let counts = star_read::read(file, tables)?;
    if slots.len() <= counts.names as usize {
        return Err(star_read::refuse_for(tables, Reason::NoRoom, 8));
    }
    let tokens = &mut *tables.tokens;
    let names = &mut *tables.names;
    fill(file, tokens, counts.tokens, names, counts.names, slots);
    Ok(counts)
}
