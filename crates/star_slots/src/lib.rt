// Lookup of a name through slots that hold name rows or 0, by a hash of the set and the name. The slots may hold anything: what makes them an index, star_index says.
#![tactic(auto)]

ghost use Rattle.std.specs.Prelude.{◌≡◌, ◌<◌, ◌-◌, cond, length, ◌==◌};
ghost use Rattle.star_rows.specs.Widths.{set_width};
ghost use Rattle.star_rows.specs.Rows.{word_of};
ghost use Rattle.star_find.specs.Find.{refused, is_wanted, ask_globals};
ghost use Rattle.star_find.specs.Lending.{found_of, seen};
ghost use Rattle.star_slots.specs.Slots.{next_slot};
ghost use Rattle.star_slots.specs.Lookup.{slot_name, find_slot};
ghost use Rattle.star_slots.specs.Inner.{held_of, table_home, probed};

use star_find::{Contents, Lent, Missing, Wanted};

// The slot where a name row belongs, of so many.
pub fn home_at(contents: &Contents, names: &[u32], slots: usize, row: u32) -> usize
    ensures { result ≡ table_home contents.now.file.now contents.now.tokens.now contents.now.count names.now slots row }
{
    let set = star_rows::word(names, star_rows::NAME_WIDTH, row, 0);
    let token = star_rows::word(names, star_rows::NAME_WIDTH, row, 1);
    star_hash::home_of(slots, set, contents.part(token))
}

// The slot after one, of so many: after the last, or after a number that is no slot, the first.
pub fn next_slot(slots: usize, at: usize) -> usize
    ensures { result ≡ next_slot slots at }
{
    let next = std::num::wrapping_add_usize(at, 1);
    if next < slots { next } else { 0 }
}

// The name row that a slot holds: there is none where it holds 0, and one above the name count is outside.
#[tactic(auto, unfolding(crate::specs::Inner::refusal_of, star_find::specs::Find::found, star_find::specs::Find::refused))]
fn held(rows: u32, word: u32) -> Result<u32, Missing>
    ensures { found_of result ≡ held_of rows word }
{
    match word {
        0 => Err(Missing::NotFound),
        _ if rows < word => Err(Missing::Outside),
        _ => Ok(word),
    }
}

// Tables that are lent to be read, and the slots that lead to their name rows.
#[derive(Clone, Copy)]
struct Index<'a, 'b> {
    lent: &'b Lent<'a, 'b>,
    slots: &'b [u32],
}

impl Index<'_, '_> {
    // The row of a set with these bytes, from a home slot round once: there is none at a 0 or when no slot is left.
    fn probe(&self, set: u32, home: usize, bytes: &[u8]) -> Result<u32, Missing>
        requires { home < length self.now.slots.now }
        ensures { found_of result ≡ probed (seen self.now.lent.now) self.now.lent.now.counts self.now.slots.now bytes.now set
            (length self.now.slots.now) home }
    {
        let contents = self.lent.contents();
        let wanted = Wanted {
            width: star_rows::NAME_WIDTH,
            first: set,
            parent: None,
        };
        let mut at = home;
        for _ in 0..self.slots.len() {
            let row = held(self.lent.counts.names, self.slots[at])?;
            if contents.compare_row(self.lent.names, row, wanted, bytes)? {
                return Ok(row);
            }
            at = next_slot(self.slots.len(), at);
        }
        Err(Missing::NotFound)
    }

    // What a set answers for a name through the slots.
    fn ask(&self, set: u32, name: &[u8]) -> Result<u32, Missing>
        ensures { found_of result ≡ slot_name (seen self.now.lent.now) self.now.lent.now.counts self.now.slots.now name.now set }
    {
        if self.slots.is_empty() {
            return Err(Missing::NotFound);
        }
        self.probe(set, star_hash::home_of(self.slots.len(), set, name), name)
    }

    // What a set answers where it is a global block.
    fn ask_global(&self, set: u32, name: &[u8]) -> Result<u32, Missing>
        ensures { found_of result ≡ cond ((word_of self.now.lent.now.sets.now set_width set 0) == 3)
            (slot_name (seen self.now.lent.now) self.now.lent.now.counts self.now.slots.now name.now set) (refused 13) }
    {
        if star_rows::word(self.lent.sets, star_rows::SET_WIDTH, set, 0) != 3 {
            return Err(Missing::NotFound);
        }
        self.ask(set, name)
    }

    // What the global blocks before a set answer, the last first.
    fn ask_globals(&self, set: u32, name: &[u8]) -> Result<u32, Missing>
        ensures { found_of result ≡ ask_globals self.now.lent.now.sets.now
            (slot_name (seen self.now.lent.now) self.now.lent.now.counts self.now.slots.now name.now) (set - 1) }
    {
        for s in (1..set).rev() {
            let answer = self.ask_global(s, name);
            if !star_find::is_not_found(answer) {
                return answer;
            }
        }
        Err(Missing::NotFound)
    }
}

// The name of a set with these bytes, through the slots, or for a data block one of the nearest earlier global block that does not answer that there is none. Tables,
// counts and slots may hold anything.
pub fn find(lent: &Lent, slots: &[u32], set: u32, name: &[u8]) -> Result<u32, Missing>
    ensures { found_of result ≡ find_slot (seen lent.now) lent.now.counts slots.now set name.now }
{
    if !lent.row_there(lent.counts.sets, set) {
        return Err(Missing::Outside);
    }
    let index = Index { lent, slots };
    let own = index.ask(set, name);
    if !star_find::goes_on(lent.sets, set, own) {
        return own;
    }
    index.ask_globals(set, name)
}
