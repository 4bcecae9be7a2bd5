// How far a read has come, what comes next, and the rows that tokens make.
ghost use Rattle.std.specs.Prelude.{◌≡◌, [], ◌∷◌, ◌+◌, ◌-◌, ◌*◌, ◌≤◌, Err, length};
ghost use Rattle.star_rows.specs.Widths.{token_width, value_width};
ghost use Rattle.star_rows.specs.Rows.{put_row, put_word};
ghost use Rattle.star_text.specs.Refusal.{number};
ghost use Rattle.star_parse.specs.Reached.{going, reached, coded, kind_number};
ghost use Rattle.star_parse.specs.Reader.{NextIs, HeadAt, Fresh, CountRoom, Moved, Misplaced, RowPut};

use crate::Stopped;
use star_grammar::sort::Sort;
use star_text::refusal::Reason;

// The words of a row of table 1.
const WIDTH: usize = star_rows::TOKEN_WIDTH as usize;

// The kinds of sets, by the numbers that table 2 has for them.
#[derive(Clone, Copy)]
pub enum SetKind {
    DataBlock = 1,
    SaveFrame = 2,
    GlobalBlock = 3,
}

// The tokens and loops passed; the rows so far.
#[derive(Clone, Copy)]
pub struct Progress {
    pub at: u32,
    pub loops: u32,
    pub sets: u32,
    pub names: u32,
    pub packets: u32,
    pub values: u32,
}

// Whether a token of this sort stands at a place.
pub(crate) fn next_is(tokens: &[u32], count: usize, at: u32, sort: Sort) -> bool
    requires { count * token_width ≤ length tokens.now }
    ensures { NextIs count tokens.now at (coded sort) result }
{
    let row = at as usize;
    row < count && Sort::from(tokens[row * WIDTH]) == sort
}

// The kind of the block that begins at a place, none where none begins.
pub(crate) fn block_kind(tokens: &[u32], count: usize, at: u32) -> Option<SetKind>
    requires { count * token_width ≤ length tokens.now }
    ensures { HeadAt count tokens.now at result }
{
    if next_is(tokens, count, at, Sort::Block) {
        return Some(SetKind::DataBlock);
    }
    if next_is(tokens, count, at, Sort::Global) {
        return Some(SetKind::GlobalBlock);
    }
    None
}

impl Progress {
    // Before the first token.
    pub(crate) fn begin() -> Progress
        ensures { Fresh (going result) }
    {
        Progress {
            at: 0,
            loops: 0,
            sets: 0,
            names: 0,
            packets: 0,
            values: 0,
        }
    }

    // Refused for this reason at the next token.
    pub(crate) fn stop(self, reason: Reason) -> Stopped
        ensures { Misplaced (going self) (number reason) (reached (Err result)) }
    {
        Stopped {
            reason,
            tokens: self.at,
        }
    }

    // Past a token that makes no row.
    pub(crate) fn passed(self) -> Progress
        requires { CountRoom (going self) }
        ensures { Moved (going self) 1 0 0 0 0 0 (going result) }
    {
        Progress {
            at: self.at + 1,
            ..self
        }
    }

    // Past a `loop_` that begins a loop.
    pub(crate) fn opened(self) -> Progress
        requires { CountRoom (going self) }
        ensures { Moved (going self) 1 1 0 0 0 0 (going result) }
    {
        Progress {
            at: self.at + 1,
            loops: self.loops + 1,
            ..self
        }
    }

    // Past a heading: the row of its set.
    pub(crate) fn put_set(self, kind: SetKind, parent: u32, sets: &mut [u32]) -> Progress
        requires { CountRoom (going self) }
        ensures { RowPut (kind_number kind ∷ (self.at + 1) ∷ parent ∷ []) self.sets sets.old sets.new (Moved (going self) 1 0 1 0 0 0 (going result)) }
    {
        star_rows::put_row(sets, self.sets as usize, [kind as u32, self.at + 1, parent]);
        Progress {
            at: self.at + 1,
            sets: self.sets + 1,
            ..self
        }
    }

    // Past a name: its row.
    pub(crate) fn put_name(self, set: u32, number: u32, level: u32, names: &mut [u32]) -> Progress
        requires { CountRoom (going self) }
        ensures { RowPut (set ∷ (self.at + 1) ∷ number ∷ level ∷ []) self.names names.old names.new (Moved (going self) 1 0 0 1 0 0 (going result)) }
    {
        star_rows::put_row(
            names,
            self.names as usize,
            [set, self.at + 1, number, level],
        );
        Progress {
            at: self.at + 1,
            names: self.names + 1,
            ..self
        }
    }

    // Before the first value of a packet: the packet's row.
    pub(crate) fn put_packet(self, level: u32, parent: u32, packets: &mut [u32]) -> Progress
        requires { CountRoom (going self) }
        ensures { RowPut (self.loops ∷ level ∷ parent ∷ []) self.packets packets.old packets.new (Moved (going self) 0 0 0 0 1 0 (going result)) }
    {
        star_rows::put_row(packets, self.packets as usize, [self.loops, level, parent]);
        Progress {
            packets: self.packets + 1,
            ..self
        }
    }

    // Past a value: its row, which leads to none, and the row so many before it, which leads to it; with 0 there is no such row.
    pub(crate) fn put_value(self, name: u32, packet: u32, back: u32, values: &mut [u32]) -> Progress
        requires count_room { CountRoom (going self) }
        requires back_le_values { back ≤ self.values }
        ensures { RowPut (name ∷ packet ∷ (self.at + 1) ∷ 0 ∷ []) self.values
            (put_word value_width (self.values - back) 3 (self.values + 1) values.old) values.new (Moved (going self) 1 0 0 0 0 1 (going result)) }
    {
        put_linked(
            values,
            self.values as usize,
            back as usize,
            name,
            packet,
            self.at + 1,
            self.values + 1,
        );
        Progress {
            at: self.at + 1,
            values: self.values + 1,
            ..self
        }
    }
}

// Writes a value row that leads to none as row `n` of the table, counted from 0, and its number into the row `back` before it, which leads to it, each if
// it fits. Where `back` is 0 that is the row itself, and is written over.
fn put_linked(
    values: &mut [u32],
    n: usize,
    back: usize,
    name: u32,
    packet: u32,
    token: u32,
    number: u32,
)
    requires { back ≤ n }
    ensures { values.new ≡ put_row (name ∷ packet ∷ token ∷ 0 ∷ []) n (put_word value_width (n - back) 3 number values.old) }
{
    let rows = values.len() / 4;
    let before = n - back;
    if n < rows {
        let link = before * 4;
        values[link + 3] = number;
        let at = n * 4;
        values[at] = name;
        values[at + 1] = packet;
        values[at + 2] = token;
        values[at + 3] = 0;
    } else if before < rows {
        let linked = before * 4;
        values[linked + 3] = number;
    }
}
