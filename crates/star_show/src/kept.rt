// The five tables that calls write, and the slots of an index.
ghost use Rattle.std.specs.Prelude.{◌≡◌};

use crate::print::{Outcome, Rows};
use crate::words;
use star_rows::{Counts, NAME_WIDTH, PACKET_WIDTH, SET_WIDTH, TOKEN_WIDTH, Tables, VALUE_WIDTH};
use star_text::refusal::Refusal;
use std::io;

// What every word of a table is before a call.
pub const FILLED: u32 = 4294967295;

// The words of a table.
const SIZE: usize = 1024;

// One of the tables that are kept.
#[derive(Clone, Copy)]
pub enum Table {
    Tokens,
    Sets,
    Names,
    Packets,
    Values,
    Slots,
}

// What calls left in the tables: their counts of rows, how many words of each are lent, and their words. Where more words are lent than a table has, those
// of the next follow.
#[derive(Drop)]
pub struct Kept {
    pub counts: Counts,
    lent: [u32; 6],
    tables: [[u32; 1024]; 6],
}

impl Kept {
    // All words 1,024, and so many of each table lent.
    pub fn new() -> Self {
        Kept {
            counts: Counts {
                tokens: 1024,
                sets: 1024,
                names: 1024,
                packets: 1024,
                values: 1024,
            },
            lent: [1024; 6],
            tables: [[1024; 1024]; 6],
        }
    }

    // The words of a table that are lent.
    pub fn lent(&self, table: Table) -> &[u32] {
        let words = self.tables[table as usize..].as_flattened();
        words::first(words, self.lent[table as usize])
    }

    // The words of the five tables that are lent.
    pub fn lent_tables(&self) -> [&[u32]; 5] {
        [
            self.lent(Table::Tokens),
            self.lent(Table::Sets),
            self.lent(Table::Names),
            self.lent(Table::Packets),
            self.lent(Table::Values),
        ]
    }

    // Whether all tables but that of tokens have the same words.
    pub fn same_rows(&self, other: &Kept) -> bool {
        self.tables[1..5] == other.tables[1..5]
    }

    // How many words of each table, and how many slots, are lent to calls.
    pub fn lent_sizes(&self) -> [u32; 6] {
        self.lent
    }

    // The slots, as a call finds them.
    pub fn slots(&self) -> [u32; 1024] {
        self.tables[5]
    }

    // Keeps what a call left in the five tables and the slots.
    pub fn store(&mut self, tables: [[u32; 1024]; 6]) {
        self.tables = tables;
    }

    // Keeps the counts that a call answered: no rows where it refused.
    pub fn keep(&mut self, counts: Result<Counts, Refusal>) {
        self.counts = counts.unwrap_or(Counts {
            tokens: 0,
            sets: 0,
            names: 0,
            packets: 0,
            values: 0,
        });
    }

    // Reads a file of a layout into the tables, as many words of each as are lent and none of them 0 before.
    pub fn read(&mut self, file: &[u8], layout: u32) -> Result<Counts, Refusal> {
        let [a, b, c, d, e, _] = self.lent;
        let [mut tokens, mut sets, mut names, mut packets, mut values] = [[FILLED; 1024]; 5];
        let counts = star_read::read_layout(
            file,
            layout,
            &mut Tables {
                tokens: words::first_mut(&mut tokens, a),
                sets: words::first_mut(&mut sets, b),
                names: words::first_mut(&mut names, c),
                packets: words::first_mut(&mut packets, d),
                values: words::first_mut(&mut values, e),
            },
        );
        self.tables = [tokens, sets, names, packets, values, self.tables[5]];
        self.keep(counts);
        counts
    }

    // Reads a file of a layout, prints what came out and answers whether it was accepted.
    pub fn show(&mut self, rt: &impl Print, file: &[u8], layout: u32) -> io::Result<bool> {
        let counts = self.read(file, layout);
        print!(rt; "{}", Outcome(counts.err()))?;
        self.print(rt, counts.is_ok())?;
        Ok(counts.is_ok())
    }

    // Lends so many slots.
    pub fn lend_slots(&mut self, slots: [u32; 1024], lent: u32) {
        self.tables[5] = slots;
        self.lent[5] = lent;
    }

    // Makes a word be another. Words 1 to 5 of table 0 are the counts, 6 to 11 the lent words of each table; the tables follow from 1 on.
    pub fn set(&mut self, table: u32, i: u32, word: u32) {
        match table as usize * SIZE + i as usize {
            1 => self.counts.tokens = word,
            2 => self.counts.sets = word,
            3 => self.counts.names = word,
            4 => self.counts.packets = word,
            5 => self.counts.values = word,
            at @ 6..12 => self.lent[at - 6] = word,
            at @ SIZE.. => {
                if let Some(kept) = self.tables.as_flattened_mut().get_mut(at - SIZE) {
                    *kept = word;
                }
            }
            _ => {}
        }
    }

    // The rows of a table, so many, and the words after them.
    fn rows(&self, table: Table, count: u32, width: u32) -> Rows<'_> {
        Rows::new(self.lent(table), count, width)
    }

    // Prints of an accepted file the counts and the rows of the five tables, and of a refused one any word that is not 0.
    pub fn print(&self, rt: &impl Print, accepted: bool) -> io::Result<()> {
        let Counts {
            tokens: t,
            sets: s,
            names: n,
            packets: p,
            values: v,
        } = self.counts;
        let tokens = self.rows(Table::Tokens, t, TOKEN_WIDTH);
        let sets = self.rows(Table::Sets, s, SET_WIDTH);
        let names = self.rows(Table::Names, n, NAME_WIDTH);
        let packets = self.rows(Table::Packets, p, PACKET_WIDTH);
        let values = self.rows(Table::Values, v, VALUE_WIDTH);
        if accepted {
            print!(rt;
                " | {t} {s} {n} {p} {v} | {tokens} ; {sets} ; {names} ; {packets} ; {values}"
            )
        } else {
            print!(rt; "{tokens}{sets}{names}{packets}{values}")
        }
    }

    // Prints the slots that are lent.
    pub fn print_slots(&self, rt: &impl Print) -> io::Result<()> {
        let slots = self.rows(Table::Slots, 1, 1024);
        print!(rt; "{slots}")
    }
}
