// Lookup by name and code. The tables, the counts and the numbers may hold anything, and nothing is written.
#![tactic(auto)]

ghost use Rattle.std.specs.Prelude.{◌≡◌, cond, ◌&&◌, ◌-◌, eqb, ltb};
ghost use Rattle.star_rows.specs.Widths.{token_width, set_width, name_width};
ghost use Rattle.star_rows.specs.Rows.{word_of};
ghost use Rattle.star_lex.specs.Answer.{is_some};
ghost use Rattle.star_lex.specs.Table.{or_empty, further};
ghost use Rattle.star_find.specs.Find.{is_row, row_there, refused, meet, find_block, find_frame, ask_globals, ask_on, find_name, match_of, counts_fit, seek as find_seek};
ghost use Rattle.star_find.specs.Lending.{number, found_of, compared, seen, content, contents_of, is_asked, named, match_at};

use star_rows::Counts;

// What a lookup answers through C: refusal and row, 0 where it is refused.
#[repr(C)]
#[derive(Clone, Copy)]
pub struct Found {
    pub refusal: u32,
    pub row: u32,
}

// Why a lookup has no answer: nothing is there, or a count, a row or a span points outside.
#[derive(Clone, Copy, Debug, PartialEq, Eq)]
pub enum Missing {
    NotFound = 13,
    Outside = 14,
}

// A file and its token rows, as many as the count says.
#[derive(Clone, Copy)]
pub struct Contents<'a, 'b> {
    pub file: &'a [u8],
    pub tokens: &'b [u32],
    pub count: u32,
}

// A file and its five tables, lent to be read, and how many rows each has.
#[derive(Clone, Copy)]
pub struct Lent<'a, 'b> {
    pub file: &'a [u8],
    pub tokens: &'b [u32],
    pub sets: &'b [u32],
    pub names: &'b [u32],
    pub packets: &'b [u32],
    pub values: &'b [u32],
    pub counts: Counts,
}

// Which rows of a table are looked at: those whose first word is `first` and, where a parent is given, whose third is that.
#[derive(Clone, Copy)]
pub struct Wanted {
    pub width: u32,
    pub first: u32,
    pub parent: Option<u32>,
}

impl Missing {
    // Its number in the interface.
    pub fn number(self) -> u32
        ensures { result ≡ number self }
    {
        self as u32
    }
}

impl From<Result<u32, Missing>> for Found {
    ghost from_gives = { λ answer found. found ≡ found_of answer };

    fn from(answer: Result<u32, Missing>) -> Found {
        match answer {
            Ok(row) => Found { refusal: 0, row },
            Err(missing) => Found {
                refusal: missing.number(),
                row: 0,
            },
        }
    }
}

// Whether a row number is neither 0 nor above its count.
#[tactic(auto, unfolding(crate::specs::Find::is_row))]
fn is_row(count: u32, row: u32) -> bool
    ensures { result ≡ is_row count row }
{
    1 <= row && row <= count
}

impl Wanted {
    // Whether a row of a table is looked at.
    #[tactic(auto, unfolding(crate::specs::Find::is_wanted))]
    fn takes(&self, table: &[u32], row: u32) -> bool
        ensures { result ≡ is_asked table.now self.now row }
    {
        if star_rows::word(table, self.width, row, 0) != self.first {
            return false;
        }
        match self.parent {
            Some(parent) => star_rows::word(table, self.width, row, 2) == parent,
            None => true,
        }
    }
}

// Whether set `s` is a global block after set `near` and before `set`.
fn is_nearer(sets: &[u32], s: u32, near: u32, set: u32) -> bool
    ensures { result ≡ (ltb near s && (ltb s set && eqb (word_of sets.now set_width s 0) 3)) }
{
    near < s && s < set && star_rows::word(sets, star_rows::SET_WIDTH, s, 0) == 3
}

// Whether an answer is that nothing is there.
pub fn is_not_found(answer: Result<u32, Missing>) -> bool
    ensures { result ≡ eqb (found_of answer).refusal 13 }
{
    answer == Err(Missing::NotFound)
}

// Whether a set that has answered so goes on to the global blocks before it: it is a data block, and does not have the name.
pub fn goes_on(sets: &[u32], set: u32, own: Result<u32, Missing>) -> bool
    ensures { result ≡ (eqb (found_of own).refusal 13 && eqb (word_of sets.now set_width set 0) 1) }
{
    is_not_found(own) && star_rows::word(sets, star_rows::SET_WIDTH, set, 0) == 1
}

impl<'a, 'b> Contents<'a, 'b> {
    // Whether a token row and its span point inside.
    #[tactic(auto, unfolding(crate::specs::Find::content_at, crate::specs::Find::is_row))]
    pub fn has_part(&self, row: u32) -> bool
        ensures { result ≡ is_some (content self.now row) }
    {
        is_row(self.count, row) && star_lex::has_content(self.file, self.tokens, (row - 1) as usize)
    }

    // The part of the file that a token row has; it is empty, at the file's start, where the row or its span points outside.
    pub fn part(&self, row: u32) -> &'a [u8]
        ensures result_value { result.now ≡ or_empty (content self.now row) }
        ensures ref_ptr_value { result.ref_ptr ≡ further self.now.file.ref_ptr (cond (is_some (content self.now row))
            (word_of self.now.tokens.now token_width row 1) 0) }
    {
        if !is_row(self.count, row) {
            return &self.file[0..0];
        }
        star_lex::content(self.file, self.tokens, (row - 1) as usize)
    }

    // Whether the content of a token row equals these bytes.
    pub fn compare(&self, row: u32, wanted: &[u8]) -> Result<bool, Missing>
        ensures { result ≡ compared (match_of wanted.now (content self.now row)) }
    {
        if !self.has_part(row) {
            return Err(Missing::Outside);
        }
        Ok(star_text::compare(self.part(row), wanted).equal)
    }

    // Whether a row of a table is looked at and has these bytes, by the token in its second word.
    #[inline]
    pub fn compare_row(
        &self,
        table: &[u32],
        row: u32,
        wanted: Wanted,
        bytes: &[u8],
    ) -> Result<bool, Missing>
        ensures { result ≡ compared (match_at self.now table.now wanted bytes.now row) }
    {
        if wanted.takes(table, row) {
            self.compare(star_rows::word(table, wanted.width, row, 1), bytes)
        } else {
            Ok(false)
        }
    }

    // The first of so many rows that is looked at and has these bytes.
    fn seek(&self, table: &[u32], rows: u32, wanted: Wanted, bytes: &[u8]) -> Result<u32, Missing>
        ensures { found_of result ≡ find_seek (is_asked table.now wanted) (named self.now table.now wanted.width) bytes.now rows 1 }
    {
        for row in 1..=rows {
            if self.compare_row(table, row, wanted, bytes)? {
                return Ok(row);
            }
        }
        Err(Missing::NotFound)
    }

    // What a name row answers by the token in its second word: its number where that has these bytes.
    fn row_answer(&self, names: &[u32], row: u32, bytes: &[u8]) -> Result<u32, Missing>
        ensures { found_of result ≡ meet bytes.now row (named self.now names.now name_width row) (refused 13) }
    {
        let token = star_rows::word(names, star_rows::NAME_WIDTH, row, 1);
        if self.compare(token, bytes)? {
            Ok(row)
        } else {
            Err(Missing::NotFound)
        }
    }

    // The answer of the nearest global block before a set that has the name or a row that points outside. Each name row is looked at once, since
    // a search for each global block takes longer: `near` is the nearest so far, 0 for none, and `kept` its answer.
    fn find_global(
        &self,
        sets: &[u32],
        names: &[u32],
        rows: u32,
        set: u32,
        bytes: &[u8],
    ) -> Result<u32, Missing>
        ensures { found_of result ≡ ask_globals sets.now (λ s. find_seek (is_asked names.now (record { width = name_width; first = s; parent = None }))
            (named self.now names.now name_width) bytes.now rows 1) (set - 1) }
    {
        let mut near: u32 = 0;
        let mut kept = Err(Missing::NotFound);
        for row in 1..=rows {
            let s = star_rows::word(names, star_rows::NAME_WIDTH, row, 0);
            if !is_nearer(sets, s, near, set) {
                continue;
            }
            let answer = self.row_answer(names, row, bytes);
            if is_not_found(answer) {
                continue;
            }
            near = s;
            kept = answer;
        }
        kept
    }
}

impl<'a, 'b> Lent<'a, 'b> {
    // The file and its token rows.
    pub fn contents(&self) -> Contents<'a, 'b>
        ensures { result ≡ contents_of self.now }
    {
        Contents {
            file: self.file,
            tokens: self.tokens,
            count: self.counts.tokens,
        }
    }

    // Whether no count is larger than its table holds.
    #[tactic(auto, unfolding(crate::specs::Find::counts_fit, crate::specs::Find::fits))]
    fn counts_fit(&self) -> bool
        ensures { result ≡ counts_fit (seen self.now) self.now.counts }
    {
        star_rows::fits(
            self.counts.tokens,
            star_rows::TOKEN_WIDTH,
            self.tokens.len(),
        ) && star_rows::fits(self.counts.sets, star_rows::SET_WIDTH, self.sets.len())
            && star_rows::fits(self.counts.names, star_rows::NAME_WIDTH, self.names.len())
            && star_rows::fits(
                self.counts.packets,
                star_rows::PACKET_WIDTH,
                self.packets.len(),
            )
            && star_rows::fits(
                self.counts.values,
                star_rows::VALUE_WIDTH,
                self.values.len(),
            )
    }

    // Whether no count is larger than its table holds, and a row number is a row of so many.
    #[tactic(auto, unfolding(crate::specs::Find::row_there))]
    pub fn row_there(&self, count: u32, row: u32) -> bool
        ensures { result ≡ row_there (seen self.now) self.now.counts count row }
    {
        self.counts_fit() && is_row(count, row)
    }

    // The first data block with this code.
    #[tactic(auto, unfolding(crate::specs::Find::find_block, crate::specs::Find::look, crate::specs::Find::refused))]
    pub fn find_block(&self, code: &[u8]) -> Result<u32, Missing>
        ensures { found_of result ≡ find_block (seen self.now) self.now.counts code.now }
    {
        if !self.counts_fit() {
            return Err(Missing::Outside);
        }
        let wanted = Wanted {
            width: star_rows::SET_WIDTH,
            first: 1,
            parent: None,
        };
        self.contents()
            .seek(self.sets, self.counts.sets, wanted, code)
    }

    // The first frame of a set with this code.
    #[tactic(auto, unfolding(crate::specs::Find::find_frame, crate::specs::Find::look, crate::specs::Find::refused))]
    pub fn find_frame(&self, set: u32, code: &[u8]) -> Result<u32, Missing>
        ensures { found_of result ≡ find_frame (seen self.now) self.now.counts set code.now }
    {
        if !self.row_there(self.counts.sets, set) {
            return Err(Missing::Outside);
        }
        let wanted = Wanted {
            width: star_rows::SET_WIDTH,
            first: 2,
            parent: Some(set),
        };
        self.contents()
            .seek(self.sets, self.counts.sets, wanted, code)
    }

    // The first name of a set with these bytes or, for a data block, of the nearest earlier global block that does not answer that there is none.
    #[tactic(auto, unfolding(crate::specs::Find::find_name, crate::specs::Find::own_name, crate::specs::Find::look, crate::specs::Find::refused))]
    pub fn find_name(&self, set: u32, name: &[u8]) -> Result<u32, Missing>
        ensures { found_of result ≡ find_name (seen self.now) self.now.counts set name.now }
    {
        if !self.row_there(self.counts.sets, set) {
            return Err(Missing::Outside);
        }
        let contents = self.contents();
        let wanted = Wanted {
            width: star_rows::NAME_WIDTH,
            first: set,
            parent: None,
        };
        let own = contents.seek(self.names, self.counts.names, wanted, name);
        if !goes_on(self.sets, set, own) {
            return own;
        }
        contents.find_global(self.sets, self.names, self.counts.names, set, name)
    }
}
