// Names and codes that are taken: the first token that repeats one of its scope. While it is looked for, the kind word of each name or code that was
// passed holds its sign and, above that, the row of the last one before it in its bucket; the kinds are put back at the end.
#![tactic(auto)]

ghost use Rattle.std.specs.Prelude.{◌≡◌, true, false, ◌&&◌, ◌+◌, ◌*◌, ◌/◌, ◌%◌, ◌≤◌, ◌<◌, eqb, get_or};
ghost use Rattle.star_rows.specs.Widths.{token_width};
ghost use Rattle.star_text.specs.Names.{same as names_same};
ghost use Rattle.star_unique.specs.Repeat.{nothing, first_repeat};
ghost use Rattle.star_lex.specs.Holds.{file_tokens, token_at};
ghost use Rattle.star_unique.specs.Chain.{name_sort, floor_of, opens_block, is_value_kind, passed, scope_at, hash_of, bucket_of, sign_of, bucket_at, latest, earlier, unmarked_kind, kinds_in, unmarked, token_by, with_kinds};
ghost use Rattle.star_unique.specs.Sorts.{number, number_of};
ghost use Rattle.star_unique.specs.Marked.{Spans, Plain, Marked, Heads, Visited};
ghost use Rattle.star_unique.specs.Compared.{compared, Compares};

use star_lex::kind::Kind;
use star_text::refusal::Refusal;

// The words of a row of table 1.
const WIDTH: usize = star_rows::TOKEN_WIDTH as usize;

// The part of the file that token `n` spans.
fn span<'a>(file: &'a [u8], tokens: &[u32], count: usize, n: usize) -> &'a [u8]
    requires spans { Spans file.now tokens.now count }
    requires n_lt_count { n < count }
    ensures { result.now ≡ (token_at file.now n).content }
{
    let start = tokens[n * WIDTH + 1] as usize;
    let end = tokens[n * WIDTH + 2] as usize;
    &file[start..end]
}

// Where the scopes begin: the row after the heading of the open block, or after its `global_`, the row after the heading of the last frame, and whether that is open.
#[derive(Clone, Copy)]
struct Scope {
    block: usize,
    frame: usize,
    inside: bool,
}

// What a name or code is compared as, by the number that its mark has.
#[derive(Clone, Copy)]
enum Sort {
    BlockCode = 1,
    FrameCode = 2,
    Name = 6,
    FrameName = 13,
}

impl Sort {
    // Its number.
    fn number(self) -> u32
        ensures { result ≡ number self }
    {
        self as u32
    }
}

// What a token is compared as; none where it is no name or code.
#[tactic(auto, unfolding(crate::specs::Chain::name_sort))]
fn sort_of(inside: bool, kind: u32) -> Option<Sort>
    ensures { number_of result ≡ name_sort inside kind }
{
    if kind == Kind::Name.number() {
        Some(if inside { Sort::FrameName } else { Sort::Name })
    } else if kind == Kind::Block.number() {
        Some(Sort::BlockCode)
    } else if kind == Kind::Frame.number() {
        Some(Sort::FrameCode)
    } else {
        None
    }
}

// The first row of the scope that a name or code of this sort is unique in.
#[tactic(auto, unfolding(crate::specs::Chain::floor_of))]
fn floor_of(scope: Scope, sort: Sort) -> usize
    ensures { result ≡ floor_of scope (number sort) }
{
    match sort {
        Sort::BlockCode => 0,
        Sort::FrameCode => scope.block,
        Sort::Name => scope.block,
        Sort::FrameName => scope.frame,
    }
}

// Whether a token of this kind is a heading or `global_`.
#[tactic(auto, unfolding(crate::specs::Chain::opens_block))]
fn opens_block(kind: u32) -> bool
    ensures { result ≡ opens_block kind }
{
    kind == Kind::Block.number() || kind == Kind::Global.number()
}

// The scopes after a token of this kind, whose next row is `next`.
#[tactic(auto, unfolding(crate::specs::Chain::passed))]
fn pass(scope: Scope, kind: u32, next: usize) -> Scope
    ensures { result ≡ passed scope kind next }
{
    if opens_block(kind) {
        Scope {
            block: next,
            frame: next,
            inside: false,
        }
    } else if kind == Kind::Frame.number() {
        Scope {
            frame: next,
            inside: true,
            ..scope
        }
    } else if kind == Kind::FrameEnd.number() {
        Scope {
            inside: false,
            ..scope
        }
    } else {
        scope
    }
}

// The hash of a name or code, of 20 bits: the low 12 are its bucket, and its sort and above it the other 8 are its sign.
fn hash(sort: u32, bytes: &[u8]) -> u32
    ensures { result ≡ hash_of sort bytes.now }
{
    let mut h = sort % 1048576;
    for b in bytes {
        h = (h * 2685 + *b as u32) % 1048576;
    }
    h
}

// Whether token `m` is marked with this sign and equal to these bytes.
fn is_equal(file: &[u8], tokens: &[u32], count: usize, m: usize, sign: u32, bytes: &[u8]) -> bool
    requires spans { Spans file.now tokens.now count }
    requires m_lt_count { m < count }
    ensures { result ≡ (eqb (get_or tokens.now (m * token_width) 0 % 4096) sign && names_same bytes.now (token_at file.now m).content) }
{
    tokens[m * WIDTH] % 4096 == sign
        && star_text::compare(bytes, span(file, tokens, count, m)).equal
}

// Whether a token before `n`, not before `floor`, is of this sign's sort and has these bytes: the rows of their bucket are followed from the last.
fn follow(
    file: &[u8],
    tokens: &[u32],
    count: usize,
    n: usize,
    last: u32,
    floor: usize,
    sign: u32,
    bytes: &[u8],
) -> bool
    requires marked { Marked file.now (kinds_in tokens.now) tokens.now count n }
    requires n_le_count { n ≤ count }
    requires fact { sign % 16 ≡ 0 → ⊥ }
    requires sign_value { sign ≡ sign_of (sign % 16) bytes.now }
    requires last_value { last ≡ latest (bucket_at (token_by file.now (kinds_in tokens.now))) (bucket_of (sign % 16) bytes.now) n }
    ensures { result ≡ earlier (token_by file.now (kinds_in tokens.now)) (sign % 16) bytes.now floor n }
{
    let mut row = last as usize;
    while row > floor {
        if is_equal(file, tokens, count, row - 1, sign, bytes) {
            return true;
        }
        row = (tokens[(row - 1) * WIDTH] / 4096) as usize;
    }
    false
}

// Whether token `n` is a name or code that is taken; one that is not is marked and becomes the last of its bucket.
fn visit(
    file: &[u8],
    tokens: &mut [u32],
    count: usize,
    heads: &mut [u32],
    n: usize,
    scope: Scope,
) -> bool
    requires marked { Marked file.now (kinds_in tokens.old) tokens.old count n }
    requires heads { Heads file.now (kinds_in tokens.old) heads.old n }
    requires n_lt_count { n < count }
    requires scope_value { scope ≡ scope_at (token_by file.now (kinds_in tokens.old)) n }
    ensures { Visited file.now tokens.old count n result tokens.new heads.new }
{
    let Some(sort) = sort_of(scope.inside, tokens[n * WIDTH]) else {
        return false;
    };
    let bytes = span(file, tokens, count, n);
    let number = sort.number();
    let h = hash(number, bytes);
    let b = (h % 4096) as usize;
    let sign = number + h / 4096 * 16;
    let last = heads[b];
    if follow(
        file,
        tokens,
        count,
        n,
        last,
        floor_of(scope, sort),
        sign,
        bytes,
    ) {
        return true;
    }
    tokens[n * WIDTH] = sign + last * 4096;
    heads[b] = n as u32 + 1;
    false
}

// Whether a token of this kind is a value.
#[tactic(auto, unfolding(crate::specs::Chain::is_value_kind))]
fn is_value(kind: u32) -> bool
    ensures { result ≡ is_value_kind kind }
{
    7 <= kind && kind < 12
}

// How many tokens stand before the first that is taken; those are marked. Values are passed over.
fn mark(file: &[u8], tokens: &mut [u32], count: usize, heads: &mut [u32]) -> usize
    requires plain { Plain file.now tokens.old count }
    requires heads { Heads file.now (kinds_in tokens.old) heads.old 0 }
    ensures value { result ≡ first_repeat nothing (with_kinds (kinds_in tokens.old) 0 (file_tokens file.now)) }
    ensures spans { Spans file.now tokens.new count }
    ensures tokens_after { unmarked result tokens.new ≡ tokens.old }
{
    let mut scope = Scope {
        block: 0,
        frame: 0,
        inside: false,
    };
    for n in 0..count {
        let kind = tokens[n * WIDTH];
        if is_value(kind) {
            continue;
        }
        if visit(file, tokens, count, heads, n, scope) {
            return n;
        }
        scope = pass(scope, kind, n + 1);
    }
    count
}

// The kind of a token from its word, marked or not.
#[tactic(auto, unfolding(crate::specs::Chain::unmarked_kind))]
fn kind_of(word: u32) -> u32
    ensures { result ≡ unmarked_kind word }
{
    let low = word % 16;
    if low == Sort::FrameName.number() {
        Kind::Name.number()
    } else {
        low
    }
}

// Puts the kinds of so many tokens back.
fn unmark(file: &[u8], tokens: &mut [u32], count: usize, rows: usize)
    requires spans { Spans file.now tokens.old count }
    requires rows_le_count { rows ≤ count }
    ensures { tokens.new ≡ unmarked rows tokens.old }
{
    for n in 0..rows {
        tokens[n * WIDTH] = kind_of(tokens[n * WIDTH]);
    }
}

// How many tokens, with the kinds that table 1 has, stand before the first that repeats a name or code of its scope; all of them where none does. It leaves table 1 as it was.
fn first_repeat(file: &[u8], tokens: &mut [u32], count: usize) -> usize
    requires { Plain file.now tokens.old count }
    ensures value { result ≡ first_repeat nothing (with_kinds (kinds_in tokens.old) 0 (file_tokens file.now)) }
    ensures tokens_unchanged { tokens.new ≡ tokens.old }
{
    let mut heads: [u32; 4096] = [0; 4096];
    let n = mark(file, tokens, count, &mut heads);
    unmark(file, tokens, count, n);
    n
}

// How many tokens a file has, and how many of them stand before the first that repeats a name or code of its scope, all of them where none does.
#[derive(Clone, Copy)]
pub struct Compared {
    pub count: u32,
    pub taken: usize,
}

// Splits a file into tokens, stores them as table 1, with the kinds of today's layout, and looks for the first that repeats a name or code; on a refusal every word of the table is 0.
pub fn read_tokens(file: &[u8], layout: u32, table: &mut [u32]) -> Result<Compared, Refusal>
    ensures { Compares layout file.now table.old table.new (compared result) }
{
    let count = star_split::read_tokens(file, table)?;
    star_frames::to_today(layout, table, count as usize);
    let taken = first_repeat(file, table, count as usize);
    Ok(Compared { count, taken })
}
