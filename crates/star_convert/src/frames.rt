// The plain form in the other layout: the words that close frames are exchanged where they stand in the output, since `save_` and `stop_` have as many bytes.
ghost use Rattle.std.specs.Prelude.{◌≡◌, ◌++◌, ◌+◌, ◌-◌, ◌≤◌, length, take, drop};
ghost use Rattle.star_lex.specs.Rules.{layout_rules};
ghost use Rattle.star_lex.specs.Plain.{plain_of};
ghost use Rattle.star_lex.specs.Holds.{Holds, file_tokens};
ghost use Rattle.star_grammar.specs.Tree.{frame_close};
ghost use Rattle.star_grammar.specs.Reading.{ReadingBy};
ghost use Rattle.star_plain.specs.Put.{Put};
ghost use Rattle.star_convert.specs.Convert.{other_row};
ghost use Rattle.star_convert.specs.Inner.{other_close, HoldsToday};

// The words of a row of table 1.
const WIDTH: usize = star_rows::TOKEN_WIDTH as usize;

// In today's layout the kind of what closes a frame.
const FRAME_END: u32 = 3;

// The word that closes frames in the other layout: `stop_` where this is today's, and `save_` where it is that of 1991.
fn close_word(layout: u32) -> [u8; 5]
    ensures { result ≡ (frame_close (layout_rules (1 - layout))).content }
{
    if layout == 0 {
        return [b's', b't', b'o', b'p', b'_'];
    }
    [b's', b'a', b'v', b'e', b'_']
}

// Puts that word over a token that closes a frame.
fn put_close(out: &mut [u8], at: usize, layout: u32, kind: u32) -> usize
    requires { at + length (other_close layout kind) ≤ length out.old }
    ensures { Put (other_close layout kind) at out.old out.new result }
{
    if kind == FRAME_END {
        star_plain::room::put_within(out, at, &close_word(layout))
    } else {
        at
    }
}

// Exchanges the words that close frames in the plain form of a file, with which the output begins and whose table 1 has the kinds of today's layout.
fn put_closes(file: &[u8], layout: u32, tokens: &[u32], count: usize, out: &mut [u8])
    requires holds_today { HoldsToday layout file.now tokens.now count }
    requires reading_by { ReadingBy (layout_rules layout) (file_tokens file.now) }
    requires out_value { take (length (plain_of (file_tokens file.now))) out.old ≡ plain_of (file_tokens file.now) }
    ensures { out.new ≡ plain_of (other_row layout (file_tokens file.now))
        ++ drop (length (plain_of (file_tokens file.now))) out.old }
{
    let mut at = 0;
    for n in 0..count {
        let kind = tokens[n * WIDTH];
        let content = star_lex::content(file, tokens, n);
        put_close(out, at, layout, kind);
        at += star_plain::token::token_length(kind, content);
    }
}

// Exchanges the words that close frames in the plain form of a file in this layout, with which the output begins and whose tokens table 1 holds; the table is left as it was.
pub(crate) fn exchange(file: &[u8], layout: u32, tokens: &mut [u32], count: usize, out: &mut [u8])
    requires holds { Holds file.now tokens.old count }
    requires reading_by { ReadingBy (layout_rules layout) (file_tokens file.now) }
    requires out_value { take (length (plain_of (file_tokens file.now))) out.old ≡ plain_of (file_tokens file.now) }
    ensures out_after { out.new ≡ plain_of (other_row layout (file_tokens file.now))
        ++ drop (length (plain_of (file_tokens file.now))) out.old }
    ensures tokens_unchanged { tokens.new ≡ tokens.old }
{
    star_frames::to_today(layout, tokens, count);
    put_closes(file, layout, tokens, count, out);
    star_frames::from_today(layout, tokens, count);
}
