// The plain form of one token.
ghost use Rattle.std.specs.Prelude.{◌≡◌, ◌≤◌, length};
ghost use Rattle.star_lex.specs.Rules.{today};
ghost use Rattle.star_lex.specs.Tokens.{opening};
ghost use Rattle.star_lex.specs.Plain.{ends, closing, indent, plain_token};
ghost use Rattle.star_plain.specs.Put.{Filled, token_of};

use super::room;
use star_lex::kind::Kind;

// What stands before a token: a blank before a word that begins with `;`, since at a line's start it would open a text field.
fn indent(kind: u32, content: &[u8]) -> &'static [u8]
    ensures { result.now ≡ indent (token_of kind content.now) }
{
    if kind == Kind::Word.number() && star_lex::scan::byte_at(content, 0, b';') {
        b" "
    } else {
        b""
    }
}

// What stands before a token's content.
#[tactic(auto, unfolding(star_lex::specs::Tokens::opening, star_lex::specs::Tokens::data_word, star_lex::specs::Tokens::save_word))]
fn opening(kind: u32) -> &'static [u8]
    ensures { result.now ≡ opening kind }
{
    let Ok(kind) = Kind::try_from(kind) else {
        return b"";
    };
    match kind {
        Kind::Block => b"data_",
        Kind::Frame => b"save_",
        Kind::Reference => b"$",
        Kind::SingleQuoted => b"'",
        Kind::DoubleQuoted => b"\"",
        Kind::Field => b";",
        _ => b"",
    }
}

// Whether a content ends in 13.
fn ends_in_return(content: &[u8]) -> bool
    ensures { result ≡ ends 13 content.now }
{
    content.last() == Some(&b'\r')
}

// What closes a text field of this content.
fn field_closing(content: &[u8]) -> &'static [u8]
    ensures { result.now ≡ closing today 11 content.now }
{
    if ends_in_return(content) {
        b"\r\n;"
    } else {
        b"\n;"
    }
}

// What stands after a token's content.
#[tactic(auto, unfolding(star_lex::specs::Plain::closing))]
fn closing(kind: u32, content: &[u8]) -> &'static [u8]
    ensures { result.now ≡ closing today kind content.now }
{
    let Ok(kind) = Kind::try_from(kind) else {
        return b"";
    };
    match kind {
        Kind::SingleQuoted => b"'",
        Kind::DoubleQuoted => b"\"",
        Kind::Field => field_closing(content),
        _ => b"",
    }
}

// Writes a token at the start of the room that is left, and answers how many bytes. It is called by proved layers only, which lend room enough.
pub(crate) fn put_token(out: &mut [u8], kind: u32, content: &[u8]) -> usize
    requires { length (plain_token today (token_of kind content.now)) ≤ length out.old }
    ensures { Filled (plain_token today (token_of kind content.now)) out.old out.new result }
{
    let indented = room::put_bytes(out, 0, indent(kind, content));
    let opened = room::put_bytes(out, indented, opening(kind));
    let filled = room::put_bytes(out, opened, content);
    let closed = room::put_bytes(out, filled, closing(kind, content));
    room::put_bytes(out, closed, b"\n")
}

// How many bytes a token takes, with the line end after it.
pub fn token_length(kind: u32, content: &[u8]) -> usize
    ensures { result ≡ length (plain_token today (token_of kind content.now)) }
{
    let start = indent(kind, content).len() + opening(kind).len();
    start + content.len() + closing(kind, content).len() + 1
}
