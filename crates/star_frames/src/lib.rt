// Frames of the 1991 layout: the kinds of table 1 become those of today's layout, where `save_` closes a frame, and the kinds of `stop_` are put back.
#![tactic(auto)]

mod progress;

ghost use Rattle.std.specs.Prelude.{◌≡◌};
ghost use Rattle.star_frames.specs.Frames.{closed_frames, open_kind, opened_frames, as_today, from_today};

use progress::Progress;
use star_lex::kind::Kind;
use star_lex::rows::has_rows;

// The words of a row of table 1.
const WIDTH: usize = star_rows::TOKEN_WIDTH as usize;

// Gives the first rows of table 1 the kinds of today's layout; a table that has not that many rows is left as it is.
pub fn close_frames(tokens: &mut [u32], count: usize)
    ensures { tokens.new ≡ closed_frames count tokens.old }
{
    if has_rows(count, tokens.len()) {
        let mut p = Progress::outside(false);
        for n in 0..count {
            let at = n * WIDTH;
            let kind = p.today_kind(tokens[at]);
            tokens[at] = kind;
            p = p.pass(kind);
        }
    }
}

// The kind in the 1991 layout of a token that has this one in today's.
#[tactic(auto, unfolding(crate::specs::Frames::open_kind))]
fn open_kind(kind: u32) -> u32
    ensures { result ≡ open_kind kind }
{
    if kind == Kind::FrameEnd.number() {
        Kind::Stop.number()
    } else {
        kind
    }
}

// Makes what closes a frame `stop_` again in the first rows of table 1; a table that has not that many rows is left as it is.
pub fn open_frames(tokens: &mut [u32], count: usize)
    ensures { tokens.new ≡ opened_frames count tokens.old }
{
    if has_rows(count, tokens.len()) {
        for n in 0..count {
            let at = n * WIDTH;
            tokens[at] = open_kind(tokens[at]);
        }
    }
}

// Gives so many rows of a layout the kinds of today's: in that of 1991, layout 1, the `stop_` that closes a frame gets the kind of `save_`.
#[tactic(auto, unfolding(crate::specs::Frames::as_today))]
pub fn to_today(layout: u32, tokens: &mut [u32], count: usize)
    ensures { tokens.new ≡ as_today layout count tokens.old }
{
    if layout == 1 {
        close_frames(tokens, count);
    }
}

// Gives so many rows with the kinds of today's layout those of a layout again.
#[tactic(auto, unfolding(crate::specs::Frames::from_today))]
pub fn from_today(layout: u32, tokens: &mut [u32], count: usize)
    ensures { tokens.new ≡ from_today layout count tokens.old }
{
    if layout == 1 {
        open_frames(tokens, count);
    }
}
