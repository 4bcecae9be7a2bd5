// What stands before the content of a token of a kind.
ghost use Rattle.std.specs.Prelude.{◌≡◌, length};
ghost use Rattle.star_lex.specs.Tokens.{opening};

// How many bytes of a token stand before its content, by the number of its kind; 0 where no kind has the number.
#[tactic(auto, unfolding(crate::specs::Tokens::opening, crate::specs::Tokens::data_word, crate::specs::Tokens::save_word))]
pub fn lead(kind: u32) -> usize
    ensures { result ≡ length (opening kind) }
{
    match kind {
        1 | 2 => 5,
        8..=11 => 1,
        _ => 0,
    }
}
