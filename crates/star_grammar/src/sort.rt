// What tokens are to the grammar.
ghost use Rattle.std.specs.Prelude.{◌≡◌};
ghost use Rattle.star_grammar.specs.Machine.{sort_of};
ghost use Rattle.star_grammar.specs.Sorted.{meant};

// What a token is to the grammar: a heading, a keyword, a name, or a value of any form.
#[derive(Clone, Copy, Debug, PartialEq, Eq)]
pub enum Sort {
    Block,
    Frame,
    FrameEnd,
    Loop,
    Stop,
    Name,
    Value,
    Global,
}

// The sort of a kind of token; a number that no kind has counts as a value's.
impl From<u32> for Sort {
    ghost from_gives = { λ kind sort. meant sort ≡ sort_of kind };

    #[tactic(auto, unfolding(crate::specs::Machine::sort_of))]
    fn from(kind: u32) -> Self {
        match kind {
            1 => Sort::Block,
            2 => Sort::Frame,
            3 => Sort::FrameEnd,
            4 => Sort::Loop,
            5 => Sort::Stop,
            6 => Sort::Name,
            12 => Sort::Global,
            _ => Sort::Value,
        }
    }
}
