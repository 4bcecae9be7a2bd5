// The kinds of tokens, by the numbers that table 1 has for them.
ghost use Rattle.std.specs.Prelude.{◌≡◌, length};
ghost use Rattle.star_lex.specs.Kinds.{number, Decodes};
ghost use Rattle.star_lex.specs.Tokens.{opening};

use std::fmt;

// What a token is: a heading, a keyword, a name, or one of the five forms of a value.
#[derive(Clone, Copy, Debug, PartialEq, Eq)]
pub enum Kind {
    Block = 1,
    Frame = 2,
    FrameEnd = 3,
    Loop = 4,
    Stop = 5,
    Name = 6,
    Word = 7,
    Reference = 8,
    SingleQuoted = 9,
    DoubleQuoted = 10,
    Field = 11,
    Global = 12,
}

// A number that no kind has.
#[derive(Clone, Copy, Debug, PartialEq, Eq)]
pub struct NoKind(pub u32);

impl Kind {
    // Its number in table 1.
    pub fn number(self) -> u32
        ensures { result ≡ number self }
    {
        self as u32
    }

    // How many bytes of such a token stand before its content.
    #[tactic(auto, unfolding(crate::specs::Tokens::opening, crate::specs::Tokens::data_word, crate::specs::Tokens::save_word))]
    pub fn lead(self) -> usize
        ensures { result ≡ length (opening (number self)) }
    {
        match self {
            Kind::Block | Kind::Frame => 5,
            Kind::Reference | Kind::SingleQuoted | Kind::DoubleQuoted | Kind::Field => 1,
            _ => 0,
        }
    }
}

impl TryFrom<u32> for Kind {
    type Error = NoKind;

    ghost try_from_gives = { Decodes };

    fn try_from(word: u32) -> Result<Self, NoKind> {
        match word {
            1 => Ok(Kind::Block),
            2 => Ok(Kind::Frame),
            3 => Ok(Kind::FrameEnd),
            4 => Ok(Kind::Loop),
            5 => Ok(Kind::Stop),
            6 => Ok(Kind::Name),
            7 => Ok(Kind::Word),
            8 => Ok(Kind::Reference),
            9 => Ok(Kind::SingleQuoted),
            10 => Ok(Kind::DoubleQuoted),
            11 => Ok(Kind::Field),
            12 => Ok(Kind::Global),
            _ => Err(NoKind(word)),
        }
    }
}

impl fmt::Display for NoKind {
    fn fmt<W: fmt::Write>(&self, f: &mut fmt::Formatter<W>) -> fmt::Result {
        write!(f, "no kind of token has the number {}", self.0)
    }
}
