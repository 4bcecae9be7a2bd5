// The kind of a word.
ghost use Rattle.std.specs.Prelude.{◌≡◌, List, ℕ, length};
ghost use Rattle.star_lex.specs.Kinds.{number};
ghost use Rattle.star_lex.specs.Rules.{today};
ghost use Rattle.star_lex.specs.Split.{limited, block_word, frame_word, name_word, reference_word, word_lexeme, alone as split_alone};
ghost use Rattle.star_lex.specs.Answer.{word_answer, word_found};

use star_lex::kind::Kind;
use star_text::refusal::Reason;

// The most bytes that a name or a code may have.
const LONGEST: usize = 75;

// A name or code of so many bytes.
fn limit(kind: Kind, len: usize) -> Result<Kind, Reason>
    ensures { (more : ℕ) (content : List ℕ) → length content ≡ len → word_found result ≡ word_answer (limited today more (number kind) content) }
{
    if LONGEST < len {
        Err(Reason::LongName)
    } else {
        Ok(kind)
    }
}

// A heading's code, from after its `data_`.
fn block(code: &[u8]) -> Result<Kind, Reason>
    ensures { (more : ℕ) → word_found result ≡ word_answer (block_word today more code.now) }
{
    if code.is_empty() {
        Err(Reason::IllFormed)
    } else {
        limit(Kind::Block, code.len())
    }
}

// A frame's code, from after its `save_`; where there is none, the end of a frame.
fn frame(code: &[u8]) -> Result<Kind, Reason>
    ensures { (more : ℕ) → word_found result ≡ word_answer (frame_word today more code.now) }
{
    if code.is_empty() {
        Ok(Kind::FrameEnd)
    } else {
        limit(Kind::Frame, code.len())
    }
}

// A keyword that stands alone, with what follows it.
fn alone(kind: Kind, rest: &[u8]) -> Result<Kind, Reason>
    ensures { (more : ℕ) (w : List ℕ) → word_found result ≡ word_answer (split_alone more (number kind) w rest.now) }
{
    if rest.is_empty() {
        Ok(kind)
    } else {
        Err(Reason::IllFormed)
    }
}

// A name, from after its underscore.
fn name(letters: &[u8]) -> Result<Kind, Reason>
    ensures { (more : ℕ) → word_found result ≡ word_answer (name_word today more letters.now) }
{
    if letters.is_empty() {
        Err(Reason::IllFormed)
    } else {
        limit(Kind::Name, 1 + letters.len())
    }
}

// A reference, from after its `$`, which alone is a word as any other.
fn reference(code: &[u8]) -> Result<Kind, Reason>
    ensures { (more : ℕ) → word_found result ≡ word_answer (reference_word more code.now) }
{
    if code.is_empty() {
        Ok(Kind::Word)
    } else {
        Ok(Kind::Reference)
    }
}

// The kind of a word.
pub fn word_kind(word: &[u8]) -> Result<Kind, Reason>
    ensures { (more : ℕ) → word_found result ≡ word_answer (word_lexeme today more word.now) }
{
    let [first, rest @ ..] = word else {
        return Ok(Kind::Word);
    };
    match first {
        b'd' => match word.strip_prefix(b"data_") {
            Some(code) => block(code),
            None => Ok(Kind::Word),
        },
        b'g' => match word.strip_prefix(b"global_") {
            Some(others) => alone(Kind::Global, others),
            None => Ok(Kind::Word),
        },
        b'l' => match word.strip_prefix(b"loop_") {
            Some(others) => alone(Kind::Loop, others),
            None => Ok(Kind::Word),
        },
        b's' => match word.strip_prefix(b"save_") {
            Some(code) => frame(code),
            None => match word.strip_prefix(b"stop_") {
                Some(others) => alone(Kind::Stop, others),
                None => Ok(Kind::Word),
            },
        },
        b'_' => name(rest),
        b'$' => reference(rest),
        _ => Ok(Kind::Word),
    }
}
