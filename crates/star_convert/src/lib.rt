// Converting a STAR File from one layout into the other: its plain form there, into lent bytes.
#![tactic(auto)]

mod frames;

ghost use Rattle.star_rows.specs.Tables.{Same};
ghost use Rattle.star_read.specs.Answer.{held};
ghost use Rattle.star_write.specs.Answer.{written_of};
ghost use Rattle.star_convert.specs.Convert.{Converts};

use star_rows::Tables;
use star_text::refusal::Refusal;
use star_write::PlainForm;

// Reads a file in a layout, 0 or 1, into the five tables and writes its plain form in the other: the file's own, in which the words that close frames are then exchanged. On a refusal
// tables and output are all 0.
pub fn convert(
    file: &[u8],
    layout: u32,
    tables: &mut Tables,
    out: &mut [u8],
) -> Result<PlainForm, Refusal>
    ensures converts { Converts layout file.now (held tables.old) (held tables.new) out.old out.new (written_of result) }
    ensures same { Same tables.old tables.new }
{
    let written = star_write::write_layout(file, layout, tables, out)?;
    frames::exchange(
        file,
        layout,
        tables.tokens,
        written.counts.tokens as usize,
        out,
    );
    Ok(written)
}
