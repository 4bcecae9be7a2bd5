// The packets of a loop: level by level, each packet with the packets inside it.
ghost use Rattle.std.specs.Prelude.{◌≡◌, List, ◌∷◌, ℕ, ◌+◌, ◌-◌, ◌≤◌, ◌<◌, length, get_or};
ghost use Rattle.star_lex.specs.Rules.{Rules};
ghost use Rattle.star_grammar.specs.Machine.{Where, Level, body, filled};
ghost use Rattle.star_parse.specs.Parsed.{FourTables, four_tables};
ghost use Rattle.star_parse.specs.Reached.{going, reached};
ghost use Rattle.star_parse.specs.Reader.{sort_at, Ahead, Ready, Onward, LeadsWith, InLoop, Around, name_at, back_to, Columns, Filling, inner_of, level_of, deeper_of, at_level, partly};

use crate::Stopped;
use crate::progress::{Progress, next_is};
use star_grammar::sort::Sort;
use star_text::refusal::Reason;

// The most levels that a loop may have.
pub const LEVELS: usize = 8;

// Where in a loop the reader is: the number of names of each level, how many levels there are, the current one, from 0, how many names it has and how
// many values its packet, the row of its first name, and the packet around it.
#[derive(Clone, Copy)]
pub struct LoopState {
    pub counts: [u32; LEVELS],
    pub levels: usize,
    pub level: usize,
    pub names: u32,
    pub filled: u32,
    pub first: u32,
    pub parent: u32,
}

// The level inside, before its first packet, in a packet of this number.
fn deeper(s: LoopState, packet: u32) -> LoopState
    requires in_loop { InLoop s }
    requires level_bound { s.level + 1 < s.levels }
    ensures { result ≡ deeper_of s packet }
{
    let level = s.level + 1;
    LoopState {
        level,
        names: s.counts[level],
        filled: 0,
        first: s.first + s.names,
        parent: packet,
        ..s
    }
}

// How many rows before a packet's first value row the last packet of the level began, where that row comes after so many: 0 where there was none.
fn back_to(began: u32, rows: u32) -> u32
    ensures { result ≡ back_to began rows }
{
    if began == 0 {
        0
    } else if rows < began {
        0
    } else {
        rows - (began - 1)
    }
}

// The rest of a packet's own values, of a packet of this number. The last value of each name is so many rows before.
fn read_values(
    tokens: &[u32],
    count: usize,
    s: LoopState,
    packet: u32,
    back: u32,
    p: Progress,
    values: &mut [u32],
) -> Result<Progress, Stopped>
    requires ready { Ready count tokens.now (going p) }
    requires in_loop { InLoop s }
    requires filled_nonzero { 0 < s.filled }
    requires filled_bound { s.filled ≤ get_or s.counts s.level 0 }
    requires back_le_values { back ≤ p.values }
    ensures onward { Onward count tokens.now p.at (reached result)
        ((rules : Rules) (w : Where) (outer : List Level) (base : ℕ) (began sets names packets : List ℕ) → s.first ≡ name_at base s.counts s.level
        → back ≡ back_to (get_or began s.level 0) (p.values - s.filled)
        → LeadsWith rules count tokens.now
        (partly w outer (level_of s packet) (inner_of s) s.filled) (Filling base s.counts s.levels s.level s.filled began) (going p)
        (four_tables sets names packets values.old)
        (filled w outer (level_of s packet) (inner_of s)) (Filling base s.counts s.levels s.level (get_or s.counts s.level 0) began) (reached result)
        (four_tables sets names packets values.new)) }
    ensures filled_value { (reached result).refusal ≡ 0 → (reached result).values + s.filled ≡ p.values + get_or s.counts s.level 0 }
{
    let mut p = p;
    for filled in s.filled..s.names {
        if !next_is(tokens, count, p.at, Sort::Value) {
            return Err(p.stop(Reason::Incomplete));
        }
        p = p.put_value(s.first + filled, packet, back, values);
    }
    Ok(p)
}

// A packet's row and its own values, one for each name of its level. A value comes next. `began` has for each level the value row at which its last
// packet began, 0 where there was none.
fn read_own(
    tokens: &[u32],
    count: usize,
    s: LoopState,
    p: Progress,
    began: &mut [u32],
    packets: &mut [u32],
    values: &mut [u32],
) -> Result<Progress, Stopped>
    requires ready { Ready count tokens.now (going p) }
    requires ahead { Ahead count tokens.now p.at 7 }
    requires in_loop { InLoop s }
    requires filled_value { s.filled ≡ 0 }
    requires began_len { length began.old ≡ 8 }
    ensures { Onward count tokens.now (p.at + 1) (reached result)
        ((rules : Rules) (w : Where) (outer : List Level) (base : ℕ) (sets names : List ℕ) → Around s outer base
        → LeadsWith rules count tokens.now (at_level w outer s) (Columns base s.counts s.levels began.old) (going p)
        (four_tables sets names packets.old values.old)
        (filled w outer (level_of s (p.packets + 1)) (inner_of s)) (Columns base s.counts s.levels began.new) (reached result)
        (four_tables sets names packets.new values.new)) }
{
    let level = s.level;
    let back = back_to(began[level], p.values);
    began[level] = p.values + 1;
    let p = p.put_packet((s.level + 1) as u32, s.parent, packets);
    let packet = p.packets;
    let p = p.put_value(s.first + s.filled, packet, back, values);
    let begun = LoopState {
        filled: s.filled + 1,
        ..s
    };
    read_values(tokens, count, begun, packet, back, p, values)
}

// The `stop_` of an inner level, where no value comes.
fn read_stop(tokens: &[u32], count: usize, p: Progress) -> Result<Progress, Stopped>
    requires ready { Ready count tokens.now (going p) }
    requires fact { sort_at count tokens.now p.at ≡ 7 → ⊥ }
    ensures { Onward count tokens.now p.at (reached result)
        ((rules : Rules) (w : Where) (around l : Level) (outer : List Level) (inner : List ℕ) (t : FourTables) (base : ℕ) (counts : List ℕ) (levels : ℕ) (began : List ℕ)
        → LeadsWith rules count tokens.now (body w (around ∷ outer) l inner 0) (Columns base counts levels began) (going p) t
        (body w outer around (l.names ∷ inner) 0) (Columns base counts levels began) (reached result) t) }
{
    if next_is(tokens, count, p.at, Sort::Stop) {
        Ok(p.passed())
    } else {
        Err(p.stop(Reason::Incomplete))
    }
}

// A packet: one value for each name of its level and, if there is a deeper level, that level's packets and one `stop_`. A value comes next.
#[cycle(read_level_read_packet)]
fn read_packet(
    tokens: &[u32],
    count: usize,
    s: LoopState,
    p: Progress,
    began: &mut [u32],
    packets: &mut [u32],
    values: &mut [u32],
) -> Result<Progress, Stopped>
    requires ready { Ready count tokens.now (going p) }
    requires ahead { Ahead count tokens.now p.at 7 }
    requires in_loop { InLoop s }
    requires filled_value { s.filled ≡ 0 }
    requires began_len { length began.old ≡ 8 }
    ensures { Onward count tokens.now (p.at + 1) (reached result)
        ((rules : Rules) (w : Where) (outer : List Level) (base : ℕ) (sets names : List ℕ) → Around s outer base
        → LeadsWith rules count tokens.now (at_level w outer s) (Columns base s.counts s.levels began.old) (going p)
        (four_tables sets names packets.old values.old)
        (at_level w outer s) (Columns base s.counts s.levels began.new) (reached result)
        (four_tables sets names packets.new values.new)) }
{
    let packet = p.packets + 1;
    let own = read_own(tokens, count, s, p, began, packets, values)?;
    if s.level + 1 == s.levels {
        return Ok(own);
    }
    let p = read_level(
        tokens,
        count,
        deeper(s, packet),
        own,
        began,
        packets,
        values,
    )?;
    read_stop(tokens, count, p)
}

// The packets of a level, up to a token that is no value.
#[cycle(read_level_read_packet)]
pub(crate) fn read_level(
    tokens: &[u32],
    count: usize,
    s: LoopState,
    p: Progress,
    began: &mut [u32],
    packets: &mut [u32],
    values: &mut [u32],
) -> Result<Progress, Stopped>
    requires ready { Ready count tokens.now (going p) }
    requires in_loop { InLoop s }
    requires filled_value { s.filled ≡ 0 }
    requires began_len { length began.old ≡ 8 }
    ensures onward { Onward count tokens.now p.at (reached result)
        ((rules : Rules) (w : Where) (outer : List Level) (base : ℕ) (sets names : List ℕ) → Around s outer base
        → LeadsWith rules count tokens.now (at_level w outer s) (Columns base s.counts s.levels began.old) (going p)
        (four_tables sets names packets.old values.old)
        (at_level w outer s) (Columns base s.counts s.levels began.new) (reached result)
        (four_tables sets names packets.new values.new)) }
    ensures fact { (reached result).refusal ≡ 0 → sort_at count tokens.now (reached result).at ≡ 7 → ⊥ }
{
    let mut p = p;
    while next_is(tokens, count, p.at, Sort::Value) {
        p = read_packet(tokens, count, s, p, began, packets, values)?;
    }
    Ok(p)
}
