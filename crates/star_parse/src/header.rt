// The header of a loop: its levels' names and its header stops.
ghost use Rattle.std.specs.Prelude.{◌≡◌, List, ℕ, suc, ◌+◌, ◌-◌, ◌<◌, length};
ghost use Rattle.star_lex.specs.Rules.{Rules, today, at_stops};
ghost use Rattle.star_grammar.specs.Machine.{Where, set_of, within, header};
ghost use Rattle.star_parse.specs.Parsed.{FourTables, four_tables};
ghost use Rattle.star_parse.specs.Reached.{going, reached};
ghost use Rattle.star_parse.specs.Reader.{Ahead, NoEntry, Ready, Onward, LeadsWith, Leads, PassesWith, Unvalued, Between, Names, Stops, InLoop, Outermost, Header, name_at};

use crate::packets::{LEVELS, LoopState};
use crate::progress::{Progress, next_is};
use crate::{Stopped, packets};
use star_grammar::sort::Sort;
use star_text::refusal::Reason;

// The names of a level, up to a token that is none.
fn read_names(
    tokens: &[u32],
    count: usize,
    set: u32,
    level: u32,
    p: Progress,
    names: &mut [u32],
) -> Progress
    requires { Ready count tokens.now (going p) }
    ensures { Names count tokens.now (going p) (going result)
        ((rules : Rules) (w : Where) (first : ℕ) (outer : List ℕ) (sets packets values : List ℕ) → set_of w ≡ set → suc (length outer) ≡ level
        → PassesWith rules count tokens.now (header w first outer 0 0) (Unvalued first) (going p) (four_tables sets names.old packets values)
        (header w first outer (result.names - p.names) 0) (Unvalued first) (going result) (four_tables sets names.new packets values)) }
{
    let mut p = p;
    while next_is(tokens, count, p.at, Sort::Name) {
        p = p.put_name(set, p.loops, level, names);
    }
    p
}

// The header stops, at most one for each inner level; where they are not allowed, the first is refused.
fn read_stops(
    tokens: &[u32],
    count: usize,
    inner: usize,
    p: Progress,
    allowed: bool,
) -> Result<Progress, Stopped>
    requires { Ready count tokens.now (going p) }
    ensures { Stops count tokens.now inner (going p) (reached result)
        ((w : Where) (first : ℕ) (outer : List ℕ) (n : ℕ) (t : FourTables) → 0 < n → length outer ≡ inner
        → LeadsWith (at_stops today allowed) count tokens.now (header w first outer n 0) (Unvalued first) (going p) t (header w first outer n ((reached result).at - p.at)) (Unvalued first) (reached result) t) }
{
    let mut p = p;
    for stops in 0..inner {
        if !next_is(tokens, count, p.at, Sort::Stop) {
            return Ok(p);
        }
        if !allowed {
            return Err(p.stop(Reason::HeaderStop));
        }
        p = p.passed();
    }
    Ok(p)
}

// The header stops, if they are allowed, and the packets of a loop, after its names.
fn read_packets(
    tokens: &[u32],
    count: usize,
    s: LoopState,
    p: Progress,
    packets: &mut [u32],
    values: &mut [u32],
    stops: bool,
) -> Result<Progress, Stopped>
    requires ready { Ready count tokens.now (going p) }
    requires no_entry { NoEntry count tokens.now p.at }
    requires in_loop { InLoop s }
    requires outermost { Outermost s }
    requires levels_value { name_at s.first s.counts s.levels ≡ p.names + 1 }
    ensures { Onward count tokens.now p.at (reached result)
        ((w : Where) (outer : List ℕ) (n : ℕ) (sets names : List ℕ) → Header s outer n
        → LeadsWith (at_stops today stops) count tokens.now (header w s.first outer n 0) (Unvalued s.first) (going p)
        (four_tables sets names packets.old values.old)
        (within w) Between (reached result) (four_tables sets names packets.new values.new)) }
{
    let p = read_stops(tokens, count, s.levels - 1, p, stops)?;
    if !next_is(tokens, count, p.at, Sort::Value) {
        return Err(p.stop(Reason::OutOfPlace));
    }
    let mut began = [0u32; LEVELS];
    packets::read_level(tokens, count, s, p, &mut began, packets, values)
}

// A loop: its header from `loop_` on, and its packets.
pub(crate) fn read_loop(
    tokens: &[u32],
    count: usize,
    set: u32,
    p: Progress,
    names: &mut [u32],
    packets: &mut [u32],
    values: &mut [u32],
    stops: bool,
) -> Result<Progress, Stopped>
    requires ready { Ready count tokens.now (going p) }
    requires ahead { Ahead count tokens.now p.at 4 }
    ensures { Onward count tokens.now (p.at + 1) (reached result)
        ((w : Where) (sets : List ℕ) → set_of w ≡ set
        → Leads (at_stops today stops) count tokens.now (within w) (going p) (four_tables sets names.old packets.old values.old)
        (within w) (reached result) (four_tables sets names.new packets.new values.new)) }
{
    let mut p = p.opened();
    let first = p.names + 1;
    let mut counts = [0u32; LEVELS];
    let mut level = 0;
    loop {
        let before = p.names;
        p = read_names(tokens, count, set, (level + 1) as u32, p, names);
        let n = p.names - before;
        if n == 0 {
            return Err(p.stop(Reason::OutOfPlace));
        }
        counts[level] = n;
        if !next_is(tokens, count, p.at, Sort::Loop) {
            let s = LoopState {
                counts,
                levels: level + 1,
                level: 0,
                names: counts[0],
                filled: 0,
                first,
                parent: 0,
            };
            return read_packets(tokens, count, s, p, packets, values, stops);
        }
        if level + 1 == LEVELS {
            return Err(p.stop(Reason::TooDeep));
        }
        p = p.passed();
        level += 1;
    }
}
