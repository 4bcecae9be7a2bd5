// How far a row of tokens has come, as far as that tells which `stop_` closes a frame.
ghost use Rattle.std.specs.Prelude.{◌≡◌, ◌≤◌, ◌<◌, take};
ghost use Rattle.star_text.specs.Bytes.{most_bytes};
ghost use Rattle.star_grammar.specs.Layout.{outside, is_between, today_kind, pass_loop, pass_name, pass_stop, fill_one, pass_value, pass_kind};
ghost use Rattle.star_frames.specs.Tracked.{track_of, Tracks, Ready};

use star_grammar::sort::Sort;
use star_lex::kind::Kind;

// The most levels that a loop may have.
const LEVELS: usize = 8;

// The part of a set that a row has come to: outside of loops; in a loop's header; or in its packets, at this level, from 0, with so many values in its packet.
#[derive(Clone, Copy)]
pub enum Part {
    Outside,
    Header,
    Packets { level: usize, filled: u32 },
}

// How far a row has come: whether a frame is open; the part; and the number of names of each level of the loop, of which there are so many.
#[derive(Clone, Copy)]
pub struct Progress {
    pub inside: bool,
    pub part: Part,
    pub counts: [u32; LEVELS],
    pub levels: usize,
}

impl Progress {
    // Outside of loops.
    #[tactic(auto, unfolding(crate::specs::Tracked::track_of, star_grammar::specs::Layout::outside))]
    pub(crate) fn outside(inside: bool) -> Progress
        ensures { Tracks result (outside inside) }
    {
        Progress {
            inside,
            part: Part::Outside,
            counts: [0; LEVELS],
            levels: 0,
        }
    }

    // Whether a `stop_` closes a frame here: outside of loops, or in level 1 with no packet begun.
    #[tactic(auto, unfolding(crate::specs::Tracked::track_of, star_grammar::specs::Layout::is_between))]
    fn is_between(self) -> bool
        ensures { result ≡ is_between (track_of self) }
    {
        match self.part {
            Part::Outside => true,
            Part::Header => false,
            Part::Packets { level, filled } => level == 0 && filled == 0,
        }
    }

    // The kind that a token has in today's layout.
    #[tactic(auto, unfolding(crate::specs::Tracked::track_of, star_grammar::specs::Layout::today_kind))]
    pub(crate) fn today_kind(self, kind: u32) -> u32
        ensures { result ≡ today_kind (track_of self) kind }
    {
        if !self.inside {
            return kind;
        }
        if kind == Kind::FrameEnd.number() {
            Kind::Global.number()
        } else if kind == Kind::Stop.number() && self.is_between() {
            Kind::FrameEnd.number()
        } else {
            kind
        }
    }

    // After `loop_`: in a header a level more, if there may be one; else a header.
    #[tactic(auto, unfolding(crate::specs::Tracked::track_of, star_grammar::specs::Layout::pass_loop))]
    fn pass_loop(self) -> Progress
        requires { Ready self }
        ensures { Tracks result (pass_loop 8 (track_of self)) }
    {
        match self.part {
            Part::Header if self.levels == LEVELS => Progress::outside(false),
            Part::Header => {
                let mut p = self;
                p.counts[self.levels] = 0;
                p.levels += 1;
                p
            }
            _ => Progress {
                part: Part::Header,
                counts: [0; LEVELS],
                levels: 1,
                ..self
            },
        }
    }

    // After a name: in a header one more of its level; else outside of loops.
    #[tactic(auto, unfolding(crate::specs::Tracked::track_of, star_grammar::specs::Layout::pass_name))]
    fn pass_name(self) -> Progress
        requires { Ready self }
        ensures { Tracks result (pass_name (track_of self)) }
    {
        match self.part {
            Part::Header => {
                let mut p = self;
                p.counts[self.levels - 1] += 1;
                p
            }
            _ => Progress::outside(self.inside),
        }
    }

    // After a `stop_` that closes no frame: with no packet begun, out of an inner level.
    #[tactic(auto, unfolding(crate::specs::Tracked::track_of, star_grammar::specs::Layout::pass_stop))]
    fn pass_stop(self) -> Progress
        requires { Ready self }
        ensures { Tracks result (pass_stop (track_of self)) }
    {
        match self.part {
            Part::Packets { level, filled: 0 } if level != 0 => {
                let part = Part::Packets {
                    level: level - 1,
                    filled: 0,
                };
                Progress { part, ..self }
            }
            _ => self,
        }
    }

    // After a value of a packet of this level, which has so many values before it: after the last the deeper level, if there is one.
    #[tactic(auto, unfolding(crate::specs::Tracked::track_of, star_grammar::specs::Layout::fill_one))]
    fn fill_one(self, level: usize, filled: u32) -> Progress
        requires ready { Ready self }
        requires level_lt_levels { level < self.levels }
        requires filled_le_most_bytes { filled ≤ most_bytes }
        ensures { Tracks result (fill_one self.inside (take self.levels self.counts) level filled) }
    {
        let deeper = level + 1;
        let part = if filled + 1 < self.counts[level] {
            Part::Packets {
                level,
                filled: filled + 1,
            }
        } else if deeper < self.levels {
            Part::Packets {
                level: deeper,
                filled: 0,
            }
        } else {
            Part::Packets { level, filled: 0 }
        };
        Progress { part, ..self }
    }

    // After a value: the first after a header begins level 1.
    #[tactic(auto, unfolding(crate::specs::Tracked::track_of, star_grammar::specs::Layout::pass_value))]
    fn pass_value(self) -> Progress
        requires { Ready self }
        ensures { Tracks result (pass_value (track_of self)) }
    {
        match self.part {
            Part::Outside => self,
            Part::Header => self.fill_one(0, 0),
            Part::Packets { level, filled } => self.fill_one(level, filled),
        }
    }

    // After a token of this kind of today's layout.
    #[tactic(auto, unfolding(star_grammar::specs::Layout::pass_kind, star_grammar::specs::Layout::pass_sort))]
    pub(crate) fn pass(self, kind: u32) -> Progress
        requires { Ready self }
        ensures { Tracks result (pass_kind 8 (track_of self) kind) }
    {
        match Sort::from(kind) {
            Sort::Block => Progress::outside(false),
            Sort::Frame => Progress::outside(true),
            Sort::FrameEnd => Progress::outside(false),
            Sort::Loop => self.pass_loop(),
            Sort::Stop => self.pass_stop(),
            Sort::Name => self.pass_name(),
            Sort::Value => self.pass_value(),
            Sort::Global => Progress::outside(false),
        }
    }
}
