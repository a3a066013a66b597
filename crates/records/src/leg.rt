// A leg: a road from one station to another that vans use.

ghost use Rattle.std.specs.Prelude.{Some};
ghost use Rattle.records.specs.Words.{mark_word};

use std::fmt;

// Whether a leg may be used.
#[derive(Clone, Copy, PartialEq, Eq, Debug, Default)]
pub enum Mark {
    #[default]
    Open,
    Shut,
}

// `open` or `shut`
impl fmt::Display for Mark {
    ghost output = { λ mark. Some (mark_word mark) };

    fn fmt<W: fmt::Write>(&self, f: &mut fmt::Formatter<W>) -> fmt::Result {
        f.write_str(match self {
            Mark::Open => "open",
            Mark::Shut => "shut",
        })
    }
}

// Where a leg starts and ends, how many bikes may go over it, and the cents that each costs.
#[derive(Clone, Copy, PartialEq, Eq, Debug, Default)]
pub struct Leg {
    pub start: u16,
    pub end: u16,
    pub capacity: u16,
    pub charge: u32,
    pub mark: Mark,
}
