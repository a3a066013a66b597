// How a search ends.
ghost use Rattle.std.specs.Prelude.{Some};
ghost use Rattle.search.specs.Words.{outcome_words};

use std::fmt;

/// What a search has found out.
#[derive(Clone, Copy, PartialEq, Eq, Debug)]
pub enum Outcome {
    /// every label is the least total of the walks to its station
    Settled,
    /// a round trip that totals below zero can be reached from a start
    RoundTrip,
}

/// `settled`, or `a round trip below zero`.
impl fmt::Display for Outcome {
    ghost output = { λ outcome. Some (outcome_words outcome) };

    fn fmt<W: fmt::Write>(&self, f: &mut fmt::Formatter<W>) -> fmt::Result {
        f.write_str(match self {
            Outcome::Settled => "settled",
            Outcome::RoundTrip => "a round trip below zero",
        })
    }
}
