// Every refusal of the planner, with the place that it speaks of.
ghost use Rattle.std.specs.Prelude.{◌≡◌, Some};
ghost use Rattle.records.specs.Refusals.{number, place};
ghost use Rattle.records.specs.Words.{refusal_words};

use std::error::Error;
use std::fmt;

#[derive(Clone, Copy, PartialEq, Eq, Debug)]
pub enum Refusal {
    // the text is longer than a reader takes
    TextTooLong,
    // no form fits a line
    LineOutOfForm { line: usize },
    // a line stands where its kind may not
    LineOutOfOrder { line: usize },
    // a field of a line is outside its range
    FieldOutOfRange { line: usize },
    // the handed tables have no room for what a line announces
    TablesTooShort { line: usize },
    // there are more or fewer arc lines than announced, or nothing was announced
    ArcsMiscounted { line: usize },
    // the station that reports is not an open station
    StationNotOpen { station: usize },
    // the reported balance is outside -500 to 500
    BalanceOutOfRange { station: usize },
    // the leg to close or reopen is not a road leg
    NotARoadLeg { leg: usize },
    // the leg to close is shut, or the leg to reopen is open
    MarkUnchanged { leg: usize },
    // a slice or a working table that was handed in is too short
    SliceTooShort,
    // a leg makes no sense: an end that is no station, equal ends, too large a capacity or charge
    SenselessLeg { leg: usize },
    // a balance is too far from zero to plan with
    BalanceTooLarge { station: usize },
    // the balances do not sum to zero
    UnevenBalances,
    // no plan obeys: more bikes have to leave the cut's stations than can
    NoPlanObeys { cut: usize },
}

impl Refusal {
    // The number under which the refusal is known.
    pub fn number(&self) -> u8
        ensures { result ≡ number self.now }
    {
        match self {
            Refusal::TextTooLong => 1,
            Refusal::LineOutOfForm { .. } => 2,
            Refusal::LineOutOfOrder { .. } => 3,
            Refusal::FieldOutOfRange { .. } => 4,
            Refusal::TablesTooShort { .. } => 5,
            Refusal::ArcsMiscounted { .. } => 6,
            Refusal::StationNotOpen { .. } => 7,
            Refusal::BalanceOutOfRange { .. } => 8,
            Refusal::NotARoadLeg { .. } => 9,
            Refusal::MarkUnchanged { .. } => 10,
            Refusal::SliceTooShort => 11,
            Refusal::SenselessLeg { .. } => 12,
            Refusal::BalanceTooLarge { .. } => 13,
            Refusal::UnevenBalances => 14,
            Refusal::NoPlanObeys { .. } => 15,
        }
    }

    // Where the fault lies: the line, counted from 1; the station; the leg; how many stations are in the cut. No option:
    // each refusal is told with a number and a place, 0 where it has none.
    pub fn place(&self) -> usize
        ensures { result ≡ place self.now }
    {
        match *self {
            Refusal::LineOutOfForm { line }
            | Refusal::LineOutOfOrder { line }
            | Refusal::FieldOutOfRange { line }
            | Refusal::TablesTooShort { line }
            | Refusal::ArcsMiscounted { line } => line,
            Refusal::StationNotOpen { station }
            | Refusal::BalanceOutOfRange { station }
            | Refusal::BalanceTooLarge { station } => station,
            Refusal::NotARoadLeg { leg }
            | Refusal::MarkUnchanged { leg }
            | Refusal::SenselessLeg { leg } => leg,
            Refusal::NoPlanObeys { cut } => cut,
            Refusal::TextTooLong | Refusal::SliceTooShort | Refusal::UnevenBalances => 0,
        }
    }
}

// `refused NUMBER PLACE`
impl fmt::Display for Refusal {
    ghost output = { λ e. Some (refusal_words (number e) (place e)) };

    fn fmt<W: fmt::Write>(&self, f: &mut fmt::Formatter<W>) -> fmt::Result {
        let number = self.number();
        let place = self.place();
        write!(f, "refused {number} {place}")
    }
}

impl Error for Refusal {}
