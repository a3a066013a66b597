// The calls of a board. A slice that is handed in with a call is given by its length.
ghost use Rattle.std.specs.Prelude.{Some};
ghost use Rattle.tally.specs.Texts.{call_text};

use planning_rules::Lengths;
use std::fmt;

#[derive(Clone, Copy, PartialEq, Eq, Debug)]
pub enum Call {
    // an open station reports its balance
    Report { station: usize, balance: i32 },
    // a road leg is shut
    Close { leg: usize },
    // a road leg is opened again
    Reopen { leg: usize },
    // a new plan is made, with slices and working tables of such lengths
    Plan { lengths: Lengths },
    // the short stations are listed
    ListStations { length: usize },
    // the running legs are listed
    ListRuns { length: usize },
    // the standing amount of a leg is read
    Read { leg: usize },
}

impl fmt::Display for Call {
    ghost output = { λ call. Some (call_text call) };

    fn fmt<W: fmt::Write>(&self, f: &mut fmt::Formatter<W>) -> fmt::Result {
        match *self {
            Call::Report { station, balance } => write!(f, "report {station} {balance}"),
            Call::Close { leg } => write!(f, "close {leg}"),
            Call::Reopen { leg } => write!(f, "reopen {leg}"),
            // by its fields: the order and the spaces are those of a call, lengths by themselves are written nowhere
            Call::Plan { lengths } => write!(
                f,
                "plan {} {} {} {}",
                lengths.prices, lengths.cut, lengths.station_entries, lengths.leg_entries,
            ),
            Call::ListStations { length } => write!(f, "stations {length}"),
            Call::ListRuns { length } => write!(f, "runs {length}"),
            Call::Read { leg } => write!(f, "read {leg}"),
        }
    }
}
