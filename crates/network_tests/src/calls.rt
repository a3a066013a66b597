// Makes the calls of an office, and prints what each answered.
use crate::print;
use network::Office;
use std::{fmt, io};

// A call of an office. The rules of a board have calls that these are three of; they stand above what is tested here.
#[derive(Clone, Copy)]
pub(crate) enum Call {
    Report { station: usize, balance: i32 },
    Close { leg: usize },
    Reopen { leg: usize },
}

impl fmt::Display for Call {
    fn fmt<W: fmt::Write>(&self, f: &mut fmt::Formatter<W>) -> fmt::Result {
        match *self {
            Call::Report { station, balance } => write!(f, "report {station} {balance}"),
            Call::Close { leg } => write!(f, "close {leg}"),
            Call::Reopen { leg } => write!(f, "reopen {leg}"),
        }
    }
}

// One call.
pub(crate) fn make<N: Office>(rt: &HostRuntime, office: &mut N, call: Call) -> io::Result<()> {
    let answer = match call {
        Call::Report { station, balance } => office.report(station, balance),
        Call::Close { leg } => office.close(leg),
        Call::Reopen { leg } => office.reopen(leg),
    };
    print::answer(rt, &call, answer)
}

// Every refusal on both sides of its limit, and which of two counts.
pub(crate) fn refusals<N: Office>(rt: &HostRuntime, office: &mut N) -> io::Result<()> {
    let closed = office.open_stations();
    let station = closed.saturating_sub(1);
    let beyond = office.road_legs();
    let leg = beyond.saturating_sub(1);
    let calls = [
        Call::Report {
            station: closed,
            balance: 0,
        },
        Call::Report {
            station: closed,
            balance: 501,
        },
        Call::Report {
            station,
            balance: 501,
        },
        Call::Report {
            station,
            balance: -501,
        },
        Call::Report {
            station,
            balance: 500,
        },
        Call::Report {
            station,
            balance: -500,
        },
        Call::Close { leg: beyond },
        Call::Reopen { leg: beyond },
        Call::Reopen { leg },
        Call::Close { leg },
        Call::Close { leg },
    ];
    for call in calls {
        make(rt, office, call)?;
    }
    Ok(())
}

// The leg that `refusals` leaves shut is opened again, twice.
pub(crate) fn reopenings<N: Office>(rt: &HostRuntime, office: &mut N) -> io::Result<()> {
    let leg = office.road_legs().saturating_sub(1);
    make(rt, office, Call::Reopen { leg })?;
    make(rt, office, Call::Reopen { leg })
}
