// Prints what a reading answers, and what tables hold, in words of these tests: headers and records have no `Display`, since no
// program prints them so.
use records::{Leg, Refusal, Station};
use std::{fmt, io};
use text_rules::Header;

// What a reading answered, as it is printed.
#[derive(Clone, Copy)]
pub(crate) struct Answered(pub(crate) Result<Header, Refusal>);

impl fmt::Display for Answered {
    fn fmt<W: fmt::Write>(&self, f: &mut fmt::Formatter<W>) -> fmt::Result {
        match self.0 {
            Ok(Header { nodes, arcs }) => write!(f, "ok {nodes} {arcs}"),
            Err(refusal) => write!(f, "{refusal}"),
        }
    }
}

// The balances of the stations.
pub(crate) fn stations(rt: &HostRuntime, stations: &[Station]) -> io::Result<()> {
    print!(rt; ", balances")?;
    for station in stations {
        let balance = station.balance;
        print!(rt; " {balance}")?;
    }
    Ok(())
}

// The fields of the legs.
pub(crate) fn legs(rt: &HostRuntime, legs: &[Leg]) -> io::Result<()> {
    for leg in legs {
        let Leg {
            start,
            end,
            capacity,
            charge,
            mark,
        } = *leg;
        print!(rt; ", leg {start} {end} {capacity} {charge} {mark}")?;
    }
    Ok(())
}
