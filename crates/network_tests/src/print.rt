// Prints what a network answers, in words of these tests: legs and balances have no `Display`, since no program prints them so. The
// runtime and a network go through all of them: a struct of the two would be a printer of one borrow.
use network::Network;
use records::{Leg, Refusal};
use std::{fmt, io};

// A leg as it is printed: what it holds, or that there is none.
#[derive(Clone, Copy)]
pub(crate) struct Found(pub(crate) Option<Leg>);

impl fmt::Display for Found {
    fn fmt<W: fmt::Write>(&self, f: &mut fmt::Formatter<W>) -> fmt::Result {
        match self.0 {
            Some(
                Leg {
                    start,
                    end,
                    capacity,
                    charge,
                    mark,
                },
            ) => write!(
                f,
                "{start} to {end}, capacity {capacity}, charge {charge}, {mark}"
            ),
            None => f.write_str("absent"),
        }
    }
}

// The four counts.
pub(crate) fn counts<N: Network>(rt: &HostRuntime, name: &str, network: &N) -> io::Result<()> {
    println!(rt;
        "{name}: n {} m {} a {} r {}",
        network.stations(),
        network.legs(),
        network.open_stations(),
        network.road_legs()
    )
}

// A leg, or that there is none.
pub(crate) fn leg<N: Network>(rt: &HostRuntime, network: &N, number: usize) -> io::Result<()> {
    println!(rt; "  leg {number}: {}", Found(network.leg(number)))
}

// A balance, or that there is none.
pub(crate) fn balance<N: Network>(rt: &HostRuntime, network: &N, station: usize) -> io::Result<()> {
    match network.balance(station) {
        Some(balance) => println!(rt; "  station {station}: {balance}"),
        None => println!(rt; "  station {station}: absent"),
    }
}

// Everything that a network answers, and one number beyond each count.
pub(crate) fn all<N: Network>(rt: &HostRuntime, name: &str, network: &N) -> io::Result<()> {
    counts(rt, name, network)?;
    balances(rt, network)?;
    legs(rt, network)
}

// Every balance, and one number beyond. By a range, here and below: a network is asked by number, and has no slice to go through.
pub(crate) fn balances<N: Network>(rt: &HostRuntime, network: &N) -> io::Result<()> {
    for station in 0..=network.stations() {
        balance(rt, network, station)?;
    }
    Ok(())
}

// Every leg, and one number beyond.
pub(crate) fn legs<N: Network>(rt: &HostRuntime, network: &N) -> io::Result<()> {
    for number in 0..=network.legs() {
        leg(rt, network, number)?;
    }
    Ok(())
}

// A call, and what it answered.
pub(crate) fn answer(
    rt: &HostRuntime,
    call: &impl fmt::Display,
    answer: Result<(), Refusal>,
) -> io::Result<()> {
    match answer {
        Ok(()) => println!(rt; "  {call}: accepted"),
        Err(refusal) => println!(rt; "  {call}: {refusal}"),
    }
}
