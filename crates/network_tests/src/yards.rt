// Yards.
use crate::print;
use network::Network;
use records::{Leg, Station};
use samples::worked::{leg, station};
use std::io;
use table::Table;
use yard::Yard;

// A yard over these stations and no leg.
fn over(rt: &HostRuntime, stations: &mut [Station], charge: u32) -> io::Result<()> {
    let mut legs: [Leg; 0] = [];
    let table = Table {
        legs: &mut legs,
        stations,
    };
    print::all(rt, "yard", &Yard::new(table, charge))
}

// The negated sum, on both sides of where it is held, and beyond 32 bits.
pub(crate) fn sums(rt: &HostRuntime) -> io::Result<()> {
    over(rt, &mut [], 25)?;
    over(rt, &mut [station(3)], 25)?;
    over(rt, &mut [station(120_000)], 10_000)?;
    over(rt, &mut [station(120_001)], 10_001)?;
    over(rt, &mut [station(-120_000)], 0)?;
    over(rt, &mut [station(-120_001)], 0)?;
    over(rt, &mut [station(i32::MAX), station(i32::MAX)], 1)?;
    over(rt, &mut [station(i32::MIN), station(i32::MIN)], 1)?;
    over(rt, &mut [station(i32::MAX), station(i32::MIN)], 1)
}

// The counts of a yard over so many lent records.
fn counted(
    rt: &HostRuntime,
    name: &str,
    legs: &mut [Leg],
    stations: &mut [Station],
) -> io::Result<()> {
    let yard = Yard::new(Table { legs, stations }, 5);
    print::counts(rt, name, &yard)?;
    print::balance(rt, &yard, 239)?;
    print::balance(rt, &yard, 240)?;
    print::leg(rt, &yard, 2999)?;
    print::leg(rt, &yard, 3000)
}

// Networks with room for a yard and without, on both sides.
pub(crate) fn room(rt: &HostRuntime) -> io::Result<()> {
    let plain = leg(0, 1, 1, 1);
    counted(rt, "239 stations", &mut [plain; 5], &mut [station(2); 239])?;
    counted(rt, "240 stations", &mut [plain; 5], &mut [station(2); 240])?;
    counted(
        rt,
        "2998 legs over 1 station",
        &mut [plain; 2998],
        &mut [station(2); 1],
    )?;
    counted(
        rt,
        "2999 legs over 1 station",
        &mut [plain; 2999],
        &mut [station(2); 1],
    )?;
    let mut stations = [station(2); 239];
    let table = Table {
        legs: &mut [plain; 5],
        stations: &mut stations,
    };
    print::counts(
        rt,
        "the second yard finds no room",
        &Yard::new(Yard::new(table, 5), 5),
    )
}
