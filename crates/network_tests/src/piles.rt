// Piles of layers, three and four deep, with every call.
use crate::calls::Call;
use crate::tables::{LEGS, STATIONS};
use crate::{calls, print};
use network::{Network, Office};
use promenade::Promenade;
use std::io;
use table::Table;
use van_limit::VanLimit;
use yard::Yard;

// All that a pile answers, before and after the calls.
fn run<N: Office>(rt: &HostRuntime, name: &str, pile: &mut N) -> io::Result<()> {
    print::all(rt, name, pile)?;
    calls::refusals(rt, pile)?;
    print::all(rt, name, pile)?;
    calls::reopenings(rt, pile)?;
    let report = Call::Report {
        station: 0,
        balance: 7,
    };
    calls::make(rt, pile, report)?;
    print::all(rt, name, pile)
}

// A yard over a yard over a table.
pub(crate) fn yard_over_yard(rt: &HostRuntime) -> io::Result<()> {
    let mut legs = LEGS;
    let mut stations = STATIONS;
    let table = Table {
        legs: &mut legs,
        stations: &mut stations,
    };
    run(
        rt,
        "yard over yard over table",
        &mut Yard::new(Yard::new(table, 25), 30),
    )
}

// A van limit over a yard over a promenade.
pub(crate) fn van_limit_over_yard(rt: &HostRuntime) -> io::Result<()> {
    let row = Promenade::new(3, 9, 2);
    run(
        rt,
        "van limit over yard over promenade",
        &mut VanLimit::new(Yard::new(row, 25), 6),
    )
}

// A yard over a van limit over a table.
pub(crate) fn yard_over_van_limit(rt: &HostRuntime) -> io::Result<()> {
    let mut legs = LEGS;
    let mut stations = STATIONS;
    let table = Table {
        legs: &mut legs,
        stations: &mut stations,
    };
    run(
        rt,
        "yard over van limit over table",
        &mut Yard::new(VanLimit::new(table, 3), 25),
    )
}

// A van limit over a yard over a yard over a promenade.
pub(crate) fn four_deep(rt: &HostRuntime) -> io::Result<()> {
    let yards = Yard::new(Yard::new(Promenade::new(2, 9, 2), 25), 30);
    run(
        rt,
        "van limit over two yards over promenade",
        &mut VanLimit::new(yards, 400),
    )
}
