// Worked runs: three stations, with 4 bikes to bring from the first to the last; a yard; lists.
use crate::calls::{plan, report};
use crate::print;
use records::Station;
use samples::worked::{STATIONS, T, U, station};
use std::io;
use table::Table;
use tally::Call;
use van_limit::VanLimit;
use yard::Yard;

// Without leg 1 no plan obeys, and the plan before it stays; nor does one after a report.
fn cut_off() -> [Call; 15] {
    [
        Call::Read { leg: 0 },
        plan(3),
        Call::Close { leg: 1 },
        plan(3),
        Call::Read { leg: 0 },
        Call::Read { leg: 1 },
        Call::Read { leg: 2 },
        Call::Read { leg: 3 },
        Call::Reopen { leg: 1 },
        plan(3),
        report(1, 1),
        plan(3),
        report(0, 3),
        plan(3),
        Call::ListRuns { length: 3 },
    ]
}

// Without leg 2 the plan is another.
fn moved() -> [Call; 7] {
    [
        plan(3),
        Call::ListRuns { length: 3 },
        Call::Close { leg: 2 },
        plan(3),
        Call::ListRuns { length: 3 },
        plan(3),
        Call::Read { leg: 2 },
    ]
}

// Who comes back stands last.
fn lists() -> [Call; 5] {
    [
        Call::ListStations { length: 4 },
        report(0, 1),
        Call::ListStations { length: 4 },
        report(0, -2),
        Call::ListStations { length: 5 },
    ]
}

// On tables.
pub(crate) fn on_tables(rt: &HostRuntime) -> io::Result<()> {
    let (mut t, mut stations) = (T, STATIONS);
    print::on_table(rt, "T", &mut t, &mut stations, &cut_off())?;
    let (mut u, mut stations) = (U, STATIONS);
    print::on_table(rt, "U", &mut u, &mut stations, &moved())?;
    let mut row = [-2, 3, -2, 1].map(station);
    print::on_table(rt, "lists", &mut [], &mut row, &lists())
}

// Through layers over a table.
pub(crate) fn on_layers(rt: &HostRuntime) -> io::Result<()> {
    let (mut t, mut stations) = (T, STATIONS);
    let mut one = [Station { balance: 3 }];
    let table = Table {
        legs: &mut t,
        stations: &mut stations,
    };
    print::run(
        rt,
        "T under van limit 3",
        VanLimit::new(table, 3),
        &[plan(3), Call::ListRuns { length: 3 }],
    )?;
    let table = Table {
        legs: &mut [],
        stations: &mut one,
    };
    print::run(
        rt,
        "a yard",
        Yard::new(table, 25),
        &[
            plan(2),
            Call::Read { leg: 0 },
            Call::Read { leg: 1 },
            Call::Read { leg: 2 },
        ],
    )
}
