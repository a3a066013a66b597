// Both sides of the limits of each call and of a run, and what a refusal leaves. Limits of lengths and
// records are taken by their constants, which contracts spell out; what is reported stands in digits.
use crate::calls::{least, plan, plan_with, report};
use crate::print;
use board::entries::Entries;
use planning_rules::Lengths;
use records::{MOST_BALANCE, MOST_CAPACITY, MOST_LEGS, MOST_STATIONS, Mark};
use samples::worked::{STATIONS, T};
use std::io;
use table::Table;
use tally::Call;
use van_limit::VanLimit;
use yard::Yard;

// Three of four stations are open, and three of nine legs are road legs.
fn both_sides() -> [Call; 46] {
    [
        plan(4),
        Call::ListStations { length: 3 },
        Call::ListRuns { length: 9 },
        // refused
        report(3, 0),
        report(3, 501),
        report(2, 501),
        report(2, -501),
        Call::Close { leg: 3 },
        Call::Reopen { leg: 3 },
        Call::Reopen { leg: 2 },
        plan_with(Lengths {
            prices: 3,
            ..least(4)
        }),
        plan_with(Lengths { cut: 3, ..least(4) }),
        plan_with(Lengths {
            station_entries: MOST_STATIONS - 1,
            ..least(4)
        }),
        plan_with(Lengths {
            leg_entries: MOST_LEGS - 1,
            ..least(4)
        }),
        Call::ListStations { length: 2 },
        Call::ListRuns { length: 8 },
        // all is as before
        Call::Read { leg: 0 },
        Call::Read { leg: 1 },
        Call::Read { leg: 2 },
        Call::Read { leg: 8 },
        Call::Read { leg: 9 },
        Call::ListStations { length: 3 },
        Call::ListRuns { length: 9 },
        plan(4),
        // accepted, and what then is refused
        report(2, 500),
        Call::ListStations { length: 3 },
        plan(4),
        Call::ListRuns { length: 9 },
        report(2, -500),
        Call::ListStations { length: 4 },
        Call::Close { leg: 2 },
        Call::Close { leg: 2 },
        plan_with(Lengths {
            prices: 5,
            cut: 5,
            station_entries: MOST_STATIONS + 1,
            leg_entries: MOST_LEGS + 1,
        }),
        Call::ListRuns { length: 10 },
        Call::Reopen { leg: 2 },
        Call::Reopen { leg: 2 },
        plan(4),
        Call::ListRuns { length: 8 },
        Call::ListRuns { length: 9 },
        report(0, -1),
        Call::ListStations { length: 2 },
        Call::ListStations { length: 3 },
        report(2, 0),
        Call::ListStations { length: 3 },
        report(2, -1),
        Call::ListStations { length: 3 },
    ]
}

// Two plannings on three stations and three legs, and a list of each sort.
fn few() -> [Call; 5] {
    [
        plan(3),
        Call::ListStations { length: 3 },
        Call::ListRuns { length: 3 },
        Call::Close { leg: 1 },
        plan(3),
    ]
}

// The least memory that suffices for them.
const LEAST: Entries = Entries {
    prices: 6,
    numbers: 12,
    amounts: 6,
    stations: MOST_STATIONS,
    legs: MOST_LEGS,
};

// That, and one entry less of each.
const MEMORY: [(&str, usize, Entries); 7] = [
    ("the least memory", 5, LEAST),
    ("4 answers", 4, LEAST),
    ("5 prices", 5, Entries { prices: 5, ..LEAST }),
    (
        "11 numbers",
        5,
        Entries {
            numbers: 11,
            ..LEAST
        },
    ),
    (
        "5 amounts",
        5,
        Entries {
            amounts: 5,
            ..LEAST
        },
    ),
    (
        "239 for stations",
        5,
        Entries {
            stations: MOST_STATIONS - 1,
            ..LEAST
        },
    ),
    (
        "2,999 for legs",
        5,
        Entries {
            legs: MOST_LEGS - 1,
            ..LEAST
        },
    ),
];

// On a yard over a van limit over a table.
pub(crate) fn calls(rt: &HostRuntime) -> io::Result<()> {
    let (mut legs, mut stations) = (T, STATIONS);
    let table = Table {
        legs: &mut legs,
        stations: &mut stations,
    };
    print::run(
        rt,
        "limits",
        Yard::new(VanLimit::new(table, 3), 25),
        &both_sides(),
    )
}

// Memory that suffices, and not.
pub(crate) fn memory(rt: &HostRuntime) -> io::Result<()> {
    for (name, answers, lent) in MEMORY {
        let (mut legs, mut stations) = (T, STATIONS);
        let table = Table {
            legs: &mut legs,
            stations: &mut stations,
        };
        print::run_within(rt, name, table, &few(), answers, lent)?;
    }
    Ok(())
}

// Records that make no sense: a leg's for good, a balance's until the station reports.
pub(crate) fn records(rt: &HostRuntime) -> io::Result<()> {
    let (mut legs, mut stations) = (T, STATIONS);
    legs[2].capacity = MOST_CAPACITY + 1;
    print::on_table(
        rt,
        "capacity 501",
        &mut legs,
        &mut stations,
        &[plan(3), Call::Close { leg: 2 }, plan(3)],
    )?;
    legs[2].capacity = 3;
    stations[0].balance = MOST_BALANCE + 1;
    legs[2].mark = Mark::Open;
    print::on_table(
        rt,
        "balance 120,001",
        &mut legs,
        &mut stations,
        &[plan(3), report(0, 4), plan(3)],
    )
}
