// Tables on lent records. They borrow them, so whoever makes one copies the records and makes it beside them.
use crate::calls;
use crate::calls::Call;
use crate::print::{self, Found};
use network::{Network, Office};
use records::{Leg, Mark, Station};
use samples::worked::{FROM_1, PAST_1, TO_1, leg, station};
use std::io;
use table::Table;

// Three stations with three legs, of which one is shut: by its field, since a constant calls no function.
pub const LEGS: [Leg; 3] = [
    TO_1,
    Leg {
        mark: Mark::Shut,
        ..FROM_1
    },
    PAST_1,
];

// Their balances.
pub const STATIONS: [Station; 3] = [
    Station { balance: 4 },
    Station { balance: 0 },
    Station { balance: -3 },
];

// All that a small table answers, before and after calls.
pub(crate) fn small(rt: &HostRuntime) -> io::Result<()> {
    let mut legs = LEGS;
    let mut stations = STATIONS;
    let mut table = Table {
        legs: &mut legs,
        stations: &mut stations,
    };
    print::all(rt, "table", &table)?;
    calls::refusals(rt, &mut table)?;
    print::all(rt, "table after", &table)?;
    calls::reopenings(rt, &mut table)?;
    print::legs(rt, &table)
}

// A table answers what its records hold, also where that makes no sense; and one with no records.
pub(crate) fn nonsense(rt: &HostRuntime) -> io::Result<()> {
    let mut legs = [leg(7, 7, u16::MAX, u32::MAX)];
    let mut stations = [station(i32::MAX), station(i32::MIN)];
    print::all(
        rt,
        "nonsense",
        &Table {
            legs: &mut legs,
            stations: &mut stations,
        },
    )?;
    let mut none: [Leg; 0] = [];
    let mut nowhere: [Station; 0] = [];
    let mut table = Table {
        legs: &mut none,
        stations: &mut nowhere,
    };
    print::all(rt, "no records", &table)?;
    calls::refusals(rt, &mut table)
}

// The first 3,000 legs and the first 240 stations count. The test states the limits by itself, and numbers on both sides of them.
pub(crate) fn long(rt: &HostRuntime) -> io::Result<()> {
    let mut legs = [leg(9, 9, 9, 9); 3001];
    let mut stations = [station(1); 241];
    let mut table = Table {
        legs: &mut legs,
        stations: &mut stations,
    };
    print::counts(rt, "long table", &table)?;
    print::leg(rt, &table, 2999)?;
    print::leg(rt, &table, 3000)?;
    print::balance(rt, &table, 239)?;
    print::balance(rt, &table, 240)?;
    calls::refusals(rt, &mut table)?;
    print::leg(rt, &table, 2999)?;
    print::balance(rt, &table, 239)?;
    let last = legs[2999].mark;
    let beyond = legs[3000].mark;
    let reported = stations[239].balance;
    let kept = stations[240].balance;
    println!(rt; "  records: {last} {beyond} {reported} {kept}")
}

// The lender finds the calls in its records.
pub(crate) fn lent(rt: &HostRuntime) -> io::Result<()> {
    let mut legs = LEGS;
    let mut stations = STATIONS;
    {
        let mut table = Table {
            legs: &mut legs,
            stations: &mut stations,
        };
        let calls = [
            Call::Close { leg: 0 },
            Call::Reopen { leg: 1 },
            Call::Report {
                station: 2,
                balance: 11,
            },
        ];
        for call in calls {
            calls::make(rt, &mut table, call)?;
        }
    }
    for leg in legs {
        println!(rt; "  record: {}", Found(Some(leg)))?;
    }
    let balances = stations.map(|record| record.balance);
    println!(rt; "  balances {balances:?}")
}
