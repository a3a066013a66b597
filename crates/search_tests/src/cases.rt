// Small networks that show one thing each.
use crate::{calls, print};
use costs::Cents;
use records::{Leg, Station};
use samples::worked::{leg, shut};
use search::Label;
use std::io;
use steps::{Everywhere, InCents, Marked};
use table::Table;

// Searches from some stations, among as many as there are labels, and prints the labels; then the
// prices of the plan.
fn run(
    rt: &impl Print,
    name: &str,
    legs: &mut [Leg],
    plan: &[u16],
    starts: &[bool],
) -> io::Result<()> {
    let mut stations = [Station { balance: 0 }; 4];
    let table = Table {
        legs,
        stations: &mut stations,
    };
    let mut labels = [Label::<Cents>::default(); 4];
    let answer = calls::search(&table, plan, &InCents, &Marked(starts), &mut labels);
    print::outcome(rt, name, answer)?;
    print::labels(rt, &labels)?;
    let mut prices = [7i64; 4];
    let answer = calls::prices(&table, plan, &mut labels, &mut prices);
    print::prices(rt, "  prices", answer, &prices)
}

// Two walks of the same total: the first that is found stays.
fn ties(rt: &impl Print) -> io::Result<()> {
    let mut legs = [
        leg(0, 1, 1, 5),
        leg(0, 2, 1, 5),
        leg(1, 3, 1, 5),
        leg(2, 3, 1, 5),
        leg(0, 3, 1, 10),
    ];
    run(rt, "ties", &mut legs, &[], &[true])
}

// Full, shut and absent legs.
fn unreachable_stations(rt: &impl Print) -> io::Result<()> {
    let mut legs = [leg(0, 1, 2, 5), shut(leg(0, 2, 5, 1)), leg(3, 0, 2, 5)];
    run(rt, "unreachable", &mut legs, &[2, 0, 0], &[true])
}

// A round trip of zero changes nothing.
fn zero_charges(rt: &impl Print) -> io::Result<()> {
    let mut legs = [
        leg(0, 1, 3, 0),
        leg(1, 2, 3, 0),
        leg(2, 0, 3, 0),
        leg(3, 3, 3, 0),
    ];
    run(rt, "zero charges", &mut legs, &[1, 1, 1, 1], &[false, true])
}

// Of two legs between the same stations, the cheaper one leads forth and the dearer one back.
fn parallel_legs(rt: &impl Print) -> io::Result<()> {
    let mut legs = [
        leg(0, 1, 3, 9),
        leg(0, 1, 3, 4),
        leg(0, 1, 3, 4),
        leg(1, 2, 3, 1),
    ];
    run(rt, "parallel", &mut legs, &[0, 2, 3, 0], &[true])
}

// Bikes on the dearer leg while the cheaper one has capacity left.
fn round_trip(rt: &impl Print) -> io::Result<()> {
    let mut legs = [leg(0, 1, 3, 5), leg(0, 1, 3, 9), leg(1, 2, 3, 1)];
    run(rt, "round trip", &mut legs, &[0, 1, 0], &[true])
}

// The same, where no start reaches it: the search settles, but prices start everywhere.
fn round_trip_out_of_reach(rt: &impl Print) -> io::Result<()> {
    let mut legs = [leg(0, 1, 3, 5), leg(0, 1, 3, 9), leg(1, 2, 3, 1)];
    run(
        rt,
        "out of reach",
        &mut legs,
        &[0, 1, 0],
        &[false, false, true],
    )
}

// A leg with an end that is no station gives no step; more bikes than capacity still go back.
fn nonsense(rt: &impl Print) -> io::Result<()> {
    let mut legs = [leg(0, 9, 3, 5), leg(9, 1, 3, 5), leg(2, 0, 1, 5)];
    run(rt, "nonsense", &mut legs, &[1, 1, 60000], &[true])
}

// Totals beyond 32 bits, forth and back.
fn highest_charges(rt: &impl Print) -> io::Result<()> {
    let mut legs = [
        leg(0, 1, 1, 4294967295),
        leg(1, 2, 1, 4294967295),
        leg(2, 3, 1, 4294967295),
    ];
    run(rt, "highest charges", &mut legs, &[], &[true])?;
    run(
        rt,
        "highest charges back",
        &mut legs,
        &[1, 1, 1],
        &[false, false, false, true],
    )?;
    let mut label = [Label::<Cents>::default(); 1];
    let mut alone = [Station { balance: 0 }];
    let mut none: [Leg; 0] = [];
    let table = Table {
        legs: &mut none,
        stations: &mut alone,
    };
    print::outcome(
        rt,
        "one station",
        calls::search(&table, &[], &InCents, &Everywhere, &mut label),
    )?;
    print::labels(rt, &label)
}

// All of these.
pub(crate) fn all(rt: &impl Print) -> io::Result<()> {
    ties(rt)?;
    unreachable_stations(rt)?;
    zero_charges(rt)?;
    parallel_legs(rt)?;
    round_trip(rt)?;
    round_trip_out_of_reach(rt)?;
    nonsense(rt)?;
    highest_charges(rt)
}
