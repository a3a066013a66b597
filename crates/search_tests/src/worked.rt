// Three stations and three legs, under the plan 4, 4, 0 and others.
use crate::calls::{self, STRAY};
use crate::print;
use costs::{Cents, CentsThenBikes};
use samples::worked::{FROM_1, STATIONS, T, TO_1};
use search::{Chains, Label};
use std::io;
use steps::{Everywhere, InBoth, InCents, Marked};
use table::Table;

// The cheapest plan: the third leg alone has capacity left.
fn prices_of_plan(rt: &impl Print, table: &Table<'_>) -> io::Result<()> {
    let mut labels = [Label::<Cents>::default(); 4];
    let mut prices = [7i64; 4];
    let answer = calls::prices(table, &[4, 4, 0], &mut labels, &mut prices);
    print::prices(rt, "prices of 4 4 0", answer, &prices)
}

// With no bikes, no step goes back; amounts that are missing count as 0.
fn prices_of_empty_plan(rt: &impl Print, table: &Table<'_>) -> io::Result<()> {
    let mut labels = [Label::<Cents>::default(); 3];
    let mut prices = [7i64; 3];
    let answer = calls::prices(table, &[0], &mut labels, &mut prices);
    print::prices(rt, "prices of no bikes", answer, &prices)
}

// From station 0 alone, with no bikes under way.
fn from_first_station(rt: &impl Print, table: &Table<'_>) -> io::Result<()> {
    let mut labels = [Label::<Cents>::default(); 3];
    let answer = calls::search(table, &[], &InCents, &Marked(&[true]), &mut labels);
    print::outcome(rt, "from station 0", answer)?;
    print::labels(rt, &labels)
}

// In cents and bikes of difference from the standing plan 1, 3: of two legs at the same charge, the
// one that comes nearer to it. The standing amount of the third leg is missing.
fn in_both(rt: &impl Print) -> io::Result<()> {
    let mut legs = [TO_1, TO_1, FROM_1];
    let mut stations = STATIONS;
    let table = Table {
        legs: &mut legs,
        stations: &mut stations,
    };
    let mut labels = [Label::<CentsThenBikes>::default(); 3];
    let fees = InBoth { standing: &[1, 3] };
    let answer = calls::search(
        &table,
        &[1, 1, 2],
        &fees,
        &Marked(&[true, false, false]),
        &mut labels,
    );
    print::outcome(rt, "in both", answer)?;
    print::labels(rt, &labels)
}

// Slices that are too short are refused, with nothing altered.
fn too_short(rt: &impl Print, table: &Table<'_>) -> io::Result<()> {
    let mut few = [Label::<Cents>::default(); 2];
    let mut enough = [Label::<Cents>::default(); 3];
    let mut prices = [7i64; 3];
    let answer = calls::search(table, &[], &InCents, &Everywhere, &mut few);
    print::outcome(rt, "two labels", answer)?;
    print::labels(rt, &few)?;
    let answer = calls::prices(table, &[], &mut few, &mut prices);
    print::prices(rt, "two labels", answer, &prices)?;
    let mut two = [7i64; 2];
    let answer = calls::prices(table, &[], &mut enough, &mut two);
    print::prices(rt, "two prices", answer, &two)?;
    print::labels(rt, &enough)
}

// Links that are too few are refused, with nothing altered.
fn too_few_links(rt: &impl Print, table: &Table<'_>) -> io::Result<()> {
    let mut labels = [Label::<Cents>::default(); 3];
    let mut few = [STRAY; 2];
    let mut enough = [STRAY; 3];
    let mut chains = Chains {
        heads: &mut few,
        nexts: &mut enough,
    };
    let answer = search::search(table, &[], &InCents, &Everywhere, &mut labels, &mut chains);
    print::outcome(rt, "two heads", answer)?;
    let mut chains = Chains {
        heads: &mut enough,
        nexts: &mut few,
    };
    let answer = search::search(table, &[], &InCents, &Everywhere, &mut labels, &mut chains);
    print::outcome(rt, "two nexts", answer)?;
    print::labels(rt, &labels)?;
    print::links(rt, &few)?;
    print::links(rt, &enough)
}

// All of these.
pub(crate) fn all(rt: &impl Print) -> io::Result<()> {
    let mut legs = T;
    let mut stations = STATIONS;
    let table = Table {
        legs: &mut legs,
        stations: &mut stations,
    };
    prices_of_plan(rt, &table)?;
    prices_of_empty_plan(rt, &table)?;
    from_first_station(rt, &table)?;
    in_both(rt)?;
    too_short(rt, &table)?;
    too_few_links(rt, &table)
}
