// Worked examples: three stations, with 4 bikes to bring from the first to the last.
use crate::lent::Sizes;
use crate::print;
use samples::worked::{FROM_1, PAST_1, STATIONS, T, TO_1, U, shut, station};
use std::io;
use table::Table;
use van_limit::VanLimit;
use yard::Yard;

// The plan, the cut, and the plan among equally cheap ones.
pub(crate) fn all(rt: &HostRuntime) -> io::Result<()> {
    print::on_table(rt, "T", &T, &STATIONS, &[], Sizes::THREE)?;
    let t = [TO_1, shut(FROM_1), PAST_1];
    print::on_table(
        rt,
        "T with leg 1 shut, standing 4 4 0",
        &t,
        &STATIONS,
        &[4, 4, 0],
        Sizes::THREE,
    )?;
    print::on_table(rt, "U", &U, &STATIONS, &[], Sizes::THREE)?;
    let u = [TO_1, FROM_1, shut(U[2])];
    print::on_table(
        rt,
        "U with leg 2 shut, standing 1 1 3",
        &u,
        &STATIONS,
        &[1, 1, 3],
        Sizes::THREE,
    )?;
    print::on_table(
        rt,
        "one station",
        &[],
        &[station(0)],
        &[],
        Sizes {
            prices: 1,
            cut: 1,
            ..Sizes::THREE
        },
    )?;
    print::on_table(
        rt,
        "nothing",
        &[],
        &[],
        &[],
        Sizes {
            prices: 0,
            cut: 0,
            ..Sizes::THREE
        },
    )
}

// Through layers over a table.
pub(crate) fn layers(rt: &HostRuntime) -> io::Result<()> {
    let (mut legs, mut stations) = (T, STATIONS);
    let table = Table {
        legs: &mut legs,
        stations: &mut stations,
    };
    print::planning(
        rt,
        "T under van limit 3",
        &VanLimit::new(table, 3),
        &[],
        Sizes::THREE,
    )?;
    let mut one = [station(3)];
    let table = Table {
        legs: &mut [],
        stations: &mut one,
    };
    print::planning(rt, "a yard", &Yard::new(table, 25), &[], Sizes::THREE)
}
