// Long runs of calls of all sorts, drawn in a fixed order.
use crate::calls::{least, plan_with, report};
use crate::print;
use planning_rules::Lengths;
use promenade::Promenade;
use records::{Leg, Station};
use samples::Generator;
use samples::worked::{leg, shut};
use std::{array, io};
use table::Table;
use tally::Call;
use van_limit::VanLimit;
use yard::Yard;

// How many calls a run has.
const CALLS: usize = 60;

// Six legs between four stations.
fn legs() -> [Leg; 6] {
    [
        leg(0, 1, 5, 7),
        leg(1, 2, 9, 11),
        leg(2, 3, 4, 13),
        leg(3, 0, 8, 5),
        shut(leg(2, 0, 6, 16)),
        leg(1, 3, 7, 21),
    ]
}

// A call on four open stations of five and six road legs of 14, one in a few of them beyond a limit. Of 16 calls 5 are reports and 4 are
// plannings, on the average.
fn draw(generator: &mut Generator) -> Call {
    let kind = generator.below(16);
    let number = usize::from(generator.below(15));
    let bikes = i32::from(generator.below(25));
    match kind {
        0..5 => report(number % 5, bikes - 12),
        5..7 => Call::Close { leg: number % 7 },
        7..9 => Call::Reopen { leg: number % 7 },
        9..13 => plan_with(Lengths {
            cut: 4 + number.min(1),
            ..least(5)
        }),
        13 => Call::ListStations {
            length: 3 + number.min(1),
        },
        14 => Call::ListRuns {
            length: 13 + number.min(1),
        },
        _ => Call::Read { leg: number },
    }
}

// Calls from a seed on.
fn drawn(seed: u64) -> [Call; CALLS] {
    let mut generator = Generator::new(seed);
    array::from_fn(|_| draw(&mut generator))
}

// On a yard over a van limit over a table, and on a van limit over a yard over a promenade.
pub(crate) fn all(rt: &HostRuntime) -> io::Result<()> {
    let mut legs = legs();
    let mut stations = [Station::default(); 4];
    let table = Table {
        legs: &mut legs,
        stations: &mut stations,
    };
    print::run(
        rt,
        "drawn over a table",
        Yard::new(VanLimit::new(table, 6), 18),
        &drawn(23),
    )?;
    let row = Promenade::new(4, 12, 7);
    print::run(
        rt,
        "drawn over a promenade",
        VanLimit::new(Yard::new(row, 18), 9),
        &drawn(177),
    )
}
