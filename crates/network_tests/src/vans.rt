// Van limits.
use crate::print;
use crate::tables::{LEGS, STATIONS};
use network::Network;
use promenade::Promenade;
use std::io;
use table::Table;
use van_limit::VanLimit;

// Limits below, between and above capacities, and above the highest limit.
pub(crate) fn limits(rt: &HostRuntime) -> io::Result<()> {
    let mut legs = LEGS;
    let mut stations = STATIONS;
    legs[0].capacity = 501;
    print::all(
        rt,
        "van limit 3",
        &VanLimit::new(
            Table {
                legs: &mut legs,
                stations: &mut stations,
            },
            3,
        ),
    )?;
    for limit in [0, 500, 501] {
        let table = Table {
            legs: &mut legs,
            stations: &mut stations,
        };
        print::legs(rt, &VanLimit::new(table, limit))?;
    }
    print::all(
        rt,
        "two van limits",
        &VanLimit::new(VanLimit::new(Promenade::new(2, 9, 1), 4), 6),
    )
}
