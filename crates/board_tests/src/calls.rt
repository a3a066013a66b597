// Calls, as the runs list them.
use planning_rules::Lengths;
use records::{MOST_LEGS, MOST_STATIONS};
use tally::Call;

// What a planning for so many stations is handed at least.
pub(crate) fn least(stations: usize) -> Lengths {
    Lengths {
        prices: stations,
        cut: stations,
        station_entries: MOST_STATIONS,
        leg_entries: MOST_LEGS,
    }
}

// A planning for so many stations.
pub(crate) fn plan(stations: usize) -> Call {
    plan_with(least(stations))
}

// A planning with what it is handed.
pub(crate) fn plan_with(lengths: Lengths) -> Call {
    Call::Plan { lengths }
}

// A station reports its balance.
pub(crate) fn report(station: usize, balance: i32) -> Call {
    Call::Report { station, balance }
}
