// How large a network is: so long are the slices of calls that are told without their lengths.
ghost use Rattle.std.specs.Prelude.{◌≡◌};
ghost use Rattle.tally.specs.declared.call.Call.TheVariants.{Plan};
ghost use Rattle.call_lines.specs.Entries.{just_long, sizes_of};

use network::Network;
use planning_rules::Lengths;
use records::{MOST_LEGS, MOST_STATIONS};
use tally::Call;

// How many stations, open stations and legs a network has.
#[derive(Clone, Copy, PartialEq, Eq, Debug)]
pub struct Sizes {
    pub stations: usize,
    pub open_stations: usize,
    pub legs: usize,
}

impl Sizes {
    // The sizes of a network.
    pub fn of<N: Network>(net: &N) -> Sizes
        ensures { result ≡ sizes_of (N.Network.meaning net.now) }
    {
        Sizes {
            stations: net.stations(),
            open_stations: net.open_stations(),
            legs: net.legs(),
        }
    }

    // A planning whose slices are just long enough.
    pub(crate) fn plan(self) -> Call
        ensures { result ≡ Plan (just_long self) }
    {
        Call::Plan {
            lengths: Lengths {
                prices: self.stations,
                cut: self.stations,
                station_entries: MOST_STATIONS,
                leg_entries: MOST_LEGS,
            },
        }
    }
}
