// What is known of a pile by contracts alone: its meaning, layer by layer.
ghost use Rattle.std.specs.Prelude.{◌≡◌, min};
ghost use Rattle.std.specs.List.{slice_get};
ghost use Rattle.table.specs.Tables.{table_of};
ghost use Rattle.van_limit.specs.Limited.{limited};
ghost use Rattle.yard.specs.Yards.{with_yard};

use crate::print::Found;
use crate::tables::{LEGS, STATIONS};
use network::Network;
use records::{Leg, Station};
use std::io;
use table::Table;
use van_limit::VanLimit;
use yard::Yard;

// A leg of a yard over a van limit over a table.
fn leg_of_pile(
    legs: &mut [Leg],
    stations: &mut [Station],
    limit: u16,
    charge: u32,
    number: usize,
) -> Option<Leg>
    ensures { result ≡ slice_get (with_yard (min charge 10000) (limited (min limit 500) (table_of legs.old stations.old))).legs number }
{
    let pile = Yard::new(VanLimit::new(Table { legs, stations }, limit), charge);
    pile.leg(number)
}

// A leg from below and a leg of the yard.
pub(crate) fn legs(rt: &HostRuntime) -> io::Result<()> {
    let mut legs = LEGS;
    let mut stations = STATIONS;
    let below = leg_of_pile(&mut legs, &mut stations, 3, 10_001, 0);
    let own = leg_of_pile(&mut legs, &mut stations, 3, 10_001, 8);
    println!(rt; "{}", Found(below))?;
    println!(rt; "{}", Found(own))
}
