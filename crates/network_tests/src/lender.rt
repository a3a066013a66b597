// What a lender of records learns from calls that code over any office made.
ghost use Rattle.std.specs.Prelude.{◌≡◌, drop};
ghost use Rattle.records.specs.declared.leg.Mark.TheVariants.{Shut};
ghost use Rattle.network.specs.Offices.{Marks};
ghost use Rattle.table.specs.Tables.{table_of};

use crate::print::{self, Found};
use crate::tables::{LEGS, STATIONS};
use network::{Network, Office};
use records::{Leg, Refusal, Station};
use std::io;
use table::Table;

// A closing on any office.
fn close_any<N: Office>(office: &mut N, leg: usize) -> Result<(), Refusal>
    ensures answer { Marks result (N.Network.meaning office.old) (N.Network.meaning office.new) leg Shut }
    ensures kept { N.Office.kept office.old office.new }
{
    office.close(leg)
}

// The same on lent records: the lender knows every record afterwards.
fn close_lent(legs: &mut [Leg], stations: &mut [Station], leg: usize) -> Result<(), Refusal>
    ensures answer { Marks result (table_of legs.old stations.old) (table_of legs.new stations.new) leg Shut }
    ensures beyond { (drop 3000 legs.new ≡ drop 3000 legs.old) × (drop 240 stations.new ≡ drop 240 stations.old) }
{
    let mut table = Table { legs, stations };
    close_any(&mut table, leg)
}

// A leg is closed in lent records, which the lender then reads.
pub(crate) fn records(rt: &HostRuntime) -> io::Result<()> {
    let mut legs = LEGS;
    let mut stations = STATIONS;
    let answer = close_lent(&mut legs, &mut stations, 2);
    print::answer(rt, &"close 2 for a lender", answer)?;
    println!(rt; "  record: {}", Found(Some(legs[2])))
}
