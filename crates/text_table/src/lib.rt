// From a network text to a table, in one call.
#![tactic(auto)]

ghost use Rattle.std.specs.Prelude.{◌≡◌, MatchResult};
ghost use Rattle.reader.specs.Entering.{room_of};
ghost use Rattle.table.specs.Tables.{table_of};
ghost use Rattle.text_table.specs.Stands.{Stands, Falls};

use reader::read;
use records::{Leg, Refusal, Station};
use table::Table;
use text_rules::Header;

// Reads a text into lent records, and makes a table on the first NODES and ARCS of them. Two slices: a caller has the records so.
pub fn read_table<'a>(
    text: &[u8],
    legs: &'a mut [Leg],
    stations: &'a mut [Station],
) -> Result<Table<'a>, Refusal>
    ensures { MatchResult result (λ t. Stands text.now (room_of legs.old stations.old) (table_of t.legs.now t.stations.now)) (λ e. Falls text.now (room_of legs.old stations.old) e) }
{
    let Header { nodes, arcs } = read(text, legs, stations)?;
    Ok(Table {
        legs: &mut legs[..arcs],
        stations: &mut stations[..nodes],
    })
}
