// Turns of a planning: a search from the stations that have bikes over, and sendings to those that lack them.
ghost use Rattle.std.specs.Prelude.{◌<◌, ◌≤◌, length};
ghost use Rattle.plans.specs.Plans.{stations as count_of};
ghost use Rattle.planning.specs.States.{Prepared, Turns, TurnsEnd, Underway};
ghost use Rattle.planning.specs.Tables.{SameTables};

use crate::cut::write_cut;
use crate::marks::mark_over;
use crate::sendings::send_round;
use crate::tables::Tables;
use network::Network;
use records::Refusal;
use search::search;
use slices::first;
use steps::{InBoth, Marked};

// One turn: says how many bikes are over then, or nothing where none moved, and then the labelled stations are a cut.
// It is never refused, since the tables suffice, and the search settles, since the plan is certified.
fn turn<N: Network>(
    net: &N,
    standing: &[u16],
    over: u64,
    tables: &mut Tables<'_>,
) -> Result<Option<u64>, Refusal>
    requires prepared { Prepared (N.Network.meaning net.now) tables.old }
    requires underway { Underway (N.Network.meaning net.now) standing.now tables.old.draft over }
    requires some { 0 < over }
    ensures turns { Turns (N.Network.meaning net.now) standing.now over result tables.new }
    ensures stay { SameTables tables.old tables.new }
{
    let marks = &mut *tables.marks;
    let labels = &mut *tables.labels;
    let chains = &mut tables.chains;
    let draft = &mut tables.draft;
    mark_over(draft, marks);
    search(
        net,
        draft.plan(net),
        &InBoth { standing },
        &Marked(marks),
        labels,
        chains,
    )?;
    let less = send_round(net, standing, labels, over, marks, draft);
    Ok((less < over).then_some(less))
}

// Turns until nothing is over. If one moves no bike, it writes the labelled stations into the cut and refuses.
pub(crate) fn turns<N: Network>(
    net: &N,
    standing: &[u16],
    mut over: u64,
    tables: &mut Tables<'_>,
    cut: &mut [usize],
) -> Result<(), Refusal>
    requires prepared { Prepared (N.Network.meaning net.now) tables.old }
    requires underway { Underway (N.Network.meaning net.now) standing.now tables.old.draft over }
    requires room { count_of (N.Network.meaning net.now) ≤ length cut.old }
    ensures end { TurnsEnd (N.Network.meaning net.now) standing.now result tables.new
        cut.old cut.new }
    ensures stay { SameTables tables.old tables.new }
{
    while over > 0 {
        let Some(less) = turn(net, standing, over, tables)? else {
            let count = write_cut(first(tables.labels, net.stations()), cut);
            return Err(Refusal::NoPlanObeys { cut: count });
        };
        over = less;
    }
    Ok(())
}
