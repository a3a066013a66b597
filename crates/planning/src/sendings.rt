// Sendings along the routes that a search has found, to those stations that lack bikes. What they work in comes as parts of the
// tables: `Routes` holds the labels while marks and draft are written.
ghost use Rattle.std.specs.Prelude.{◌≡◌};
ghost use Rattle.plans.specs.Plans.{stations as count_of};
ghost use Rattle.planning.specs.Drafts.{SameDraft};
ghost use Rattle.planning.specs.Rounds.{FindsNearest, lower_of, nearest_of, sendings_of, after_round, after_all, after_nearest, waiting_of};
ghost use Rattle.planning.specs.States.{SendsAll, SendsSome};

use crate::draft::Draft;
use crate::routes::Routes;
use costs::{CentsThenBikes, Cost};
use network::Network;
use search::Label;
use slices::{first, put};

// Sends bikes to every station that lacks them and is labelled, and says how many are over then.
fn send_all<N: Network>(routes: &Routes<'_, N>, mut over: u64, draft: &mut Draft<'_>) -> u64
    ensures sends { SendsAll (N.Network.meaning routes.now.net.now) routes.now.standing.now
        routes.now.labels.now over result draft.old draft.new }
    ensures outcome { sendings_of result draft.new
        ≡ after_all (N.Network.meaning routes.now.net.now) routes.now.standing.now
        routes.now.labels.now (count_of (N.Network.meaning routes.now.net.now))
        (sendings_of over draft.old) }
    ensures stay { SameDraft draft.old draft.new }
{
    for target in 0..routes.net.stations() {
        over = over.saturating_sub(routes.send(target, draft));
    }
    over
}

// A station that lacks bikes, and the total of its label.
#[derive(Clone, Copy)]
struct Lacking {
    station: usize,
    total: CentsThenBikes,
}

// Of two stations the one with the lower label.
fn nearer(one: Lacking, other: Lacking) -> Lacking
    ensures { result ≡ lower_of one other }
{
    if one.total.at_most(other.total) {
        one
    } else {
        other
    }
}

// A station by its number, if it lacks bikes, is labelled and is not marked.
fn waiting(
    station: usize,
    label: &Label<CentsThenBikes>,
    bikes: i64,
    marked: bool,
) -> Option<Lacking>
    ensures { result ≡ waiting_of station label.now bikes marked }
{
    if bikes >= 0 || marked {
        return None;
    }
    let arrival = label.arrival?;
    Some(Lacking {
        station,
        total: arrival.total,
    })
}

// The station with the lowest label, of those that lack bikes and are not marked.
fn nearest(labels: &[Label<CentsThenBikes>], draft: &Draft<'_>, marks: &[bool]) -> Option<usize>
    ensures nearest { FindsNearest labels.now draft.now.left.now marks.now result }
    ensures value { result ≡ nearest_of labels.now draft.now.left.now marks.now }
{
    let left = &*draft.left;
    labels
        .iter()
        .zip(left)
        .zip(marks)
        .enumerate()
        .filter_map(|(station, ((label, bikes), marked))| waiting(station, label, *bikes, *marked))
        .reduce(nearer)
        .map(|lacking| lacking.station)
}

// Sends bikes to the stations that lack them, those with the lowest labels first, and says how many are over then. No more turns
// than stations are needed, since each marks one.
fn send_nearest<N: Network>(
    routes: &Routes<'_, N>,
    mut over: u64,
    marks: &mut [bool],
    draft: &mut Draft<'_>,
) -> u64
    ensures sends { SendsSome (N.Network.meaning routes.now.net.now) routes.now.standing.now
        routes.now.labels.now over result draft.old draft.new }
    ensures outcome { sendings_of result draft.new
        ≡ after_nearest (N.Network.meaning routes.now.net.now) routes.now.standing.now
        routes.now.labels.now (count_of (N.Network.meaning routes.now.net.now))
        marks.old (sendings_of over draft.old) }
    ensures stay { SameDraft draft.old draft.new }
{
    let stations = routes.net.stations();
    let labels = first(routes.labels, stations);
    for _turn in 0..stations {
        let Some(next) = nearest(labels, draft, marks) else {
            return over;
        };
        put(marks, next, true);
        over = over.saturating_sub(routes.send(next, draft));
    }
    over
}

// Sends bikes to the nearest first; where that moves none, asks every station once more, so that none is left out. Says how many
// bikes are over then: as many as before where none moved.
pub(crate) fn send_round<N: Network>(
    net: &N,
    standing: &[u16],
    labels: &[Label<CentsThenBikes>],
    over: u64,
    marks: &mut [bool],
    draft: &mut Draft<'_>,
) -> u64
    ensures sends { SendsAll (N.Network.meaning net.now) standing.now labels.now over result
        draft.old draft.new }
    ensures outcome { sendings_of result draft.new
        ≡ after_round (N.Network.meaning net.now) standing.now labels.now marks.old
        (sendings_of over draft.old) }
    ensures stay { SameDraft draft.old draft.new }
{
    let routes = Routes {
        net,
        standing,
        labels,
    };
    let less = send_nearest(&routes, over, marks, draft);
    if less < over {
        return less;
    }
    send_all(&routes, over, draft)
}
