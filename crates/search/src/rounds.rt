// Rounds of relaxing, from the first labels until none changes or there were as many as stations.
ghost use Rattle.std.specs.Prelude.{◌≡◌, ℕ, ◌≤◌, Bool, length};
ghost use Rattle.plans.specs.Plans.{stations as count_of};
ghost use Rattle.search.specs.Rounds.{Begins, Commits, Ends, RoundMore};

use crate::label::Label;
use crate::outcome::Outcome;
use crate::walks::ChainedResidual;
use costs::Cost;
use network::{Belongs, Network};
use steps::Fees;

// Labels every start with zero, and every other station as unreached.
pub(crate) fn begin<C: Cost, S: Belongs>(starts: &S, labels: &mut [Label<C>])
    ensures { Begins C.Grouped C.Cost.size (length labels.old) (S.Belongs.belongs starts.now)
        labels.old labels.new }
{
    let zero = C::zero();
    for (station, label) in labels.iter_mut().enumerate() {
        *label = Label::first(starts.belongs(station), zero);
    }
}

// Ends a round, and says whether a label changed.
fn commit<C: Cost>(labels: &mut [Label<C>]) -> bool
    ensures { Commits (length labels.old) result labels.old labels.new }
{
    let mut changed = false;
    for label in labels.iter_mut() {
        *label = label.next();
        changed |= label.changed;
    }
    changed
}

// One round: whether a label changed.
fn round<C: Cost, N: Network, F: Fees<C>>(
    chained: &ChainedResidual<'_, '_, N, F>,
    labels: &mut [Label<C>],
) -> bool
    requires { count_of (N.Network.meaning chained.now.residual.net.now) ≤ length labels.old }
    ensures { (f : ℕ → Bool) → RoundMore C.Grouped C.Cost.size
        (N.Network.meaning chained.now.residual.net.now) chained.now.residual.plan.now
        (F.Fees.cost chained.now.residual.fees.now) f result labels.old labels.new }
{
    chained.sweep(labels);
    commit(&mut labels[..chained.residual.net.stations()])
}

// Rounds until no label changes: after as many as there are stations, and one at least, a round
// trip is below zero.
pub(crate) fn rounds<C: Cost, N: Network, F: Fees<C>>(
    chained: &ChainedResidual<'_, '_, N, F>,
    labels: &mut [Label<C>],
) -> Outcome
    requires { count_of (N.Network.meaning chained.now.residual.net.now) ≤ length labels.old }
    ensures { (f : ℕ → Bool) → Ends C.Grouped C.Cost.size
        (N.Network.meaning chained.now.residual.net.now) chained.now.residual.plan.now
        (F.Fees.cost chained.now.residual.fees.now) f result labels.old labels.new }
{
    // rounds are counted: there is nothing to go through
    for _round in 0..chained.residual.net.stations().max(1) {
        if !round(chained, labels) {
            return Outcome::Settled;
        }
    }
    Outcome::RoundTrip
}
