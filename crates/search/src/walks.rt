// A round: the stations whose label the round before changed, and the legs in the chains of each.
ghost use Rattle.std.specs.Prelude.{◌≡◌, ◌<◌, ◌≤◌, length};
ghost use Rattle.std.proofs.Props.{props};
ghost use Rattle.plans.specs.Plans.{stations as count_of};
ghost use Rattle.search.specs.Chains.{Threaded};
ghost use Rattle.search.specs.Sweeps.{Sweeps, Visits, Walks};

use crate::chains::Links;
use crate::label::{Label, fresh_at};
use crate::relax::Residual;
use costs::Cost;
use network::Network;
use plans::Direction;
use steps::{Fees, Step};

// The residual network of a plan with the chains of its legs: by station the legs that they begin
// with, by leg those that follow.
#[derive(Drop)]
pub(crate) struct ChainedResidual<'a, 'c, N: Network, F> {
    pub(crate) residual: Residual<'a, N, F>,
    pub(crate) heads: &'c [Links],
    pub(crate) nexts: &'c [Links],
    ghost threaded: { Threaded (N.Network.meaning residual.net.now) heads.now nexts.now } by { Prim.hlevel props },
}

impl<N: Network, F> ChainedResidual<'_, '_, N, F> {
    // Relaxes the steps of one direction from a station, whose total is given. Inline, so that
    // neither of its two calls asks for the direction at every leg.
    #[inline(always)]
    fn walk<C: Cost>(&self, direction: Direction, station: usize, total: C, labels: &mut [Label<C>])
    where
        F: Fees<C>,
        requires long { count_of (N.Network.meaning self.now.residual.net.now) ≤ length labels.old }
        requires below { station < count_of (N.Network.meaning self.now.residual.net.now) }
        ensures { Walks C.Grouped C.Cost.size (N.Network.meaning self.now.residual.net.now)
            self.now.residual.plan.now (F.Fees.cost self.now.residual.fees.now)
            direction station total 0 labels.old labels.new }
    {
        let residual = self.residual;
        let nexts = self.nexts;
        let mut next = self.heads[station].by(direction);
        while let Some(number) = next {
            let leg = usize::from(number);
            residual.relax(Step { direction, leg }, total, labels);
            next = nexts[leg].by(direction);
        }
    }

    // Relaxes all steps from a station, if the round before changed its label.
    fn visit<C: Cost>(&self, station: usize, labels: &mut [Label<C>])
    where
        F: Fees<C>,
        requires long { count_of (N.Network.meaning self.now.residual.net.now) ≤ length labels.old }
        requires below { station < count_of (N.Network.meaning self.now.residual.net.now) }
        ensures { Visits C.Grouped C.Cost.size (N.Network.meaning self.now.residual.net.now)
            self.now.residual.plan.now (F.Fees.cost self.now.residual.fees.now)
            station labels.old labels.new }
    {
        if let Some(total) = fresh_at(labels, station) {
            self.walk(Direction::Forth, station, total, labels);
            self.walk(Direction::Back, station, total, labels);
        }
    }

    // Relaxes the steps from all stations.
    pub(crate) fn sweep<C: Cost>(&self, labels: &mut [Label<C>])
    where
        F: Fees<C>,
        requires { count_of (N.Network.meaning self.now.residual.net.now) ≤ length labels.old }
        ensures { Sweeps C.Grouped C.Cost.size (N.Network.meaning self.now.residual.net.now)
            self.now.residual.plan.now (F.Fees.cost self.now.residual.fees.now)
            (count_of (N.Network.meaning self.now.residual.net.now)) labels.old labels.new }
    {
        // a range, and no slice of the labels: a visit writes to all of them
        for station in 0..self.residual.net.stations() {
            self.visit(station, labels);
        }
    }
}
