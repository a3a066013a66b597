// Relaxing a residual step: the walk that goes on over it is offered to the label at its end.
ghost use Rattle.std.specs.Prelude.{◌<◌, ◌≤◌, length};
ghost use Rattle.plans.specs.Plans.{stations as count_of};
ghost use Rattle.plans.specs.Residuals.{Joined};
ghost use Rattle.search.specs.Sweeps.{Offered, Relaxes};

use crate::label::{Arrival, Label};
use costs::Cost;
use network::Network;
use steps::{Fees, Load, Step};

// The residual network of a plan: the legs, the amounts they carry, and what steps cost.
#[derive_where(Clone, Copy)]
pub(crate) struct Residual<'a, N, F> {
    pub(crate) net: &'a N,
    pub(crate) plan: &'a [u16],
    pub(crate) fees: &'a F,
}

// Offers a walk to the label of the station where it ends.
#[inline(always)]
fn offer<C: Cost>(labels: &mut [Label<C>], station: usize, offered: Arrival<C>)
    requires { station < length labels.old }
    ensures { Offered C.Grouped labels.old labels.new station offered }
{
    // by index: of a write through `get_mut` only the length is known after it
    if !labels[station].is_as_low(offered.total) {
        labels[station].better = Some(offered);
    }
}

impl<N: Network, F> Residual<'_, N, F> {
    // Relaxes a step from the total where it begins, if a bike can go along it. Inline, so that
    // where its direction is known nothing asks for it.
    #[inline(always)]
    pub(crate) fn relax<C: Cost>(&self, step: Step, total: C, labels: &mut [Label<C>])
    where
        F: Fees<C>,
        requires joined { Joined (N.Network.meaning self.now.net.now) step.leg }
        requires long { count_of (N.Network.meaning self.now.net.now) ≤ length labels.old }
        ensures { Relaxes C.Grouped C.Cost.size (N.Network.meaning self.now.net.now)
            self.now.plan.now (F.Fees.cost self.now.fees.now) step total labels.old labels.new }
    {
        let Some(load) = Load::of(self.net, self.plan, step.leg) else {
            return;
        };
        if load.residual(step.direction) == 0 {
            return;
        }
        let arrival = Arrival {
            total: total.sum(self.fees.fee(step.direction, load)),
            last: Some(step),
        };
        offer(labels, usize::from(load.head(step.direction)), arrival);
    }
}
