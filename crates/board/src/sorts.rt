// The two sorts of lists: who is on them.
ghost use Rattle.tally.specs.Tallies.{runs as running, short};

use network::{Belongs, Network, balance_of};
use steps::amount_at;

// The stations of a network that are short.
#[derive(Drop)]
pub(crate) struct ShortStations<'a, N> {
    pub(crate) net: &'a N,
}

impl<'a, N: Network> Belongs for ShortStations<'a, N> {
    ghost belongs = { λ s v. short (N.Network.meaning s.net.now) v };

    fn belongs(&self, number: usize) -> bool {
        balance_of(self.net, number) < 0
    }
}

// The legs that run under a plan.
#[derive(Drop)]
pub(crate) struct RunningLegs<'a> {
    pub(crate) plan: &'a [u16],
}

impl<'a> Belongs for RunningLegs<'a> {
    ghost belongs = { λ s k. running s.plan.now k };

    fn belongs(&self, number: usize) -> bool {
        amount_at(self.plan, number) > 0
    }
}
