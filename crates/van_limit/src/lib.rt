// A layer over any network: no leg takes more bikes than a van. All else is as below.
#![tactic(auto)]

ghost use Rattle.std.specs.Prelude.{◌≡◌, min};
ghost use Rattle.network.specs.Keeping.{below as part};
ghost use Rattle.van_limit.specs.Limited.{limited, limited_within};

use network::{Network, Office};
use records::{Leg, MOST_CAPACITY, Mark, Refusal};

// A network under a limit on every leg's capacity.
#[derive(Drop)]
pub struct VanLimit<N> {
    below: N,
    limit: u16,
}

impl<N> VanLimit<N> {
    // A limit of at most 500; a higher number is taken as 500.
    pub fn new(below: N, limit: u16) -> VanLimit<N>
        ensures { (result.below ≡ below) × (result.limit ≡ min limit 500) }
    {
        VanLimit {
            below,
            limit: limit.min(MOST_CAPACITY),
        }
    }
}

impl<N: Network> Network for VanLimit<N> {
    ghost meaning = { λ s. limited s.limit (N.Network.meaning s.below) };

    ghost limits = { λ s. limited_within s.limit (N.Network.meaning s.below) (N.Network.limits s.below) };

    fn stations(&self) -> usize {
        self.below.stations()
    }

    fn legs(&self) -> usize {
        self.below.legs()
    }

    fn open_stations(&self) -> usize {
        self.below.open_stations()
    }

    fn road_legs(&self) -> usize {
        self.below.road_legs()
    }

    fn leg(&self, number: usize) -> Option<Leg> {
        let Some(leg) = self.below.leg(number) else {
            return None;
        };
        Some(Leg {
            capacity: leg.capacity.min(self.limit),
            ..leg
        })
    }

    fn balance(&self, station: usize) -> Option<i32> {
        self.below.balance(station)
    }
}

// A layer hands its calls on by itself: an implementation for all layers would overlap with that of `Table`, which is refused.
impl<N: Office> Office for VanLimit<N> {
    ghost kept = { λ s t. N.Office.kept s.below t.below };

    ghost keeps = { part (λ s. s.below) N.Office.keeps };

    fn report(&mut self, station: usize, balance: i32) -> Result<(), Refusal> {
        self.below.report(station, balance)
    }

    fn set_mark(&mut self, leg: usize, mark: Mark) -> Result<(), Refusal> {
        self.below.set_mark(leg, mark)
    }
}
