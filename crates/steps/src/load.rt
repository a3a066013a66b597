// A leg with the bikes that it carries, and the steps over it.
ghost use Rattle.std.specs.Prelude.{◌≡◌, ◌<◌, ◌≤◌, MatchOption, length};
ghost use Rattle.plans.specs.Plans.{amount, leg_at};
ghost use Rattle.plans.specs.Residuals.{Joined, head, residual, tail};
ghost use Rattle.steps.specs.Loads.{load_of};

use crate::amounts::{amount_at, in_force};
use network::Network;
use plans::Direction;
use records::Leg;

/// A leg with its number, and the bikes that it carries under a plan. One load serves both steps
/// over its leg: a method takes the direction.
#[derive(Clone, Copy, PartialEq, Eq, Debug)]
pub struct Load {
    pub number: usize,
    pub leg: Leg,
    pub amount: u16,
}

/// A leg by its number, if both its ends are stations: no other leg has steps.
pub fn joined_leg<N: Network>(net: &N, number: usize) -> Option<Leg>
    ensures { MatchOption result (¬ Joined (N.Network.meaning net.now) number)
        (λ leg. Joined (N.Network.meaning net.now) number
        × (leg_at (N.Network.meaning net.now) number ≡ leg)) }
{
    let Some(leg) = net.leg(number) else {
        return None;
    };
    let stations = net.stations();
    let is_joined = usize::from(leg.start) < stations && usize::from(leg.end) < stations;
    is_joined.then_some(leg)
}

impl Load {
    /// A leg with what a plan has it carry.
    pub fn new(number: usize, leg: Leg, plan: &[u16]) -> Load
        ensures { result ≡ record {
          number = number;
          leg = leg;
          amount = amount plan.now number;
        } }
    {
        Load {
            number,
            leg,
            amount: amount_at(plan, number),
        }
    }

    /// A leg by its number, with what a plan has it carry.
    pub fn of<N: Network>(net: &N, plan: &[u16], number: usize) -> Option<Load>
        ensures { MatchOption result (length (N.Network.meaning net.now).legs ≤ number)
            (λ load. (number < length (N.Network.meaning net.now).legs)
            × (load ≡ load_of (N.Network.meaning net.now) plan.now number)) }
    {
        let Some(leg) = net.leg(number) else {
            return None;
        };
        Some(Load::new(number, leg, plan))
    }

    /// The same, if both ends of the leg are stations.
    pub fn joined<N: Network>(net: &N, plan: &[u16], number: usize) -> Option<Load>
        ensures { MatchOption result (¬ Joined (N.Network.meaning net.now) number)
            (λ load. Joined (N.Network.meaning net.now) number
            × (load ≡ load_of (N.Network.meaning net.now) plan.now number)) }
    {
        let Some(joined) = joined_leg(net, number) else {
            return None;
        };
        Some(Load::new(number, joined, plan))
    }

    /// The station where a step begins.
    #[inline(always)]
    pub fn tail(self, direction: Direction) -> u16
        ensures { result ≡ tail direction self.leg }
    {
        match direction {
            Direction::Forth => self.leg.start,
            Direction::Back => self.leg.end,
        }
    }

    /// The station where a step ends.
    #[inline(always)]
    pub fn head(self, direction: Direction) -> u16
        ensures { result ≡ head direction self.leg }
    {
        match direction {
            Direction::Forth => self.leg.end,
            Direction::Back => self.leg.start,
        }
    }

    /// How many bikes can go along a step: its residual capacity.
    #[inline(always)]
    pub fn residual(self, direction: Direction) -> u16
        ensures { result ≡ residual direction self.leg self.amount }
    {
        match direction {
            Direction::Forth => in_force(self.leg).saturating_sub(self.amount),
            Direction::Back => self.amount,
        }
    }
}
