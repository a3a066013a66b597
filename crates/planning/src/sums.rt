// What a plan costs, and how far it is from the standing plan. Amounts that are missing count as 0, and those beyond the
// legs do not count.
ghost use Rattle.std.specs.Prelude.{◌≡◌, ◌*◌, ◌^◌, ◌<◌};
ghost use Rattle.plans.specs.Plans.{amount, apart, cents, difference, leg_at};

use network::Network;
use steps::{Load, amount_at};

// The cents of the bikes on one leg, 0 of a leg that is not there.
fn cents_on<N: Network>(net: &N, plan: &[u16], number: usize) -> u64
    ensures value { result
        ≡ (leg_at (N.Network.meaning net.now) number).charge * amount plan.now number }
    ensures bound { result < 2 ^ 48 }
{
    let Some(load) = Load::of(net, plan, number) else {
        return 0;
    };
    u64::from(load.leg.charge) * u64::from(load.amount)
}

/// The cents of a plan: charge × bikes over all legs, on every network.
pub fn cents_of<N: Network>(net: &N, plan: &[u16]) -> u64
    ensures { result ≡ cents (N.Network.meaning net.now) plan.now }
{
    (0..net.legs())
        .map(|number| cents_on(net, plan, number))
        .sum()
}

// The larger amount on one leg less the smaller.
fn apart_on(standing: &[u16], plan: &[u16], number: usize) -> u64
    ensures value { result ≡ apart (amount plan.now number) (amount standing.now number) }
    ensures bound { result < 2 ^ 16 }
{
    u64::from(amount_at(plan, number).abs_diff(amount_at(standing, number)))
}

/// How far a plan is from the standing plan: the larger amount less the smaller over all legs, on every network.
pub fn difference_of<N: Network>(net: &N, standing: &[u16], plan: &[u16]) -> u64
    ensures { result ≡ difference (N.Network.meaning net.now) standing.now plan.now }
{
    (0..net.legs())
        .map(|number| apart_on(standing, plan, number))
        .sum()
}
