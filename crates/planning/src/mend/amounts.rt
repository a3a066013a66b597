// What legs carry once their guessed amounts are mended.
ghost use Rattle.std.specs.Prelude.{◌≡◌, ◌<◌, length, pos};
ghost use Rattle.certificates.specs.Mends.{Mended, fewest, mended_amount, most, rise};
ghost use Rattle.costs.specs.Kinds.{both_kind};
ghost use Rattle.planning.specs.Potentials.{potential};
ghost use Rattle.plans.specs.Plans.{amount, leg_at};

use crate::mend::rises::rise;
use costs::{Bikes, Cents, CentsThenBikes, Cost, Pair};
use network::Network;
use records::Leg;
use steps::{amount_at, in_force};

// What a step forth over a leg costs, with bikes of difference.
fn forth(leg: Leg, bikes: i64) -> CentsThenBikes
    ensures { both_kind.worth result ≡ (pos leg.charge, bikes) }
{
    Pair {
        first: Cents::new(i64::from(leg.charge)),
        second: Bikes::new(bikes),
    }
}

// The fewest bikes that a leg may carry where a potential rises so much over it: with fewer, a step forth would undercut it.
fn fewest(leg: Leg, standing: u16, rise: CentsThenBikes) -> u16
    ensures { result ≡ fewest leg standing (both_kind.worth rise) }
{
    if !forth(leg, -1).below(rise) {
        0
    } else if forth(leg, 1).below(rise) {
        in_force(leg)
    } else {
        standing.min(in_force(leg))
    }
}

// The most bikes that it may carry: with more, a step back would undercut the potential.
fn most(leg: Leg, standing: u16, rise: CentsThenBikes) -> u16
    ensures { result ≡ most leg standing (both_kind.worth rise) }
{
    if !rise.below(forth(leg, 1)) {
        in_force(leg)
    } else if rise.below(forth(leg, -1)) {
        0
    } else {
        standing.min(in_force(leg))
    }
}

// What a leg carries where a potential rises so much over it: what comes nearest to the guess.
fn mended_amount(leg: Leg, standing: u16, rise: CentsThenBikes, guess: u16) -> u16
    ensures { result ≡ mended_amount leg standing (both_kind.worth rise) guess }
{
    guess
        .min(most(leg, standing, rise))
        .max(fewest(leg, standing, rise))
}

// The same of a leg by its number.
fn mended_at<N: Network>(
    net: &N,
    standing: &[u16],
    potentials: &[CentsThenBikes],
    number: usize,
    guess: u16,
) -> u16
    requires { number < length (N.Network.meaning net.now).legs }
    ensures { result
        ≡ mended_amount (leg_at (N.Network.meaning net.now) number) (amount standing.now number)
        (rise (leg_at (N.Network.meaning net.now) number) (potential potentials.now)) guess }
{
    let Some(leg) = net.leg(number) else {
        return 0;
    };
    mended_amount(
        leg,
        amount_at(standing, number),
        rise(leg, potentials),
        guess,
    )
}

// Mends guessed amounts, one for each leg.
pub(crate) fn mend_all<N: Network>(
    net: &N,
    standing: &[u16],
    potentials: &[CentsThenBikes],
    plan: &mut [u16],
)
    requires { length plan.old ≡ length (N.Network.meaning net.now).legs }
    ensures { Mended (N.Network.meaning net.now) standing.now plan.old (potential potentials.now)
        plan.new }
{
    for (number, bikes) in plan.iter_mut().enumerate() {
        *bikes = mended_at(net, standing, potentials, number, *bikes);
    }
}
