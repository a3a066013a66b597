// The amount that a plan gives a leg, and the capacity that is in force.
ghost use Rattle.std.specs.Prelude.{◌≡◌};
ghost use Rattle.plans.specs.Plans.{amount, in_force};

use records::{Leg, Mark};

/// The amount of a leg by its number, in bikes; one that is missing counts as 0.
pub fn amount_at(amounts: &[u16], number: usize) -> u16
    ensures { result ≡ amount amounts.now number }
{
    amounts.get(number).copied().unwrap_or(0)
}

/// The capacity of an open leg, 0 of a shut one.
pub fn in_force(leg: Leg) -> u16
    ensures { result ≡ in_force leg }
{
    match leg.mark {
        Mark::Open => leg.capacity,
        Mark::Shut => 0,
    }
}
