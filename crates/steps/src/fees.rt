// What a residual step costs.
ghost use Rattle.std.specs.Prelude.{◌≡◌, ◌≤◌};
ghost use Rattle.plans.specs.declared.direction.Direction.{Direction};
ghost use Rattle.steps.specs.declared.load.Load.{Load};
ghost use Rattle.steps.specs.Fees.{BothAreStepBoth, CentsAreStepCents, fee_both, fee_cents};

use crate::amounts::amount_at;
use crate::load::Load;
use costs::{Bikes, Cents, CentsThenBikes, Cost, Pair};
use plans::Direction;

/// What a step over a leg costs, by its direction, the leg and what it carries.
/// No part of it is further from zero than a charge can be.
pub trait Fees<C: Cost> {
    ghost cost: { Self → Direction → Load → C };

    /// One bike more over a leg, or one less.
    fn fee(&self, direction: Direction, load: Load) -> C
        ensures worth { C.Grouped.worth result ≡ C.Grouped.worth (cost self.now direction load) }
        ensures small { C.Cost.size result ≤ 4294967295 };
}

/// Steps cost cents: the charge forth, the negated charge back.
#[derive(Clone, Copy, PartialEq, Eq, Debug)]
pub struct InCents;

impl Fees<Cents> for InCents {
    ghost cost = { λ _ direction load. fee_cents direction load.leg };

    #[inline(always)]
    fn fee(&self, direction: Direction, load: Load) -> Cents {
        let charge = i64::from(load.leg.charge);
        Cents::new(match direction {
            Direction::Forth => charge,
            Direction::Back => -charge,
        })
    }
}

/// Steps cost cents and bikes of difference from a standing plan, whose missing amounts count as 0.
#[derive(Clone, Copy, PartialEq, Eq, Debug)]
pub struct InBoth<'a> {
    pub standing: &'a [u16],
}

impl<'a> Fees<CentsThenBikes> for InBoth<'a> {
    ghost cost = { λ s direction load. fee_both s.standing.now direction load };

    #[inline(always)]
    fn fee(&self, direction: Direction, load: Load) -> CentsThenBikes {
        let standing = amount_at(self.standing, load.number);
        let is_away = match direction {
            Direction::Forth => standing <= load.amount,
            Direction::Back => load.amount <= standing,
        };
        Pair {
            first: InCents.fee(direction, load),
            second: Bikes::new(if is_away { 1 } else { -1 }),
        }
    }
}

/// Fees in cents are the cents of residual steps.
pub fn in_cents_are_step_cents()
    ensures { CentsAreStepCents }
{}

/// Fees in both are the cents and the bikes of difference of residual steps.
pub fn in_both_are_step_both()
    ensures { BothAreStepBoth }
{}
