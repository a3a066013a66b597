//! What a plan on a network is, which plan is best, what prices and cuts are, and theorems about them.
//! Each theorem is the promise of one function.
#![tactic(auto)]

ghost use Rattle.plans.specs.Theorems.{BestHasNoRoundTrip, CertifiedHasNoRoundTrip, CertifiedIsBest, CutExcludesPlans, PricesAreUnique, PricesExist, PricesMeetReducedCost, UncrossedIsCut};

pub mod direction;

pub use direction::Direction;

/// Where every leg joins stations, a plan that obeys is cheapest, then nearest, if no residual step undercuts some potential.
pub fn certified_plan_is_cheapest_then_nearest()
    ensures { CertifiedIsBest }
{}

/// Such a potential also excludes round trips that total below zero cents.
pub fn certified_plan_has_no_round_trip_below_zero()
    ensures { CertifiedHasNoRoundTrip }
{}

/// A plan that is cheapest, then nearest admits no round trip below zero.
pub fn best_plan_has_no_round_trip_below_zero()
    ensures { BestHasNoRoundTrip }
{}

/// Where every leg joins stations and there is a cut, no plan obeys.
pub fn cut_excludes_plans()
    ensures { CutExcludesPlans }
{}

/// Where every leg joins stations, those that no residual step of a plan that fits leaves are a cut if bikes are left over at
/// one of them and none of them lacks any.
pub fn uncrossed_stations_are_a_cut()
    ensures { UncrossedIsCut }
{}

/// Where no round trip totals below zero, the price at the end of a step is at most that at its start and its cents.
pub fn prices_meet_reduced_cost()
    ensures { PricesMeetReducedCost }
{}

/// A station has one price at most.
pub fn prices_are_unique()
    ensures { PricesAreUnique }
{}

/// Where no round trip totals below zero, every station has a price, and no walk that ends there totals less.
pub fn prices_exist()
    ensures { PricesExist }
{}
