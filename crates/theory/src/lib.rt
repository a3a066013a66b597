//! Theorems about plans, walks and prices over any ordered group. Each is the promise of one function.
#![tactic(auto)]

ghost use Rattle.theory.specs.Groups.{OrderedGroup};
ghost use Rattle.theory.specs.Theorems.{CutHolds, Exchange, FewDistinct, FullCut, LabelsAreLeast, LabelsExcludeRoundTrips, LeastAtOneLeg, LeastTotalsExist, PriceIsLeast, PushAlongTrail, ReducedCostOfPrices, RoundTripIsTrail, RoundTripsRemoved, RoundsReach, RoundsShowTrip, UndercutByNoStep};

/// Values that stand for members of an ordered group, in which they are added and compared.
pub trait Grouped {
    ghost Member: { Type 0 };

    ghost group: { OrderedGroup Member };

    // the member that a value stands for
    ghost worth: { Self → Member };
}

/// Sums over the stations are sums over the legs, whose ends are stations.
pub fn sums_over_stations_are_sums_over_legs<K: Grouped>()
    ensures { Exchange K.Grouped.group }
{}

/// On a convex leg, an amount that no residual step undercuts is the best.
pub fn convex_leg_is_least_where_tight<K: Grouped>()
    ensures { LeastAtOneLeg K.Grouped.group }
{}

/// Weak duality: where legs join stations and fees are convex, a feasible plan is cheapest if no residual step undercuts some
/// potential.
pub fn undercut_by_no_step_is_cheapest<K: Grouped>()
    ensures { UndercutByNoStep K.Grouped.group }
{}

/// A walk to a station shows a round trip below zero, or a simple walk there totals no more.
pub fn walk_without_round_trips_totals_no_more<K: Grouped>()
    ensures { RoundTripsRemoved K.Grouped.group }
{}

/// Labels that no start and no step undercuts, and that walks attain, are least totals and prices.
pub fn attained_labels_are_least_totals<K: Grouped>()
    ensures { LabelsAreLeast K.Grouped.group }
{}

/// Where labels are undercut by no start and no step, no round trip below zero is reached.
pub fn labels_exclude_round_trips_below_zero<K: Grouped>()
    ensures { LabelsExcludeRoundTrips K.Grouped.group }
{}

/// Where no round trip below zero is reached, prices meet the reduced-cost condition on every step.
pub fn prices_meet_reduced_costs<K: Grouped>()
    ensures { ReducedCostOfPrices K.Grouped.group }
{}

/// Where no round trip below zero is reached, a price is the least total of all walks, and a station has one.
pub fn prices_are_least_totals<K: Grouped>()
    ensures { PriceIsLeast K.Grouped.group }
{}

/// Where no round trip below zero is reached, every station that a walk reaches has a least total and a price.
pub fn least_totals_exist<K: Grouped>()
    ensures { LeastTotalsExist K.Grouped.group }
{}

/// After k rounds of relaxing, every walk of at most k steps is reached (Bellman–Ford).
pub fn rounds_reach_short_walks<K: Grouped>()
    ensures { RoundsReach K.Grouped.group }
{}

/// A walk that totals less than what all rounds reach shows a round trip below zero.
pub fn late_fall_shows_round_trip<K: Grouped>()
    ensures { RoundsShowTrip K.Grouped.group }
{}

/// Bikes sent along residual steps of different legs: the plan still fits, and only the ends send out another number.
pub fn push_moves_only_the_ends<K: Grouped>()
    ensures { PushAlongTrail K.Grouped.group }
{}

/// Where fees are convex, a round trip below zero passes different legs, so one bike can be sent around it.
pub fn round_trip_below_zero_is_a_trail<K: Grouped>()
    ensures { RoundTripIsTrail K.Grouped.group }
{}

/// Where legs join stations, a set of stations that owes more than its legs outwards can carry admits no plan.
pub fn overloaded_cut_admits_no_plan<K: Grouped>()
    ensures { CutHolds K.Grouped.Member }
{}

/// Where legs join stations, a set of stations that no residual step leaves sends out, net, all that its legs outwards can carry.
pub fn uncrossed_cut_sends_all_it_can<K: Grouped>()
    ensures { FullCut K.Grouped.Member }
{}

/// The pigeonhole: different numbers below n are at most n.
pub fn different_numbers_below_are_few()
    ensures { FewDistinct }
{}
