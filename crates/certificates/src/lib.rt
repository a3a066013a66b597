//! What a planner by repeated cheapest walks rests on: each theorem is the promise of one function.
#![tactic(auto)]

ghost use Rattle.certificates.specs.Theorems.{BalancesTotal, FirstIsCertified, LabelsExtend, LeftOversSum, LevelMendIsFirst, MendKeepsCertified, MendedIsCertified, NoRoundTrip, NoneOverObeys, NothingLeftObeys, PushKeepsCertificate, PushLowersOver, PushMovesEnds, PushesJoin, RoomsSuffice};

/// Bikes sent along a tight residual step, not past the standing amount, leave the certificate as it is.
pub fn push_along_a_tight_step_keeps_the_certificate()
    ensures { PushKeepsCertificate }
{}

/// Bikes sent along a residual step leave a plan that fits; only the two ends of the step have another number left over.
pub fn push_changes_only_the_ends()
    ensures { PushMovesEnds }
{}

/// Where a plan has a certificate, labels that no residual step undercuts, on stations that no residual step leaves, are part
/// of one.
pub fn labels_extend_to_a_certificate()
    ensures { LabelsExtend }
{}

/// The plan that keeps each guessed amount as far as no step over the leg undercuts a potential fits, and that potential certifies
/// it: whatever the guess, and whatever the potential.
pub fn mended_plan_is_certified()
    ensures { MendedIsCertified }
{}

/// A guess that fits and that the potential certifies stays as it is, on all legs that join stations.
pub fn mend_keeps_certified_amounts()
    ensures { MendKeepsCertified }
{}

/// The plan that gives a leg without charge what it carries in the standing plan, as far as its capacity in force goes, and
/// every other leg 0, fits, and the potential that is zero everywhere certifies it.
pub fn first_plan_is_certified()
    ensures { FirstIsCertified }
{}

/// The potential that is zero everywhere mends every guess to the plan to start from.
pub fn level_mend_is_the_first_plan()
    ensures { LevelMendIsFirst }
{}

/// A plan that fits and leaves nothing over at any station obeys.
pub fn nothing_left_over_obeys()
    ensures { NothingLeftObeys }
{}

/// Where every leg joins stations, what a plan that fits leaves over at all stations sums to what the balances sum to.
pub fn left_overs_sum_to_the_balances()
    ensures { LeftOversSum }
{}

/// Where every leg joins stations and the balances sum to 0, a plan that fits and leaves bikes over nowhere obeys.
pub fn none_over_obeys()
    ensures { NoneOverObeys }
{}

/// A residual step has room for a bike, and as many bikes as it has room for may go along it at what it costs now.
pub fn rooms_suffice()
    ensures { RoomsSuffice }
{}

/// Bikes sent from one station to a second, and from there to a third, are sent from the first to the third.
pub fn pushes_join()
    ensures { PushesJoin }
{}

/// Bikes sent from a station that has them over to one that lacks them are over no more.
pub fn push_lowers_what_is_over()
    ensures { PushLowersOver }
{}

/// A certificate excludes round trips that total below zero, in pairs of cents and bikes.
pub fn certificate_excludes_round_trips_below_zero()
    ensures { NoRoundTrip }
{}

/// The sum of the balances by number is that of their list.
pub fn balances_total_is_that_of_their_list()
    ensures { BalancesTotal }
{}
