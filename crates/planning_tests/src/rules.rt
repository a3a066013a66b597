// The rules of plans, prices and cuts, looked at leg by leg and station by station. Network and plan by themselves: read anew, by no
// struct of the planner.
use network::Network;
use records::{Leg, Mark};

// What a leg may carry. The rules are read here anew, by no function that the planner uses.
fn capacity_in_force(leg: Leg) -> u16 {
    match leg.mark {
        Mark::Open => leg.capacity,
        Mark::Shut => 0,
    }
}

// An entry of a list, zero beyond it: anew, too.
fn entry<T: Copy + Default>(entries: &[T], place: usize) -> T {
    entries.get(place).copied().unwrap_or_default()
}

// What all legs come to together, by number and leg.
fn sum_of_legs<N: Network, F: Fn(usize, Leg) -> i64>(net: &N, part: F) -> i64
    requires { (state : F) (number : _) (leg : _) → F.pre state number leg }
{
    (0..net.legs())
        .filter_map(|number| net.leg(number).map(|leg| part(number, leg)))
        // no `sum`, which asks for a bound on what it adds: the parts are any numbers here, and below
        .fold(0i64, |sum, more| sum.saturating_add(more))
}

// Whether a rule holds of every leg, by number and leg.
fn all_legs<N: Network, F: Fn(usize, Leg) -> bool>(net: &N, rule: F) -> bool
    requires { (state : F) (number : _) (leg : _) → F.pre state number leg }
{
    (0..net.legs()).all(|number| net.leg(number).is_some_and(|leg| rule(number, leg)))
}

// The bikes that leave a station, less those that arrive.
fn leaving<N: Network>(net: &N, plan: &[u16], station: usize) -> i64 {
    sum_of_legs(net, |number, leg| {
        let bikes = i64::from(entry(plan, number));
        let leave = if usize::from(leg.start) == station {
            bikes
        } else {
            0
        };
        let arrive = if usize::from(leg.end) == station {
            bikes
        } else {
            0
        };
        leave.saturating_sub(arrive)
    })
}

// Whether a plan keeps every capacity.
fn fits<N: Network>(net: &N, plan: &[u16]) -> bool {
    all_legs(
        net,
        |number, leg| entry(plan, number) <= capacity_in_force(leg),
    )
}

// Whether a plan obeys: it fits, and meets every balance.
pub(crate) fn obeys<N: Network>(net: &N, plan: &[u16]) -> bool {
    (0..net.stations()).all(|station| {
        net.balance(station).is_some_and(|balance| leaving(net, plan, station)
            == i64::from(balance))
    }) && fits(net, plan)
}

// The cents of a plan and its difference from the standing plan.
pub(crate) fn weigh<N: Network>(net: &N, standing: &[u16], plan: &[u16]) -> (u64, u64) {
    let cents = sum_of_legs(net, |number, leg| {
        i64::from(leg.charge).saturating_mul(i64::from(entry(plan, number)))
    });
    let difference = sum_of_legs(net, |number, _| {
        i64::from(entry(plan, number).abs_diff(entry(standing, number)))
    });
    (cents.unsigned_abs(), difference.unsigned_abs())
}

// Whether no step over a leg undercuts the prices: forth where it has room, back where it carries bikes.
fn meets_reduced_cost(leg: Leg, amount: u16, prices: &[i64]) -> bool {
    let dearer = entry(prices, usize::from(leg.start)).saturating_add(i64::from(leg.charge));
    let there = entry(prices, usize::from(leg.end));
    (amount >= capacity_in_force(leg) || there <= dearer) && (amount == 0 || dearer <= there)
}

// Whether no price is above 0 and no step undercuts the prices.
pub(crate) fn are_prices<N: Network>(net: &N, plan: &[u16], prices: &[i64]) -> bool {
    all_legs(net, |number, leg| {
        meets_reduced_cost(leg, entry(plan, number), prices)
    }) && prices.iter().take(net.stations()).all(|price| *price <= 0)
}

// Whether stations are different ones of a network: each is one of its stations, and they rise.
fn are_different(stations: usize, cut: &[usize]) -> bool {
    cut.is_sorted_by(|one, next| one < next) && cut.iter().all(|station| *station < stations)
}

// What all legs out of a cut may carry together.
fn room_out<N: Network>(net: &N, cut: &[usize]) -> i64 {
    sum_of_legs(net, |_, leg| {
        if cut.contains(&usize::from(leg.start)) && !cut.contains(&usize::from(leg.end)) {
            i64::from(capacity_in_force(leg))
        } else {
            0
        }
    })
}

// Whether stations are a cut: more bikes have to leave them than may.
pub(crate) fn is_cut<N: Network>(net: &N, cut: &[usize]) -> bool {
    let bikes = cut
        .iter()
        .filter_map(|station| net.balance(*station))
        .fold(0i64, |bikes, balance| {
            bikes.saturating_add(i64::from(balance))
        });
    are_different(net.stations(), cut) && bikes > room_out(net, cut)
}
