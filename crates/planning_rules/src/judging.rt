//! The questions behind the refusals, one by one.
ghost use Rattle.std.specs.Prelude.{◌≡◌, length};
ghost use Rattle.plans.specs.Plans.{stations as count_of};
ghost use Rattle.planning_rules.specs.Checks.{lowest, senseless, senseless_leg, too_large, too_short, uneven};

use crate::lengths::Lengths;
use network::{Network, balance_of, total_balance};
use records::{Leg, MOST_BALANCE, MOST_CAPACITY, MOST_CHARGE, MOST_LEGS, MOST_STATIONS};

// Whether a slice has fewer entries than there are stations, or a working table is not made for every network.
pub(crate) fn is_too_short<N: Network>(net: &N, lengths: Lengths) -> bool
    ensures { result ≡ too_short (N.Network.meaning net.now) lengths }
{
    let stations = net.stations();
    lengths.prices < stations
        || lengths.cut < stations
        || lengths.station_entries < MOST_STATIONS
        || lengths.leg_entries < MOST_LEGS
}

// Whether a leg makes no sense among so many stations, be it open or shut.
fn makes_no_sense(stations: usize, leg: Leg) -> bool
    ensures { result ≡ senseless_leg stations leg }
{
    usize::from(leg.start) >= stations
        || usize::from(leg.end) >= stations
        || leg.start == leg.end
        || leg.capacity > MOST_CAPACITY
        || leg.charge > MOST_CHARGE
}

// Whether the leg of a number makes no sense.
fn is_senseless<N: Network>(net: &N, number: usize) -> bool
    ensures { result ≡ senseless (N.Network.meaning net.now) number }
{
    let Some(leg) = net.leg(number) else {
        return true;
    };
    makes_no_sense(net.stations(), leg)
}

// The lowest leg that makes no sense.
pub(crate) fn lowest_senseless<N: Network>(net: &N) -> Option<usize>
    ensures { result ≡ lowest (senseless (N.Network.meaning net.now)) (length (N.Network.meaning net.now).legs) }
{
    (0..net.legs()).find(|number| is_senseless(net, *number))
}

// Whether a balance is too far from 0.
fn is_too_large<N: Network>(net: &N, station: usize) -> bool
    ensures { result ≡ too_large (N.Network.meaning net.now) station }
{
    !(-MOST_BALANCE..=MOST_BALANCE).contains(&balance_of(net, station))
}

// The lowest station with a balance too far from 0.
pub(crate) fn lowest_too_large<N: Network>(net: &N) -> Option<usize>
    ensures { result ≡ lowest (too_large (N.Network.meaning net.now)) (count_of (N.Network.meaning net.now)) }
{
    (0..net.stations()).find(|station| is_too_large(net, *station))
}

// Whether the balances do not sum to 0.
pub(crate) fn is_uneven<N: Network>(net: &N) -> bool
    ensures { result ≡ uneven (N.Network.meaning net.now) }
{
    total_balance(net) != 0
}
