//! What a run starts from: arcs for the legs, and the tree in which each station hangs from the root by an artificial arc.
use crate::arc::{Arc, Offer};
use crate::arcs::Arcs;
use crate::fold::{UNIT, folded};
use crate::node::{ARTIFICIAL, Link, Node};
use network::Network;
use records::Leg;
use steps::{amount_at, in_force};

/// What an artificial arc carries at most.
const ENDLESS: i32 = 1_073_741_824;

/// A station that hangs from the root by an arc that carries its balance: up, or down where bikes are lacking.
#[inline(always)]
fn first_node(station: u8, last: u8, balance: i32) -> Node {
    let flow = balance.wrapping_abs();
    let rest = ENDLESS.wrapping_sub(flow);
    Node {
        link: Link {
            up: if balance >= 0 { rest } else { flow },
            down: if balance >= 0 { flow } else { rest },
            arc: ARTIFICIAL,
            parent: station,
        },
        next: if station == last {
            0
        } else {
            station.wrapping_add(1)
        },
        previous: if station == 0 {
            last
        } else {
            station.wrapping_sub(1)
        },
        depth: 1,
    }
}

/// Hangs all stations from the root, in the order of their numbers. To a station that lacks bikes any arc is better than none, to
/// another no arc is. `None`: a balance is missing, or there are too many stations.
pub(crate) fn hang_stations<N: Network>(
    net: &N,
    nodes: &mut [Node],
    best: &mut [Offer],
) -> Option<()> {
    let count = u8::try_from(nodes.len()).ok()?;
    let last = count.saturating_sub(1);
    for station in 0..count {
        let balance = net.balance(usize::from(station))?;
        *nodes.get_mut(usize::from(station))? = first_node(station, last, balance);
        *best.get_mut(usize::from(station))? = Offer {
            cost: if balance < 0 { i64::MAX } else { i64::MIN },
            arc: ARTIFICIAL,
        };
    }
    Some(())
}

/// Notes an arc, if it is the cheapest yet into a station that lacks bikes.
#[inline(always)]
fn note(best: &mut [Offer], arc: Arc, number: u16) -> Option<()> {
    let entry = best.get_mut(usize::from(arc.head))?;
    *entry = entry.or(Offer {
        cost: arc.cost,
        arc: number,
    });
    Some(())
}

/// Splits a leg at its standing amount: a bike up to there brings the plan nearer to the standing one, a bike beyond takes it away.
#[inline(always)]
fn split_leg(
    number: usize,
    leg: Leg,
    standing: u16,
    arcs: &mut Arcs<'_>,
    best: &mut [Offer],
) -> Option<()> {
    let capacity = in_force(leg);
    let below = standing.min(capacity);
    let above = capacity.wrapping_sub(below);
    let cost = folded(leg.charge);
    let mut arc = Arc {
        cost: cost.wrapping_sub(1),
        leg: u16::try_from(number).ok()?,
        capacity: below,
        tail: u8::try_from(leg.start).ok()?,
        head: u8::try_from(leg.end).ok()?,
        is_turned: false,
    };
    if below > 0 {
        note(best, arc, arcs.push_lower(arc)?)?;
    }
    if above > 0 {
        arc.cost = cost.wrapping_add(1);
        arc.capacity = above;
        note(best, arc, arcs.push_upper(arc)?)?;
    }
    Some(())
}

/// Splits all legs, and answers the highest charge. `None`: a leg joins no stations, or is missing.
pub(crate) fn split_legs<N: Network>(
    net: &N,
    standing: &[u16],
    arcs: &mut Arcs<'_>,
    best: &mut [Offer],
) -> Option<u32> {
    let mut highest = 0u32;
    for number in 0..net.legs() {
        let leg = net.leg(number)?;
        highest = highest.max(leg.charge);
        split_leg(number, leg, amount_at(standing, number), arcs, best)?;
    }
    Some(highest)
}

/// Writes the potentials of the first tree. An artificial arc down to a station costs more than any way there, and a whole number of
/// cents, so that potentials split into cents and bikes as the costs of legs do.
pub(crate) fn write_potentials(best: &[Offer], potentials: &mut [i64], highest: u32) {
    let count = i64::try_from(best.len()).unwrap_or(0);
    let charge = folded(highest).wrapping_add(UNIT).wrapping_mul(count);
    for (potential, offer) in potentials.iter_mut().zip(best) {
        *potential = if offer.cost == i64::MIN { 0 } else { charge };
    }
}
