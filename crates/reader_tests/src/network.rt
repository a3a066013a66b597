// A network of 240 stations and 3,000 legs: every record is compared with what the text says.
use crate::cases::{USED_LEG, USED_STATION};
use crate::print::Answered;
use reader::read;
use records::{
    Leg, MOST_CAPACITY, MOST_CHARGE, MOST_LEGS, MOST_REPORTED, MOST_STATIONS, Mark, Station,
};
use std::alloc::{AllocError, Global};
use std::{io, iter};
use text_rules::id_of;

// As many stations as a network may have. Cast: no `From` narrows, and 240 fits.
const STATIONS: u16 = MOST_STATIONS as u16;

// The first station.
const FIRST_STATION: Station = Station {
    balance: -MOST_REPORTED,
};

// The first leg.
const FIRST_LEG: Leg = Leg {
    start: 0,
    end: STATIONS - 1,
    capacity: MOST_CAPACITY,
    charge: MOST_CHARGE,
    mark: Mark::Open,
};

// The next station.
fn next_station(station: Station) -> Station {
    Station {
        balance: station.balance.saturating_add(5).min(MOST_REPORTED),
    }
}

// The next leg: it starts where the one before ends.
fn next_leg(leg: Leg) -> Leg {
    Leg {
        start: leg.end,
        end: leg.end.wrapping_add(7) % STATIONS,
        capacity: leg.capacity.wrapping_add(37) % (MOST_CAPACITY + 1),
        charge: leg.charge.wrapping_add(911) % (MOST_CHARGE + 1),
        mark: Mark::Open,
    }
}

// The lines of the stations.
fn node_lines(heap: Global) -> Result<String, AllocError> {
    let mut text = String::new(heap);
    let stations = iter::successors(Some(FIRST_STATION), |station| Some(next_station(*station)));
    for (id, station) in (1..=MOST_STATIONS).zip(stations) {
        let balance = station.balance;
        writeln!(text, "n {id} {balance}")?;
    }
    Ok(text)
}

// The lines of the legs.
fn arc_lines(heap: Global) -> Result<String, AllocError> {
    let mut text = String::new(heap);
    let legs = iter::successors(Some(FIRST_LEG), |leg| Some(next_leg(*leg)));
    for leg in legs.take(MOST_LEGS) {
        let source = id_of(leg.start);
        let target = id_of(leg.end);
        let capacity = leg.capacity;
        let cost = leg.charge;
        writeln!(text, "a {source} {target} 0 {capacity} {cost}")?;
    }
    Ok(text)
}

// The text that states the network.
fn text(heap: Global) -> Result<String, AllocError> {
    let nodes = node_lines(heap)?;
    let arcs = arc_lines(heap)?;
    format!(in heap; "p min 240 3000\n{nodes}{arcs}")
}

// How many records are others than those that follow a first one.
fn others<T: Copy + PartialEq, F: Fn(T) -> T>(records: &[T], first: T, next: F) -> usize
    requires { (f : _) (x : _) → F.pre f x }
{
    records
        .iter()
        .zip(iter::successors(Some(first), |record| Some(next(*record))))
        .filter(|(found, expected)| **found != *expected)
        .count()
}

// Reads the network, and prints how many records differ from it.
pub(crate) fn whole(rt: &HostRuntime) -> io::Result<()> {
    let text = text(rt.alloc())?;
    let mut legs = vec![in rt.alloc(); USED_LEG; MOST_LEGS]?;
    let mut stations = vec![in rt.alloc(); USED_STATION; MOST_STATIONS]?;
    let answer = read(
        text.as_str().as_bytes(),
        legs.as_mut_slice(),
        stations.as_mut_slice(),
    );
    let count = others(stations.as_slice(), FIRST_STATION, next_station).saturating_add(others(
        legs.as_slice(),
        FIRST_LEG,
        next_leg,
    ));
    println!(rt;
        "240 nodes and 3000 arcs: {}, {count} records differ",
        Answered(answer)
    )
}
