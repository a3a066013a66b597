//! Claims on three stations that are right, wrong, incomplete or extreme, and whether they are
//! confirmed.
use costs::Cents;
use plans::Direction;
use prices::is_claim_confirmed;
use records::Station;
use samples::worked::{STATIONS, T, leg};
use search::{Arrival, Label};
use std::io;
use steps::Step;
use table::Table;

// A label with a total and no last step.
fn start(total: i64) -> Label<Cents> {
    Label {
        arrival: Some(Arrival {
            total: Cents::new(total),
            last: None,
        }),
        better: None,
        changed: false,
    }
}

// A label with a total and a last step.
fn label(total: i64, direction: Direction, leg: usize) -> Label<Cents> {
    Label {
        arrival: Some(Arrival {
            total: Cents::new(total),
            last: Some(Step { direction, leg }),
        }),
        better: None,
        changed: false,
    }
}

// A label with a total and a last step along a leg.
fn forth(total: i64, leg: usize) -> Label<Cents> {
    label(total, Direction::Forth, leg)
}

// A label with a total and a last step against a leg.
fn back(total: i64, leg: usize) -> Label<Cents> {
    label(total, Direction::Back, leg)
}

// Whether a claim is confirmed.
fn tell(
    rt: &impl Print,
    name: &str,
    (table, plan): (&Table<'_>, &[u16]),
    labels: &[Label<Cents>],
    ranks: &[usize],
) -> io::Result<()> {
    let is_confirmed = is_claim_confirmed(table, plan, labels, ranks);
    println!(rt; "{name}: {is_confirmed}")
}

// The cheapest plan, whose prices are -30, -10 and 0: station 0 is reached against leg 0, and station 1
// against leg 1.
pub(crate) fn worked(rt: &impl Print) -> io::Result<()> {
    let mut legs = T;
    let mut stations = STATIONS;
    let table = Table {
        legs: &mut legs,
        stations: &mut stations,
    };
    let best = (&table, [4, 4, 0].as_slice());
    let right = [back(-30, 0), back(-10, 1), start(0), start(7)];
    let ranks = [2, 1, 0];
    tell(rt, "prices", best, &right, &ranks)?;
    tell(rt, "missing ranks", best, &right, &[2, 1])?;
    tell(rt, "equal ranks", best, &right, &[1, 1, 0])?;
    tell(
        rt,
        "missing label at 0",
        best,
        &[back(-30, 0), back(-10, 1)],
        &ranks,
    )?;
    let stepless = [start(-30), start(-10), start(0)];
    tell(rt, "no last steps", best, &stepless, &ranks)?;
    let astray = [back(-30, 0), back(-10, 0), start(0)];
    tell(rt, "a step to another station", best, &astray, &ranks)?;
    let empty = [back(-30, 2), back(-10, 1), start(0)];
    tell(rt, "no bike to go back", best, &empty, &ranks)?;
    let absent = [back(-30, usize::MAX), back(-10, 1), start(0)];
    tell(rt, "no such leg", best, &absent, &ranks)?;
    let low = [back(-31, 0), back(-10, 1), start(0)];
    tell(rt, "too low", best, &low, &ranks)?;
    let high = [back(-29, 0), back(-10, 1), start(0)];
    tell(rt, "too high", best, &high, &ranks)?;
    tell(rt, "no labels", best, &[], &ranks)?;
    let above = [back(-29, 0), back(-9, 1), start(1)];
    tell(rt, "above zero", best, &above, &ranks)?;
    let lowest = [back(i64::MIN, 0), back(-10, 1), start(0)];
    tell(rt, "lowest", best, &lowest, &ranks)?;
    let both = [back(i64::MAX, 0), back(i64::MIN, 1), start(0)];
    tell(rt, "lowest and highest", best, &both, &ranks)?;
    let dearer = (&table, [3, 3, 1].as_slice());
    tell(rt, "another plan", dearer, &right, &ranks)?;
    tell(rt, "no bikes", (&table, &[]), &[], &[])
}

// A round trip of zero: its stations cannot vouch for one another.
pub(crate) fn around(rt: &impl Print) -> io::Result<()> {
    let mut legs = [leg(0, 1, 3, 0), leg(1, 2, 3, 0), leg(2, 0, 3, 0)];
    let mut stations = [Station { balance: 0 }; 3];
    let table = Table {
        legs: &mut legs,
        stations: &mut stations,
    };
    let plan = (&table, [1, 1, 1].as_slice());
    let low = [forth(-5, 2), forth(-5, 0), forth(-5, 1)];
    tell(rt, "around", plan, &low, &[0, 1, 2])?;
    tell(rt, "around at zero", plan, &[start(0); 3], &[0, 1, 2])
}
