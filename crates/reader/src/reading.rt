// Reading a whole text into lent tables.
ghost use Rattle.std.specs.Prelude.{◌≡◌, ℕ, ◌+◌, ◌-◌, ◌^◌, ◌<◌, ◌≤◌, length, replicate};
ghost use Rattle.records.specs.Cleared.{cleared_leg, cleared_station};
ghost use Rattle.text_rules.specs.Reading.{reading, answer_of, legs_after, stations_after, Exactly};
ghost use Rattle.reader.specs.Entering.{Small, legs_with, stations_with, Filled, room_of};

use crate::under_way::Reader;
use lines::Line;
use records::{Leg, Mark, Refusal, Station};
use slices::put;
use text_rules::{Header, Room};

// Clears every record.
// Two slices, here and below, and no struct of them: each call would owe besides that the struct holds the same slices after it.
fn clear(legs: &mut [Leg], stations: &mut [Station])
    ensures legs { legs.new ≡ replicate (length legs.old) cleared_leg }
    ensures stations { stations.new ≡ replicate (length stations.old) cleared_station }
{
    legs.fill(Leg::default());
    stations.fill(Station::default());
}

// The station that an ID names, as `id_of` names it. Cast: no `From` narrows, and an ID is at most 240.
fn station_named(id: u32) -> u16
    requires { (1 ≤ id) × (id ≤ 240) }
    ensures { result ≡ id - 1 }
{
    (id - 1) as u16
}

// Enters what a line states; `arcs` is the number of arc lines with this one.
fn enter(line: Line, arcs: usize, legs: &mut [Leg], stations: &mut [Station])
    requires { Small line arcs }
    ensures legs { legs.new ≡ legs_with line arcs legs.old }
    ensures stations { stations.new ≡ stations_with line stations.old }
{
    match line {
        Line::Comment | Line::Problem { .. } => {}
        Line::Node { id, flow } => {
            let station = usize::from(station_named(id));
            put(stations, station, Station { balance: flow });
        }
        Line::Arc {
            source,
            target,
            capacity,
            cost,
            ..
        } => {
            let leg = Leg {
                start: station_named(source),
                end: station_named(target),
                // no `From` of this kind exists, and the check proves that nothing is lost
                capacity: capacity as u16,
                charge: cost,
                mark: Mark::Open,
            };
            put(legs, arcs - 1, leg);
        }
    }
}

// Reads the lines of a text into cleared tables.
fn read_lines(text: &[u8], legs: &mut [Leg], stations: &mut [Station]) -> Result<Header, Refusal>
    requires { (legs.old ≡ replicate (length legs.old) cleared_leg) × (stations.old ≡ replicate (length stations.old) cleared_station) }
    ensures { Filled result (room_of legs.old stations.old) text.now legs.new stations.new }
{
    let room = Room {
        stations: stations.len(),
        legs: legs.len(),
    };
    let mut reader = Reader::new(text, room);
    while let Some(line) = reader.take_line()? {
        enter(line, reader.progress.arcs, legs, stations);
    }
    reader.finish()
}

// Reads a text into lent tables. Accepted, it answers what the problem line announced, and the tables hold the
// stations and legs and are cleared beyond them. Refused, the tables are cleared.
pub fn read(text: &[u8], legs: &mut [Leg], stations: &mut [Station]) -> Result<Header, Refusal>
    ensures answer { result ≡ answer_of (reading (room_of legs.old stations.old) text.now) }
    ensures legs { legs.new ≡ legs_after (reading (room_of legs.old stations.old) text.now) (length legs.old) }
    ensures stations { stations.new ≡ stations_after (reading (room_of legs.old stations.old) text.now) (length stations.old) }
    ensures exactly { Exactly text.now (room_of legs.old stations.old) result legs.new stations.new }
{
    clear(legs, stations);
    let answer = read_lines(text, legs, stations);
    if answer.is_err() {
        clear(legs, stations);
    }
    answer
}
