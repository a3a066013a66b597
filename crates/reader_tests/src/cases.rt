// Reads texts into tables whose records held something before.
use crate::print::{self, Answered};
use reader::read;
use records::{Leg, Mark, Station};
use std::io;
use text_rules::{Header, Room};

// What every leg record holds before a reading.
pub const USED_LEG: Leg = Leg {
    start: 9,
    end: 8,
    capacity: 7,
    charge: 6,
    mark: Mark::Shut,
};

// What every station record holds before a reading.
pub const USED_STATION: Station = Station { balance: -9 };

// The room of the tables that short texts are read into.
pub const SMALL: Room = Room {
    stations: 8,
    legs: 8,
};

// What stands before and behind a line, the room of the tables, and whether the network is printed: `shown` is yes or no, as
// a frame is asked for it by name.
#[derive(Drop)]
pub struct Frame {
    pub before: &'static str,
    pub behind: &'static str,
    pub room: Room,
    pub shown: bool,
}

impl Frame {
    // A frame with small tables.
    pub(crate) fn new(before: &'static str, behind: &'static str) -> Frame {
        Frame {
            before,
            behind,
            room: SMALL,
            shown: false,
        }
    }

    // The same with tables of a room.
    pub(crate) fn within(self, room: Room) -> Frame {
        Frame { room, ..self }
    }

    // The same with the network printed.
    pub(crate) fn shown(self) -> Frame {
        Frame {
            shown: true,
            ..self
        }
    }
}

// How many of the records are not cleared.
fn uncleared<T: Copy + Default + PartialEq>(records: &[T]) -> usize {
    records.iter().filter(|r| **r != T::default()).count()
}

// Reads a text into tables of a given room, and prints the answer, with the records of the network
// if `shown`, and how many records are not cleared that should be, if there are any.
pub(crate) fn read_into(rt: &HostRuntime, text: &[u8], room: Room, shown: bool) -> io::Result<()> {
    let mut legs = vec![in rt.alloc(); USED_LEG; room.legs]?;
    let mut stations = vec![in rt.alloc(); USED_STATION; room.stations]?;
    let answer = read(text, legs.as_mut_slice(), stations.as_mut_slice());
    print!(rt; "{}", Answered(answer))?;
    // where the text is refused no record is of a network, so that all have to be cleared
    let Header { nodes, arcs } = answer.unwrap_or(Header { nodes: 0, arcs: 0 });
    let (read_legs, other_legs) = legs.as_slice().split_at(arcs.min(room.legs));
    let (read_stations, other_stations) = stations.as_slice().split_at(nodes.min(room.stations));
    if shown && answer.is_ok() {
        print::stations(rt, read_stations)?;
        print::legs(rt, read_legs)?;
    }
    let left = uncleared(other_legs).saturating_add(uncleared(other_stations));
    if left != 0 {
        print!(rt; ", {left} not cleared")?;
    }
    println!(rt; "")
}

// Reads each line in a frame.
pub(crate) fn between(rt: &HostRuntime, frame: &Frame, lines: &[&str]) -> io::Result<()> {
    let before = frame.before;
    let behind = frame.behind;
    for line in lines {
        let text = format!(in rt.alloc(); "{before}{line}{behind}")?;
        print!(rt; "{line:?}: ")?;
        read_into(rt, text.as_str().as_bytes(), frame.room, frame.shown)?;
    }
    Ok(())
}

// Reads each text under its name, and prints its network if `shown`.
pub(crate) fn named(rt: &HostRuntime, texts: &[(&str, &str)], shown: bool) -> io::Result<()> {
    for (name, text) in texts {
        print!(rt; "{name}: ")?;
        read_into(rt, text.as_bytes(), SMALL, shown)?;
    }
    Ok(())
}
