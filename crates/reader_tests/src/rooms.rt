// Texts read into tables that are too short, just long enough and longer.
use crate::cases;
use records::{MOST_LEGS, MOST_STATIONS};
use std::io;
use text_rules::Room;

// Reads a text into tables of each room: the stations first, then the legs. Pairs and no `Room`s, so that a list of rooms is read at a
// glance.
fn into_each(rt: &HostRuntime, name: &str, text: &str, rooms: &[(usize, usize)]) -> io::Result<()> {
    for &(stations, legs) in rooms {
        print!(rt; "{name} into {stations} and {legs}: ")?;
        let room = Room { stations, legs };
        cases::read_into(rt, text.as_bytes(), room, false)?;
    }
    Ok(())
}

const TWO_ARCS: &str = "p min 3 2\na 1 2 0 5 7\na 2 3 0 4 6\n";

const TWO_ARCS_LATER: &str = "c\np min 3 2\na 1 2 0 5 7\na 2 3 0 4 6\n";

const TWO_ARCS_ROOMS: [(usize, usize); 9] = [
    (0, 0),
    (2, 2),
    (3, 1),
    (2, 1),
    (3, 0),
    (0, 2),
    (3, 2),
    (4, 3),
    (300, 4000),
];

const LARGEST: [(usize, usize); 5] = [
    (MOST_STATIONS - 1, MOST_LEGS),
    (MOST_STATIONS, MOST_LEGS - 1),
    (MOST_STATIONS, MOST_LEGS),
    (MOST_STATIONS + 1, MOST_LEGS + 1),
    (0, 0),
];

// Every text and every room.
pub(crate) fn all(rt: &HostRuntime) -> io::Result<()> {
    into_each(rt, "three and two", TWO_ARCS, &TWO_ARCS_ROOMS)?;
    into_each(
        rt,
        "three and none",
        "p min 3 0\n",
        &[(2, 0), (0, 9), (3, 0)],
    )?;
    into_each(
        rt,
        "behind a comment",
        TWO_ARCS_LATER,
        &[(2, 2), (3, 1), (3, 2)],
    )?;
    into_each(rt, "largest", "p min 240 3000\n", &LARGEST)?;
    into_each(
        rt,
        "nodes above the range",
        "p min 241 0\n",
        &[(0, 0), (241, 0)],
    )?;
    into_each(
        rt,
        "arcs above the range",
        "p min 1 3001\n",
        &[(0, 0), (1, 3001)],
    )?;
    into_each(rt, "no nodes", "p min 0 0\n", &[(0, 0)])?;
    into_each(rt, "out of form", "p min 3\n", &[(0, 0)])?;
    into_each(rt, "second problem", "p min 1 0\np min 3 0\n", &[(1, 0)])?;
    into_each(rt, "empty text", "", &[(0, 0)])?;
    into_each(rt, "comment", "c\n", &[(0, 0)])?;
    into_each(rt, "node first", "n 1 5\n", &[(0, 0)])?;
    into_each(rt, "wrong line behind", "p min 3 2\nx\n", &[(2, 2), (3, 2)])
}
