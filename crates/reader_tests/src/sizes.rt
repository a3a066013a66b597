// The longest texts, and the most lines and arcs.
use crate::cases;
use crate::texts::padded;
use records::{MOST_LEGS, MOST_STATIONS, MOST_TEXT};
use std::alloc::{AllocError, Global};
use std::io;
use text_rules::Room;

// The room for any network.
const ROOM: Room = Room {
    stations: MOST_STATIONS,
    legs: MOST_LEGS,
};

// One leg less.
const NARROW: Room = Room {
    stations: MOST_STATIONS,
    legs: MOST_LEGS - 1,
};

// Reads a text under a name.
fn case(rt: &HostRuntime, name: &str, room: Room, text: String) -> io::Result<()> {
    print!(rt; "{name}: ")?;
    cases::read_into(rt, text.as_str().as_bytes(), room, false)
}

// Texts of the greatest length and of one byte more.
pub(crate) fn lengths(rt: &HostRuntime) -> io::Result<()> {
    let heap = rt.alloc();
    let p = "p min 1 0\n";
    let longest = padded(heap, p, MOST_TEXT)?;
    let shorter = padded(heap, p, MOST_TEXT - 1)?;
    let longest_ended = format!(in heap; "{shorter}\n")?;
    let longer_ended = format!(in heap; "{longest}\n")?;
    case(rt, "65536 bytes", ROOM, longest)?;
    case(rt, "65537 bytes", ROOM, padded(heap, p, MOST_TEXT + 1)?)?;
    case(rt, "65536 bytes, a line end last", ROOM, longest_ended)?;
    case(rt, "65537 bytes, a line end last", ROOM, longer_ended)?;
    case(
        rt,
        "65536 bytes, the first line wrong",
        ROOM,
        padded(heap, "x\n", MOST_TEXT)?,
    )?;
    case(
        rt,
        "65537 bytes, the first line wrong",
        ROOM,
        padded(heap, "x\n", MOST_TEXT + 1)?,
    )
}

// So many comments, and then a line.
fn comments(heap: Global, times: usize, last: &str) -> Result<String, AllocError> {
    let comments = "c\n".repeat(heap, times)?;
    format!(in heap; "{comments}{last}")
}

// Texts of as many lines as fit.
pub(crate) fn many_lines(rt: &HostRuntime) -> io::Result<()> {
    let heap = rt.alloc();
    let p = "p min 1 0\n";
    case(rt, "65536 line ends", ROOM, "\n".repeat(heap, MOST_TEXT)?)?;
    case(
        rt,
        "65537 line ends",
        ROOM,
        "\n".repeat(heap, MOST_TEXT + 1)?,
    )?;
    case(rt, "32768 comments", ROOM, comments(heap, 32768, "")?)?;
    case(
        rt,
        "32767 comments and a wrong line",
        ROOM,
        comments(heap, 32767, "x\n")?,
    )?;
    case(
        rt,
        "32763 comments and a problem",
        ROOM,
        comments(heap, 32763, p)?,
    )?;
    case(
        rt,
        "32764 comments and a problem",
        ROOM,
        comments(heap, 32764, p)?,
    )
}

// A problem line, so many arc lines, and then a line.
fn arcs(heap: Global, problem: &str, times: usize, last: &str) -> Result<String, AllocError> {
    let arcs = "a 1 2 0 5 7\n".repeat(heap, times)?;
    format!(in heap; "{problem}{arcs}{last}")
}

// As many arcs as may be announced, one less and one more.
pub(crate) fn many_arcs(rt: &HostRuntime) -> io::Result<()> {
    let heap = rt.alloc();
    let p = "p min 2 3000\n";
    case(
        rt,
        "2999 arcs of 3000",
        ROOM,
        arcs(heap, p, MOST_LEGS - 1, "")?,
    )?;
    case(rt, "3000 arcs of 3000", ROOM, arcs(heap, p, MOST_LEGS, "")?)?;
    case(
        rt,
        "3001 arcs of 3000",
        ROOM,
        arcs(heap, p, MOST_LEGS + 1, "")?,
    )?;
    case(
        rt,
        "3001 arcs of 3000, the last out of range",
        ROOM,
        arcs(heap, p, MOST_LEGS, "a 1 1 0 5 7\n")?,
    )?;
    case(
        rt,
        "3001 arcs of 3000, the last out of form",
        ROOM,
        arcs(heap, p, MOST_LEGS, "a 1 2 0 5\n")?,
    )?;
    case(
        rt,
        "3001 arcs of 3001",
        ROOM,
        arcs(heap, "p min 2 3001\n", MOST_LEGS + 1, "")?,
    )?;
    case(
        rt,
        "3000 arcs of 3000 in tables of 2999",
        NARROW,
        arcs(heap, p, MOST_LEGS, "")?,
    )
}
