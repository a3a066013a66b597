// Fields on both sides of their limits.
use crate::cases;
use crate::cases::Frame;
use records::{MOST_LEGS, MOST_STATIONS};
use std::io;
use text_rules::Room;

// Node lines among three nodes.
const NODES: [&str; 24] = [
    "n 0 7",
    "n 1 7",
    "n 2 7",
    "n 3 7",
    "n 4 7",
    "n 000 7",
    "n 003 7",
    "n 004 7",
    "n 2 500",
    "n 2 501",
    "n 2 -500",
    "n 2 -501",
    "n 2 0",
    "n 2 -0",
    "n 2 -000",
    "n 2 1",
    "n 2 -1",
    "n 2 000000500",
    "n 2 -000000500",
    "n 2 000000501",
    "n 2 -000000501",
    "n 4 501",
    "n 0 -501",
    "c no node line",
];

// Arc lines among three nodes.
const ARCS: [&str; 29] = [
    "a 0 2 0 5 7",
    "a 1 3 0 5 7",
    "a 3 1 0 5 7",
    "a 4 1 0 5 7",
    "a 1 0 0 5 7",
    "a 2 1 0 5 7",
    "a 1 4 0 5 7",
    "a 1 1 0 5 7",
    "a 3 3 0 5 7",
    "a 1 001 0 5 7",
    "a 001 002 0 5 7",
    "a 1 2 00 5 7",
    "a 1 2 1 5 7",
    "a 1 2 01 5 7",
    "a 1 2 0 0 7",
    "a 1 2 0 1 7",
    "a 1 2 0 500 7",
    "a 1 2 0 501 7",
    "a 1 2 0 000500 7",
    "a 1 2 0 65536 7",
    "a 1 2 0 65541 7",
    "a 1 2 0 5 0",
    "a 1 2 0 5 10000",
    "a 1 2 0 5 10001",
    "a 1 2 0 5 000010000",
    "a 1 2 0 5 000010001",
    "a 1 2 0 0 0",
    "a 65537 2 0 5 7",
    "a 4 4 1 501 10001",
];

// Problem lines.
const PROBLEMS: [&str; 16] = [
    "p min 0 0",
    "p min 1 0",
    "p min 240 0",
    "p min 241 0",
    "p min 000 0",
    "p min 000240 00000",
    "p min 000241 0",
    "p min 257 0",
    "p min 65537 0",
    "p min 1 3000",
    "p min 1 3001",
    "p min 240 3000",
    "p min 241 3000",
    "p min 240 3001",
    "p min 0 3001",
    "p min 1 65536",
];

// Node lines among 240 nodes.
const MOST_NODES: [&str; 3] = ["n 240 1", "n 241 1", "n 240 501"];

// Arc lines among 240 nodes.
const MOST_ARCS: [&str; 5] = [
    "a 240 239 0 5 7",
    "a 1 240 0 5 7",
    "a 241 1 0 5 7",
    "a 1 241 0 5 7",
    "a 240 240 0 5 7",
];

// Tables that are one record longer than any network.
const WIDE: Room = Room {
    stations: MOST_STATIONS + 1,
    legs: MOST_LEGS + 1,
};

// Every line, where its kind may stand.
pub(crate) fn all(rt: &HostRuntime) -> io::Result<()> {
    cases::between(
        rt,
        &Frame::new("p min 3 1\n", "\na 1 2 0 5 7\n").shown(),
        &NODES,
    )?;
    cases::between(rt, &Frame::new("p min 3 1\n", "\n").shown(), &ARCS)?;
    cases::between(rt, &Frame::new("", "\n").within(WIDE), &PROBLEMS)?;
    cases::between(
        rt,
        &Frame::new("p min 240 1\n", "\na 240 1 0 5 7\n").within(WIDE),
        &MOST_NODES,
    )?;
    cases::between(
        rt,
        &Frame::new("p min 240 1\n", "\n").within(WIDE),
        &MOST_ARCS,
    )
}
