// What one reading after another leaves in the same tables.
use crate::cases::{USED_LEG, USED_STATION};
use crate::print::{self, Answered};
use crate::texts;
use reader::read;
use records::{Leg, MOST_TEXT, Station};
use std::io;

// A text that fills four stations and three legs.
const FILLS: &str = "p min 4 3\nn 1 5\nn 2 -6\nn 4 1\na 1 2 0 5 7\na 2 3 0 4 6\na 4 1 0 3 5\n";

// Texts that are read where that one was.
const TEXTS: [(&str, &str); 7] = [
    ("smaller", "p min 2 1\nn 2 3\na 2 1 0 9 8\n"),
    ("out of form", "p min 4 3\nn 1 5\na 1 2 0 5 7\nx\n"),
    ("out of order", "p min 4 3\nn 1 5\na 1 2 0 5 7\nn 1 5\n"),
    (
        "out of range",
        "p min 4 3\nn 1 5\na 1 2 0 5 7\na 1 1 0 5 7\n",
    ),
    ("no room", "p min 5 0\n"),
    (
        "arc too few",
        "p min 4 3\nn 1 5\na 1 2 0 5 7\na 2 3 0 4 6\n",
    ),
    ("empty", ""),
];

// Reads a text, and prints the answer and every record.
fn read_again(
    rt: &HostRuntime,
    name: &str,
    text: &str,
    legs: &mut [Leg],
    stations: &mut [Station],
) -> io::Result<()> {
    let answer = read(text.as_bytes(), legs, stations);
    print!(rt; "{name}: {}", Answered(answer))?;
    print::stations(rt, stations)?;
    print::legs(rt, legs)?;
    println!(rt; "")
}

// Reads a text into tables that another reading has filled.
fn over_filled(rt: &HostRuntime, name: &str, text: &str) -> io::Result<()> {
    let mut legs = [USED_LEG; 3];
    let mut stations = [USED_STATION; 4];
    read_again(rt, "accepted", FILLS, &mut legs, &mut stations)?;
    read_again(rt, name, text, &mut legs, &mut stations)
}

// Every text, and one that is too long.
pub(crate) fn filled_records(rt: &HostRuntime) -> io::Result<()> {
    for (name, text) in &TEXTS {
        over_filled(rt, name, text)?;
    }
    let long = texts::padded(rt.alloc(), FILLS, MOST_TEXT + 1)?;
    over_filled(rt, "too long", long.as_str())
}

// Reads a text into tables whose legs are shut.
fn over_shut(rt: &HostRuntime, name: &str, text: &str) -> io::Result<()> {
    read_again(rt, name, text, &mut [USED_LEG; 2], &mut [USED_STATION; 2])
}

// Records that were shut are open after a reading.
pub(crate) fn shut_records(rt: &HostRuntime) -> io::Result<()> {
    over_shut(rt, "shut records, refused", "")?;
    over_shut(rt, "shut records, accepted", "p min 1 0\n")?;
    over_shut(rt, "shut records, one leg read", "p min 2 1\na 1 2 0 5 7\n")
}
