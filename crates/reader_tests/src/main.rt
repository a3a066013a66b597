// Reads texts that are built here, and prints what each reading answers and leaves in the tables.
// The lines are compared with the file `stdout`.
// Numbers in texts are spelled out, on both sides of every limit. What has to be as long or as large as a limit (tables, padding, a
// whole network) takes its constant: contracts spell that number out, so an edit of the constant fails a proof.
#![tactic(auto)]

mod bytes;
mod cases;
mod clearing;
mod counts;
mod ends;
mod forms;
mod network;
mod order;
mod places;
mod print;
mod ranges;
mod rooms;
mod sizes;
mod stated;
mod texts;

use std::io;

fn main(rt: HostRuntime) -> io::Result<()> {
    forms::all(&rt)?;
    ranges::all(&rt)?;
    cases::named(&rt, &ends::TEXTS, false)?;
    cases::named(&rt, &order::TEXTS, false)?;
    cases::named(&rt, &counts::TEXTS, false)?;
    cases::named(&rt, &stated::TEXTS, true)?;
    rooms::all(&rt)?;
    clearing::filled_records(&rt)?;
    clearing::shut_records(&rt)?;
    sizes::lengths(&rt)?;
    sizes::many_lines(&rt)?;
    sizes::many_arcs(&rt)?;
    network::whole(&rt)?;
    bytes::first(&rt)?;
    bytes::later(&rt)?;
    places::all(&rt)?;
    places::too_long(&rt)
}
