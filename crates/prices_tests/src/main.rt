//! Checks claims of prices, makes claims from potentials, and writes prices from potentials and
//! workspaces of all kinds. The lines are compared with the file `stdout`.
#![tactic(auto)]

mod asking;
mod confirming;

use std::io;

fn main(rt: HostRuntime) -> io::Result<()> {
    confirming::worked(&rt)?;
    confirming::around(&rt)?;
    asking::claims(&rt)?;
    asking::all_potentials(&rt)?;
    asking::round_trips(&rt)?;
    asking::too_short(&rt)
}
