// Runs the search and the prices by it on small cases, and prints what they answer. The lines are
// compared with the file `stdout`.
#![tactic(auto)]

mod calls;
mod cases;
mod print;
mod worked;

use std::io;

fn main(rt: HostRuntime) -> io::Result<()> {
    worked::all(&rt)?;
    cases::all(&rt)
}
