// Makes runs of calls on new boards, and prints what each call answered and handed out.
// The lines are compared with the file `stdout`.
#![tactic(auto)]

mod calls;
mod drawn;
mod lent;
mod limits;
mod print;
mod worked;

use std::io;

fn main(rt: HostRuntime) -> io::Result<()> {
    worked::on_tables(&rt)?;
    worked::on_layers(&rt)?;
    limits::calls(&rt)?;
    limits::memory(&rt)?;
    limits::records(&rt)?;
    drawn::all(&rt)
}
