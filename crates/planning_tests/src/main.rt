// Plans on small and large networks, and prints what each planning answers and leaves in the slices. Of plannings by other guesses than
// the planner's own it prints whether they come to the same.
// The lines are compared with the file `stdout`.
#![tactic(auto)]

mod drawing;
mod guesses;
mod lent;
mod limits;
mod print;
mod random;
mod rules;
mod standing;
mod texts;
mod verdicts;
mod worked;

use std::io;

fn main(rt: HostRuntime) -> io::Result<()> {
    worked::all(&rt)?;
    worked::layers(&rt)?;
    standing::all(&rt)?;
    limits::slices(&rt)?;
    limits::tables(&rt)?;
    limits::legs(&rt)?;
    limits::balances(&rt)?;
    limits::order(&rt)?;
    limits::largest_balance(&rt)?;
    random::all(&rt)?;
    texts::all(&rt)
}
