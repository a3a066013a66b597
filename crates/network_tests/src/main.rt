// Runs tables, promenades and piles of layers on small cases, and prints what they answer. The
// lines are compared with the file `stdout`.
#![tactic(auto)]

mod calls;
mod known;
mod lender;
mod piles;
mod print;
mod promenades;
mod tables;
mod vans;
mod yards;

use std::io;

fn main(rt: HostRuntime) -> io::Result<()> {
    tables::small(&rt)?;
    tables::nonsense(&rt)?;
    tables::long(&rt)?;
    tables::lent(&rt)?;
    lender::records(&rt)?;
    promenades::short(&rt)?;
    promenades::capped(&rt)?;
    vans::limits(&rt)?;
    yards::sums(&rt)?;
    yards::room(&rt)?;
    piles::yard_over_yard(&rt)?;
    piles::van_limit_over_yard(&rt)?;
    piles::yard_over_van_limit(&rt)?;
    piles::four_deep(&rt)?;
    known::legs(&rt)
}
