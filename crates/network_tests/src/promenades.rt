// Promenades.
use crate::{calls, print};
use network::{Network, Office};
use promenade::Promenade;
use std::io;

// No station, one, two and three.
pub(crate) fn short(rt: &HostRuntime) -> io::Result<()> {
    print::all(rt, "promenade of 0", &Promenade::new(0, 5, 7))?;
    print::all(rt, "promenade of 1", &Promenade::new(1, 5, 7))?;
    print::all(rt, "promenade of 2", &Promenade::new(2, 5, 7))?;
    let mut row = Promenade::new(3, 5, 7);
    print::all(rt, "promenade of 3", &row)?;
    calls::refusals(rt, &mut row)?;
    print::all(rt, "promenade of 3 after", &row)?;
    calls::reopenings(rt, &mut row)?;
    print::legs(rt, &row)
}

// Numbers at their limits and above.
pub(crate) fn capped(rt: &HostRuntime) -> io::Result<()> {
    let most = Promenade::new(40, 500, 10_000);
    print::counts(rt, "promenade of 40", &most)?;
    print::leg(rt, &most, 77)?;
    print::leg(rt, &most, 78)?;
    let mut more = Promenade::new(41, 501, 10_001);
    print::counts(rt, "promenade of 41", &more)?;
    print::leg(rt, &more, 76)?;
    print::leg(rt, &more, 77)?;
    print::leg(rt, &more, 78)?;
    print::balance(rt, &more, 39)?;
    print::balance(rt, &more, 40)?;
    calls::refusals(rt, &mut more)
}
