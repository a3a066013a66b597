// Plans, and prints what the planning answers and leaves, in words of these tests: a planning answers a tuple, which has no `Display`. The
// runtime, a name and what is planned on are arguments by themselves: each case has others.
use crate::guesses::OTHERS;
use crate::lent::{Lent, Sizes};
use crate::verdicts::Planned;
use network::Network;
use records::{Leg, Refusal, Station};
use std::io;
use table::Table;

// The answer, with the plan where there is one.
fn answer(
    rt: &HostRuntime,
    name: &str,
    answer: Result<(u64, u64), Refusal>,
    plan: &[u16],
) -> io::Result<()> {
    match answer {
        Ok((cents, difference)) => {
            println!(rt; "{name}: {cents} cents, difference {difference}")?;
            println!(rt; "  amounts {plan:?}")
        }
        Err(refusal) => println!(rt; "{name}: {refusal}"),
    }
}

// Plans by every other guess what was planned, and prints how many came to the same, and which did not.
pub(crate) fn by_other_guesses<N: Network>(
    rt: &HostRuntime,
    planned: &Planned<'_, N>,
) -> io::Result<()> {
    let mut lent = Lent::new(rt.alloc(), planned.lent.sizes)?;
    let mut same = 0u32;
    for (name, guess) in OTHERS {
        let other = Planned::new(planned.net, planned.standing, Some(guess), &mut lent);
        if other.comes_to(planned) {
            same = same.saturating_add(1);
        } else {
            println!(rt; "  otherwise by {name}")?;
        }
    }
    println!(rt; "  the same by {same} other guesses")
}

// Plans on a network, with slices and tables of given sizes.
pub(crate) fn planning<N: Network>(
    rt: &HostRuntime,
    name: &str,
    net: &N,
    standing: &[u16],
    sizes: Sizes,
) -> io::Result<()> {
    let mut lent = Lent::new(rt.alloc(), sizes)?;
    let planned = Planned::new(net, standing, None, &mut lent);
    answer(rt, name, planned.answer, planned.lent.planned(net.legs()))?;
    let prices = planned.lent.prices.as_slice();
    let cut = planned.lent.cut.as_slice();
    println!(rt; "  prices {prices:?}")?;
    println!(rt; "  cut {cut:?}")?;
    by_other_guesses(rt, &planned)
}

// The same on a table of legs and stations.
pub(crate) fn on_table(
    rt: &HostRuntime,
    name: &str,
    legs: &[Leg],
    stations: &[Station],
    standing: &[u16],
    sizes: Sizes,
) -> io::Result<()> {
    let mut records = Vec::from_slice(rt.alloc(), legs)?;
    let mut stations = Vec::from_slice(rt.alloc(), stations)?;
    let table = Table {
        legs: records.as_mut_slice(),
        stations: stations.as_mut_slice(),
    };
    planning(rt, name, &table, standing, sizes)
}
