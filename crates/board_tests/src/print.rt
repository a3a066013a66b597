// Makes a run, and prints its calls with what they answered, in words of these tests where no `Display` of a call or an answer has them. The
// runtime, a name, a network and its calls are arguments by themselves: each case has others.
use crate::lent::{ALL, Memory};
use board::entries::Entries;
use network::{Network, Office};
use records::{Leg, Station};
use slices::first;
use std::{fmt, io};
use table::Table;
use tally::Call;

// Takes the first so many entries off a slice, as far as there are so many. `split_off` would take nothing where there are fewer.
fn take<'a, T>(slice: &mut &'a [T], count: usize) -> &'a [T] {
    let taken = first(slice, count);
    *slice = &slice[taken.len()..];
    taken
}

// What is handed out with a call, as it is printed: nothing where the call takes no entries.
#[derive(Drop)]
struct Handed<'a> {
    prices: &'a [i64],
    numbers: &'a [usize],
    amounts: &'a [u16],
}

impl fmt::Display for Handed<'_> {
    fn fmt<W: fmt::Write>(&self, f: &mut fmt::Formatter<W>) -> fmt::Result {
        if self.numbers.is_empty() {
            return Ok(());
        }
        write!(
            f,
            ", prices {:?}, numbers {:?}, amounts {:?}",
            self.prices, self.numbers, self.amounts
        )
    }
}

// What a run answered and handed out, call by call, as far as there are answers, where there are so many legs.
fn lines(rt: &HostRuntime, legs: usize, calls: &[Call], memory: &Memory) -> io::Result<()> {
    let mut prices = memory.prices.as_slice();
    let mut numbers = memory.numbers.as_slice();
    let mut amounts = memory.amounts.as_slice();
    for (call, answer) in calls.iter().zip(memory.answers.as_slice()) {
        let taken = Entries::of_call(legs, *call);
        let handed = Handed {
            prices: take(&mut prices, taken.prices),
            numbers: take(&mut numbers, taken.numbers),
            amounts: take(&mut amounts, taken.amounts),
        };
        println!(rt; "  {call}: {answer}{handed}")?;
    }
    Ok(())
}

// A run of calls on a new board, with so many answers and so much memory. A run is refused for one reason alone, so its number says all.
pub(crate) fn run_within<N: Office + Drop>(
    rt: &HostRuntime,
    name: &str,
    net: N,
    calls: &[Call],
    answers: usize,
    lent: Entries,
) -> io::Result<()> {
    let legs = net.legs();
    let mut memory = Memory::new(rt.alloc(), answers, lent)?;
    match memory.run(net, calls) {
        Ok(()) => println!(rt; "{name}: made")?,
        Err(refusal) => println!(rt; "{name}: refused {}", refusal.number())?,
    }
    lines(rt, legs, calls, &memory)
}

// The same with all of the memory.
pub(crate) fn run<N: Office + Drop>(
    rt: &HostRuntime,
    name: &str,
    net: N,
    calls: &[Call],
) -> io::Result<()> {
    run_within(rt, name, net, calls, calls.len(), ALL)
}

// The same on a table.
pub(crate) fn on_table(
    rt: &HostRuntime,
    name: &str,
    legs: &mut [Leg],
    stations: &mut [Station],
    calls: &[Call],
) -> io::Result<()> {
    run(rt, name, Table { legs, stations }, calls)
}
