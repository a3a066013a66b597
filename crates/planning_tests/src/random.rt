// Tiny networks drawn at random, each planned and held against all plans that there are.
use crate::drawing::{add, draw_leg};
use crate::guesses::{Guessed, OTHERS};
use crate::lent::{Lent, Sizes};
use crate::rules;
use crate::verdicts::Planned;
use network::Network;
use records::{Leg, Station};
use samples::Generator;
use samples::worked::shut;
use std::alloc::{AllocError, Global};
use std::{array, io};
use table::Table;

// How many networks are drawn.
const NETWORKS: usize = 400;

// How many plans there are for five legs with amounts of at most 2.
const PLANS: u16 = 243;

// What is drawn: the records of a network, and a standing plan.
#[derive(Drop)]
struct Drawn {
    stations: Vec<Station>,
    legs: Vec<Leg>,
    standing: Vec<u16>,
}

// What came of all networks. Each number is added to by itself: they count different things, and a sum is held at its type's end, since
// nothing bounds what is added.
#[derive(Default, Drop)]
struct Tally {
    planned: usize,
    refused: usize,
    agreed: usize,
    cents: u64,
    difference: u64,
    prices: i64,
}

// Two to four stations, one to five legs of which one in eight is shut, and balances that come from amounts of at most 2,
// which may be more than the legs carry.
fn draw(heap: Global, generator: &mut Generator) -> Result<Drawn, AllocError> {
    let count = 2 + generator.below(3);
    let mut stations = vec![in heap; Station::default(); usize::from(count)]?;
    let mut legs = Vec::new(heap);
    // counted, since each turn draws on what the generator has come to, and adds to balances
    for _ in 0..1 + generator.below(5) {
        let leg = draw_leg(generator, count, 3, 4);
        let bikes = i32::from(generator.below(3).min(generator.below(3)));
        add(stations.as_mut_slice(), leg.start, bikes);
        add(stations.as_mut_slice(), leg.end, -bikes);
        let is_shut = generator.below(8) == 0;
        legs.push(if is_shut { shut(leg) } else { leg })?;
    }
    let entries = generator.below(7);
    let standing = (0..entries).map(|_| generator.below(4)).collect(heap)?;
    Ok(Drawn {
        stations,
        legs,
        standing,
    })
}

// The plan of a number: its digits to base 3.
fn plan_of(number: u16) -> [u16; 5] {
    let mut rest = number;
    array::from_fn(|_| {
        let digit = rest % 3;
        rest /= 3;
        digit
    })
}

// The least cents and, with them, the least difference of a plan that obeys.
fn best<N: Network>(net: &N, standing: &[u16]) -> Option<(u64, u64)> {
    (0..PLANS)
        .map(plan_of)
        .filter(|plan| rules::obeys(net, plan))
        .map(|plan| rules::weigh(net, standing, &plan))
        .min()
}

impl Tally {
    // Enters one planning, and says whether it agrees with all plans that there are.
    fn enter<N: Network>(&mut self, planned: &Planned<'_, N>) -> bool {
        let agrees = match (planned.answer, best(planned.net, planned.standing)) {
            (Ok(weight), Some(least)) => weight == least && planned.is_sound(weight),
            (Err(refusal), None) => planned.names_cut(refusal),
            _ => false,
        };
        match planned.answer {
            Ok((cents, difference)) => {
                self.planned = self.planned.saturating_add(1);
                self.cents = self.cents.saturating_add(cents);
                self.difference = self.difference.saturating_add(difference);
                self.prices = self.prices.saturating_add(planned.prices());
            }
            Err(_) => self.refused = self.refused.saturating_add(1),
        }
        if agrees {
            self.agreed = self.agreed.saturating_add(1);
        }
        agrees
    }
}

// Draws and plans by a guess or by the planner's own, and prints the sums under its name. A network on which planning and all plans disagree is named. The turns
// are counted, since each draws on what the generator has come to.
fn by(rt: &HostRuntime, name: &str, guess: Option<Guessed>) -> io::Result<()> {
    let mut generator = Generator::new(1);
    let mut lent = Lent::new(rt.alloc(), Sizes::ALL)?;
    let mut tally = Tally::default();
    for number in 0..NETWORKS {
        let Drawn {
            mut stations,
            mut legs,
            standing,
        } = draw(rt.alloc(), &mut generator)?;
        let table = Table {
            legs: legs.as_mut_slice(),
            stations: stations.as_mut_slice(),
        };
        let planned = Planned::new(&table, standing.as_slice(), guess, &mut lent);
        if !tally.enter(&planned) {
            println!(rt; "random network {number} disagrees")?;
        }
    }
    println!(rt;
        "random networks by {name}: {} with a plan, {} without, {} agree",
        tally.planned, tally.refused, tally.agreed
    )?;
    println!(rt;
        "  {} cents, difference {}, prices {} in all",
        tally.cents, tally.difference, tally.prices
    )
}

// The same networks by each guess.
pub(crate) fn all(rt: &HostRuntime) -> io::Result<()> {
    by(rt, "the planner's own guess", None)?;
    for (name, guess) in OTHERS {
        by(rt, name, Some(guess))?;
    }
    Ok(())
}
