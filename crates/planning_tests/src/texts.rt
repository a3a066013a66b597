// Large networks, drawn from seeds and handed on as texts. What they cost comes from another solver.
use crate::drawing::{add, draw_leg};
use crate::lent::{Lent, Sizes};
use crate::print::by_other_guesses;
use crate::verdicts::Planned;
use network::Network;
use records::{Leg, MOST_LEGS, MOST_REPORTED, MOST_STATIONS, Station};
use samples::Generator;
use std::alloc::{AllocError, Global};
use std::io;
use text_table::read_table;
use writer::network_text;

// How a network is drawn. Capacities and charges stay below their numbers. Of so many legs one carries bikes, and the balances
// follow; then so many more bikes have to go from station 0 to station 1.
#[derive(Clone, Copy)]
struct Recipe {
    name: &'static str,
    stations: u16,
    legs: u16,
    capacities: u16,
    charges: u16,
    one_in: u16,
    more: i32,
}

// The networks, each with its place here as its seed.
const RECIPES: [Recipe; 10] = [
    Recipe {
        name: "small",
        stations: 40,
        legs: 200,
        capacities: 21,
        charges: 101,
        one_in: 3,
        more: 0,
    },
    Recipe {
        name: "sparse",
        stations: 120,
        legs: 300,
        capacities: 51,
        charges: 1001,
        one_in: 2,
        more: 0,
    },
    Recipe {
        name: "dense",
        stations: 40,
        legs: 1500,
        capacities: 31,
        charges: 1001,
        one_in: 9,
        more: 0,
    },
    Recipe {
        name: "narrow",
        stations: 80,
        legs: 1000,
        capacities: 2,
        charges: 10_001,
        one_in: 2,
        more: 0,
    },
    Recipe {
        name: "ties",
        stations: 160,
        legs: 2000,
        capacities: 12,
        charges: 3,
        one_in: 3,
        more: 0,
    },
    Recipe {
        name: "wide",
        stations: 200,
        legs: 1200,
        capacities: 501,
        charges: 10_001,
        one_in: 8,
        more: 0,
    },
    Recipe {
        name: "free",
        stations: 100,
        legs: 800,
        capacities: 41,
        charges: 1,
        one_in: 4,
        more: 0,
    },
    Recipe {
        name: "large",
        stations: 240,
        legs: 3000,
        capacities: 100,
        charges: 1001,
        one_in: 12,
        more: 0,
    },
    Recipe {
        name: "full",
        stations: 240,
        legs: 3000,
        capacities: 9,
        charges: 10_001,
        one_in: 2,
        more: 0,
    },
    Recipe {
        name: "no plan",
        stations: 240,
        legs: 3000,
        capacities: 5,
        charges: 1001,
        one_in: 9,
        more: 300,
    },
];

// Whether bikes may be added to a balance, which a text keeps within its limit. Asked here by itself: the test judges by no function of a
// reader.
fn takes(stations: &[Station], station: u16, bikes: i32) -> bool {
    stations.get(usize::from(station)).is_some_and(
        |station| (-MOST_REPORTED..=MOST_REPORTED).contains(&station.balance.saturating_add(bikes)),
    )
}

// Moves bikes over a leg in the balances, where they allow it.
fn carry(stations: &mut [Station], start: u16, end: u16, bikes: i32) {
    if takes(stations, start, bikes) && takes(stations, end, bikes.saturating_neg()) {
        add(stations, start, bikes);
        add(stations, end, bikes.saturating_neg());
    }
}

// The text of a network that is drawn by a recipe.
fn text_of(heap: Global, recipe: Recipe, seed: u64) -> Result<String, AllocError> {
    let mut generator = Generator::new(seed);
    let mut stations = vec![in heap; Station::default(); usize::from(recipe.stations)]?;
    let mut legs = Vec::new(heap);
    // counted, since each turn draws on what the generator has come to
    for _ in 0..recipe.legs {
        let leg = draw_leg(
            &mut generator,
            recipe.stations,
            recipe.capacities,
            recipe.charges,
        );
        if generator.below(recipe.one_in) == 0 {
            carry(
                stations.as_mut_slice(),
                leg.start,
                leg.end,
                i32::from(leg.capacity),
            );
        }
        legs.push(leg)?;
    }
    carry(stations.as_mut_slice(), 0, 1, recipe.more);
    network_text(heap, stations.as_slice(), legs.as_slice())
}

// What the planning of a text came to. A refusal is printed by its number alone: which cut is named is open, and with it the place.
fn print<N: Network>(rt: &HostRuntime, name: &str, planned: &Planned<'_, N>) -> io::Result<()> {
    match planned.answer {
        Ok((cents, difference)) => {
            let sound = planned.is_sound((cents, difference));
            let prices = planned.prices();
            println!(rt; "text {name} cents {cents}")?;
            println!(rt; "  difference {difference}, prices {prices} in all, sound {sound}")?;
        }
        Err(refusal) => {
            let cut = planned.names_cut(refusal);
            println!(rt; "text {name} refused {}", refusal.number())?;
            println!(rt; "  with a cut {cut}")?;
        }
    }
    by_other_guesses(rt, planned)
}

// Reads a text and plans.
fn read(rt: &HostRuntime, name: &str, text: &[u8], lent: &mut Lent) -> io::Result<()> {
    let mut legs = vec![in rt.alloc(); Leg::default(); MOST_LEGS]?;
    let mut stations = vec![in rt.alloc(); Station::default(); MOST_STATIONS]?;
    match read_table(text, legs.as_mut_slice(), stations.as_mut_slice()) {
        Ok(table) => {
            let planned = Planned::new(&table, &[], None, lent);
            print(rt, name, &planned)
        }
        Err(refusal) => println!(rt; "text {name} not read: {refusal}"),
    }
}

// Plans on every text.
pub(crate) fn all(rt: &HostRuntime) -> io::Result<()> {
    let mut lent = Lent::new(rt.alloc(), Sizes::ALL)?;
    for (seed, recipe) in (0..).zip(RECIPES) {
        let text = text_of(rt.alloc(), recipe, seed)?;
        read(rt, recipe.name, text.as_bytes(), &mut lent)?;
    }
    Ok(())
}
