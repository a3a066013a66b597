//! Claims and prices from potentials, in workspaces that hold what leads astray.
use costs::{Bikes, Cents, CentsThenBikes, Pair};
use prices::{Keyed, Queue, claim, is_claim_confirmed, prices};
use records::{Leg, Station};
use samples::worked::{STATIONS, T, leg};
use search::{Chains, Label, Links};
use std::io;
use table::Table;

// What leads astray: nothing that a workspace holds is read.
const LINKS: Links = Links {
    forth: Some(1),
    back: Some(65535),
};

const KEYED: Keyed = Keyed {
    key: -1,
    station: 1,
};

const PLACE: usize = 70000;

// How many entries each slice has, five at most.
#[derive(Clone, Copy)]
struct Lengths {
    labels: usize,
    heads: usize,
    nexts: usize,
    heap: usize,
    places: usize,
    prices: usize,
}

// One more of each than three stations and three legs need.
const MORE: Lengths = Lengths {
    labels: 4,
    heads: 4,
    nexts: 4,
    heap: 4,
    places: 4,
    prices: 4,
};

// As many as they need.
const ENOUGH: Lengths = Lengths {
    labels: 3,
    heads: 3,
    nexts: 3,
    heap: 3,
    places: 3,
    prices: 3,
};

// A plan on three stations, and potentials.
#[derive(Clone, Copy)]
struct Case<'a> {
    legs: [Leg; 3],
    plan: &'a [u16],
    potentials: &'a [CentsThenBikes],
}

// The cheapest plan, without potentials.
const BEST: Case<'static> = Case {
    legs: T,
    plan: &[4, 4, 0],
    potentials: &[],
};

// A potential of so many cents. Its bikes do not count.
const fn cents(number: i64) -> CentsThenBikes {
    Pair {
        first: Cents::new(number),
        second: Bikes::new(9),
    }
}

// Whether the claim that is made from potentials is confirmed, under the cheapest plan.
fn claimed(rt: &impl Print, name: &str, potentials: &[CentsThenBikes]) -> io::Result<()> {
    let mut legs = T;
    let mut stations = STATIONS;
    let table = Table {
        legs: &mut legs,
        stations: &mut stations,
    };
    let plan = [4, 4, 0];
    let mut labels = [Label::default(); 4];
    let mut chains = Chains {
        heads: &mut [LINKS; 4],
        nexts: &mut [LINKS; 4],
    };
    let mut places = [PLACE; 4];
    let mut queue = Queue {
        heap: &mut [KEYED; 4],
        places: &mut places,
    };
    claim(
        &table,
        &plan,
        potentials,
        &mut labels,
        &mut chains,
        &mut queue,
    );
    let is_confirmed = is_claim_confirmed(&table, &plan, &labels, &places);
    println!(rt; "claim from {name}: {is_confirmed}")
}

// Potentials by which no reduced cents are below zero make a right claim. Without potentials a step
// against a leg has them below zero: station 0 is taken out before the walk to it by way of station 1 is
// found.
pub(crate) fn claims(rt: &impl Print) -> io::Result<()> {
    claimed(rt, "the prices", &[cents(-30), cents(-10), cents(0)])?;
    claimed(
        rt,
        "the prices and a cent",
        &[cents(-29), cents(-9), cents(1)],
    )?;
    claimed(rt, "others", &[cents(-40), cents(-20), cents(0)])?;
    claimed(rt, "none", &[])
}

// Writes prices from potentials into a slice of sevens, and prints what is answered, the slice, and
// whether the workspace stayed as it was.
fn ask(rt: &impl Print, name: &str, case: Case<'_>, lengths: Lengths) -> io::Result<()> {
    let mut legs = case.legs;
    let mut stations = [Station { balance: 0 }; 3];
    let table = Table {
        legs: &mut legs,
        stations: &mut stations,
    };
    let mut labels = [Label::default(); 5];
    let mut heads = [LINKS; 5];
    let mut nexts = [LINKS; 5];
    let mut heap = [KEYED; 5];
    let mut places = [PLACE; 5];
    let mut written = [7i64; 5];
    let mut chains = Chains {
        heads: &mut heads[..lengths.heads.min(5)],
        nexts: &mut nexts[..lengths.nexts.min(5)],
    };
    let mut queue = Queue {
        heap: &mut heap[..lengths.heap.min(5)],
        places: &mut places[..lengths.places.min(5)],
    };
    let answer = prices(
        &table,
        case.plan,
        case.potentials,
        &mut labels[..lengths.labels.min(5)],
        &mut chains,
        &mut queue,
        &mut written[..lengths.prices.min(5)],
    );
    match answer {
        Ok(outcome) => println!(rt; "{name}: {outcome}, {written:?}"),
        Err(refusal) => {
            let is_unaltered = labels.iter().all(|label| *label == Label::default())
                && heads.iter().all(|links| *links == LINKS)
                && nexts.iter().all(|links| *links == LINKS)
                && heap.iter().all(|keyed| *keyed == KEYED)
                && places.iter().all(|place| *place == PLACE);
            println!(rt; "{name}: {refusal}, {written:?}, unaltered {is_unaltered}")
        }
    }
}

// The prices of the cheapest plan are -30, -10 and 0 whatever the potentials are.
pub(crate) fn all_potentials(rt: &impl Print) -> io::Result<()> {
    let low = cents(i64::MIN);
    let high = cents(i64::MAX);
    best(rt, "from the prices", &[cents(-30), cents(-10), cents(0)])?;
    best(rt, "from no potentials", &[])?;
    best(rt, "from one potential", &[cents(-30)])?;
    best(rt, "from wrong ones", &[cents(0), cents(50), cents(-50)])?;
    best(rt, "from lowest ones", &[low; 3])?;
    best(rt, "from highest ones", &[high; 3])?;
    best(rt, "from lowest and highest", &[low, high, low])?;
    best(rt, "from highest and lowest", &[high, low, high, low])?;
    let empty = Case {
        plan: &[],
        potentials: &[cents(-30)],
        ..BEST
    };
    ask(rt, "no bikes", empty, MORE)
}

// Writes the prices of the cheapest plan from potentials.
fn best(rt: &impl Print, name: &str, potentials: &[CentsThenBikes]) -> io::Result<()> {
    ask(rt, name, Case { potentials, ..BEST }, MORE)
}

// A round trip of zero leaves all prices at 0. One below zero has no prices: bikes on the dearer leg
// while the cheaper one has capacity left.
pub(crate) fn round_trips(rt: &impl Print) -> io::Result<()> {
    let zero = Case {
        legs: [leg(0, 1, 3, 0), leg(1, 2, 3, 0), leg(2, 0, 3, 0)],
        plan: &[1, 1, 1],
        potentials: &[],
    };
    ask(rt, "around at zero", zero, MORE)?;
    let potentials = [cents(-5), cents(5)];
    let astray = Case {
        potentials: &potentials,
        ..zero
    };
    ask(rt, "around from others", astray, MORE)?;
    let below = Case {
        legs: [leg(0, 1, 3, 5), leg(0, 1, 3, 9), leg(1, 2, 3, 1)],
        plan: &[0, 1, 0],
        potentials: &[],
    };
    ask(rt, "around below zero", below, MORE)?;
    let potentials = [cents(-9), cents(0), cents(3)];
    let astray = Case {
        potentials: &potentials,
        ..below
    };
    ask(rt, "below zero from others", astray, MORE)
}

// Each slice just long enough, and one too short.
pub(crate) fn too_short(rt: &impl Print) -> io::Result<()> {
    ask(rt, "enough", BEST, ENOUGH)?;
    ask(rt, "two labels", BEST, Lengths { labels: 2, ..MORE })?;
    ask(rt, "two heads", BEST, Lengths { heads: 2, ..MORE })?;
    ask(rt, "two nexts", BEST, Lengths { nexts: 2, ..MORE })?;
    ask(rt, "two in the heap", BEST, Lengths { heap: 2, ..MORE })?;
    ask(rt, "two places", BEST, Lengths { places: 2, ..MORE })?;
    ask(rt, "two prices", BEST, Lengths { prices: 2, ..MORE })
}
