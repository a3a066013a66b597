// Both sides of every limit, and what a refusal leaves. Each limit is stated here by itself, by no constant of the planner.
use crate::lent::{Part, Sizes};
use crate::print;
use records::{Leg, Mark};
use samples::worked::{FROM_1, PAST_1, STATIONS, T, TO_1, station};
use std::io;

// The slices for prices and cut: an entry less than there are stations, as many, one more.
const SLICES: [(usize, usize); 7] = [(2, 3), (3, 2), (2, 2), (3, 3), (4, 3), (3, 4), (4, 4)];

// The working tables, each of which is lent with one entry less.
const TABLES: [(&str, Part); 15] = [
    ("amounts", Part::Amounts),
    ("left", Part::Left),
    ("potentials", Part::Potentials),
    ("lower arcs", Part::LowerArcs),
    ("upper arcs", Part::UpperArcs),
    ("nodes", Part::Nodes),
    ("folded potentials", Part::FoldedPotentials),
    ("best arcs", Part::Best),
    ("labels", Part::Labels),
    ("labels in cents", Part::Cents),
    ("heads", Part::Heads),
    ("nexts", Part::Nexts),
    ("heap", Part::Heap),
    ("places", Part::Places),
    ("marks", Part::Marks),
];

// A leg of the highest capacity and charge, from the first station to the last.
const LARGEST: Leg = Leg {
    start: 0,
    end: 2,
    capacity: 500,
    charge: 10_000,
    mark: Mark::Open,
};

// Legs at their limits and beyond, each as leg 1 of two.
const LEGS: [(&str, Leg); 10] = [
    ("the largest leg", LARGEST),
    (
        "capacity 501",
        Leg {
            capacity: 501,
            ..LARGEST
        },
    ),
    (
        "capacity 65,535",
        Leg {
            capacity: 65535,
            ..LARGEST
        },
    ),
    (
        "charge 10,001",
        Leg {
            charge: 10_001,
            ..LARGEST
        },
    ),
    (
        "charge 4,294,967,295",
        Leg {
            charge: 4_294_967_295,
            ..LARGEST
        },
    ),
    ("end 3", Leg { end: 3, ..LARGEST }),
    (
        "start 3",
        Leg {
            start: 3,
            ..LARGEST
        },
    ),
    (
        "equal ends",
        Leg {
            start: 2,
            ..LARGEST
        },
    ),
    (
        "shut and sensible",
        Leg {
            mark: Mark::Shut,
            ..LARGEST
        },
    ),
    (
        "shut and senseless",
        Leg {
            charge: 10_001,
            mark: Mark::Shut,
            ..LARGEST
        },
    ),
];

// Balances at their limits and beyond, with no leg.
const BALANCED: [(&str, [i32; 2]); 8] = [
    ("no bikes", [0, 0]),
    ("sum 1", [1, 0]),
    ("sum -1", [0, -1]),
    ("balance 120,000", [120_000, -120_000]),
    ("balance -120,000", [-120_000, 120_000]),
    ("balance 120,001", [120_000, 120_001]),
    ("balance -120,001", [-120_001, 120_000]),
    ("balances of 32 bits", [-2_147_483_648, 2_147_483_647]),
];

// Slices of three lengths.
pub(crate) fn slices(rt: &HostRuntime) -> io::Result<()> {
    for (prices, cut) in SLICES {
        println!(rt; "{prices} prices, a cut of {cut}")?;
        let sizes = Sizes {
            prices,
            cut,
            ..Sizes::THREE
        };
        print::on_table(rt, "T", &T, &STATIONS, &[], sizes)?;
        let balances = [5, -5, 0].map(station);
        print::on_table(rt, "5 bikes", &[TO_1], &balances, &[], sizes)?;
    }
    Ok(())
}

// Working tables: one of them an entry too short, and all of them an entry longer.
pub(crate) fn tables(rt: &HostRuntime) -> io::Result<()> {
    for (name, part) in TABLES {
        println!(rt; "one entry less in {name}")?;
        let sizes = Sizes {
            shorter: Some(part),
            ..Sizes::THREE
        };
        print::on_table(rt, "T", &T, &STATIONS, &[], sizes)?;
    }
    let sizes = Sizes {
        stations: 241,
        legs: 3001,
        ..Sizes::THREE
    };
    print::on_table(rt, "one more of each", &T, &STATIONS, &[], sizes)
}

// A leg behind one that is sensible.
pub(crate) fn legs(rt: &HostRuntime) -> io::Result<()> {
    for (name, leg) in LEGS {
        print::on_table(
            rt,
            name,
            &[TO_1, leg],
            &[504, -4, -500].map(station),
            &[],
            Sizes::THREE,
        )?;
    }
    Ok(())
}

// Two stations with no leg between them.
pub(crate) fn balances(rt: &HostRuntime) -> io::Result<()> {
    for (name, pair) in BALANCED {
        print::on_table(rt, name, &[], &pair.map(station), &[], Sizes::THREE)?;
    }
    Ok(())
}

// A cut that is an entry too short.
const SHORT: Sizes = Sizes {
    cut: 2,
    ..Sizes::THREE
};

// A leg that may carry too much.
const WIDE: Leg = Leg {
    capacity: 501,
    ..FROM_1
};

// A leg that may carry too little.
const NARROW: Leg = Leg {
    capacity: 3,
    ..FROM_1
};

// A leg that leads to no station.
const ASTRAY: Leg = Leg { end: 3, ..PAST_1 };

// A planning that deserves every refusal, and what is left of them as its faults go one by one.
const FAULTS: [(&str, [Leg; 2], [i32; 3], Sizes); 8] = [
    ("all faults", [WIDE, ASTRAY], [7, -120_001, 120_001], SHORT),
    (
        "slices mended",
        [WIDE, ASTRAY],
        [7, -120_001, 120_001],
        Sizes::THREE,
    ),
    (
        "leg 1 mended",
        [NARROW, ASTRAY],
        [7, -120_001, 120_001],
        Sizes::THREE,
    ),
    (
        "legs mended",
        [NARROW, PAST_1],
        [7, -120_001, 120_001],
        Sizes::THREE,
    ),
    (
        "station 1 mended",
        [NARROW, PAST_1],
        [7, 0, 120_001],
        Sizes::THREE,
    ),
    ("stations mended", [NARROW, PAST_1], [7, 0, 0], Sizes::THREE),
    ("sum mended", [NARROW, PAST_1], [7, 0, -7], Sizes::THREE),
    ("all mended", [NARROW, PAST_1], [6, 0, -6], Sizes::THREE),
];

// The faults, one after another.
pub(crate) fn order(rt: &HostRuntime) -> io::Result<()> {
    for (name, [one, two], balances, sizes) in FAULTS {
        print::on_table(
            rt,
            name,
            &[TO_1, one, two],
            &balances.map(station),
            &[],
            sizes,
        )?;
    }
    Ok(())
}

// Legs that together carry the highest balance, and one bike less.
pub(crate) fn largest_balance(rt: &HostRuntime) -> io::Result<()> {
    let less = Leg {
        capacity: 499,
        ..LARGEST
    };
    let mut legs = [LARGEST; 240];
    print::on_table(
        rt,
        "120,000 bikes",
        &legs,
        &[120_000, 0, -120_000].map(station),
        &[],
        Sizes::THREE,
    )?;
    legs[239] = less;
    print::on_table(
        rt,
        "room for 119,999",
        &legs,
        &[120_000, 0, -120_000].map(station),
        &[],
        Sizes::THREE,
    )
}
