// Networks of three stations, with 4 bikes to bring from the first to the last. Records alone: a table borrows them, so whoever makes
// one copies the records and makes it beside them.
ghost use Rattle.std.specs.Prelude.{◌≡◌};
ghost use Rattle.records.specs.declared.leg.Mark.TheVariants.{Open, Shut};

use records::{Leg, Mark, Station};

// By way of station 1 a bike costs 30 cents.
pub const TO_1: Leg = Leg {
    start: 0,
    end: 1,
    capacity: 4,
    charge: 20,
    mark: Mark::Open,
};

// The second part of that way.
pub const FROM_1: Leg = Leg {
    start: 1,
    end: 2,
    capacity: 4,
    charge: 10,
    mark: Mark::Open,
};

// Without station 1 a bike costs 40 cents.
pub const PAST_1: Leg = Leg {
    start: 0,
    end: 2,
    capacity: 3,
    charge: 40,
    mark: Mark::Open,
};

// The network where the way past station 1 is dearer.
pub const T: [Leg; 3] = [TO_1, FROM_1, PAST_1];

// The network where both ways cost the same.
pub const U: [Leg; 3] = [
    TO_1,
    FROM_1,
    Leg {
        charge: 30,
        ..PAST_1
    },
];

// The stations of both.
pub const STATIONS: [Station; 3] = [
    Station { balance: 4 },
    Station { balance: 0 },
    Station { balance: -4 },
];

// An open leg.
pub fn leg(start: u16, end: u16, capacity: u16, charge: u32) -> Leg
    ensures { result ≡ record { start = start; end = end; capacity = capacity; charge = charge; mark = Open } }
{
    Leg {
        start,
        end,
        capacity,
        charge,
        mark: Mark::Open,
    }
}

// A leg that is shut.
pub fn shut(leg: Leg) -> Leg
    ensures { result ≡ record { start = leg.start; end = leg.end; capacity = leg.capacity; charge = leg.charge; mark = Shut } }
{
    Leg {
        mark: Mark::Shut,
        ..leg
    }
}

// A station with a balance.
pub fn station(balance: i32) -> Station
    ensures { result ≡ record { balance = balance } }
{
    Station { balance }
}
