// A network that needs no records: up to 40 stations in a row, with a leg each way between
// neighbours, all of one capacity and one charge.
#![tactic(auto)]

ghost use Rattle.std.specs.Prelude.{◌≡◌, ◌<◌, ◌≤◌, min, slice_index_or};
ghost use Rattle.records.specs.declared.leg.Mark.TheVariants.{Open};
ghost use Rattle.network.specs.Keeping.{nothing};
ghost use Rattle.promenade.specs.Promenades.{fresh, promenade, promenade_leg, promenade_within};

use network::{Network, Office, check_mark, check_report};
use records::{Leg, MOST_CAPACITY, MOST_CHARGE, Mark, Refusal};

// The most stations of a row.
const MOST_ROW: usize = 40;

// The most legs of a row: two for each station but the last.
const MOST_ROW_LEGS: usize = 2 * (MOST_ROW - 1);

// The row. Balances and marks beyond its stations and legs are not read. Arrays, and no vectors of fixed room: of two
// vectors one would say the number of stations by its length, and the other would have to keep it again.
#[derive(Drop)]
pub struct Promenade {
    stations: usize,
    capacity: u16,
    charge: u32,
    balances: [i32; MOST_ROW],
    marks: [Mark; MOST_ROW_LEGS],
    ghost short: { stations ≤ 40 },
}

impl Promenade {
    // At most 40 stations, a capacity of at most 500 and a charge of at most 10,000 cents; a
    // higher number is taken as that limit.
    pub fn new(stations: usize, capacity: u16, charge: u32) -> Promenade
        ensures { promenade result.stations result.capacity result.charge result.balances result.marks ≡ fresh (min stations 40) (min capacity 500) (min charge 10000) }
    {
        let stations = stations.min(MOST_ROW);
        let capacity = capacity.min(MOST_CAPACITY);
        let charge = charge.min(MOST_CHARGE);
        Promenade {
            stations,
            capacity,
            charge,
            balances: [0; MOST_ROW],
            marks: [Mark::Open; MOST_ROW_LEGS],
        }
    }

    // One leg of the row.
    fn leg_of(&self, number: usize) -> Leg
        requires { number < 78 }
        ensures { result ≡ promenade_leg self.now.capacity self.now.charge (slice_index_or self.now.marks number Open) number }
    {
        // no `From` of this kind exists, and the check proves that nothing is lost
        let station = (number / 2) as u16;
        let (start, end) = if number % 2 == 0 {
            (station, station + 1)
        } else {
            (station + 1, station)
        };
        Leg {
            start,
            end,
            capacity: self.capacity,
            charge: self.charge,
            mark: self.marks[number],
        }
    }
}

#[tactic(auto, using(network::proofs::Places::counted))]
impl Network for Promenade {
    ghost meaning = { λ s. promenade s.stations s.capacity s.charge s.balances s.marks };

    ghost limits = { λ s. promenade_within s.stations s.capacity s.charge s.balances s.marks s.short };

    fn stations(&self) -> usize {
        self.stations
    }

    fn legs(&self) -> usize {
        2 * self.stations.saturating_sub(1)
    }

    fn open_stations(&self) -> usize {
        self.stations()
    }

    fn road_legs(&self) -> usize {
        self.legs()
    }

    fn leg(&self, number: usize) -> Option<Leg> {
        (number < self.legs()).then(|| self.leg_of(number))
    }

    fn balance(&self, station: usize) -> Option<i32> {
        (station < self.stations).then(|| self.balances[station])
    }
}

impl Office for Promenade {
    ghost kept = { λ s t. Unit {0} };

    ghost keeps = { nothing };

    fn report(&mut self, station: usize, balance: i32) -> Result<(), Refusal> {
        check_report(self.stations, station, balance)?;
        self.balances[station] = balance;
        Ok(())
    }

    fn set_mark(&mut self, leg: usize, mark: Mark) -> Result<(), Refusal> {
        check_mark(&*self, leg, mark)?;
        self.marks[leg] = mark;
        Ok(())
    }
}
