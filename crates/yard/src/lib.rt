// A layer over any network: a yard, one station more with a leg from and to each station below,
// that takes up what the balances below leave over. All else is as below.
#![tactic(auto)]

ghost use Rattle.std.specs.Prelude.{◌≡◌, ◌+◌, ◌*◌, ◌<◌, ◌≤◌, min, length, neg_ℤ};
ghost use Rattle.std.specs.List.{slice_get};
ghost use Rattle.network.specs.Keeping.{below as part};
ghost use Rattle.yard.specs.Yards.{full, held, with_yard, yard_leg, yard_within};

use network::{Network, Office, total_balance};
use records::{
    Leg, MOST_BALANCE, MOST_CAPACITY, MOST_CHARGE, MOST_LEGS, MOST_STATIONS, Mark, Refusal,
};

// The balance of a yard is held this far from 0. A cast: no function is called in the value of a constant, `From` is one.
const MOST_HELD: i64 = MOST_BALANCE as i64;

// A network with a yard, whose legs all have one charge.
#[derive(Drop)]
pub struct Yard<N> {
    below: N,
    charge: u32,
}

impl<N> Yard<N> {
    // A charge of at most 10,000 cents; a higher number is taken as 10,000. A van limit is made in the same way, from another limit.
    pub fn new(below: N, charge: u32) -> Yard<N>
        ensures { (result.below ≡ below) × (result.charge ≡ min charge 10000) }
    {
        Yard {
            below,
            charge: charge.min(MOST_CHARGE),
        }
    }
}

// Whether there is no room for a yard above so many stations and legs. No method: its callers go on with the stations, two with
// the legs, too, and would ask for them twice.
fn is_full(stations: usize, legs: usize) -> bool
    requires { (stations ≤ 240) × (legs ≤ 3000) }
    ensures { result ≡ full stations legs }
{
    stations == MOST_STATIONS || legs + 2 * stations > MOST_LEGS
}

// A sum negated and held within -120,000 to 120,000. No `From` exists for this cast and for the two of the next function, and the check
// proves that they lose nothing.
fn hold(sum: i64) -> i32
    ensures { result ≡ held (neg_ℤ sum) }
{
    -(sum.clamp(-MOST_HELD, MOST_HELD) as i32)
}

// One of the legs that a yard adds over so many stations: out on even numbers, back on odd ones. A promenade's legs do so too, but
// between other stations; a leg with its ends exchanged would say less than these two lines.
fn added_leg(charge: u32, stations: usize, number: usize) -> Leg
    requires { (stations ≤ 240) × (number < 2 * stations) }
    ensures { result ≡ yard_leg charge stations number }
{
    let station = (number / 2) as u16;
    let yard = stations as u16;
    let (start, end) = if number % 2 == 0 {
        (station, yard)
    } else {
        (yard, station)
    };
    Leg {
        start,
        end,
        capacity: MOST_CAPACITY,
        charge,
        mark: Mark::Open,
    }
}

impl<N: Network> Yard<N> {
    // The balance at a number that no station below has: that of the yard, or none.
    fn balance_above(&self, station: usize) -> Option<i32>
        requires { length (N.Network.meaning self.now.below).balances ≤ station }
        ensures { result ≡ slice_get (with_yard self.now.charge (N.Network.meaning self.now.below)).balances station }
    {
        let stations = self.below.stations();
        if is_full(stations, self.below.legs()) {
            return None;
        }
        (station == stations).then(|| hold(total_balance(&self.below)))
    }

    // The leg at a number that no leg below has: one of the yard's, or none.
    fn leg_above(&self, number: usize) -> Option<Leg>
        requires { length (N.Network.meaning self.now.below).legs ≤ number }
        ensures { result ≡ slice_get (with_yard self.now.charge (N.Network.meaning self.now.below)).legs number }
    {
        let stations = self.below.stations();
        let legs = self.below.legs();
        if is_full(stations, legs) {
            return None;
        }
        (number < legs + 2 * stations).then(|| added_leg(self.charge, stations, number - legs))
    }
}

impl<N: Network> Network for Yard<N> {
    ghost meaning = { λ s. with_yard s.charge (N.Network.meaning s.below) };

    ghost limits = { λ s. yard_within s.charge (N.Network.meaning s.below) (N.Network.limits s.below) };

    fn stations(&self) -> usize {
        let stations = self.below.stations();
        if is_full(stations, self.below.legs()) {
            stations
        } else {
            stations + 1
        }
    }

    fn legs(&self) -> usize {
        let stations = self.below.stations();
        let legs = self.below.legs();
        if is_full(stations, legs) {
            legs
        } else {
            legs + 2 * stations
        }
    }

    fn open_stations(&self) -> usize {
        self.below.open_stations()
    }

    fn road_legs(&self) -> usize {
        self.below.road_legs()
    }

    fn leg(&self, number: usize) -> Option<Leg> {
        let Some(leg) = self.below.leg(number) else {
            return self.leg_above(number);
        };
        Some(leg)
    }

    fn balance(&self, station: usize) -> Option<i32> {
        let Some(balance) = self.below.balance(station) else {
            return self.balance_above(station);
        };
        Some(balance)
    }
}

// A layer hands its calls on by itself: an implementation for all layers would overlap with that of `Table`, which is refused.
impl<N: Office> Office for Yard<N> {
    ghost kept = { λ s t. N.Office.kept s.below t.below };

    ghost keeps = { part (λ s. s.below) N.Office.keeps };

    fn report(&mut self, station: usize, balance: i32) -> Result<(), Refusal> {
        self.below.report(station, balance)
    }

    fn set_mark(&mut self, leg: usize, mark: Mark) -> Result<(), Refusal> {
        self.below.set_mark(leg, mark)
    }
}
