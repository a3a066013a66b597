// A network on lent records: the first 3,000 legs and the first 240 stations. It answers what the
// records hold, also where that makes no sense; reports and closings are written into them.
#![tactic(auto)]

ghost use Rattle.std.specs.Prelude.{◌≡◌, drop, length};
ghost use Rattle.table.specs.Lent.{kept_six, unmarked};
ghost use Rattle.table.specs.Tables.{table_of, table_within};

use network::{Network, Office, check_mark, check_report};
use records::{Leg, MOST_LEGS, MOST_STATIONS, Mark, Refusal, Station};
use slices::first;

// The lent records. Those beyond the limits are neither read nor written.
#[derive(Drop)]
pub struct Table<'a> {
    pub legs: &'a mut [Leg],
    pub stations: &'a mut [Station],
}

impl<'a> Network for Table<'a> {
    ghost meaning = { λ s. table_of s.legs.now s.stations.now };

    ghost limits = { λ s. table_within s.legs.now s.stations.now };

    fn stations(&self) -> usize {
        first(self.stations, MOST_STATIONS).len()
    }

    fn legs(&self) -> usize {
        first(self.legs, MOST_LEGS).len()
    }

    fn open_stations(&self) -> usize {
        self.stations()
    }

    fn road_legs(&self) -> usize {
        self.legs()
    }

    fn leg(&self, number: usize) -> Option<Leg> {
        first(self.legs, MOST_LEGS).get(number).copied()
    }

    fn balance(&self, station: usize) -> Option<i32> {
        first(self.stations, MOST_STATIONS)
            .get(station)
            .map(|record| record.balance)
    }
}

impl<'a> Office for Table<'a> {
    // which memory was lent, its records beyond the limits, what leg records hold but for their marks, and how many station records there
    // are: a layer above may show less of it
    ghost kept = { λ s t. (t.legs.ghost_name ≡ s.legs.ghost_name) × (t.stations.ghost_name ≡ s.stations.ghost_name) × (drop 3000 t.legs.now ≡ drop 3000 s.legs.now) × (drop 240 t.stations.now ≡ drop 240 s.stations.now) × (unmarked t.legs.now ≡ unmarked s.legs.now) × (length t.stations.now ≡ length s.stations.now) };

    ghost keeps = { kept_six (λ s. s.legs.ghost_name) (λ s. s.stations.ghost_name) (λ s. drop 3000 s.legs.now) (λ s. drop 240 s.stations.now) (λ s. unmarked s.legs.now) (λ s. length s.stations.now) };

    fn report(&mut self, station: usize, balance: i32) -> Result<(), Refusal> {
        check_report(self.open_stations(), station, balance)?;
        self.stations[station].balance = balance;
        Ok(())
    }

    fn set_mark(&mut self, leg: usize, mark: Mark) -> Result<(), Refusal> {
        check_mark(&*self, leg, mark)?;
        self.legs[leg].mark = mark;
        Ok(())
    }
}
