// The calls of a board. Its memory is its own, for the largest network, so no call asks for more.
ghost use Rattle.std.specs.Prelude.{◌≡◌, List, length, ℤ};
ghost use Rattle.planning.specs.Tables.{SameTables, lengths_of};
ghost use Rattle.tally.specs.Answers.{done, listed, planned};
ghost use Rattle.tally.specs.Follows.{Follows, Papers, papers};
ghost use Rattle.tally.specs.Tallies.{fresh};
ghost use Rattle.tally.specs.declared.answer.Answer.TheVariants.{Amount};
ghost use Rattle.tally.specs.declared.call.Call.TheVariants.{Close, ListRuns, ListStations, Plan, Read, Reopen, Report};
ghost use Rattle.board.specs.Views.{tally_of};

use crate::sorts::{RunningLegs, ShortStations};
use listing::Kept;
use network::{Network, Office};
use planning::{Tables, plan};
use records::{MOST_LEGS, MOST_STATIONS, Refusal};

// Of the plan as many entries count as the network has legs: a vector would keep that number a second time. The marks are for
// lists to work in, they mean nothing between two calls, and so one row of them serves both lists.
// A board is not seen as its tally (`Model`): clauses also say what becomes of `net`, of which a tally holds only the meaning.
#[derive(Drop)]
pub struct Board<N> {
    pub(crate) net: N,
    pub(crate) plan: [u16; MOST_LEGS],
    stations: Kept<MOST_STATIONS>,
    runs: Kept<MOST_LEGS>,
    marks: [bool; MOST_LEGS],
}

impl<N: Network> Board<N> {
    // A board on a network: every amount is 0, and the lists are empty.
    pub fn new(net: N) -> Board<N>
        ensures tally { tally_of N.Network.meaning result ≡ fresh (N.Network.meaning net) }
        ensures net { result.net ≡ net }
    {
        Board {
            net,
            plan: [0; MOST_LEGS],
            stations: Kept::new(),
            runs: Kept::new(),
            marks: [false; MOST_LEGS],
        }
    }

    // The standing amount of a leg.
    pub fn read(&self, leg: usize) -> Option<u16>
        ensures { (p : Papers) → Follows (tally_of N.Network.meaning self.now) (Read leg) (Amount result) p p (tally_of N.Network.meaning self.now) }
    {
        self.plan[..self.net.legs()].get(leg).copied()
    }

    // Makes a new plan: the cheapest and, of the cheapest, the nearest to the one that stands.
    pub fn plan(
        &mut self,
        prices: &mut [i64],
        cut: &mut [usize],
        tables: &mut Tables<'_>,
    ) -> Result<(u64, u64), Refusal>
        ensures rules { Follows (tally_of N.Network.meaning self.old) (Plan (lengths_of prices.old cut.old tables.old)) (planned result) (papers prices.old cut.old) (papers prices.new cut.new) (tally_of N.Network.meaning self.new) }
        ensures net { self.new.net ≡ self.old.net }
        ensures stay { SameTables tables.old tables.new }
    {
        let legs = self.net.legs();
        let answer = plan(&self.net, &self.plan[..legs], prices, cut, tables)?;
        self.plan[..legs].copy_from_slice(&tables.draft.amounts[..legs]);
        Ok(answer)
    }

    // Lists the short stations.
    pub fn list_stations(&mut self, out: &mut [usize]) -> Result<usize, Refusal>
        ensures rules { (prices : List ℤ) → Follows (tally_of N.Network.meaning self.old) (ListStations (length out.old)) (listed result) (papers prices out.old) (papers prices out.new) (tally_of N.Network.meaning self.new) }
        ensures net { self.new.net ≡ self.old.net }
    {
        let short = ShortStations { net: &self.net };
        let count = self.net.open_stations();
        self.stations.list(&short, count, &mut self.marks, out)
    }

    // Lists the running legs.
    pub fn list_runs(&mut self, out: &mut [usize]) -> Result<usize, Refusal>
        ensures rules { (prices : List ℤ) → Follows (tally_of N.Network.meaning self.old) (ListRuns (length out.old)) (listed result) (papers prices out.old) (papers prices out.new) (tally_of N.Network.meaning self.new) }
        ensures net { self.new.net ≡ self.old.net }
    {
        let legs = self.net.legs();
        let running = RunningLegs {
            plan: &self.plan[..legs],
        };
        self.runs.list(&running, legs, &mut self.marks, out)
    }
}

// What an office keeps is one word of its trait; each method promises it, since no clause stands over a whole impl.
impl<N: Office> Board<N> {
    // An open station reports its balance.
    pub fn report(&mut self, station: usize, balance: i32) -> Result<(), Refusal>
        ensures rules { (p : Papers) → Follows (tally_of N.Network.meaning self.old) (Report station balance) (done result) p p (tally_of N.Network.meaning self.new) }
        ensures kept { N.Office.kept self.old.net self.new.net }
    {
        self.net.report(station, balance)
    }

    // A road leg that is open is shut.
    pub fn close(&mut self, leg: usize) -> Result<(), Refusal>
        ensures rules { (p : Papers) → Follows (tally_of N.Network.meaning self.old) (Close leg) (done result) p p (tally_of N.Network.meaning self.new) }
        ensures kept { N.Office.kept self.old.net self.new.net }
    {
        self.net.close(leg)
    }

    // A road leg that is shut is opened again.
    pub fn reopen(&mut self, leg: usize) -> Result<(), Refusal>
        ensures rules { (p : Papers) → Follows (tally_of N.Network.meaning self.old) (Reopen leg) (done result) p p (tally_of N.Network.meaning self.new) }
        ensures kept { N.Office.kept self.old.net self.new.net }
    {
        self.net.reopen(leg)
    }
}
