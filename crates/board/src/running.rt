// Runs of calls: each call is made in its turn, with slices out of memory that is lent for the whole run. A sheet and the tables are
// handed on apart: of the sheet each call gets a part, the tables serve every call.
ghost use Rattle.std.specs.Prelude.{◌≡◌, ◌≤◌, length};
ghost use Rattle.planning.specs.Tables.{SameTables, lengths_of};
ghost use Rattle.tally.specs.Follows.{Follows, papers};
ghost use Rattle.tally.specs.Runs.{HandsOut, Makes};
ghost use Rattle.tally.specs.Tallies.{fresh};
ghost use Rattle.tally.specs.declared.call.Call.TheVariants.{Plan};
ghost use Rattle.board.specs.Running.{Fits, Handed, HasRoom, MadeAll, Moves, Ran, Stays, WholeRan, given, lending, lent_by};
ghost use Rattle.board.specs.Views.{tally_of};

use crate::board::Board;
use crate::entries::{Entries, suffices};
use crate::sheet::Sheet;
use network::Office;
use planning::Tables;
use records::{MOST_LEGS, MOST_STATIONS, Refusal};
use tally::{Answer, Call};

impl<N: Office> Board<N> {
    // Makes a plan, and hands its amounts out if there is one.
    fn make_plan(
        &mut self,
        prices: &mut [i64],
        cut: &mut [usize],
        amounts: &mut [u16],
        tables: &mut Tables<'_>,
    ) -> Answer
        requires { length amounts.old ≡ length (N.Network.meaning self.old.net).legs }
        ensures rules { Follows (tally_of N.Network.meaning self.old) (Plan (lengths_of prices.old cut.old tables.old)) result (papers prices.old cut.old) (papers prices.new cut.new) (tally_of N.Network.meaning self.new) }
        ensures hands { HandsOut result (tally_of N.Network.meaning self.new).plan amounts.old amounts.new }
        ensures net { self.new.net ≡ self.old.net }
        ensures stay { SameTables tables.old tables.new }
    {
        let outcome = self.plan(prices, cut, tables);
        if outcome.is_ok() {
            amounts.copy_from_slice(&self.plan[..amounts.len()]);
        }
        outcome.into()
    }

    // Makes one call, with slices as long as it says and working tables at least as long. They are no sheet: a sheet of parts of
    // another sheet's slices gets no generated proof.
    fn make(
        &mut self,
        call: Call,
        prices: &mut [i64],
        numbers: &mut [usize],
        amounts: &mut [u16],
        tables: &mut Tables<'_>,
    ) -> Answer
        requires { Handed (length (N.Network.meaning self.old.net).legs) call (given (lending prices.old numbers.old amounts.old) tables.old) }
        ensures rules { Follows (tally_of N.Network.meaning self.old) call result (papers prices.old numbers.old) (papers prices.new numbers.new) (tally_of N.Network.meaning self.new) }
        ensures hands { HandsOut result (tally_of N.Network.meaning self.new).plan amounts.old amounts.new }
        ensures kept { N.Office.kept self.old.net self.new.net }
        ensures stay { SameTables tables.old tables.new }
    {
        match call {
            Call::Report { station, balance } => self.report(station, balance).into(),
            Call::Close { leg } => self.close(leg).into(),
            Call::Reopen { leg } => self.reopen(leg).into(),
            Call::Plan { lengths } => {
                if lengths.station_entries < MOST_STATIONS || lengths.leg_entries < MOST_LEGS {
                    return Answer::Refused {
                        refusal: Refusal::SliceTooShort,
                    };
                }
                self.make_plan(prices, numbers, amounts, tables)
            }
            Call::ListStations { .. } => self.list_stations(numbers).into(),
            Call::ListRuns { .. } => self.list_runs(numbers).into(),
            Call::Read { leg } => Answer::Amount {
                bikes: self.read(leg),
            },
        }
    }

    // Makes one call, with the entries of the sheet that begin at the given places, and moves the places on. Parts are not split off
    // the sheet: the clauses tell of all that was lent, and where in it a part begins. The sums stand here, where the lent slices
    // bound them; a method of `Entries` would have to ask for those bounds.
    fn step(
        &mut self,
        call: Call,
        at: &mut Entries,
        sheet: &mut Sheet<'_>,
        tables: &mut Tables<'_>,
    ) -> Answer
        requires { HasRoom (length (N.Network.meaning self.old.net).legs) call at.old (given (lent_by sheet.old) tables.old) }
        ensures makes { Makes (length (N.Network.meaning self.old.net).legs) call result (tally_of N.Network.meaning self.old) (tally_of N.Network.meaning self.new) at.old.prices at.old.numbers at.old.amounts (lent_by sheet.old) (lent_by sheet.new) }
        ensures moves { Moves (length (N.Network.meaning self.old.net).legs) call at.old at.new }
        ensures stays { Stays N.Office.kept self.old.net self.new.net sheet.old sheet.new tables.old tables.new }
    {
        let taken = Entries::of_call(self.net.legs(), call);
        let from = *at;
        at.prices += taken.prices;
        at.numbers += taken.numbers;
        at.amounts += taken.amounts;
        self.make(
            call,
            &mut sheet.prices[from.prices..at.prices],
            &mut sheet.numbers[from.numbers..at.numbers],
            &mut sheet.amounts[from.amounts..at.amounts],
            tables,
        )
    }

    // Makes all calls. Over a zip of answers and calls no invariant can name what the answers hold, so the answers go by place.
    fn make_all(
        &mut self,
        calls: &[Call],
        answers: &mut [Answer],
        sheet: &mut Sheet<'_>,
        tables: &mut Tables<'_>,
    )
        requires { (length calls.now ≤ length answers.old) × (Fits (length (N.Network.meaning self.old.net).legs) calls.now (length calls.now) (given (lent_by sheet.old) tables.old)) }
        ensures all { MadeAll (length (N.Network.meaning self.old.net).legs) (tally_of N.Network.meaning self.old) (tally_of N.Network.meaning self.new) calls.now (length calls.now) answers.old answers.new (lent_by sheet.old) (lent_by sheet.new) }
        ensures stays { Stays N.Office.kept self.old.net self.new.net sheet.old sheet.new tables.old tables.new }
    {
        let mut at = Entries::default();
        for (i, call) in calls.iter().enumerate() {
            answers[i] = self.step(*call, &mut at, sheet, tables);
        }
    }

    // Makes the calls, each in its turn and on what the ones before it left. The lent memory has to suffice for all of them:
    // prices, numbers for cuts and lists, and amounts of new plans are handed out in it, one call's behind the other's.
    pub fn run(
        &mut self,
        calls: &[Call],
        answers: &mut [Answer],
        sheet: &mut Sheet<'_>,
        tables: &mut Tables<'_>,
    ) -> Result<(), Refusal>
        ensures ran { Ran result (given (lent_by sheet.old) tables.old) (length (N.Network.meaning self.old.net).legs) (tally_of N.Network.meaning self.old) (tally_of N.Network.meaning self.new) calls.now answers.old answers.new (lent_by sheet.old) (lent_by sheet.new) }
        ensures stays { Stays N.Office.kept self.old.net self.new.net sheet.old sheet.new tables.old tables.new }
    {
        let lent = sheet.entries(tables);
        if calls.len() > answers.len() || !suffices(self.net.legs(), calls, lent) {
            return Err(Refusal::SliceTooShort);
        }
        self.make_all(calls, answers, sheet, tables);
        Ok(())
    }
}

// Makes the calls on a new board on the network, and hands the board back.
pub fn run<N: Office>(
    net: N,
    calls: &[Call],
    answers: &mut [Answer],
    sheet: &mut Sheet<'_>,
    tables: &mut Tables<'_>,
) -> (Board<N>, Result<(), Refusal>)
    ensures ran { WholeRan result.1 (given (lent_by sheet.old) tables.old) (fresh (N.Network.meaning net)) (tally_of N.Network.meaning result.0) calls.now answers.old answers.new (lent_by sheet.old) (lent_by sheet.new) }
    ensures stays { Stays N.Office.kept net result.0.net sheet.old sheet.new tables.old tables.new }
{
    let mut board = Board::new(net);
    let result = board.run(calls, answers, sheet, tables);
    (board, result)
}
