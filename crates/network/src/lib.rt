// What a network is: the questions that every network answers, and the calls of an office above
// them. Each is promised by the network's meaning, so that code above is proved once for all.
#![tactic(auto)]

ghost use Rattle.std.specs.Prelude.{◌≡◌, length, pos, slice_index_or};
ghost use Rattle.std.specs.List.{slice_get};
ghost use Rattle.records.specs.declared.leg.Mark.TheVariants.{Open, Shut};
ghost use Rattle.network.specs.Keeping.{Keeps};
ghost use Rattle.network.specs.Nets.{Net, Within, total};
ghost use Rattle.network.specs.Offices.{Answers, Marks, Reports, mark_fault, report_fault};

pub mod choices;

pub use choices::Belongs;
use records::{Leg, MOST_REPORTED, Mark, Refusal};

// The questions. A question alters nothing, and one beyond the count is answered by None.
pub trait Network {
    // what the network means
    ghost meaning: { Self → Net };

    // that it keeps the limits of every network
    ghost limits: { (s : Self) → Within (meaning s) };

    // How many stations there are.
    fn stations(&self) -> usize
        ensures { result ≡ length (meaning self.now).balances };

    // How many legs there are.
    fn legs(&self) -> usize
        ensures { result ≡ length (meaning self.now).legs };

    // How many stations, from 0 on, are open: those may report.
    fn open_stations(&self) -> usize
        ensures { result ≡ (meaning self.now).open_stations };

    // How many legs, from 0 on, are road legs: those may be closed and reopened.
    fn road_legs(&self) -> usize
        ensures { result ≡ (meaning self.now).road_legs };

    // A leg by its number.
    fn leg(&self, number: usize) -> Option<Leg>
        ensures { result ≡ slice_get (meaning self.now).legs number };

    // The balance of a station by its number.
    fn balance(&self, station: usize) -> Option<i32>
        ensures { result ≡ slice_get (meaning self.now).balances station };
}

// The calls of the office that runs a network. Each is refused with nothing altered, or accepted.
// What a call leaves alone beside the meaning, as the memory that a network was lent, is `kept`.
pub trait Office: Network {
    // what stays from before a call to after it
    ghost kept: { Self → Self → Type 0 };

    // that it then stays over any number of calls
    ghost keeps: { Keeps kept };

    // An open station reports its balance, from -500 to 500.
    fn report(&mut self, station: usize, balance: i32) -> Result<(), Refusal>
        ensures answer { Reports result (Self.Network.meaning self.old) (Self.Network.meaning self.new) station balance }
        ensures kept { kept self.old self.new };

    // A road leg gets a mark that it does not have: it is closed or reopened.
    fn set_mark(&mut self, leg: usize, mark: Mark) -> Result<(), Refusal>
        ensures answer { Marks result (Self.Network.meaning self.old) (Self.Network.meaning self.new) leg mark }
        ensures kept { kept self.old self.new };

    // A road leg that is open is shut.
    final fn close(&mut self, leg: usize) -> Result<(), Refusal>
        ensures answer { Marks result (Self.Network.meaning self.old) (Self.Network.meaning self.new) leg Shut }
        ensures kept { kept self.old self.new }
    {
        self.set_mark(leg, Mark::Shut)
    }

    // A road leg that is shut is opened again.
    final fn reopen(&mut self, leg: usize) -> Result<(), Refusal>
        ensures answer { Marks result (Self.Network.meaning self.old) (Self.Network.meaning self.new) leg Open }
        ensures kept { kept self.old self.new }
    {
        self.set_mark(leg, Mark::Open)
    }
}

// The balance of a station, 0 of one that is not there.
pub fn balance_of<N: Network>(network: &N, station: usize) -> i32
    ensures { result ≡ slice_index_or (N.Network.meaning network.now).balances station (pos 0) }
{
    let Some(balance) = network.balance(station) else {
        return 0;
    };
    balance
}

// The sum of all balances.
pub fn total_balance<N: Network>(network: &N) -> i64
    ensures { result ≡ total (N.Network.meaning network.now).balances }
{
    (0..network.stations())
        .map(|station| i64::from(balance_of(network, station)))
        .sum()
}

// Whether a station may report a balance, where so many stations are open. A flow of a network
// text has the same range, but its line is judged as a whole.
pub fn check_report(open_stations: usize, station: usize, balance: i32) -> Result<(), Refusal>
    ensures { Answers result (report_fault open_stations station balance) }
{
    if station >= open_stations {
        return Err(Refusal::StationNotOpen { station });
    }
    if !(-MOST_REPORTED..=MOST_REPORTED).contains(&balance) {
        return Err(Refusal::BalanceOutOfRange { station });
    }
    Ok(())
}

// Whether a leg may get a mark, where so many legs are road legs.
pub fn check_mark<N: Network>(network: &N, leg: usize, mark: Mark) -> Result<(), Refusal>
    ensures { Answers result (mark_fault (N.Network.meaning network.now).road_legs (N.Network.meaning network.now).legs leg mark) }
{
    if leg >= network.road_legs() {
        return Err(Refusal::NotARoadLeg { leg });
    }
    let Some(found) = network.leg(leg) else {
        return Err(Refusal::NotARoadLeg { leg });
    };
    if found.mark == mark {
        return Err(Refusal::MarkUnchanged { leg });
    }
    Ok(())
}
