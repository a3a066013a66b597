// How much of the memory that is lent to a run a call takes, and where in it the next call's part begins. The count of legs comes with
// the calls, which do not say it.
ghost use Rattle.std.specs.Prelude.{◌≡◌, length, Decides, MatchOption};
ghost use Rattle.board.specs.Running.{Fits, Left, TooFew, entries, of_lengths};

use planning_rules::Lengths;
use tally::Call;

// Entries for prices, for cuts and lists, for the amounts of new plans, and of the working tables
// those with an entry for each station and those with one for each leg.
#[derive(Clone, Copy, PartialEq, Eq, Debug, Default)]
pub struct Entries {
    pub prices: usize,
    pub numbers: usize,
    pub amounts: usize,
    pub stations: usize,
    pub legs: usize,
}

impl Entries {
    // As many as a planning's slices and working tables have, and so many amounts.
    pub(crate) fn of_lengths(lengths: Lengths, amounts: usize) -> Entries
        ensures { result ≡ of_lengths lengths amounts }
    {
        Entries {
            prices: lengths.prices,
            numbers: lengths.cut,
            amounts,
            stations: lengths.station_entries,
            legs: lengths.leg_entries,
        }
    }

    // The entries that a call takes, where there are so many legs.
    pub fn of_call(legs: usize, call: Call) -> Entries
        ensures { result ≡ entries legs call }
    {
        match call {
            Call::Plan { lengths } => Entries::of_lengths(lengths, legs),
            Call::ListStations { length } | Call::ListRuns { length } => Entries {
                numbers: length,
                ..Entries::default()
            },
            _ => Entries::default(),
        }
    }

    // What is left for the calls after one, if there is enough for it. Working tables serve every call.
    fn after(self, legs: usize, call: Call) -> Option<Entries>
        ensures { MatchOption result (TooFew self (entries legs call)) (Left self (entries legs call)) }
    {
        let taken = Entries::of_call(legs, call);
        if self.stations < taken.stations || self.legs < taken.legs {
            return None;
        }
        Some(Entries {
            prices: self.prices.checked_sub(taken.prices)?,
            numbers: self.numbers.checked_sub(taken.numbers)?,
            amounts: self.amounts.checked_sub(taken.amounts)?,
            ..self
        })
    }
}

// Whether the lent entries suffice for all calls, where there are so many legs.
pub(crate) fn suffices(legs: usize, calls: &[Call], lent: Entries) -> bool
    ensures { Decides result (Fits legs calls.now (length calls.now) lent) }
{
    calls
        .iter()
        .try_fold(lent, |left, call| left.after(legs, *call))
        .is_some()
}
