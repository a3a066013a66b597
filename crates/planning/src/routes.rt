// Routes along the last steps of settled labels, and bikes that go along them.
ghost use Rattle.std.specs.Prelude.{◌≡◌, ℕ, Bool, List, ◌↔◌, IsTrue};
ghost use Rattle.certificates.specs.Pushes.{room};
ghost use Rattle.costs.specs.Kinds.{both_kind};
ghost use Rattle.planning.specs.Drafts.{SameDraft};
ghost use Rattle.planning.specs.Routes.{Quotes, Sees, Finds, Along, Steps, StepsInto};
ghost use Rattle.planning.specs.Sendable.{IsMostSendable, bikes_sent, contents_after, contents_of, spare as bikes_spare, reach_of};
ghost use Rattle.planning.specs.Sends.{Sends, SettledFor};
ghost use Rattle.plans.specs.Plans.{in_force as capacity};
ghost use Rattle.plans.specs.Residuals.{both_group};
ghost use Rattle.search.specs.Labels.{label_at};

use crate::draft::Draft;
use costs::CentsThenBikes;
use network::Network;
use plans::Direction;
use search::{Arrival, Label};
use slices::put;
use steps::{Fees, InBoth, Load, Step, amount_at, in_force};

/// A network, the standing amounts of its legs, and the labels of its stations: the last steps in these are the routes that
/// bikes are sent along.
#[derive(Drop)]
pub struct Routes<'a, N> {
    pub net: &'a N,
    pub standing: &'a [u16],
    pub labels: &'a [Label<CentsThenBikes>],
}

// The bikes that a station can give, at most so many; by the negated left over, those that it lacks. The cast loses nothing.
fn spare(most: u16, left: i64) -> u16
    ensures { result ≡ bikes_spare most left }
{
    left.clamp(0, i64::from(most)) as u16
}

// The stations that a step leads from and to, how many bikes it can take, and its cost.
#[derive(Clone, Copy, PartialEq, Eq, Debug)]
struct Quote {
    from: usize,
    into: usize,
    room: u16,
    cost: CentsThenBikes,
}

// How many bikes a step can take, not past the standing amount of its leg where it moves towards that.
fn room_of(direction: Direction, load: Load, standing: u16) -> u16
    ensures { result ≡ room direction (capacity load.leg) standing load.amount }
{
    let residual = load.residual(direction);
    let short = match direction {
        Direction::Forth => standing.saturating_sub(load.amount),
        Direction::Back => load.amount.saturating_sub(standing),
    };
    if short == 0 {
        residual
    } else {
        residual.min(short)
    }
}

// What the label of a station shows: the start of a walk, or the step that it comes by.
#[derive(Clone, Copy, PartialEq, Eq, Debug)]
enum Sight {
    Begun,
    Came { from: usize, room: u16 },
}

// Whether a total is the sum of two others. `sum` would stop at a limit.
fn is_sum(total: CentsThenBikes, one: CentsThenBikes, other: CentsThenBikes) -> bool
    ensures { IsTrue result
        ↔ (both_kind.worth total ≡ both_group.add (both_kind.worth one) (both_kind.worth other)) }
{
    one.first.0.checked_add(other.first.0) == Some(total.first.0)
        && one.second.0.checked_add(other.second.0) == Some(total.second.0)
}

// Where a walk starts, and how many bikes can go along it.
#[derive(Clone, Copy, PartialEq, Eq, Debug)]
struct Reach {
    start: usize,
    room: u16,
}

impl<'a, N: Network> Routes<'a, N> {
    // A step, if it leads from a station to a station.
    fn quote_of(&self, plan: &[u16], step: Step) -> Option<Quote>
        ensures { Quotes (N.Network.meaning self.now.net.now) self.now.standing.now plan.now step
            result }
    {
        let Step { direction, leg } = step;
        let Some(load) = Load::joined(self.net, plan, leg) else {
            return None;
        };
        let fees = InBoth {
            standing: self.standing,
        };
        Some(Quote {
            from: usize::from(load.tail(direction)),
            into: usize::from(load.head(direction)),
            room: room_of(direction, load, amount_at(self.standing, leg)),
            cost: fees.fee(direction, load),
        })
    }

    // The arrival in the label of a station.
    fn arrival_at(&self, station: usize) -> Option<Arrival<CentsThenBikes>>
        ensures { result ≡ (label_at self.now.labels.now station).arrival }
    {
        self.labels.get(station)?.arrival
    }

    // What the label of a station shows, if there is anything to go by.
    fn look(&self, draft: &Draft<'_>, station: usize) -> Option<Sight>
        ensures { Sees (N.Network.meaning self.now.net.now) self.now.standing.now
            draft.now.amounts.now self.now.labels.now station result }
    {
        if station >= self.net.stations() {
            return None;
        }
        let arrival = self.arrival_at(station)?;
        let Some(step) = arrival.last else {
            return Some(Sight::Begun);
        };
        let quote = self.quote_of(draft.amounts, step)?;
        if quote.into != station || quote.room == 0 {
            return None;
        }
        let before = self.arrival_at(quote.from)?;
        if !is_sum(arrival.total, before.total, quote.cost) {
            return None;
        }
        Some(Sight::Came {
            from: quote.from,
            room: quote.room,
        })
    }

    // Follows the last steps from a station back to a start, if every one is tight and has room.
    fn measure(&self, draft: &Draft<'_>, target: usize) -> Option<Reach>
        ensures finds { Finds (N.Network.meaning self.now.net.now) self.now.standing.now
            draft.now.amounts.now self.now.labels.now target result }
        ensures is { result
            ≡ reach_of (N.Network.meaning self.now.net.now) self.now.standing.now
            self.now.labels.now draft.now.amounts.now target }
    {
        let mut at = target;
        let mut room = u16::MAX;
        // no more turns than stations and one: last steps in lent labels may lead in a circle
        for _turn in 0..=self.net.stations() {
            match self.look(draft, at)? {
                Sight::Begun => return Some(Reach { start: at, room }),
                Sight::Came { from, room: less } => {
                    at = from;
                    room = room.min(less);
                }
            }
        }
        None
    }

    // Sends bikes along a step, and says where it comes from. A leg takes no more than its capacity.
    fn push_step(&self, step: Step, bikes: u16, plan: &mut [u16]) -> Option<usize>
        ensures { Steps (N.Network.meaning self.now.net.now) bikes step result plan.old plan.new }
    {
        let Step { direction, leg } = step;
        let Some(load) = Load::of(self.net, plan, leg) else {
            return None;
        };
        let amount = match direction {
            Direction::Forth => load.amount.saturating_add(bikes).min(in_force(load.leg)),
            Direction::Back => load.amount.saturating_sub(bikes),
        };
        put(plan, leg, amount);
        Some(usize::from(load.tail(direction)))
    }

    // Sends bikes along the last step into a station, and says where it comes from.
    fn push_into(&self, station: usize, bikes: u16, plan: &mut [u16]) -> Option<usize>
        ensures { StepsInto (N.Network.meaning self.now.net.now) self.now.labels.now station bikes
            result plan.old plan.new }
    {
        let step = self.arrival_at(station)?.last?;
        self.push_step(step, bikes, plan)
    }

    // Sends bikes along the last steps to a station.
    fn push_along(&self, target: usize, bikes: u16, plan: &mut [u16])
        ensures { Along (N.Network.meaning self.now.net.now) self.now.labels.now bikes target
            plan.old plan.new }
    {
        let mut at = target;
        // as many turns as `measure` has
        for _turn in 0..=self.net.stations() {
            match self.push_into(at, bikes, plan) {
                Some(from) => at = from,
                None => return,
            }
        }
    }

    /// Sends bikes to a station that lacks them, from the start of the walk in its label, along the last steps back to there:
    /// as many as all steps take at the cost that they had in the search, the start has over and the station lacks. It alters
    /// the plan and what is left over, and says how many bikes: 0 where none go.
    pub fn send(&self, target: usize, draft: &mut Draft<'_>) -> u64
        ensures sends { Sends (N.Network.meaning self.now.net.now) self.now.standing.now
            self.now.labels.now target result draft.old draft.new }

        // By labels that a search has settled, no more can be sent.
        ensures most { (old : List ℕ) (f : ℕ → Bool)
            → SettledFor (N.Network.meaning self.now.net.now) self.now.standing.now old f
            self.now.labels.now
            → IsMostSendable (N.Network.meaning self.now.net.now) self.now.standing.now
            self.now.labels.now target result (contents_of draft.old) }

        // Both are determined by what the draft held.
        ensures amount { result
            ≡ bikes_sent (N.Network.meaning self.now.net.now) self.now.standing.now
            self.now.labels.now target (contents_of draft.old) }
        ensures draft { contents_of draft.new
            ≡ contents_after (N.Network.meaning self.now.net.now) self.now.standing.now
            self.now.labels.now target (contents_of draft.old) }
        ensures stay { SameDraft draft.old draft.new }
    {
        let Some(reach) = self.measure(draft, target) else {
            return 0;
        };
        let spare_there = spare(reach.room, draft.left_at(reach.start));
        let bikes = spare(spare_there, draft.left_at(target).saturating_neg());
        if bikes == 0 {
            return 0;
        }
        self.push_along(target, bikes, draft.amounts);
        draft.hand_over(reach.start, target, bikes);
        u64::from(bikes)
    }
}
