// What a search knows of each station, kept in a lent slice with one entry for each.
ghost use Rattle.std.specs.Prelude.{◌≡◌, ◌↔◌, IsTrue};
ghost use Rattle.theory.specs.Walks.{AtMost};
ghost use Rattle.search.specs.Labels.{begun, best, committed, fresh, label_at};
ghost use Rattle.search.specs.Words.{arrival_text};

use costs::Cost;
use std::fmt;
use steps::Step;

/// How a walk arrives: its total, and its last step, if it has gone any.
#[derive(Clone, Copy, PartialEq, Eq, Debug)]
pub struct Arrival<C> {
    pub total: C,
    pub last: Option<Step>,
}

/// `TOTAL, start` or `TOTAL, STEP`.
impl<C: fmt::Display> fmt::Display for Arrival<C> {
    ghost output = { λ arrival. arrival_text (C.Display.output arrival.total) arrival.last };

    fn fmt<W: fmt::Write>(&self, f: &mut fmt::Formatter<W>) -> fmt::Result {
        match self.last {
            None => write!(f, "{}, start", self.total),
            Some(step) => write!(f, "{}, {step}", self.total),
        }
    }
}

/// The best walk so far, what the current round has found beyond it, and whether the round before
/// changed the label. By default no walk is known.
#[derive(Clone, Copy, PartialEq, Eq, Debug)]
#[derive_where(Default)]
pub struct Label<C> {
    pub arrival: Option<Arrival<C>>,
    pub better: Option<Arrival<C>>,
    pub changed: bool,
}

impl<C: Cost> Label<C> {
    // The total, if the round before changed the label.
    fn fresh_total(&self) -> Option<C>
        ensures { result ≡ fresh self.now }
    {
        self.arrival
            .filter(|_| self.changed)
            .map(|arrival| arrival.total)
    }

    // Whether the label has found or holds a total that is no more than the given one.
    pub(crate) fn is_as_low(&self, total: C) -> bool
        ensures { IsTrue result
            ↔ AtMost C.Grouped.group (best C.Grouped self.now) (C.Grouped.worth total) }
    {
        // `better.or(arrival)` takes 8 instructions more at every step of a round
        match self.better {
            Some(found) => found.total.at_most(total),
            None => self.arrival.is_some_and(|held| held.total.at_most(total)),
        }
    }

    // The label of a station before the first round.
    pub(crate) fn first(is_start: bool, zero: C) -> Label<C>
        ensures { result ≡ begun is_start zero }
    {
        if !is_start {
            return Label::default();
        }
        Label {
            arrival: Some(Arrival {
                total: zero,
                last: None,
            }),
            better: None,
            changed: true,
        }
    }

    // The label at the end of a round.
    pub(crate) fn next(&self) -> Label<C>
        ensures { result ≡ committed self.now }
    {
        Label {
            arrival: self.better.or(self.arrival),
            better: None,
            changed: self.better.is_some(),
        }
    }
}

// The total of the label of a station, if the round before changed it.
pub(crate) fn fresh_at<C: Cost>(labels: &[Label<C>], station: usize) -> Option<C>
    ensures { result ≡ fresh (label_at labels.now station) }
{
    labels.get(station)?.fresh_total()
}
