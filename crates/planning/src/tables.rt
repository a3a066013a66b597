// The working tables of a planning, lent by its caller. What they hold at first does not matter.
ghost use Rattle.std.specs.Prelude.{◌≡◌};
ghost use Rattle.planning.specs.Tables.{leg_lengths, lengths_of, shortest, station_lengths};

use crate::draft::Draft;
use costs::{Cents, CentsThenBikes};
use planning_rules::Lengths;
use prices::Queue;
use search::{Chains, Label};

/// The working tables of a planning. Each slice needs 240 entries, those that are said to have one for each leg 3,000. After an
/// accepted planning the first of the draft's amounts are the plan; what else the tables hold then is left open.
#[derive(Drop)]
pub struct Tables<'a> {
    /// The plan in the making, with an amount for each leg, and what it leaves over.
    pub draft: Draft<'a>,
    /// The potentials that are guessed.
    pub potentials: &'a mut [CentsThenBikes],
    /// What the simplex works in: `lower` and `upper` have an entry for each leg.
    pub simplex: simplex::Tables<'a>,
    /// The stations that have bikes over, and those that were sent bikes.
    pub marks: &'a mut [bool],
    /// The labels of the searches for the cheapest walks.
    pub labels: &'a mut [Label<CentsThenBikes>],
    /// The labels of the prices.
    pub cents: &'a mut [Label<Cents>],
    /// The chains that searches go along: `nexts` has an entry for each leg.
    pub chains: Chains<'a>,
    /// The queue of the claim of prices.
    pub queue: Queue<'a>,
}

impl Tables<'_> {
    // How long the shortest of the tables is that have one entry for each station.
    fn shortest_for_stations(&self) -> usize
        ensures { result ≡ shortest (station_lengths self.now) }
    {
        self.draft
            .left
            .len()
            .min(self.potentials.len())
            .min(self.simplex.nodes.len())
            .min(self.simplex.potentials.len())
            .min(self.simplex.best.len())
            .min(self.marks.len())
            .min(self.labels.len())
            .min(self.cents.len())
            .min(self.chains.heads.len())
            .min(self.queue.heap.len())
            .min(self.queue.places.len())
    }

    // How long the shortest of the tables is that have one entry for each leg.
    fn shortest_for_legs(&self) -> usize
        ensures { result ≡ shortest (leg_lengths self.now) }
    {
        self.draft
            .amounts
            .len()
            .min(self.simplex.lower.len())
            .min(self.simplex.upper.len())
            .min(self.chains.nexts.len())
    }

    /// How long two slices for prices and a cut are, and how many entries the shortest of these tables have.
    // The two slices are parameters: in a struct of parts of one that a caller was lent they get no proof.
    pub fn lengths(&self, prices: &[i64], cut: &[usize]) -> Lengths
        ensures { result ≡ lengths_of prices.now cut.now self.now }
    {
        Lengths {
            prices: prices.len(),
            cut: cut.len(),
            station_entries: self.shortest_for_stations(),
            leg_entries: self.shortest_for_legs(),
        }
    }
}
