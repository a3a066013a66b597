//! Working tables with memory of their own, to be lent to one planning after another.
#![tactic(auto)]

ghost use Rattle.std.specs.Prelude.{◌≡◌, ℕ, IfOk, replicate};
ghost use Rattle.workspace.specs.Entries.{HasEntries, Holds, Lent};

use costs::{Cents, CentsThenBikes, Cost};
use planning::{Draft, Tables};
use prices::{Keyed, Queue};
use search::{Chains, Label, Links};
use simplex::{Arc, Node, Offer};
use std::alloc::{AllocError, Global};

/// The working tables of a planning: those for stations and those for legs.
#[derive(Drop)]
pub struct Workspace {
    amounts: Vec<u16>,
    left: Vec<i64>,
    potentials: Vec<CentsThenBikes>,
    lower: Vec<Arc>,
    upper: Vec<Arc>,
    nodes: Vec<Node>,
    folded: Vec<i64>,
    best: Vec<Offer>,
    marks: Vec<bool>,
    labels: Vec<Label<CentsThenBikes>>,
    cents: Vec<Label<Cents>>,
    heads: Vec<Links>,
    nexts: Vec<Links>,
    heap: Vec<Keyed>,
    places: Vec<usize>,
}

impl Workspace {
    /// A workspace with so many entries in each table for stations and in each table for legs; 240 and 3,000 suffice for every
    /// network. All amounts are 0.
    pub fn new(
        heap: Global,
        station_entries: usize,
        leg_entries: usize,
    ) -> Result<Workspace, AllocError>
        ensures holds { IfOk result (λ made. Holds station_entries leg_entries made) }
        ensures zeros { IfOk result (λ made. made.amounts.items ≡ replicate leg_entries 0) }
    {
        let zero = CentsThenBikes::zero();
        Ok(Workspace {
            amounts: vec![in heap; 0; leg_entries]?,
            left: vec![in heap; 0; station_entries]?,
            potentials: vec![in heap; zero; station_entries]?,
            lower: vec![in heap; Arc::default(); leg_entries]?,
            upper: vec![in heap; Arc::default(); leg_entries]?,
            nodes: vec![in heap; Node::default(); station_entries]?,
            folded: vec![in heap; 0; station_entries]?,
            best: vec![in heap; Offer::default(); station_entries]?,
            marks: vec![in heap; false; station_entries]?,
            labels: vec![in heap; Label::default(); station_entries]?,
            cents: vec![in heap; Label::default(); station_entries]?,
            heads: vec![in heap; Links::default(); station_entries]?,
            nexts: vec![in heap; Links::default(); leg_entries]?,
            heap: vec![in heap; Keyed::default(); station_entries]?,
            places: vec![in heap; 0; station_entries]?,
        })
    }

    /// What the table of amounts holds. That it is what a planning left in it is not promised: of what is lent in parts no
    /// value is known afterwards.
    pub fn amounts(&self) -> &[u16]
        ensures { result.now ≡ self.now.amounts.items }
    {
        self.amounts.as_slice()
    }

    /// Lends the tables, as they are.
    pub fn lend(&mut self) -> Tables<'_>
        ensures lent { Lent self.old result }
        ensures entries { (stations legs : ℕ) → Holds stations legs self.old
            → HasEntries stations legs result }
    {
        Tables {
            draft: Draft {
                amounts: self.amounts.as_mut_slice(),
                left: self.left.as_mut_slice(),
            },
            potentials: self.potentials.as_mut_slice(),
            simplex: simplex::Tables {
                lower: self.lower.as_mut_slice(),
                upper: self.upper.as_mut_slice(),
                nodes: self.nodes.as_mut_slice(),
                potentials: self.folded.as_mut_slice(),
                best: self.best.as_mut_slice(),
            },
            marks: self.marks.as_mut_slice(),
            labels: self.labels.as_mut_slice(),
            cents: self.cents.as_mut_slice(),
            chains: Chains {
                heads: self.heads.as_mut_slice(),
                nexts: self.nexts.as_mut_slice(),
            },
            queue: Queue {
                heap: self.heap.as_mut_slice(),
                places: self.places.as_mut_slice(),
            },
        }
    }
}
