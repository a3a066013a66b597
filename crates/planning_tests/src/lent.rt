// What a planning is lent: slices for prices and a cut, and the tables of a workspace, of given sizes.
use crate::guesses::Guessed;
use network::Network;
use planning::{Draft, Tables, plan, plan_by};
use poison::{UNTOUCHED, poison};
use prices::Queue;
use records::Refusal;
use search::Chains;
use slices::first;
use std::alloc::{AllocError, Global};
use workspace::Workspace;

// The working tables, each by what it holds.
#[derive(Clone, Copy, PartialEq, Eq)]
pub enum Part {
    Amounts,
    Left,
    Potentials,
    LowerArcs,
    UpperArcs,
    Nodes,
    FoldedPotentials,
    Best,
    Labels,
    Cents,
    Heads,
    Nexts,
    Heap,
    Places,
    Marks,
}

// How many entries each slice and each table has. Numbers and no constants of the planner: the test states both sides of a limit by
// itself.
#[derive(Clone, Copy)]
pub struct Sizes {
    pub prices: usize,
    pub cut: usize,
    // of a table for stations
    pub stations: usize,
    // of a table for legs
    pub legs: usize,
    // a table that has one entry less
    pub shorter: Option<Part>,
}

impl Sizes {
    // The least that suffices for three stations.
    pub const THREE: Sizes = Sizes {
        prices: 3,
        cut: 3,
        stations: 240,
        legs: 3000,
        shorter: None,
    };

    // The least that suffices for every network.
    pub const ALL: Sizes = Sizes {
        prices: 240,
        cut: 240,
        ..Sizes::THREE
    };

    // The first entries of a table for stations.
    fn by_station<T>(self, part: Part, table: &mut [T]) -> &mut [T] {
        self.lent(part, self.stations, table)
    }

    // The first entries of a table for legs.
    fn by_leg<T>(self, part: Part, table: &mut [T]) -> &mut [T] {
        self.lent(part, self.legs, table)
    }

    // The first of so many entries, or of one less, at most as many as there are.
    fn lent<T>(self, part: Part, entries: usize, table: &mut [T]) -> &mut [T] {
        let wanted = if self.shorter == Some(part) {
            entries.saturating_sub(1)
        } else {
            entries
        };
        let count = wanted.min(table.len());
        &mut table[..count]
    }
}

// No table is lent with more entries for stations.
const STATION_ENTRIES: usize = 241;

// No table is lent with more entries for legs.
const LEG_ENTRIES: usize = 3001;

// The slices and the workspace, all filled with something that no planning may read. What is lent to a run of a board is another struct, in
// the tests of boards: the two share prices and a workspace, but a run has answers and a log, and a planning is lent parts of tables.
#[derive(Drop)]
pub struct Lent {
    pub prices: Vec<i64>,
    pub cut: Vec<usize>,
    workspace: Workspace,
    pub sizes: Sizes,
}

impl Lent {
    // Slices and a workspace, of which a planning is lent entries of given sizes.
    pub(crate) fn new(heap: Global, sizes: Sizes) -> Result<Lent, AllocError> {
        let mut workspace = Workspace::new(heap, STATION_ENTRIES, LEG_ENTRIES)?;
        poison(&mut workspace.lend());
        Ok(Lent {
            prices: vec![in heap; 0; sizes.prices]?,
            cut: vec![in heap; 0; sizes.cut]?,
            workspace,
            sizes,
        })
    }

    // Plans on a network by a guess, or by the planner's own. The tables hold what the planning before left there.
    pub(crate) fn plan<N: Network>(
        &mut self,
        net: &N,
        standing: &[u16],
        guess: Option<Guessed>,
    ) -> Result<(u64, u64), Refusal> {
        self.prices.as_mut_slice().fill(i64::from(UNTOUCHED));
        self.cut.as_mut_slice().fill(usize::from(UNTOUCHED));
        let sizes = self.sizes;
        let Tables {
            draft: Draft { amounts, left },
            potentials,
            simplex: simplex::Tables {
                lower,
                upper,
                nodes,
                potentials: folded,
                best,
            },
            labels,
            cents,
            chains: Chains { heads, nexts },
            queue: Queue { heap, places },
            marks,
        } = self.workspace.lend();
        let mut tables = Tables {
            draft: Draft {
                amounts: sizes.by_leg(Part::Amounts, amounts),
                left: sizes.by_station(Part::Left, left),
            },
            potentials: sizes.by_station(Part::Potentials, potentials),
            simplex: simplex::Tables {
                lower: sizes.by_leg(Part::LowerArcs, lower),
                upper: sizes.by_leg(Part::UpperArcs, upper),
                nodes: sizes.by_station(Part::Nodes, nodes),
                potentials: sizes.by_station(Part::FoldedPotentials, folded),
                best: sizes.by_station(Part::Best, best),
            },
            labels: sizes.by_station(Part::Labels, labels),
            cents: sizes.by_station(Part::Cents, cents),
            chains: Chains {
                heads: sizes.by_station(Part::Heads, heads),
                nexts: sizes.by_leg(Part::Nexts, nexts),
            },
            queue: Queue {
                heap: sizes.by_station(Part::Heap, heap),
                places: sizes.by_station(Part::Places, places),
            },
            marks: sizes.by_station(Part::Marks, marks),
        };
        let prices = self.prices.as_mut_slice();
        let cut = self.cut.as_mut_slice();
        match guess {
            Some(guess) => plan_by(net, standing, &guess, prices, cut, &mut tables),
            None => plan(net, standing, prices, cut, &mut tables),
        }
    }

    // The plan that an accepted planning left, for so many legs.
    pub(crate) fn planned(&self, legs: usize) -> &[u16] {
        first(self.workspace.amounts(), legs)
    }
}
