// The calls of the cases, in workspaces that hold what leads astray, over networks of at most 5
// stations and 5 legs.
use costs::{Cents, Cost};
use network::{Belongs, Network};
use prices::{Keyed, Queue};
use records::Refusal;
use search::{Chains, Label, Links, Outcome};
use steps::Fees;

// Links that lead astray: a search does not read what it was lent.
pub(crate) const STRAY: Links = Links {
    forth: Some(9),
    back: Some(65535),
};

// Searches with as many links as the network needs.
pub(crate) fn search<N: Network, C: Cost, F: Fees<C>, S: Belongs>(
    net: &N,
    plan: &[u16],
    fees: &F,
    starts: &S,
    labels: &mut [Label<C>],
) -> Result<Outcome, Refusal> {
    let mut heads = [STRAY; 5];
    let mut nexts = [STRAY; 5];
    let mut chains = Chains {
        heads: &mut heads[..net.stations().min(5)],
        nexts: &mut nexts[..net.legs().min(5)],
    };
    search::search(net, plan, fees, starts, labels, &mut chains)
}

// Writes prices, with more links than the network needs.
pub(crate) fn prices<N: Network>(
    net: &N,
    plan: &[u16],
    labels: &mut [Label<Cents>],
    prices: &mut [i64],
) -> Result<Outcome, Refusal> {
    let mut chains = Chains {
        heads: &mut [STRAY; 5],
        nexts: &mut [STRAY; 5],
    };
    let mut queue = Queue {
        heap: &mut [Keyed {
            key: -9,
            station: 9,
        }; 5],
        places: &mut [9; 5],
    };
    prices::prices(net, plan, &[], labels, &mut chains, &mut queue, prices)
}
