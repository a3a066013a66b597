//! Prices of stations: the least totals in cents of simple walks on the residual network of a plan.
#![tactic(auto)]

ghost use Rattle.std.specs.Prelude.{◌≡◌, IfErr, IfOk, OnErr, OnOk, drop};
ghost use Rattle.plans.specs.Plans.{stations as count_of};
ghost use Rattle.prices.specs.Checked.{CheckedArePrices};
ghost use Rattle.prices.specs.Priced.{Written};
ghost use Rattle.prices.specs.Queues.{Enough, SameQueue, TooShort};
ghost use Rattle.records.specs.Refusals.{number, place};
ghost use Rattle.search.specs.Chains.{SameChains};

pub mod checks;
pub mod claims;
pub mod queue;
mod totals;

pub use checks::is_claim_confirmed;
pub use claims::claim;
use costs::{Cents, CentsThenBikes};
use network::Network;
pub use queue::{Keyed, Queue};
use records::Refusal;
use search::{Chains, Label, Outcome};
use steps::{Everywhere, InCents};
use totals::write;

/// Writes the price of every station, in cents, if no round trip of residual steps totals below zero,
/// and answers how the search for them ended. Amounts that the plan lacks count as 0. Prices are
/// claimed from the potentials, of which the cents alone are looked at, and checked; where the check
/// fails a search in rounds finds them. So potentials decide how long it takes, and nothing else;
/// those that are missing count as 0. Labels, chains and queue are a workspace: what they hold before
/// is not read, and what they hold after an accepted call is left open.
pub fn prices<N: Network>(
    net: &N,
    plan: &[u16],
    potentials: &[CentsThenBikes],
    labels: &mut [Label<Cents>],
    chains: &mut Chains<'_>,
    queue: &mut Queue<'_>,
    prices: &mut [i64],
) -> Result<Outcome, Refusal>
    ensures written { IfOk result (λ outcome.
        Written (N.Network.meaning net.now) plan.now outcome prices.old prices.new) }
    ensures enough { OnOk result
        (Enough (N.Network.meaning net.now) labels.old chains.old queue.old prices.old) }
    ensures beyond { drop (count_of (N.Network.meaning net.now)) labels.new
        ≡ drop (count_of (N.Network.meaning net.now)) labels.old }

    // refused, with nothing altered
    ensures too_short { OnErr result
        (TooShort (N.Network.meaning net.now) labels.old chains.old queue.old prices.old) }
    ensures refused { IfErr result (λ refusal. (number refusal ≡ 11) × (place refusal ≡ 0)) }
    ensures unaltered { OnErr result ((labels.new ≡ labels.old) × (chains.new ≡ chains.old)
        × (queue.new ≡ queue.old) × (prices.new ≡ prices.old)) }

    ensures chains_stay { SameChains chains.old chains.new }
    ensures queue_stays { SameQueue queue.old queue.new }
{
    let stations = net.stations();
    if labels.len() < stations
        || chains.heads.len() < stations
        || chains.nexts.len() < net.legs()
        || queue.heap.len() < stations
        || queue.places.len() < stations
        || prices.len() < stations
    {
        return Err(Refusal::SliceTooShort);
    }
    claim(net, plan, potentials, labels, chains, queue);
    let ranks = &mut *queue.places;
    if is_claim_confirmed(net, plan, labels, ranks) {
        write(labels, &mut prices[..stations]);
        return Ok(Outcome::Settled);
    }
    let outcome = search::search(net, plan, &InCents, &Everywhere, labels, chains)?;
    if let Outcome::Settled = outcome {
        write(labels, &mut prices[..stations]);
    }
    Ok(outcome)
}

/// Numbers of which none is above 0 and that no step undercuts are the prices, if at each station below
/// 0 some step leads to its number by exactly its cents, from a station of lower rank. Then no round
/// trip totals below zero either.
pub fn checked_prices_are_prices()
    ensures { CheckedArePrices }
{}
