// The search for cheapest walks on the residual network of a plan, in rounds that go over chains of
// the legs at each station.
#![tactic(auto)]

ghost use Rattle.std.specs.Prelude.{◌≡◌, drop, IfErr, IfOk, OnErr, OnOk};
ghost use Rattle.plans.specs.Plans.{stations as count_of};
ghost use Rattle.records.specs.Refusals.{number, place};
ghost use Rattle.search.specs.Chains.{SameChains};
ghost use Rattle.search.specs.Searches.{Answer, Enough, TooShort};

pub mod chains;
pub mod label;
pub mod outcome;
mod relax;
mod rounds;
mod walks;

pub use chains::{Chains, Links};
use costs::Cost;
pub use label::{Arrival, Label};
use network::{Belongs, Network};
pub use outcome::Outcome;
use records::Refusal;
use relax::Residual;
use steps::Fees;
use walks::ChainedResidual;

/// The cheapest walk to every station, from the starting stations at zero, over the residual steps
/// of a plan at their fees. Amounts that the plan lacks count as 0. It writes a label for each
/// station, and says whether the labels are least totals or a round trip below zero can be reached.
/// The chains, with a head for each station and a next for each leg, are a workspace: what they
/// hold before is not read, and what they hold after an accepted call is left open. It is refused
/// exactly when a slice is too short, with nothing altered.
pub fn search<'a, N: Network, C: Cost, F: Fees<C>, S: Belongs>(
    net: &'a N,
    plan: &'a [u16],
    fees: &'a F,
    starts: &S,
    labels: &mut [Label<C>],
    chains: &mut Chains<'_>,
) -> Result<Outcome, Refusal>
    ensures answer { IfOk result (λ outcome. Answer C.Grouped (N.Network.meaning net.now) plan.now
        (F.Fees.cost fees.now) (S.Belongs.belongs starts.now) outcome labels.new) }
    ensures enough { OnOk result (Enough (N.Network.meaning net.now) labels.old chains.old) }
    ensures beyond { drop (count_of (N.Network.meaning net.now)) labels.new
        ≡ drop (count_of (N.Network.meaning net.now)) labels.old }
    ensures too_short { OnErr result (TooShort (N.Network.meaning net.now) labels.old chains.old) }
    ensures refused { IfErr result (λ refusal. (number refusal ≡ 11) × (place refusal ≡ 0)) }
    ensures unaltered { OnErr result ((labels.new ≡ labels.old) × (chains.new ≡ chains.old)) }
    ensures stay { SameChains chains.old chains.new }
{
    let stations = net.stations();
    if labels.len() < stations || !chains.link(net) {
        return Err(Refusal::SliceTooShort);
    }
    rounds::begin(starts, &mut labels[..stations]);
    let heads = &mut *chains.heads;
    let nexts = &mut *chains.nexts;
    let chained = ChainedResidual {
        residual: Residual { net, plan, fees },
        heads,
        nexts,
    };
    Ok(rounds::rounds(&chained, labels))
}
