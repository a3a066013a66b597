// The plan to begin with: a guess that is mended, so that it fits and the potential that was guessed with it
// certifies it.
ghost use Rattle.std.specs.Prelude.{◌≡◌, length, sum_by};
ghost use Rattle.certificates.specs.Mends.{Mended};
ghost use Rattle.certificates.specs.Totals.{over};
ghost use Rattle.planning.specs.Leavings.{Left};
ghost use Rattle.planning.specs.Mends.{Begins};
ghost use Rattle.planning.specs.Tables.{SameTables};
ghost use Rattle.planning.specs.Potentials.{potential};
ghost use Rattle.planning.specs.States.{Prepared};
ghost use Rattle.plans.specs.Plans.{stations};

mod amounts;
mod leaving;
mod rises;

use crate::guess::Guess;
use crate::tables::Tables;
use costs::{CentsThenBikes, Cost};
use network::Network;

// Mends guessed amounts, one for each leg, writes what they leave over then, one number for each station, and answers
// how many bikes are over at all stations together.
fn settle<N: Network>(
    net: &N,
    standing: &[u16],
    potentials: &[CentsThenBikes],
    plan: &mut [u16],
    left: &mut [i64],
) -> u64
    requires long { length plan.old ≡ length (N.Network.meaning net.now).legs }
    requires left { length left.old ≡ stations (N.Network.meaning net.now) }
    ensures mended { Mended (N.Network.meaning net.now) standing.now plan.old
        (potential potentials.now) plan.new }
    ensures left { Left (N.Network.meaning net.now) plan.new
        (length (N.Network.meaning net.now).legs) left.new }
    ensures over { result ≡ sum_by over left.new }
{
    amounts::mend_all(net, standing, potentials, plan);
    leaving::leave(net, plan, left);
    leaving::total_over(left)
}

// Has amounts and potentials guessed, which are zeros before, and mends the amounts, which are the plan then. Writes
// what it leaves over at each station, and answers how many bikes are over at all stations together. Entries beyond
// the legs and beyond the stations stay.
pub(crate) fn begin<N: Network, G: Guess>(
    net: &N,
    standing: &[u16],
    guess: &G,
    tables: &mut Tables<'_>,
) -> u64
    requires { Prepared (N.Network.meaning net.now) tables.old }
    ensures begins { Begins (G.Guess.guesses guess.now) (N.Network.meaning net.now) standing.now
        result tables.old.draft tables.new.draft }
    ensures stay { SameTables tables.old tables.new }
{
    let legs = net.legs();
    let stations = net.stations();
    let draft = &mut tables.draft;
    let potentials = &mut *tables.potentials;
    let simplex = &mut tables.simplex;
    let amounts = &mut *draft.amounts;
    let left = &mut *draft.left;
    let plan = &mut amounts[..legs];
    let left = &mut left[..stations];
    let potentials = &mut potentials[..stations];
    plan.fill(0);
    potentials.fill(CentsThenBikes::zero());
    guess.guess(net, standing, plan, potentials, simplex);
    settle(net, standing, potentials, plan, left)
}
