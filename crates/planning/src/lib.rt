//! Planning: the cheapest plan, among those the nearest to the standing plan, or a cut that shows that no plan obeys.
//!
//! A plan is guessed, with a potential for each station, and mended so that it fits and the potential certifies it,
//! whatever was guessed. What it leaves over is sent along cheapest walks then, until nothing is over, which makes it
//! the best plan.
#![tactic(auto)]

ghost use Rattle.std.specs.Prelude.{◌≤◌, length};
ghost use Rattle.plans.specs.Plans.{CheapestThenNearest, stations as count_of};
ghost use Rattle.planning.specs.Mends.{NoGuessBeginsFirst};
ghost use Rattle.planning.specs.Potentials.{BareMendIsFirst};
ghost use Rattle.planning.specs.States.{Finishes, Prepared};
ghost use Rattle.planning.specs.Tables.{SameTables, lengths_of};
ghost use Rattle.planning_rules.specs.Answers.{Planned, the_plan};

mod cut;
pub mod draft;
pub mod guess;
mod marks;
mod mend;
pub mod routes;
mod sendings;
pub mod sums;
pub mod tables;
mod turns;

pub use draft::Draft;
pub use guess::{Guess, NetworkSimplex, NoGuess};
use network::Network;
use records::Refusal;
pub use routes::Routes;
pub use tables::Tables;

// Writes the prices under the best plan, and answers its cents and its difference from the standing plan. It is never
// refused: the tables suffice, and no round trip of the best plan totals below zero.
fn finish<N: Network>(
    net: &N,
    standing: &[u16],
    prices: &mut [i64],
    tables: &mut Tables<'_>,
) -> Result<(u64, u64), Refusal>
    requires prepared { Prepared (N.Network.meaning net.now) tables.old }
    requires room { count_of (N.Network.meaning net.now) ≤ length prices.old }
    requires best { CheapestThenNearest (N.Network.meaning net.now) standing.now
        (the_plan (N.Network.meaning net.now) tables.old.draft.amounts.now) }
    ensures finishes { Finishes (N.Network.meaning net.now) standing.now
        (the_plan (N.Network.meaning net.now) tables.new.draft.amounts.now) result
        prices.old prices.new }
    ensures stay { SameTables tables.old tables.new }
{
    let draft = &tables.draft;
    let plan = draft.plan(net);
    let potentials = &mut *tables.potentials;
    let cents = &mut *tables.cents;
    let chains = &mut tables.chains;
    let queue = &mut tables.queue;
    prices::prices(net, plan, potentials, cents, chains, queue, prices)?;
    Ok((
        sums::cents_of(net, plan),
        sums::difference_of(net, standing, plan),
    ))
}

/// Finds the cheapest plan on a network, among those the nearest to the standing plan, or a cut that shows that no plan
/// obeys. It begins with what is guessed; the promise is the same whatever that is.
///
/// A standing amount that is missing counts as 0. An accepted planning leaves the plan in the first of the tables'
/// amounts, writes the prices of the stations, and answers the plan's cents and its difference from the standing plan.
// two numbers and no struct, so that a caller, one in C too, takes them as they are
pub fn plan_by<N: Network, G: Guess>(
    net: &N,
    standing: &[u16],
    guess: &G,
    prices: &mut [i64],
    cut: &mut [usize],
    tables: &mut Tables<'_>,
) -> Result<(u64, u64), Refusal>
    ensures planned { Planned (N.Network.meaning net.now) standing.now
        (lengths_of prices.old cut.old tables.old) result prices.old prices.new cut.old cut.new
        tables.new.draft.amounts.now }
    ensures stay { SameTables tables.old tables.new }
{
    planning_rules::check(net, tables.lengths(prices, cut))?;
    let over = mend::begin(net, standing, guess, tables);
    turns::turns(net, standing, over, tables, cut)?;
    finish(net, standing, prices, tables)
}

/// The same, from what the network simplex guesses.
pub fn plan<N: Network>(
    net: &N,
    standing: &[u16],
    prices: &mut [i64],
    cut: &mut [usize],
    tables: &mut Tables<'_>,
) -> Result<(u64, u64), Refusal>
    ensures planned { Planned (N.Network.meaning net.now) standing.now
        (lengths_of prices.old cut.old tables.old) result prices.old prices.new cut.old cut.new
        tables.new.draft.amounts.now }
    ensures stay { SameTables tables.old tables.new }
{
    let guess = NetworkSimplex::default();
    plan_by(net, standing, &guess, prices, cut, tables)
}

/// By potentials that are all zero, every guess is mended to the plan that gives each leg without charge the smaller of
/// its standing amount and its capacity in force, and every other leg 0.
pub fn without_potentials_the_first_plan_is_laid()
    ensures { BareMendIsFirst }
{}

/// With `NoGuess` a planning begins with that plan: whatever draft is the mended plan of amounts and potentials that
/// `NoGuess` may write.
pub fn no_guess_begins_with_the_first_plan()
    ensures { NoGuessBeginsFirst }
{}
