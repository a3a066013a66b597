//! A network simplex that guesses a cheapest plan: amounts for the legs, and potentials for the stations.
//!
//! The method is the primal network simplex (Ahuja, Magnanti and Orlin, "Network Flows", chapter 11), in the form that LEMON gives
//! it: block pricing, a basis tree with a thread in preorder, and strongly feasible bases, so that degenerate pivots do not cycle.
//! Nothing is promised of what is guessed: the simplex is safe, and it ends. Whoever takes a guess checks it or mends it.
#![tactic(auto)]

ghost use Rattle.simplex.specs.Tables.{SameTables};

mod arc;
mod arc_list;
mod arcs;
mod build;
mod cycle;
mod fold;
mod node;
mod rehang;
mod run;
mod tables;
mod tree;

pub use arc::{Arc, Offer};
use arcs::Arcs;
use costs::CentsThenBikes;
use network::Network;
pub use node::{Link, Node};
use run::Run;
pub use tables::Tables;
use tree::Tree;

/// Guesses in tables that have exactly one entry for each leg or station. Slices and no `Tables`: a struct made of parts of lent
/// slices gets no proof. `None`: it gives up.
fn guess_in<N: Network>(
    net: &N,
    standing: &[u16],
    pivots: u32,
    amounts: &mut [u16],
    potentials: &mut [CentsThenBikes],
    lower: &mut [Arc],
    upper: &mut [Arc],
    nodes: &mut [Node],
    folded: &mut [i64],
    best: &mut [Offer],
) -> Option<()> {
    build::hang_stations(net, nodes, best)?;
    let mut arcs = Arcs::new(lower, upper, nodes.len());
    let highest = build::split_legs(net, standing, &mut arcs, best)?;
    build::write_potentials(best, folded, highest);
    let mut run = Run {
        arcs,
        tree: Tree::of(nodes, folded)?,
    };
    run.first_pass(best)?;
    run.pivot_on(pivots)?;
    run.write_amounts(amounts)?;
    fold::split_all(folded, potentials);
    Some(())
}

/// Guesses the amounts of the cheapest plan, one for each leg, and potentials that show that it is, one for each station. Bikes of
/// difference from the standing amounts decide between equal cents; a standing amount that is missing counts as 0. After a first
/// pass, with at most one pivot for each station, it makes at most so many pivots: with too few the guess is a poor one. Where a
/// slice is too short it gives up, and it may where a leg joins no stations; what stands in the slices then is no guess at all.
pub fn guess<N: Network>(
    net: &N,
    standing: &[u16],
    pivots: u32,
    amounts: &mut [u16],
    potentials: &mut [CentsThenBikes],
    tables: &mut Tables<'_>,
)
    ensures stay { SameTables tables.old tables.new }
{
    let legs = net.legs();
    let stations = net.stations();
    let lower = &mut *tables.lower;
    let upper = &mut *tables.upper;
    let nodes = &mut *tables.nodes;
    let folded = &mut *tables.potentials;
    let best = &mut *tables.best;
    if lower.len() < legs
        || upper.len() < legs
        || nodes.len() < stations
        || folded.len() < stations
        || best.len() < stations
        || amounts.len() < legs
        || potentials.len() < stations
    {
        return;
    }
    let _ = guess_in(
        net,
        standing,
        pivots,
        &mut amounts[..legs],
        &mut potentials[..stations],
        &mut lower[..legs],
        &mut upper[..legs],
        &mut nodes[..stations],
        &mut folded[..stations],
        &mut best[..stations],
    );
}
