//! The working tables that a run is lent.
use crate::arc::{Arc, Offer};
use crate::node::Node;

/// Two tables with an entry for each leg, and three with an entry for each station. What they hold before a run does not matter.
#[derive(Drop)]
pub struct Tables<'a> {
    /// The parts of legs up to their standing amounts.
    pub lower: &'a mut [Arc],
    /// The parts from there up to the capacity in force.
    pub upper: &'a mut [Arc],
    /// The basis tree.
    pub nodes: &'a mut [Node],
    /// Folded potentials.
    pub potentials: &'a mut [i64],
    /// The cheapest arc into each station that lacks bikes.
    pub best: &'a mut [Offer],
}
