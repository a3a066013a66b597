//! A run of the simplex: a first pass, and pivots while there is an arc that betters the plan.
use crate::arc::{Arc, Offer};
use crate::arcs::{Arcs, Pricing};
use crate::cycle::{Cycle, NO_NODE};
use crate::node::Link;
use crate::rehang::Move;
use crate::tree::Tree;

/// The arcs, and the basis tree.
#[derive(Drop)]
pub(crate) struct Run<'a> {
    pub(crate) arcs: Arcs<'a>,
    pub(crate) tree: Tree<'a>,
}

/// The part of the tree that hangs from the entering arc from now on.
#[inline(always)]
fn moved(arc: Arc, offer: Offer, cycle: Cycle) -> Move {
    let from_tail = Move {
        top: cycle.leaving,
        hung: arc.tail,
        link: Link {
            up: i32::from(arc.capacity).wrapping_sub(cycle.bikes),
            down: cycle.bikes,
            arc: offer.arc,
            parent: arc.head,
        },
        gain: offer.cost.wrapping_neg(),
    };
    if cycle.is_before {
        from_tail
    } else {
        from_tail.opposite()
    }
}

impl Run<'_> {
    /// Sends bikes round the cycle of an arc, and takes it into the tree; if the arc itself is used up, it is turned round instead.
    /// The offer has its reduced cost.
    fn pivot(&mut self, offer: Offer) -> Option<()> {
        let arc = self.arcs.get(offer.arc)?;
        let cycle = self.tree.cycle(arc)?;
        if cycle.bikes > 0 {
            let back = cycle.bikes.wrapping_neg();
            self.tree.send_up(arc.tail, cycle.steps_before, back);
            self.tree.send_up(arc.head, cycle.steps_after, cycle.bikes);
        }
        if cycle.leaving == NO_NODE {
            self.arcs.turn(offer.arc);
            return Some(());
        }
        self.leave(cycle)?;
        self.tree.rehang(moved(arc, offer, cycle));
        Some(())
    }

    /// The arc above the leaving node leaves the tree, in the direction in which bikes may go along it: away from where they came. Of
    /// an artificial arc nothing is kept.
    #[inline(always)]
    fn leave(&mut self, cycle: Cycle) -> Option<()> {
        let number = self.tree.link(cycle.leaving)?.arc;
        if let Some(arc) = self.arcs.get(number) {
            if (usize::from(arc.tail) == cycle.leaving) != cycle.is_before {
                self.arcs.turn(number);
            }
        }
        Some(())
    }

    /// Takes the best arc into each station that lacks bikes, where that betters the plan.
    pub(crate) fn first_pass(&mut self, best: &[Offer]) -> Option<()> {
        for offer in best {
            if let Some(arc) = self.arcs.get(offer.arc) {
                let cost = arc.reduced(self.tree.potentials());
                if !arc.is_turned && cost < 0 {
                    self.pivot(Offer {
                        cost,
                        arc: offer.arc,
                    })?;
                }
            }
        }
        Some(())
    }

    /// Pivots while there is an arc that betters the plan, at most so often.
    pub(crate) fn pivot_on(&mut self, pivots: u32) -> Option<()> {
        let mut pricing = Pricing::over(self.arcs.len());
        for _ in 0..pivots {
            let Some(offer) = self.arcs.entering(&mut pricing, self.tree.potentials()) else {
                break;
            };
            self.pivot(offer)?;
        }
        Some(())
    }

    /// Writes what the legs carry: first as if no arc were in the tree, then what the links say of the arcs that are. Against its own
    /// direction an arc lets through what it carries, or, where it is turned round, what it leaves free.
    pub(crate) fn write_amounts(&self, amounts: &mut [u16]) -> Option<()> {
        self.arcs.write_amounts(amounts);
        for station in 0..self.tree.len() {
            let link = self.tree.link(station)?;
            if let Some(arc) = self.arcs.get(link.arc) {
                let against = if usize::from(arc.tail) == station {
                    link.down
                } else {
                    link.up
                };
                let bikes = u16::try_from(against).unwrap_or(0);
                let amount = amounts.get_mut(usize::from(arc.leg))?;
                *amount = if arc.is_turned {
                    amount.wrapping_sub(bikes)
                } else {
                    amount.wrapping_add(bikes)
                };
            }
        }
        Some(())
    }
}
