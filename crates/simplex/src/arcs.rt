//! The arcs of all legs, in two lists, and pricing over both.
use crate::arc::{Arc, Offer};
use crate::arc_list::ArcList;

/// The arcs up to the standing amounts, and those beyond. Their numbers run over the entries of the first table, then over those of
/// the second.
#[derive(Drop)]
pub(crate) struct Arcs<'a> {
    lower: ArcList<'a>,
    upper: ArcList<'a>,
    /// The number of the second table's first entry.
    split: usize,
}

/// Where pricing goes on, counted over the arcs of both lists, and how many arcs it looks at before it takes the best of them.
#[derive(Clone, Copy)]
pub(crate) struct Pricing {
    next: usize,
    block: usize,
}

impl Pricing {
    /// Blocks of about the root of the number of arcs.
    pub(crate) fn over(arcs: usize) -> Pricing {
        let mut block = 1usize;
        for _ in 0..arcs {
            if block.wrapping_mul(block) >= arcs {
                break;
            }
            block = block.wrapping_add(1);
        }
        Pricing {
            next: 0,
            block: block.max(10),
        }
    }
}

impl<'a> Arcs<'a> {
    /// No arcs yet, in two tables, between so many nodes.
    pub(crate) fn new(lower: &'a mut [Arc], upper: &'a mut [Arc], nodes: usize) -> Arcs<'a> {
        let split = lower.len();
        Arcs {
            lower: ArcList::new(lower, nodes),
            upper: ArcList::new(upper, nodes),
            split,
        }
    }

    pub(crate) fn len(&self) -> usize {
        self.lower.len().wrapping_add(self.upper.len())
    }

    /// Adds an arc up to a standing amount, and answers its number.
    #[inline(always)]
    pub(crate) fn push_lower(&mut self, arc: Arc) -> Option<u16> {
        let place = self.lower.push(arc)?;
        u16::try_from(place).ok()
    }

    /// Adds an arc from there on, and answers its number.
    #[inline(always)]
    pub(crate) fn push_upper(&mut self, arc: Arc) -> Option<u16> {
        let place = self.upper.push(arc)?;
        u16::try_from(self.split.wrapping_add(place)).ok()
    }

    #[inline(always)]
    pub(crate) fn get(&self, number: u16) -> Option<Arc> {
        let number = usize::from(number);
        if number < self.split {
            self.lower.get(number)
        } else {
            self.upper.get(number - self.split)
        }
    }

    /// Turns an arc round.
    #[inline(always)]
    pub(crate) fn turn(&mut self, number: u16) {
        let number = usize::from(number);
        if number < self.split {
            self.lower.turn(number)
        } else {
            self.upper.turn(number - self.split)
        }
    }

    /// The entering arc: the best one of the next block that has one with a reduced cost below 0. A block ends where a list does.
    #[inline(always)]
    pub(crate) fn entering(&self, pricing: &mut Pricing, potentials: &[i64]) -> Option<Offer> {
        let lower = self.lower.len();
        let total = self.len();
        let mut at = pricing.next;
        let mut left = total;
        for _ in 0..total {
            let reach = at.wrapping_add(pricing.block.min(left));
            let is_upper = at >= lower;
            let end = reach.min(if is_upper { total } else { lower });
            let best = if is_upper {
                let from = at.wrapping_sub(lower);
                let to = end.wrapping_sub(lower);
                self.upper.cheapest(from, to, potentials)
            } else {
                self.lower.cheapest(at, end, potentials)
            };
            left = left.saturating_sub(end.saturating_sub(at));
            at = if end == total { 0 } else { end };
            if best.reduced < 0 {
                pricing.next = at;
                let first = if is_upper { self.split } else { 0 };
                let number = u16::try_from(first.wrapping_add(best.place)).ok()?;
                return Some(Offer {
                    cost: best.reduced,
                    arc: number,
                });
            }
            if left == 0 {
                return None;
            }
        }
        None
    }

    /// Writes what the legs carry, if no arc were in the tree: each arc then carries nothing, or all that it can.
    pub(crate) fn write_amounts(&self, amounts: &mut [u16]) {
        amounts.fill(0);
        self.lower.add_turned(amounts);
        self.upper.add_turned(amounts);
    }
}
