//! Arcs in a lent table. Their ends are nodes of the basis tree, so that pricing looks potentials up with no test.
ghost use Rattle.std.specs.Prelude.{◌≡◌, ◌+◌, ◌<◌, ◌≤◌, All, length, take};

use crate::arc::Arc;

/// The first `count` entries of a table, which are arcs between so many nodes. The others are not read.
#[derive(Drop)]
pub(crate) struct ArcList<'a> {
    entries: &'a mut [Arc],
    count: usize,
    nodes: usize,
    ghost counted: { count ≤ length entries.now },
    ghost tails_in: { All (λ arc. arc.tail < nodes) (take count entries.now) },
    ghost heads_in: { All (λ arc. arc.head < nodes) (take count entries.now) },
}

/// An arc by its place, with its reduced cost.
#[derive(Clone, Copy)]
pub(crate) struct Found {
    pub(crate) reduced: i64,
    pub(crate) place: usize,
}

impl Found {
    /// The cheaper of two, the first if they are equal.
    #[inline(always)]
    fn or(self, other: Found) -> Found {
        if other.reduced < self.reduced {
            other
        } else {
            self
        }
    }
}

impl ArcList<'_> {
    /// No arcs yet.
    pub(crate) fn new(entries: &mut [Arc], nodes: usize) -> ArcList<'_> {
        ArcList {
            entries,
            count: 0,
            nodes,
        }
    }

    pub(crate) fn len(&self) -> usize
        ensures { result ≡ self.now.count }
    {
        self.count
    }

    /// Adds an arc, if its ends are nodes and there is an entry for it, and answers its place.
    #[inline(always)]
    pub(crate) fn push(&mut self, arc: Arc) -> Option<usize> {
        let count = self.count;
        if count >= self.entries.len()
            || usize::from(arc.tail) >= self.nodes
            || usize::from(arc.head) >= self.nodes
        {
            return None;
        }
        self.entries[count] = arc;
        self.count = count + 1;
        Some(count)
    }

    #[inline(always)]
    pub(crate) fn get(&self, place: usize) -> Option<Arc> {
        if place < self.count {
            Some(self.entries[place])
        } else {
            None
        }
    }

    /// Turns an arc round.
    #[inline(always)]
    pub(crate) fn turn(&mut self, place: usize) {
        if place < self.count {
            let arc = self.entries[place];
            self.entries[place] = arc.turned();
        }
    }

    /// The reduced cost of an arc.
    #[inline(always)]
    fn reduced(&self, place: usize, potentials: &[i64]) -> i64
        requires place_in { place < self.now.count }
        requires nodes_in { self.now.nodes ≤ length potentials.now }
    {
        let arc = self.entries[place];
        let tail = potentials[usize::from(arc.tail)];
        let head = potentials[usize::from(arc.head)];
        arc.cost.wrapping_add(tail).wrapping_sub(head)
    }

    /// The cheapest of four arcs in a row, the first if some are equal, or the best found before, if none is cheaper. Four at a
    /// time, since then only the least of them is compared with that.
    #[inline(always)]
    fn cheapest_of_four(&self, place: usize, potentials: &[i64], best: Found) -> Found
        requires place_in { place + 3 < self.now.count }
        requires nodes_in { self.now.nodes ≤ length potentials.now }
    {
        let first = self.reduced(place, potentials);
        let second = self.reduced(place + 1, potentials);
        let third = self.reduced(place + 2, potentials);
        let fourth = self.reduced(place + 3, potentials);
        let least = first.min(second).min(third.min(fourth));
        if least >= best.reduced {
            return best;
        }
        let offset = if first == least {
            0
        } else if second == least {
            1
        } else if third == least {
            2
        } else {
            3
        };
        Found {
            reduced: least,
            place: place + offset,
        }
    }

    /// Of the arcs from one place up to another the one with the least reduced cost below 0, or the first with 0, if there is none.
    #[inline(always)]
    pub(crate) fn cheapest(&self, from: usize, to: usize, potentials: &[i64]) -> Found {
        let mut best = Found {
            reduced: 0,
            place: from,
        };
        let to = to.min(self.count);
        if potentials.len() >= self.nodes && from <= to {
            let fours = (to - from) / 4;
            for four in 0..fours {
                best = self.cheapest_of_four(from + 4 * four, potentials, best);
            }
            for place in from + 4 * fours..to {
                best = best.or(Found {
                    reduced: self.reduced(place, potentials),
                    place,
                });
            }
        }
        best
    }

    /// Adds the capacities of the arcs that are turned to their legs' amounts.
    pub(crate) fn add_turned(&self, amounts: &mut [u16]) {
        for place in 0..self.count {
            let arc = self.entries[place];
            if arc.is_turned {
                if let Some(amount) = amounts.get_mut(usize::from(arc.leg)) {
                    *amount = amount.wrapping_add(arc.capacity);
                }
            }
        }
    }
}
