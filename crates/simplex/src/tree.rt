//! The basis tree with its potentials. Each node's parent and next node are nodes, so that walks need no tests.
ghost use Rattle.std.specs.Prelude.{◌≡◌, ◌<◌, ◌≤◌, IsTrue, length};
ghost use Rattle.simplex.specs.Links.{AreLinked};

use crate::arc::Arc;
use crate::cycle::{Cycle, close_cycle, send_up};
use crate::node::{Link, Node};
use crate::rehang::{Move, rehang};

/// The nodes of the tree, each by a number that fits a byte, and a potential for each.
#[derive(Drop)]
pub(crate) struct Tree<'a> {
    nodes: &'a mut [Node],
    potentials: &'a mut [i64],
    ghost linked: { AreLinked nodes.now },
    ghost few: { length nodes.now ≤ 256 },
    ghost same_length: { length potentials.now ≡ length nodes.now },
}

/// Whether each node's parent and next node are in the list.
fn are_linked(nodes: &[Node]) -> bool
    ensures { IsTrue result → AreLinked nodes.now }
{
    nodes.iter().all(|node| {
        usize::from(node.link.parent) < nodes.len() && usize::from(node.next) < nodes.len()
    })
}

impl<'a> Tree<'a> {
    /// The tree that stands in two tables, if they fit each other.
    pub(crate) fn of(nodes: &'a mut [Node], potentials: &'a mut [i64]) -> Option<Tree<'a>> {
        if potentials.len() == nodes.len() && nodes.len() <= 256 && are_linked(nodes) {
            Some(Tree { nodes, potentials })
        } else {
            None
        }
    }

    pub(crate) fn len(&self) -> usize {
        self.nodes.len()
    }

    /// What holds a node.
    #[inline(always)]
    pub(crate) fn link(&self, number: usize) -> Option<Link> {
        let Some(node) = self.nodes.get(number) else {
            return None;
        };
        Some(node.link)
    }

    #[inline(always)]
    pub(crate) fn potentials(&self) -> &[i64] {
        self.potentials
    }

    /// The cycle that an arc closes.
    #[inline(always)]
    pub(crate) fn cycle(&self, arc: Arc) -> Option<Cycle> {
        if usize::from(arc.tail) < self.nodes.len() && usize::from(arc.head) < self.nodes.len() {
            Some(close_cycle(self.nodes, arc))
        } else {
            None
        }
    }

    /// Sends bikes up the tree from a node, or down where they are below 0.
    #[inline(always)]
    pub(crate) fn send_up(&mut self, from: u8, steps: u8, bikes: i32) {
        if usize::from(from) < self.nodes.len() {
            send_up(self.nodes, from, steps, bikes);
        }
    }

    /// Hangs a part of the tree below another node.
    #[inline(always)]
    pub(crate) fn rehang(&mut self, part: Move) {
        let count = self.nodes.len();
        if part.top < count
            && usize::from(part.hung) < count
            && usize::from(part.link.parent) < count
        {
            rehang(self.nodes, self.potentials, part);
        }
    }
}
