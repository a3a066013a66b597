//! The cycle that an entering arc closes in the basis tree.
ghost use Rattle.std.specs.Prelude.{◌≡◌, ◌<◌, length};
ghost use Rattle.simplex.specs.Links.{AreLinked};

use crate::arc::Arc;
use crate::node::Node;

/// No node has this number.
pub(crate) const NO_NODE: usize = usize::MAX;

/// A way up the tree from one end of the entering arc, as far as it has been followed.
#[derive(Clone, Copy)]
struct Way {
    at: usize,
    /// The fewest bikes that the entering arc and the arcs of the way let through.
    room: i32,
    /// The node below the arc that lets so few through; `NO_NODE`, if that is the entering arc.
    tightest: usize,
}

/// The cycle of an entering arc and the tree's ways up from its two ends to where they meet.
#[derive(Clone, Copy)]
pub(crate) struct Cycle {
    /// How many bikes can go round.
    pub(crate) bikes: i32,
    /// The node whose arc leaves the tree; `NO_NODE`, if the entering arc itself is used up.
    pub(crate) leaving: usize,
    /// Whether that node lies on the way from the entering arc's tail.
    pub(crate) is_before: bool,
    /// How long the way from the entering arc's tail is.
    pub(crate) steps_before: u8,
    /// How long the way from its head is.
    pub(crate) steps_after: u8,
}

impl Way {
    /// Goes a step up from the entering arc's tail: bikes come down here. Of the tightest arcs the lowest counts.
    #[inline(always)]
    fn pass_before(&mut self, nodes: &[Node])
        requires linked { AreLinked nodes.now }
        requires at_in { self.old.at < length nodes.now }
        ensures at_in { self.new.at < length nodes.now }
    {
        let node = nodes[self.at];
        if node.link.down < self.room {
            self.room = node.link.down;
            self.tightest = self.at;
        }
        self.at = usize::from(node.link.parent);
    }

    /// Goes a step up from the entering arc's head: bikes go up here. Of the tightest arcs the highest counts.
    #[inline(always)]
    fn pass_after(&mut self, nodes: &[Node])
        requires linked { AreLinked nodes.now }
        requires at_in { self.old.at < length nodes.now }
        ensures at_in { self.new.at < length nodes.now }
    {
        let node = nodes[self.at];
        if node.link.up <= self.room {
            self.room = node.link.up;
            self.tightest = self.at;
        }
        self.at = usize::from(node.link.parent);
    }
}

/// Follows the ways up from an arc's tail and head to where they meet, which is the root, if it is no node. Of the arcs that are
/// used up first the last one leaves, in the cycle's direction from where the ways meet: so the basis stays strongly feasible.
#[inline(always)]
pub(crate) fn close_cycle(nodes: &[Node], arc: Arc) -> Cycle
    requires linked { AreLinked nodes.now }
    requires tail_in { arc.tail < length nodes.now }
    requires head_in { arc.head < length nodes.now }
{
    let tail = usize::from(arc.tail);
    let head = usize::from(arc.head);
    let tail_depth = nodes[tail].depth;
    let head_depth = nodes[head].depth;
    let room = i32::from(arc.capacity);
    let mut before = Way {
        at: tail,
        room,
        tightest: NO_NODE,
    };
    let mut after = Way {
        at: head,
        room,
        tightest: NO_NODE,
    };
    'lift_tail: for _ in head_depth..tail_depth {
        before.pass_before(nodes);
    }
    'lift_head: for _ in tail_depth..head_depth {
        after.pass_after(nodes);
    }
    let common = tail_depth.min(head_depth);
    let mut depth = common;
    'meet: for _ in 0..common {
        if before.at == after.at {
            break;
        }
        before.pass_before(nodes);
        after.pass_after(nodes);
        depth = depth.wrapping_sub(1);
    }
    let is_before = before.room < after.room;
    let tighter = if is_before { before } else { after };
    Cycle {
        bikes: tighter.room,
        leaving: tighter.tightest,
        is_before,
        steps_before: tail_depth.wrapping_sub(depth),
        steps_after: head_depth.wrapping_sub(depth),
    }
}

/// Sends bikes some steps up the tree from a node, or down where they are below 0.
#[inline(always)]
pub(crate) fn send_up(nodes: &mut [Node], from: u8, steps: u8, bikes: i32)
    requires linked { AreLinked nodes.old }
    requires from_in { from < length nodes.old }
    ensures linked { AreLinked nodes.new }
{
    let mut at = usize::from(from);
    'send: for _ in 0..steps {
        let mut node = nodes[at];
        node.link.up = node.link.up.wrapping_sub(bikes);
        node.link.down = node.link.down.wrapping_add(bikes);
        nodes[at] = node;
        at = usize::from(node.link.parent);
    }
}
