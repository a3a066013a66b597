//! A part of the basis tree is hung elsewhere. The way between its old top and its new one, the stem, is turned round, and the thread
//! is brought into the preorder of the new tree.
ghost use Rattle.std.specs.Prelude.{◌≡◌, ◌<◌, ◌≤◌, length};
ghost use Rattle.simplex.specs.Links.{AreLinked};

use crate::node::{Link, Node, TURNS};

/// A walk along the thread: the node moved last, and the one after it.
#[derive(Clone, Copy)]
struct Walk {
    last: usize,
    next: usize,
}

/// What a moved node's potential and depth gain.
#[derive(Clone, Copy)]
struct Shift {
    potential: i64,
    depth: u8,
}

/// All that hangs below `top`, from now on by way of `hung`.
#[derive(Clone, Copy)]
pub(crate) struct Move {
    /// The node above which the leaving arc lies.
    pub(crate) top: usize,
    /// The end of the entering arc that is moved.
    pub(crate) hung: u8,
    /// The entering arc, with its other end as the parent.
    pub(crate) link: Link,
    /// What each potential of the part gains.
    pub(crate) gain: i64,
}

impl Move {
    /// The other end of the entering arc is moved instead.
    #[inline(always)]
    pub(crate) fn opposite(self) -> Move {
        Move {
            top: self.top,
            hung: self.link.parent,
            link: self.link.reversed(self.hung),
            gain: self.gain.wrapping_neg(),
        }
    }
}

/// Lets one node follow another on the thread. The casts lose nothing, by what is required, and there is no `From` of this kind.
#[inline(always)]
fn join(nodes: &mut [Node], first: usize, second: usize)
    requires linked { AreLinked nodes.old }
    requires few { length nodes.old ≤ 256 }
    requires first_in { first < length nodes.old }
    requires second_in { second < length nodes.old }
    ensures linked { AreLinked nodes.new }
{
    let mut node = nodes[first];
    node.next = second as u8;
    nodes[first] = node;
    let mut node = nodes[second];
    node.previous = first as u8;
    nodes[second] = node;
}

/// Moves one node, and goes on to the next.
#[inline(always)]
fn shift_one(nodes: &mut [Node], potentials: &mut [i64], at: usize, shift: Shift) -> Walk
    requires linked { AreLinked nodes.old }
    requires same { length potentials.old ≡ length nodes.old }
    requires at_in { at < length nodes.old }
    ensures linked { AreLinked nodes.new }
    ensures last { result.last ≡ at }
    ensures next_in { result.next < length nodes.old }
{
    potentials[at] = potentials[at].wrapping_add(shift.potential);
    let mut node = nodes[at];
    node.depth = node.depth.wrapping_add(shift.depth);
    nodes[at] = node;
    Walk {
        last: at,
        next: usize::from(node.next),
    }
}

/// Moves the nodes from the walk's next on that lie deeper than `floor`: the rest of a subtree. Two in a turn, which saves half the
/// counting.
#[inline(always)]
fn shift_deeper(
    nodes: &mut [Node],
    potentials: &mut [i64],
    start: Walk,
    floor: u8,
    shift: Shift,
) -> Walk
    requires linked { AreLinked nodes.old }
    requires same { length potentials.old ≡ length nodes.old }
    requires last_in { start.last < length nodes.old }
    requires next_in { start.next < length nodes.old }
    ensures linked { AreLinked nodes.new }
    ensures last_in { result.last < length nodes.old }
    ensures next_in { result.next < length nodes.old }
{
    let mut walk = start;
    'deeper: for _ in 0..TURNS {
        if nodes[walk.next].depth <= floor {
            break;
        }
        walk = shift_one(nodes, potentials, walk.next, shift);
        if nodes[walk.next].depth <= floor {
            break;
        }
        walk = shift_one(nodes, potentials, walk.next, shift);
    }
    walk
}

/// Moves the nodes from `from` on up to `end`, which is not moved. Two in a turn, too.
#[inline(always)]
fn shift_until(
    nodes: &mut [Node],
    potentials: &mut [i64],
    from: usize,
    end: usize,
    shift: Shift,
) -> Walk
    requires linked { AreLinked nodes.old }
    requires same { length potentials.old ≡ length nodes.old }
    requires from_in { from < length nodes.old }
    ensures linked { AreLinked nodes.new }
    ensures last_in { result.last < length nodes.old }
    ensures next_in { result.next < length nodes.old }
{
    let mut walk = shift_one(nodes, potentials, from, shift);
    'until: for _ in 0..TURNS {
        if walk.next == end {
            break;
        }
        walk = shift_one(nodes, potentials, walk.next, shift);
        if walk.next == end {
            break;
        }
        walk = shift_one(nodes, potentials, walk.next, shift);
    }
    walk
}

/// Hangs a node elsewhere, and says what held it before.
#[inline(always)]
fn attach(nodes: &mut [Node], at: usize, link: Link) -> Link
    requires linked { AreLinked nodes.old }
    requires at_in { at < length nodes.old }
    requires parent_in { link.parent < length nodes.old }
    ensures linked { AreLinked nodes.new }
    ensures parent_in { result.parent < length nodes.old }
{
    let mut node = nodes[at];
    let old = node.link;
    node.link = link;
    nodes[at] = node;
    old
}

/// Hangs a part of the tree below another node. Each node of the stem goes, with what hangs below it but not below the one before,
/// to the end of what has been moved.
#[inline(always)]
pub(crate) fn rehang(nodes: &mut [Node], potentials: &mut [i64], part: Move)
    requires linked { AreLinked nodes.old }
    requires few { length nodes.old ≤ 256 }
    requires same { length potentials.old ≡ length nodes.old }
    requires top_in { part.top < length nodes.old }
    requires hung_in { part.hung < length nodes.old }
    requires parent_in { part.link.parent < length nodes.old }
    ensures linked { AreLinked nodes.new }
{
    let under = usize::from(part.link.parent);
    let hung = usize::from(part.hung);
    let before = usize::from(nodes[part.top].previous);
    let top_depth = nodes[part.top].depth;
    let hung_depth = nodes[hung].depth;
    let mut floor = hung_depth;
    let mut shift = Shift {
        potential: part.gain,
        depth: nodes[under].depth.wrapping_add(1).wrapping_sub(hung_depth),
    };
    let mut walk = shift_one(nodes, potentials, hung, shift);
    walk = shift_deeper(nodes, potentials, walk, floor, shift);
    let mut at = hung;
    let mut held = attach(nodes, at, part.link);
    'stem: for _ in top_depth..hung_depth {
        let up = usize::from(held.parent);
        // one higher on the stem than the node before, and one deeper from now on
        floor = floor.wrapping_sub(1);
        shift.depth = shift.depth.wrapping_add(2);
        join(nodes, walk.last, up);
        let below = walk.next;
        walk = shift_until(nodes, potentials, up, at, shift);
        walk.next = below;
        if nodes[below].depth > floor {
            join(nodes, walk.last, below);
            walk = shift_deeper(nodes, potentials, walk, floor, shift);
        }
        held = attach(nodes, up, held.reversed(at as u8));
        at = up;
    }
    if before < nodes.len() {
        join(nodes, before, walk.next);
    }
    let next = usize::from(nodes[under].next);
    join(nodes, under, hung);
    join(nodes, walk.last, next);
}
