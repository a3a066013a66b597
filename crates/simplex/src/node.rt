//! The nodes of the basis tree. Each is a station. Above them stands the root, an artificial node of potential 0 and depth 0, of
//! which nothing is kept: only artificial arcs lead there, and none of them enters the basis again.
ghost use Rattle.std.specs.Prelude.{◌≡◌};

/// Bounds the turns of a walk along the thread, two nodes each: so it ends even where the nodes are no tree. A node's number is a
/// byte, so no thread is longer.
pub(crate) const TURNS: u32 = 128;

/// The number of every artificial arc: no arc of a leg has it.
pub(crate) const ARTIFICIAL: u16 = u16::MAX;

/// The arc of the tree between a node and its parent.
#[derive(Clone, Copy, Default)]
pub struct Link {
    /// The bikes that may still go up, from the node to its parent.
    pub up: i32,
    /// The bikes that may still go down.
    pub down: i32,
    pub arc: u16,
    /// The parent; the node itself, if it hangs from the root.
    pub parent: u8,
}

/// A node of the tree.
#[derive(Clone, Copy, Default)]
pub struct Node {
    pub link: Link,
    /// The node after this one on the thread, which runs through all nodes in preorder and from the last to the first.
    pub next: u8,
    /// The node before this one on the thread.
    pub previous: u8,
    /// How many arcs lie between the node and the root.
    pub depth: u8,
}

impl Link {
    /// The same arc, seen from its other end: there the parent is `child`.
    #[inline(always)]
    pub(crate) fn reversed(self, child: u8) -> Link
        ensures { result.parent ≡ child }
    {
        Link {
            up: self.down,
            down: self.up,
            arc: self.arc,
            parent: child,
        }
    }
}
