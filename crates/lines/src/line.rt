// The kinds of line in a network text, with the numbers that they state: u32, as at most nine digits write one. Where a record or a
// count wants another type they are cast: no `From` goes from u32 to usize, to u16 or to i32, and the check proves that nothing is lost.

#[derive(Clone, Copy, PartialEq, Eq, Debug)]
pub enum Line {
    // `c`, or `c`, a space and any bytes
    Comment,
    // `p min NODES ARCS`
    Problem {
        nodes: u32,
        arcs: u32,
    },
    // `n ID FLOW`
    Node {
        id: u32,
        flow: i32,
    },
    // `a SRC DST LOW CAP COST`
    Arc {
        source: u32,
        target: u32,
        low: u32,
        capacity: u32,
        cost: u32,
    },
}
