// What the lines read so far have settled.

// The numbers of the problem line.
#[derive(Clone, Copy, PartialEq, Eq, Debug)]
pub struct Header {
    pub nodes: usize,
    pub arcs: usize,
}

// What the problem line announced, if it has come, and how many arcs have come.
#[derive(Clone, Copy, PartialEq, Eq, Debug, Default)]
pub struct Progress {
    pub header: Option<Header>,
    pub arcs: usize,
}

// How many stations and legs the handed tables have room for.
#[derive(Clone, Copy, PartialEq, Eq, Debug)]
pub struct Room {
    pub stations: usize,
    pub legs: usize,
}
