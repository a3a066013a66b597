//! How long the slices and the working tables are that a planning is handed.

/// Entries of what is lent to a planning. Of the working tables the shortest of each kind counts.
#[derive(Clone, Copy, PartialEq, Eq, Debug)]
pub struct Lengths {
    /// of the slice for the prices
    pub prices: usize,
    /// of the slice for the cut
    pub cut: usize,
    /// of the working tables with an entry for each station
    pub station_entries: usize,
    /// of the working tables with an entry for each leg
    pub leg_entries: usize,
}
