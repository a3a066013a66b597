// How large texts, networks and what they hold may be. Contracts and specs spell these numbers out: a clause that named the
// constant would still hold after the constant was edited.

// No text is longer than so many bytes.
pub const MOST_TEXT: usize = 65_536;

// No network has more stations.
pub const MOST_STATIONS: usize = 240;

// No network has more legs.
pub const MOST_LEGS: usize = 3000;

// No leg of a text or of a network that is planned on has room for more bikes.
pub const MOST_CAPACITY: u16 = 500;

// No bike costs more cents on such a leg.
pub const MOST_CHARGE: u32 = 10_000;

// No station reports a balance further from 0.
pub const MOST_REPORTED: i32 = 500;

// No balance that is planned with is further from 0.
pub const MOST_BALANCE: i32 = 120_000;
