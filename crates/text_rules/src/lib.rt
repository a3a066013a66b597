// The rules that tie the lines of a network text together: their order, their ranges, the tables
// that they are read into and the count of arcs; and what a text states as a whole.
#![tactic(auto)]

pub mod ids;
mod judging;
pub mod progress;

pub use ids::id_of;
pub use progress::{Header, Progress, Room};
