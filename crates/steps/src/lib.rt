// Residual steps of a plan: which there are, what they cost, where they may start, and the amounts
// and capacities that decide it.
#![tactic(auto)]

pub mod amounts;
pub mod fees;
pub mod load;
pub mod starts;
pub mod step;

pub use amounts::{amount_at, in_force};
pub use fees::{Fees, InBoth, InCents};
pub use load::{Load, joined_leg};
pub use starts::{Everywhere, Marked};
pub use step::Step;
