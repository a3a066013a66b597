// The records that every part of the planner shares: a leg, a station, the refusals, and the limits.
#![tactic(auto)]

pub mod leg;
pub mod limits;
pub mod refusal;
pub mod station;

pub use leg::{Leg, Mark};
pub use limits::{
    MOST_BALANCE, MOST_CAPACITY, MOST_CHARGE, MOST_LEGS, MOST_REPORTED, MOST_STATIONS, MOST_TEXT,
};
pub use refusal::Refusal;
pub use station::Station;
