// One line of a network text: which of the forms it has, and the numbers that it states.
#![tactic(auto)]

pub mod line;
mod scan;

pub use line::Line;
