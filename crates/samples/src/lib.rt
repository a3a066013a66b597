// What several tests draw on: numbers drawn in a fixed order, and small networks.
#![tactic(auto)]

pub mod generator;
pub mod worked;

pub use generator::Generator;
