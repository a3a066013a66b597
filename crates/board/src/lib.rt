// The board: a network, the plan that stands, and the lists that were handed out last.
#![tactic(auto)]

pub mod board;
pub mod entries;
pub mod running;
pub mod sheet;
mod sorts;

pub use board::Board;
pub use running::run;
pub use sheet::Sheet;
