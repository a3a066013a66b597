// Reading a network text: line by line, and whole into lent tables.
#![tactic(auto)]

mod guard;
mod reader;
mod reading;
mod taking;
pub mod under_way;

pub use reading::read;
pub use taking::row_length;
pub use under_way::Reader;
