// Lines that tell calls of a board: the call that a line tells, if it tells one, and what each line of an input tells.
#![tactic(auto)]

mod call_line;
mod entry;
pub mod sizes;

pub use call_line::call_of;
pub use entry::{calls_of, entries_of, entry_of};
pub use sizes::Sizes;
