// A day at the office: the calls of a morning, made on a new board, and told with what each of them answered.
#![tactic(auto)]

mod days;
mod memory;
mod telling;

pub use days::{day_text, layered_day, text_day};
