// What a program answers to a network text, by what it answers to a network; and what `canonical` answers.
#![tactic(auto)]

mod canonical;
mod text_answer;

pub use canonical::{Canonical, answer_text, canonical_text};
pub use text_answer::{NetworkAnswer, answer_by, refusal_text};
