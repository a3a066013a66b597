// The answers of a board.
ghost use Rattle.std.specs.Prelude.{◌≡◌, Some};
ghost use Rattle.tally.specs.Answers.{done, listed, planned};
ghost use Rattle.tally.specs.Texts.{answer_text};

use records::Refusal;
use std::fmt;

// What was refused or how it was accepted. No `Result`: an answer is printed by `Display` and made by `From`, and only a type
// of this crate can have them.
#[derive(Clone, Copy, PartialEq, Eq, Debug)]
pub enum Answer {
    // a report, a closing or a reopening is accepted
    Done,
    // the call is refused
    Refused { refusal: Refusal },
    // the cents of the new plan, and its difference from the plan before
    Planned { cents: u64, difference: u64 },
    // how long the list is
    Listed { count: usize },
    // the standing amount of a leg, absent where there is no such leg
    Amount { bikes: Option<u16> },
}

// The three refuse in the same way and accept in their own: a `From` over every `Result` could not say which answer is made.

// The answer to a report, a closing or a reopening.
impl From<Result<(), Refusal>> for Answer {
    ghost from_gives = { λ res answer. answer ≡ done res };

    fn from(res: Result<(), Refusal>) -> Answer {
        match res {
            Ok(()) => Answer::Done,
            Err(refusal) => Answer::Refused { refusal },
        }
    }
}

// The answer to a listing.
impl From<Result<usize, Refusal>> for Answer {
    ghost from_gives = { λ res answer. answer ≡ listed res };

    fn from(res: Result<usize, Refusal>) -> Answer {
        match res {
            Ok(count) => Answer::Listed { count },
            Err(refusal) => Answer::Refused { refusal },
        }
    }
}

// The answer to a planning.
impl From<Result<(u64, u64), Refusal>> for Answer {
    ghost from_gives = { λ res answer. answer ≡ planned res };

    fn from(res: Result<(u64, u64), Refusal>) -> Answer {
        match res {
            Ok((cents, difference)) => Answer::Planned { cents, difference },
            Err(refusal) => Answer::Refused { refusal },
        }
    }
}

impl fmt::Display for Answer {
    ghost output = { λ answer. Some (answer_text answer) };

    fn fmt<W: fmt::Write>(&self, f: &mut fmt::Formatter<W>) -> fmt::Result {
        match *self {
            Answer::Done => f.write_str("done"),
            Answer::Refused { refusal } => write!(f, "{refusal}"),
            Answer::Planned { cents, difference } => {
                write!(f, "{cents} cents, difference {difference}")
            }
            Answer::Listed { count } => write!(f, "{count} listed"),
            Answer::Amount { bikes: Some(bikes) } => write!(f, "{bikes}"),
            Answer::Amount { bikes: None } => f.write_str("absent"),
        }
    }
}
