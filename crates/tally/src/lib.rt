// The rules of a board: its calls, its answers, and what each call does to the tally of network,
// plan and lists. No code of a board is in here; the crate `board` is proved against it.
#![tactic(auto)]

ghost use Rattle.tally.specs.Laws.{Computed, Determined, StaySound};

pub mod answer;
pub mod call;

pub use answer::Answer;
pub use call::Call;

// The tally after a call is computed from the one before it, the call and, after an accepted
// planning, the amounts that reads then answer.
pub fn tallies_are_computed()
    ensures { Computed }
{}

// Two boards with the same tally that get the same call refuse it by the same number or both accept
// it. Where their plans are the same afterwards, so are their tallies and, unless no plan obeys, their
// answers.
pub fn calls_determine_answers()
    ensures { Determined }
{}

// A new tally has one amount for each leg and lists that name nobody twice, and no call changes that.
pub fn tallies_stay_sound()
    ensures { StaySound }
{}
