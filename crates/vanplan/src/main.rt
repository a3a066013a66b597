// vanplan: reads one network text from standard input, plans once and prints the plan.
#![tactic(auto)]

ghost use Rattle.answers.specs.Answered.{Prints};
ghost use Rattle.plan_answers.specs.Printed.{PrintsStated};

use plan_answers::answer_text;
use std::alloc::{AllocError, Global};
use std::io;
use text_program::{TextAnswer, answer_input};

// The best plan on the network that a text states, or the refusal of the reading or of the planning.
// A struct for this program, and no impl for every `NetworkAnswer`: so it prints what `answer_text` promises, in the same word.
struct Vanplan;

impl TextAnswer for Vanplan {
    ghost answers = { Prints PrintsStated };

    fn answer(&self, heap: Global, text: &[u8]) -> Result<String, AllocError> {
        answer_text(heap, text)
    }
}

fn main(rt: HostRuntime) -> io::Result<()> {
    answer_input(rt.alloc(), rt.stdin(), &mut io::writer(&rt), &Vanplan)
}
